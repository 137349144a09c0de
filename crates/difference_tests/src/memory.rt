//! Comparisons where memory is refused.

use crate::fixtures::{Pairs, key_at, value};
use block::Block;
use cid::digests::Toy;
use cid::{Cid, Digest};
use difference::{DifferenceFault, difference, missing};
use lookups::BlockMap;
use refusing::Refusing;
use scratch::{Built, build, is_ascending};
use std::alloc::{AllocError, Allocator, Global};
use std::sync::Arc;

/// Memory that refuses requests, as blocks are kept in it.
type Heap<'h> = &'h Refusing<Global>;

/// How many keys are in one tree or in both; each has another value in either.
const CHANGES: usize = 64;

/// What is asked of two trees.
#[derive(Clone, Copy)]
enum Asked {
    Difference,
    Missing,
}

/// How a call ended.
#[derive(Clone, Copy, PartialEq, Eq)]
enum Ended {
    Done,
    NoMemory,
    Otherwise,
}

/// How a comparison over these blocks ends.
fn difference_end<D: Digest, A: Allocator + Clone>(
    alloc: A,
    map: &mut BlockMap<'_, D, A>,
    old: Cid,
    new: Cid,
) -> Ended {
    match difference::<D, 2, _, _>(alloc, map, old, new) {
        Ok(found) => {
            if found.changes.len() == CHANGES {
                Ended::Done
            } else {
                Ended::Otherwise
            }
        }
        Err(DifferenceFault::NoMemory) => Ended::NoMemory,
        Err(_) => Ended::Otherwise,
    }
}

/// How it ends to ask what is missing of these blocks, which have both trees.
fn missing_end<D: Digest, A: Allocator + Clone>(
    alloc: A,
    map: &mut BlockMap<'_, D, A>,
    old: Cid,
    new: Cid,
) -> Ended {
    match missing::<D, 2, _, _>(alloc, map, old, new) {
        Ok(cids) => {
            if cids.is_empty() {
                Ended::Done
            } else {
                Ended::Otherwise
            }
        }
        Err(DifferenceFault::NoMemory) => Ended::NoMemory,
        Err(_) => Ended::Otherwise,
    }
}

/// How a call ends where this request is refused; none where not all memory is back.
fn end_without<'h>(
    heap: Heap<'h>,
    map: &mut BlockMap<'_, Toy, Heap<'h>>,
    roots: &[Cid; 2],
    asked: Asked,
    request: u64,
) -> Option<Ended> {
    let [old, new] = *roots;
    let before = heap.live();
    heap.refuse(request);
    let ended = match asked {
        Asked::Difference => difference_end(heap, map, old, new),
        Asked::Missing => missing_end(heap, map, old, new),
    };
    if heap.live() == before {
        Some(ended)
    } else {
        None
    }
}

/// Whether a call ends for want of memory alone, where each request in turn is refused, and is done once that is none of its
/// own.
fn is_done_at_last<'h>(
    heap: Heap<'h>,
    map: &mut BlockMap<'_, Toy, Heap<'h>>,
    roots: &[Cid; 2],
    asked: Asked,
) -> bool {
    for request in 1..9_999u64 {
        match end_without(heap, map, roots, asked, request) {
            Some(Ended::Done) => return 40 < request && heap.refused() == request - 1,
            Some(Ended::NoMemory) if heap.refused() == request => {}
            _ => return false,
        }
    }
    false
}

/// The pairs of every third key, or of every second, with values of their own.
fn pairs_of(alloc: Global, is_old: bool) -> Result<Pairs, AllocError> {
    let (step, number) = if is_old { (3u8, 1) } else { (2, 2) };
    let mut pairs = Vec::new(alloc);
    for place in 0..96u8 {
        if place % step == 0 {
            pairs.push((Vec::from_slice(alloc, key_at(place))?, value(number)))?;
        }
    }
    Ok(pairs)
}

/// The tree of these pairs in such memory.
fn tree_in<'h>(alloc: Global, heap: Heap<'h>, is_old: bool) -> Option<Built<Toy, Heap<'h>>> {
    let pairs = pairs_of(alloc, is_old).ok()?;
    if !is_ascending(&pairs) {
        return None;
    }
    build::<Toy, 2, Vec<u8>, _>(heap, &pairs).ok()
}

/// Adds blocks to others.
fn add_all<D: Digest, A: Allocator>(
    all: &mut Vec<Arc<Block<D, A>, A>, A>,
    blocks: &[Arc<Block<D, A>, A>],
) -> Result<(), AllocError> {
    for block in blocks {
        all.push(Arc::try_clone(block)?)?;
    }
    Ok(())
}

/// Whether all of this holds of two trees in this memory.
fn is_done_over<'h>(
    heap: Heap<'h>,
    old: &Built<Toy, Heap<'h>>,
    new: &Built<Toy, Heap<'h>>,
    asked: Asked,
) -> bool {
    let mut blocks = Vec::new(heap);
    if add_all(&mut blocks, &old.blocks).is_err() || add_all(&mut blocks, &new.blocks).is_err() {
        return false;
    }
    match BlockMap::new(heap, &blocks) {
        Ok(mut map) => is_done_at_last(heap, &mut map, &[old.root, new.root], asked),
        Err(_) => false,
    }
}

/// Whether all of this holds of the two trees.
fn is_done_without_memory(alloc: Global, asked: Asked) -> bool {
    let heap = Refusing::new(alloc);
    match (tree_in(alloc, &heap, true), tree_in(alloc, &heap, false)) {
        (Some(old), Some(new)) => is_done_over(&heap, &old, &new, asked),
        _ => false,
    }
}

#[test]
fn a_difference_without_memory(rt: HostRuntime) {
    assert!(rt; is_done_without_memory(rt.alloc(), Asked::Difference));
}

#[test]
fn what_is_missing_without_memory(rt: HostRuntime) {
    assert!(rt; is_done_without_memory(rt.alloc(), Asked::Missing));
}
