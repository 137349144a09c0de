//! A batch where memory is refused.

use crate::fixtures::{thirty_two_pairs, tree_of, twenty_changes};
use crate::plain::change_pairs;
use cid::digests::Toy;
use cid::{Cid, Digest};
use edit::{BatchEdit, Change, EditFault, apply, are_changes};
use lookups::BlockMap;
use refusing::Refusing;
use scratch::{Built, build, is_ascending};
use std::alloc::{Allocator, Global};

/// Memory that refuses requests, as blocks are kept in it.
pub(crate) type Heap<'h> = &'h Refusing<Global>;

/// How a batch ended.
#[derive(Clone, Copy, PartialEq, Eq)]
pub(crate) enum Ended {
    Done,
    NoMemory,
    Otherwise,
}

/// How a batch ended that answered this, and should leave this root.
fn ended_of<D: Digest, A: Allocator>(
    answer: Result<BatchEdit<D, A>, EditFault<D, A>>,
    after: Cid,
) -> Ended {
    match answer {
        Ok(edit) => {
            if edit.root == after {
                Ended::Done
            } else {
                Ended::Otherwise
            }
        }
        Err(EditFault::NoMemory) => Ended::NoMemory,
        Err(_) => Ended::Otherwise,
    }
}

/// How a batch over these blocks ends.
fn batch_end<D: Digest, A: Allocator + Clone>(
    alloc: A,
    map: &mut BlockMap<'_, D, A>,
    root: Cid,
    changes: &[Change<'_>],
    after: Cid,
) -> Ended {
    if !are_changes(changes) {
        return Ended::Otherwise;
    }
    ended_of(apply::<D, 2, _, _>(alloc, map, root, changes), after)
}

/// How the batch ends where this request is refused; none where not all memory is back.
fn end_without<'h>(
    heap: Heap<'h>,
    map: &mut BlockMap<'_, Toy, Heap<'h>>,
    root: Cid,
    changes: &[Change<'_>],
    after: Cid,
    request: u64,
) -> Option<Ended> {
    let before = heap.live();
    heap.refuse(request);
    let ended = batch_end(heap, map, root, changes, after);
    if heap.live() == before {
        Some(ended)
    } else {
        None
    }
}

/// Whether the batch ends for want of memory alone, where each request in turn is refused, and is done once that is none
/// of its own.
fn is_done_at_last<'h>(
    heap: Heap<'h>,
    map: &mut BlockMap<'_, Toy, Heap<'h>>,
    root: Cid,
    changes: &[Change<'_>],
    after: Cid,
) -> bool {
    for request in 1..9_999u64 {
        match end_without(heap, map, root, changes, after, request) {
            Some(Ended::Done) => return 100 < request && heap.refused() == request - 1,
            Some(Ended::NoMemory) if heap.refused() == request => {}
            _ => return false,
        }
    }
    false
}

/// The same over this tree, which is kept in such memory.
fn is_done_over<'h>(heap: Heap<'h>, tree: &Built<Toy, Heap<'h>>, after: Cid) -> bool {
    let Ok(changes) = twenty_changes(heap) else {
        return false;
    };
    match BlockMap::new(heap, &tree.blocks) {
        Ok(mut map) => is_done_at_last(heap, &mut map, tree.root, &changes, after),
        Err(_) => false,
    }
}

/// The tree of 32 keys in such memory.
pub(crate) fn tree_in<'h>(alloc: Global, heap: Heap<'h>) -> Option<Built<Toy, Heap<'h>>> {
    let pairs = thirty_two_pairs(alloc)?;
    if !is_ascending(&pairs) {
        return None;
    }
    build::<Toy, 2, Vec<u8>, _>(heap, &pairs).ok()
}

/// The root after the twenty changes.
fn root_after(alloc: Global) -> Option<Cid> {
    let mut pairs = thirty_two_pairs(alloc)?;
    let changes = twenty_changes(alloc).ok()?;
    change_pairs(alloc, &mut pairs, &changes).ok()?;
    Some(tree_of::<Toy, 2>(alloc, &pairs)?.root)
}

/// Whether all of this holds of the tree of 32 keys.
fn is_done_without_memory(alloc: Global) -> bool {
    let heap = Refusing::new(alloc);
    match (tree_in(alloc, &heap), root_after(alloc)) {
        (Some(tree), Some(after)) => is_done_over(&heap, &tree, after),
        _ => false,
    }
}

#[test]
fn a_batch_without_memory(rt: HostRuntime) {
    assert!(rt; is_done_without_memory(rt.alloc()));
}
