//! Look-ups, walks and edits over blocks that are written here, and what no clause says.

use crate::fixtures::{
    Blocks, add, add_node, cid_at, five_nodes, five_nodes_without, node, root_of_five_nodes, value,
};
use block::Block;
use cid::digests::{Clash, Toy};
use cid::{Cid, Digest};
use edit::{Edit, EditFault, delete, is_key, put};
use lookups::{BlockMap, get, walk};
use refusing::Refusing;
use std::alloc::{AllocError, Allocator, Global};
use std::sync::Arc;

/// Whether a look-up gives this value, or none, in so many reads.
fn is_looked_up(
    alloc: Global,
    blocks: &[Arc<Block<Toy>>],
    root: Cid,
    key: &[u8],
    value: Option<Cid>,
    reads: u64,
) -> bool {
    let Ok(mut map) = BlockMap::new(alloc, blocks) else {
        return false;
    };
    let found = get::<Toy, 2, _, _>(&mut map, root, key);
    found == value && map.reads() == reads
}

/// Whether look-ups give the values of two keys, and none of a third one, in so many reads.
fn are_looked_up(alloc: Global, blocks: &[Arc<Block<Toy>>], root: Cid) -> bool {
    is_looked_up(alloc, blocks, root, b"a/q2", Some(value()), 1)
        && is_looked_up(alloc, blocks, root, b"a/p0", Some(value()), 3)
        && is_looked_up(alloc, blocks, root, b"a/p1", None, 3)
}

#[test]
fn look_ups(rt: HostRuntime) {
    let blocks = five_nodes(rt.alloc()).expect(&rt, "the five nodes");
    let root = cid_at(&blocks, Some(4)).expect(&rt, "the top");
    assert!(rt; are_looked_up(rt.alloc(), &blocks, root));
}

/// Whether a look-up of `a/p0` without the block at this place gives none, in so many reads.
fn is_missed(alloc: Global, root: Cid, missing: usize, reads: u64) -> bool {
    match five_nodes_without(alloc, missing) {
        Ok(blocks) => is_looked_up(alloc, &blocks, root, b"a/p0", None, reads),
        Err(_) => false,
    }
}

#[test]
fn look_ups_where_a_block_is_missing(rt: HostRuntime) {
    let root = root_of_five_nodes(rt.alloc()).expect(&rt, "the top");
    // without the node of `a/p0`, and without the top
    assert!(rt; is_missed(rt.alloc(), root, 0, 3) && is_missed(rt.alloc(), root, 4, 1));
}

/// Whether the pairs have these keys in their order, and each the value of every key.
fn have_keys(pairs: &[(Vec<u8>, Cid)], keys: &[&[u8]]) -> bool {
    let mut place = 0usize;
    for key in keys {
        match pairs.get(place) {
            Some((found, cid)) if found.as_slice() == *key && *cid == value() => {}
            _ => return false,
        }
        place = place.saturating_add(1);
    }
    place == pairs.len()
}

/// Whether a walk gives these keys, in so many reads.
fn is_walked(
    alloc: Global,
    blocks: &[Arc<Block<Toy>>],
    root: Cid,
    from: &[u8],
    limit: usize,
    keys: &[&[u8]],
    reads: u64,
) -> bool {
    let Ok(mut map) = BlockMap::new(alloc, blocks) else {
        return false;
    };
    match walk::<Toy, 2, _, _>(alloc, &mut map, root, from, limit) {
        Ok(pairs) => have_keys(&pairs, keys) && map.reads() == reads,
        Err(_) => false,
    }
}

/// From which key on a walk goes, how many pairs it gives at most, their keys, and how many reads that takes.
const WALKS: [(&[u8], usize, &[&[u8]], u64); 9] = [
    (b"a/q", 2, &[b"a/q2", b"a/r0"], 5),
    (b"a/q", 1, &[b"a/q2"], 3),
    (b"a/q2", 1, &[b"a/q2"], 1),
    (b"a/q2", 2, &[b"a/q2", b"a/r0"], 3),
    (b"a/q3", 2, &[b"a/r0"], 3),
    (b"", 9, &[b"a/p0", b"a/q2", b"a/r0"], 5),
    (b"", 1, &[b"a/p0"], 3),
    (b"b", 9, &[], 3),
    (b"", 0, &[], 0),
];

/// Whether each walk goes so.
fn are_walked(alloc: Global, blocks: &[Arc<Block<Toy>>], root: Cid) -> bool {
    for (from, limit, keys, reads) in &WALKS {
        if !is_walked(alloc, blocks, root, from, *limit, keys, *reads) {
            return false;
        }
    }
    true
}

#[test]
fn walks(rt: HostRuntime) {
    let blocks = five_nodes(rt.alloc()).expect(&rt, "the five nodes");
    let root = cid_at(&blocks, Some(4)).expect(&rt, "the top");
    assert!(rt; are_walked(rt.alloc(), &blocks, root));
}

/// Whether a walk of all keys without the block at this place gives these keys, in so many reads.
fn is_walked_without(alloc: Global, root: Cid, missing: usize, keys: &[&[u8]], reads: u64) -> bool {
    match five_nodes_without(alloc, missing) {
        Ok(blocks) => is_walked(alloc, &blocks, root, b"", 9, keys, reads),
        Err(_) => false,
    }
}

#[test]
fn walks_where_a_block_is_missing(rt: HostRuntime) {
    let root = root_of_five_nodes(rt.alloc()).expect(&rt, "the top");
    // without the node of `a/p0`, and without the node of `a/r0`
    let first = is_walked_without(rt.alloc(), root, 0, &[], 3);
    let last = is_walked_without(rt.alloc(), root, 2, &[b"a/p0", b"a/q2"], 5);
    assert!(rt; first && last);
}

/// How an edit ended.
#[derive(Clone, Copy, PartialEq, Eq)]
enum Ended {
    Done,
    Missing,
    BadNode,
    TooDeep,
    NotTree,
    NoSuchKey,
    Clash,
    NoMemory,
}

/// How an edit ended that answered this.
fn end_of<D: Digest, A: Allocator>(edited: Result<Edit<D, A>, EditFault<D, A>>) -> Ended {
    match edited {
        Ok(_) => Ended::Done,
        Err(EditFault::Missing(_)) => Ended::Missing,
        Err(EditFault::BadNode(_)) => Ended::BadNode,
        Err(EditFault::TooDeep) => Ended::TooDeep,
        Err(EditFault::NotTree) => Ended::NotTree,
        Err(EditFault::NoSuchKey) => Ended::NoSuchKey,
        Err(EditFault::Clash(_)) => Ended::Clash,
        Err(EditFault::NoMemory) => Ended::NoMemory,
    }
}

/// How a put of a key ends, which must be one.
fn put_end<D: Digest, A: Allocator + Clone>(
    alloc: A,
    map: &mut BlockMap<'_, D, A>,
    root: Cid,
    key: &[u8],
) -> Option<Ended> {
    if !is_key(key) {
        return None;
    }
    Some(end_of(put::<D, 2, _, _>(alloc, map, root, key, value())))
}

/// How a delete of a key ends.
fn delete_end<D: Digest, A: Allocator + Clone>(
    alloc: A,
    map: &mut BlockMap<'_, D, A>,
    root: Cid,
    key: &[u8],
) -> Ended {
    end_of(delete::<D, 2, _, _>(alloc, map, root, key))
}

/// How many pairs a walk of all keys gives, or none where memory was refused.
fn walk_count<D: Digest, A: Allocator + Clone>(
    alloc: A,
    map: &mut BlockMap<'_, D, A>,
    root: Cid,
) -> Option<usize> {
    match walk::<D, 2, _, _>(alloc, map, root, b"", 9) {
        Ok(pairs) => Some(pairs.len()),
        Err(_) => None,
    }
}

/// A block that is no node, and a node of `a/q2` with a link to it after its key.
fn over_no_node(alloc: Global) -> Result<Blocks<Toy>, AllocError> {
    let mut blocks = Vec::new(alloc);
    add(alloc, &mut blocks, Vec::from_slice(alloc, b"no node")?)?;
    add_node(alloc, &mut blocks, None, b"a/q2", Some(0))?;
    Ok(blocks)
}

/// Whether a put goes by the block that is no node, and so does a delete that would make it the top.
fn edits_find_no_node(alloc: Global, blocks: &[Arc<Block<Toy>>], root: Cid) -> bool {
    let Ok(mut map) = BlockMap::new(alloc, blocks) else {
        return false;
    };
    put_end(alloc, &mut map, root, b"a/r0") == Some(Ended::BadNode)
        && delete_end(alloc, &mut map, root, b"a/q2") == Ended::BadNode
}

/// Whether look-ups, a walk and edits with this root take the block that is no node for none.
fn find_no_node(alloc: Global, blocks: &[Arc<Block<Toy>>], root: Cid, other: Cid) -> bool {
    is_walked(alloc, blocks, root, b"", 9, &[b"a/q2"], 2)
        && is_looked_up(alloc, blocks, root, b"a/r0", None, 2)
        && is_looked_up(alloc, blocks, other, b"a/r0", None, 1)
        && edits_find_no_node(alloc, blocks, root)
}

#[test]
fn a_block_that_is_no_node(rt: HostRuntime) {
    let blocks = over_no_node(rt.alloc()).expect(&rt, "two blocks");
    let other = cid_at(&blocks, Some(0)).expect(&rt, "the block");
    let root = cid_at(&blocks, Some(1)).expect(&rt, "the top");
    assert!(rt; find_no_node(rt.alloc(), &blocks, root, other));
}

/// Whether a look-up and a walk end after 129 reads each, by the only block, a node that links to itself.
fn readers_end_after_all_layers(alloc: Global, map: &mut BlockMap<'_, Clash>, root: Cid) -> bool {
    get::<Clash, 2, _, _>(map, root, b"a/q2").is_none()
        && map.reads() == 129
        && walk_count(alloc, map, root) == Some(0)
        && map.reads() == 258
}

/// Whether a put and a delete, which come then, find the link too deep by that node alone: below a top without keys there is
/// no layer.
fn edits_end_at_once(alloc: Global, map: &mut BlockMap<'_, Clash>, root: Cid) -> bool {
    put_end(alloc, map, root, b"a/q2") == Some(Ended::TooDeep)
        && map.reads() == 259
        && delete_end(alloc, map, root, b"a/q2") == Ended::TooDeep
        && map.reads() == 260
}

/// Whether all four end so.
fn all_end(alloc: Global, blocks: &[Arc<Block<Clash>>], root: Cid) -> bool {
    match BlockMap::new(alloc, blocks) {
        Ok(mut map) => {
            readers_end_after_all_layers(alloc, &mut map, root)
                && edits_end_at_once(alloc, &mut map, root)
        }
        Err(_) => false,
    }
}

/// A node that links to itself: under this digest all blocks have one CID.
fn self_linked(alloc: Global, root: Cid) -> Result<Blocks<Clash>, AllocError> {
    let mut blocks = Vec::new(alloc);
    add(alloc, &mut blocks, node(alloc, Some(root), b"", None)?)?;
    Ok(blocks)
}

#[test]
fn a_node_that_links_to_itself(rt: HostRuntime) {
    let root = Cid::of::<Clash>(b"");
    let blocks = self_linked(rt.alloc(), root).expect(&rt, "a block");
    assert!(rt; all_end(rt.alloc(), &blocks, root));
}

/// Memory that refuses requests, as blocks are kept in it.
type Heap<'h> = &'h Refusing<Global>;

/// What is done over the tree of five nodes.
#[derive(Clone, Copy)]
enum Work {
    Walk,
    Put,
    Delete,
}

/// How the work ended, where it gave what it should.
fn work_end<'h>(
    heap: Heap<'h>,
    map: &mut BlockMap<'_, Toy, Heap<'h>>,
    root: Cid,
    work: Work,
) -> Option<Ended> {
    match work {
        Work::Walk => match walk_count(heap, map, root) {
            Some(3) => Some(Ended::Done),
            Some(_) => None,
            None => Some(Ended::NoMemory),
        },
        Work::Put => put_end(heap, map, root, b"a/q4"),
        Work::Delete => Some(delete_end(heap, map, root, b"a/q2")),
    }
}

/// Whether the work is done, or ends for want of memory alone, where this request is refused; and all memory is back.
fn is_done_or_refused<'h>(
    heap: Heap<'h>,
    map: &mut BlockMap<'_, Toy, Heap<'h>>,
    root: Cid,
    work: Work,
    request: u64,
) -> bool {
    let before = heap.live();
    heap.refuse(request);
    let is_right = match work_end(heap, map, root, work) {
        Some(Ended::Done) => true,
        Some(Ended::NoMemory) => heap.refused() == request,
        _ => false,
    };
    is_right && heap.live() == before
}

/// Whether this holds for each request in turn, the last of which the work doesn't come to. After each the next finds
/// the tree as it was.
fn is_done_at_last<'h>(
    heap: Heap<'h>,
    map: &mut BlockMap<'_, Toy, Heap<'h>>,
    root: Cid,
    work: Work,
    last: u64,
) -> bool {
    for request in 1..=last {
        if !is_done_or_refused(heap, map, root, work, request) {
            return false;
        }
    }
    0 < heap.refused() && heap.refused() < last
}

/// The same over the tree of these five nodes, which are kept in such memory.
fn is_done_over<'h>(
    heap: Heap<'h>,
    blocks: &[Arc<Block<Toy, Heap<'h>>, Heap<'h>>],
    work: Work,
    last: u64,
) -> bool {
    let Some(root) = cid_at(blocks, Some(4)) else {
        return false;
    };
    match BlockMap::new(heap, blocks) {
        Ok(mut map) => is_done_at_last(heap, &mut map, root, work, last),
        Err(_) => false,
    }
}

/// The same over a tree of five nodes that is made for it.
fn is_done_without_memory(alloc: Global, work: Work, last: u64) -> bool {
    let heap = Refusing::new(alloc);
    match five_nodes(&heap) {
        Ok(blocks) => is_done_over(&heap, &blocks, work, last),
        Err(_) => false,
    }
}

/// Whether look-ups over the five nodes give the value of a key and none of another.
fn are_found<A: Allocator>(map: &mut BlockMap<'_, Toy, A>, root: Cid) -> bool {
    get::<Toy, 2, _, _>(map, root, b"a/p0") == Some(value())
        && get::<Toy, 2, _, _>(map, root, b"a/p1").is_none()
}

/// Whether this is so of these five nodes, and no memory is asked for.
fn are_looked_up_without_memory<'h>(
    heap: Heap<'h>,
    blocks: &[Arc<Block<Toy, Heap<'h>>, Heap<'h>>],
) -> bool {
    let Some(root) = cid_at(blocks, Some(4)) else {
        return false;
    };
    let Ok(mut map) = BlockMap::new(heap, blocks) else {
        return false;
    };
    heap.refuse_from(1);
    are_found(&mut map, root) && heap.refused() == 0
}

#[test]
fn look_ups_without_memory(rt: HostRuntime) {
    let heap = Refusing::new(rt.alloc());
    let blocks = five_nodes(&heap).expect(&rt, "the five nodes");
    assert!(rt; are_looked_up_without_memory(&heap, &blocks));
}

#[test]
fn a_walk_without_memory(rt: HostRuntime) {
    assert!(rt; is_done_without_memory(rt.alloc(), Work::Walk, 99));
}

#[test]
fn a_put_without_memory(rt: HostRuntime) {
    assert!(rt; is_done_without_memory(rt.alloc(), Work::Put, 199));
}

#[test]
fn a_delete_without_memory(rt: HostRuntime) {
    assert!(rt; is_done_without_memory(rt.alloc(), Work::Delete, 199));
}
