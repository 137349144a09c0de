//! A put and a delete of one key, beside the tree from scratch.

use crate::fixtures::{Blocks, KEYS, add_others, leaves, thirty_two_pairs, tree_of, value};
use crate::memory::{Ended, Heap, tree_in};
use crate::plain::{change_pairs, place_of};
use block::Block;
use cid::Cid;
use cid::digests::Toy;
use edit::{BatchEdit, Change, Edit, EditFault, delete, is_key, put};
use lookups::BlockMap;
use refusing::Refusing;
use scratch::Built;
use std::alloc::{AllocError, Allocator, Global};
use std::slice;
use std::sync::Arc;

/// What a put or a delete of one key answers.
type Answer<A> = Result<Edit<Toy, A>, EditFault<Toy, A>>;

/// Does a change of one key, by a put or a delete. A put of what is no key is answered as if the tree lacked it.
fn written<A: Allocator + Clone>(
    alloc: A,
    map: &mut BlockMap<'_, Toy, A>,
    root: Cid,
    change: &Change<'_>,
) -> Answer<A> {
    let Some(value) = change.value else {
        return delete::<Toy, 2, _, _>(alloc, map, root, change.key);
    };
    if !is_key(change.key) {
        return Err(EditFault::NoSuchKey);
    }
    put::<Toy, 2, _, _>(alloc, map, root, change.key, value)
}

/// The same over these blocks, and how many were read for it.
fn written_over(
    alloc: Global,
    blocks: &[Arc<Block<Toy>>],
    root: Cid,
    change: &Change<'_>,
) -> (Answer<Global>, u64) {
    let Ok(mut map) = BlockMap::new(alloc, blocks) else {
        return (Err(EditFault::NoMemory), 0);
    };
    let answer = written(alloc, &mut map, root, change);
    (answer, map.reads())
}

/// A single edit as a batch of one change.
fn as_batch(alloc: Global, edit: Edit<Toy>) -> Result<BatchEdit<Toy>, AllocError> {
    let Edit {
        root,
        add,
        drop,
        previous,
        read,
    } = edit;
    let mut values = Vec::new(alloc);
    values.push(previous)?;
    Ok(BatchEdit {
        root,
        add,
        drop,
        previous: values,
        read,
    })
}

/// Whether the edit is that of a change of this tree of 32 keys: the tree from scratch after it, and what the key had.
fn is_edit(alloc: Global, tree: &Built<Toy>, change: &Change<'_>, edit: Edit<Toy>) -> bool {
    let Some(mut pairs) = thirty_two_pairs(alloc) else {
        return false;
    };
    match (
        change_pairs(alloc, &mut pairs, slice::from_ref(change)),
        as_batch(alloc, edit),
    ) {
        (Ok(previous), Ok(batch)) => {
            batch.previous == previous && leaves_tree_of(alloc, &tree.blocks, &batch, &pairs)
        }
        _ => false,
    }
}

/// Whether the edit leaves the tree of these pairs.
fn leaves_tree_of(
    alloc: Global,
    blocks: &[Arc<Block<Toy>>],
    edit: &BatchEdit<Toy>,
    pairs: &[(Vec<u8>, Cid)],
) -> bool {
    match tree_of::<Toy, 2>(alloc, pairs) {
        Some(after) => leaves(alloc, blocks, edit, &after),
        None => false,
    }
}

/// Whether a change of one key of this tree of 32 is done and right; that a key isn't there is right where it isn't and was
/// to be deleted.
fn is_right(alloc: Global, tree: &Built<Toy>, change: &Change<'_>, answer: Answer<Global>) -> bool {
    match answer {
        Ok(edit) => {
            (change.value.is_some() || edit.previous.is_some())
                && is_edit(alloc, tree, change, edit)
        }
        Err(EditFault::NoSuchKey) => change.value.is_none() && !has_key(alloc, change.key),
        Err(_) => false,
    }
}

/// Whether one of the 32 keys is this.
fn has_key(alloc: Global, key: &[u8]) -> bool {
    match thirty_two_pairs(alloc) {
        Some(pairs) => place_of(&pairs, key).1.is_some(),
        None => false,
    }
}

/// The CID of the block that is missing.
fn missing_of(answer: &Answer<Global>) -> Option<Cid> {
    match answer {
        Err(EditFault::Missing(cid)) => Some(*cid),
        _ => None,
    }
}

/// What the change answers where the block with this CID is missing.
fn written_without(
    alloc: Global,
    tree: &Built<Toy>,
    change: &Change<'_>,
    cid: Cid,
) -> Answer<Global> {
    let mut others: Blocks<Toy> = Vec::new(alloc);
    if add_others(&mut others, &tree.blocks, &[cid]).is_err() {
        return Err(EditFault::NoMemory);
    }
    let (answer, _) = written_over(alloc, &others, tree.root, change);
    answer
}

/// Of how many blocks of the tree the change tells that they are missing, where each in turn is. None where it ends otherwise
/// without a block that it needs.
fn count_missing(alloc: Global, tree: &Built<Toy>, change: &Change) -> Option<u64> {
    let mut count = 0u64;
    for block in &tree.blocks {
        let answer = written_without(alloc, tree, change, block.cid());
        if missing_of(&answer) == Some(block.cid()) {
            count = count.saturating_add(1);
        } else if !is_right(alloc, tree, change, answer) {
            return None;
        }
    }
    Some(count)
}

/// Whether a change of this key is right, and each block that it reads is named where it is missing.
fn is_right_change(alloc: Global, tree: &Built<Toy>, key: &[u8], value: Option<Cid>) -> bool {
    let change = Change { key, value };
    let (answer, reads) = written_over(alloc, &tree.blocks, tree.root, &change);
    is_right(alloc, tree, &change, answer) && count_missing(alloc, tree, &change) == Some(reads)
}

/// The tree of every third key.
fn tree_of_32(alloc: Global) -> Option<Built<Toy>> {
    let pairs = thirty_two_pairs(alloc)?;
    tree_of::<Toy, 2>(alloc, &pairs)
}

/// Whether a put and a delete of one key in four are right, of each layer in turn.
fn are_right(alloc: Global, tree: &Built<Toy>) -> bool {
    for place in 0..24usize {
        let key = KEYS[4 * place + place % 4];
        if !is_right_change(alloc, tree, key, Some(value(2))) {
            return false;
        }
        if !is_right_change(alloc, tree, key, None) {
            return false;
        }
    }
    true
}

/// How a put or a delete ended that answered this.
fn ended_of(answer: Answer<Heap<'_>>) -> Ended {
    match answer {
        Ok(_) => Ended::Done,
        Err(EditFault::NoMemory) => Ended::NoMemory,
        Err(_) => Ended::Otherwise,
    }
}

/// How it ends where this request is refused; none where not all memory is back.
fn end_without<'h>(
    heap: Heap<'h>,
    map: &mut BlockMap<'_, Toy, Heap<'h>>,
    root: Cid,
    change: &Change<'_>,
    request: u64,
) -> Option<Ended> {
    let before = heap.live();
    heap.refuse(request);
    let ended = ended_of(written(heap, map, root, change));
    if heap.live() == before {
        Some(ended)
    } else {
        None
    }
}

/// Whether it ends for want of memory alone, where each request in turn is refused, and is done once that is none of its
/// own.
fn is_done_at_last<'h>(
    heap: Heap<'h>,
    map: &mut BlockMap<'_, Toy, Heap<'h>>,
    root: Cid,
    change: &Change<'_>,
) -> bool {
    for request in 1..9_999u64 {
        match end_without(heap, map, root, change, request) {
            Some(Ended::Done) => return 10 < request && heap.refused() == request - 1,
            Some(Ended::NoMemory) if heap.refused() == request => {}
            _ => return false,
        }
    }
    false
}

/// Whether that is so over this tree, which is kept in such memory.
fn is_done_over<'h>(heap: Heap<'h>, tree: &Built<Toy, Heap<'h>>, value: Option<Cid>) -> bool {
    let change = Change {
        key: KEYS[48],
        value,
    };
    match BlockMap::new(heap, &tree.blocks) {
        Ok(mut map) => is_done_at_last(heap, &mut map, tree.root, &change),
        Err(_) => false,
    }
}

/// Whether that is so over the tree of 32 keys.
fn is_done_without_memory(alloc: Global, value: Option<Cid>) -> bool {
    let heap = Refusing::new(alloc);
    match tree_in(alloc, &heap) {
        Some(tree) => is_done_over(&heap, &tree, value),
        None => false,
    }
}

#[test]
fn a_put_and_a_delete_without_memory(rt: HostRuntime) {
    let is_put = is_done_without_memory(rt.alloc(), Some(value(2)));
    assert!(rt; is_put && is_done_without_memory(rt.alloc(), None));
}

#[test]
fn puts_and_deletes(rt: HostRuntime) {
    let tree = tree_of_32(rt.alloc()).expect(&rt, "a tree");
    assert!(rt; are_right(rt.alloc(), &tree));
}
