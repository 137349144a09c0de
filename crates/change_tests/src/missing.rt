//! Batches over sources that lack blocks of the tree.

use crate::fixtures::{
    Blocks, add_others, applied, have, leaves, thirty_two_pairs, tree_of, twenty_changes,
};
use crate::plain::change_pairs;
use block::Block;
use cid::Cid;
use cid::digests::Toy;
use edit::{BatchEdit, Change, EditFault};
use scratch::Built;
use std::alloc::{AllocError, Global};
use std::sync::Arc;

/// Changes, and the trees before and after them.
#[derive(Drop)]
struct Batch {
    changes: Vec<Change<'static>>,
    before: Built<Toy>,
    after: Built<Toy>,
}

/// Twenty changes of a tree of 32 keys.
fn twenty_of_32(alloc: Global) -> Option<Batch> {
    let mut pairs = thirty_two_pairs(alloc)?;
    let changes = twenty_changes(alloc).ok()?;
    let before = tree_of::<Toy, 2>(alloc, &pairs)?;
    change_pairs(alloc, &mut pairs, &changes).ok()?;
    let after = tree_of::<Toy, 2>(alloc, &pairs)?;
    Some(Batch {
        changes,
        before,
        after,
    })
}

/// What a batch answers.
type Answer = Result<BatchEdit<Toy>, EditFault<Toy>>;

/// Whether the batch is done and right.
fn is_right(alloc: Global, batch: &Batch, answer: &Answer) -> bool {
    match answer {
        Ok(edit) => leaves(alloc, &batch.before.blocks, edit, &batch.after),
        Err(_) => false,
    }
}

/// The CID of the block that is missing.
fn missing_of(answer: &Answer) -> Option<Cid> {
    match answer {
        Err(EditFault::Missing(cid)) => Some(*cid),
        _ => None,
    }
}

/// Whether the batch ends for want of the block with this CID, or doesn't need it and is right.
fn is_right_without(alloc: Global, batch: &Batch, cid: Cid) -> bool {
    let mut others = Vec::new(alloc);
    if add_others(&mut others, &batch.before.blocks, &[cid]).is_err() {
        return false;
    }
    let (answer, _) = applied::<Toy, 2>(alloc, &others, batch.before.root, &batch.changes);
    is_right(alloc, batch, &answer) || missing_of(&answer) == Some(cid)
}

/// Whether that is so of each block of the tree.
fn is_right_without_each(alloc: Global, batch: &Batch) -> bool {
    for block in &batch.before.blocks {
        if !is_right_without(alloc, batch, block.cid()) {
            return false;
        }
    }
    true
}

#[test]
fn sources_that_lack_one_block(rt: HostRuntime) {
    let batch = twenty_of_32(rt.alloc()).expect(&rt, "a batch");
    assert!(rt; is_right_without_each(rt.alloc(), &batch));
}

/// Adds the block with this CID, of which there is none so far, and answers whether the tree has it.
fn add_block(
    blocks: &mut Blocks<Toy>,
    tree: &[Arc<Block<Toy>>],
    cid: Cid,
) -> Result<bool, AllocError> {
    if have(blocks, &cid) {
        return Ok(false);
    }
    for block in tree {
        if block.cid() == cid {
            blocks.push(Arc::try_clone(block)?)?;
            return Ok(true);
        }
    }
    Ok(false)
}

/// Whether the batch ends at last, over a source that has no block at first and is given each that it lacks: with as many
/// reads as blocks were given.
fn is_done_at_last(alloc: Global, batch: &Batch) -> bool {
    let mut blocks = Vec::new(alloc);
    for _ in 0..=batch.before.blocks.len() {
        let (answer, reads) = applied::<Toy, 2>(alloc, &blocks, batch.before.root, &batch.changes);
        if is_right(alloc, batch, &answer) {
            return reads == blocks.len() as u64;
        }
        let Some(cid) = missing_of(&answer) else {
            return false;
        };
        if add_block(&mut blocks, &batch.before.blocks, cid) != Ok(true) {
            return false;
        }
    }
    false
}

#[test]
fn a_source_that_is_given_what_it_lacks(rt: HostRuntime) {
    let batch = twenty_of_32(rt.alloc()).expect(&rt, "a batch");
    assert!(rt; is_done_at_last(rt.alloc(), &batch));
}
