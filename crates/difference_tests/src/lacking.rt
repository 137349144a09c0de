//! Comparisons over sources that lack a block.

use crate::fixtures::{Trees, blocks_without, compared, trees_of};
use crate::plain::has;
use crate::random::{Numbers, random_keys};
use block::Block;
use cid::Cid;
use cid::digests::Toy;
use difference::{Difference, DifferenceFault};
use std::alloc::Global;
use std::sync::Arc;

/// Whether a comparison asks for this block: a root, or a node that only one tree has.
fn is_read(trees: &Trees<Toy>, cid: Cid) -> bool {
    cid == trees.old.root
        || cid == trees.new.root
        || has(&trees.old.blocks, cid) != has(&trees.new.blocks, cid)
}

/// The CID of the block that is missing.
fn missing_of(answer: &Result<Difference<Toy>, DifferenceFault>) -> Option<Cid> {
    match answer {
        Err(DifferenceFault::BlockMissing(cid)) => Some(*cid),
        _ => None,
    }
}

/// Whether the comparison is done without a block that it doesn't read, and else names it.
fn is_right_without(alloc: Global, trees: &Trees<Toy>, cid: Cid) -> bool {
    let Ok(blocks) = blocks_without(alloc, trees, cid) else {
        return false;
    };
    let (answer, _) = compared::<Toy, 2>(alloc, &blocks, trees.old.root, trees.new.root);
    match missing_of(&answer) {
        Some(missing) => missing == cid && is_read(trees, cid),
        None => answer.is_ok() && !is_read(trees, cid),
    }
}

/// Whether it is so without each of these blocks in turn.
fn is_right_without_each(alloc: Global, trees: &Trees<Toy>, blocks: &[Arc<Block<Toy>>]) -> bool {
    for block in blocks {
        if !is_right_without(alloc, trees, block.cid()) {
            return false;
        }
    }
    true
}

/// Whether a comparison names each block that it needs where the source lacks it.
fn is_right_lacking(alloc: Global, seed: u64, often: u8) -> bool {
    let Ok(all) = random_keys(alloc, &mut Numbers::of(seed), 200, often) else {
        return false;
    };
    let Some(trees) = trees_of::<Toy, 2>(alloc, &all) else {
        return false;
    };
    trees.old.root != trees.new.root
        && is_right_without_each(alloc, &trees, &trees.old.blocks)
        && is_right_without_each(alloc, &trees, &trees.new.blocks)
}

#[test]
fn each_block_missing(rt: HostRuntime) {
    assert!(rt;
        is_right_lacking(rt.alloc(), 7_220_001, 8)
            && is_right_lacking(rt.alloc(), 7_220_003, 60)
            && is_right_lacking(rt.alloc(), 7_220_005, 255)
    );
}
