//! Mirrors that fetch what is missing, a layer a round.

use crate::fixtures::{Blocks, Known, Trees, compared, missing_over, trees_of};
use crate::layered::Layered;
use crate::plain::is_difference_of;
use crate::random::{Numbers, random_keys};
use block::Block;
use cid::Cid;
use cid::digests::Toy;
use std::alloc::{AllocError, Global};
use std::sync::Arc;

/// Those of some blocks for which a number is below this one.
fn add_some(
    had: &mut Blocks<Toy>,
    blocks: &[Arc<Block<Toy>>],
    numbers: &mut Numbers,
    often: u8,
) -> Result<(), AllocError> {
    for block in blocks {
        if numbers.next() < often {
            had.push(Arc::try_clone(block)?)?;
        }
    }
    Ok(())
}

/// The blocks of some that have these CIDs.
fn fetch(
    had: &mut Blocks<Toy>,
    blocks: &[Arc<Block<Toy>>],
    cids: &[Cid],
) -> Result<(), AllocError> {
    for block in blocks {
        if cids.contains(&block.cid()) {
            had.push(Arc::try_clone(block)?)?;
        }
    }
    Ok(())
}

/// One round: whether something was missing, which came; `None` where the list isn't that of the plain count.
fn round(
    alloc: Global,
    trees: &Trees<Toy>,
    layered: &Layered,
    had: &mut Blocks<Toy>,
) -> Option<bool> {
    let found = missing_over::<Toy, 2>(alloc, had, trees.old.root, trees.new.root).ok()?;
    let lacked = layered.lacked(alloc, trees, had).ok()?;
    if found.as_slice() != lacked.as_slice() {
        return None;
    }
    fetch(had, &trees.old.blocks, &found).ok()?;
    fetch(had, &trees.new.blocks, &found).ok()?;
    Some(!found.is_empty())
}

/// Whether a mirror with these blocks has what a comparison needs after as many rounds as there are layers.
fn is_fetched(alloc: Global, all: &[Known], trees: &Trees<Toy>, mut had: Blocks<Toy>) -> bool {
    let Ok(layered) = Layered::of(alloc, all, trees) else {
        return false;
    };
    for _ in 0..layered.layers() {
        if round(alloc, trees, &layered, &mut had).is_none() {
            return false;
        }
    }
    if round(alloc, trees, &layered, &mut had) != Some(false) {
        return false;
    }
    let (answer, reads) = compared::<Toy, 2>(alloc, &had, trees.old.root, trees.new.root);
    match answer {
        Ok(found) => is_difference_of(&found, reads, all, trees),
        Err(_) => false,
    }
}

/// Whether it is so from some blocks of both trees on: of the old one and of the new one, those for which a number is below
/// these.
fn is_right(alloc: Global, numbers: &mut Numbers, often: u8, old: u8, new: u8) -> bool {
    let Ok(all) = random_keys(alloc, numbers, 200, often) else {
        return false;
    };
    let Some(trees) = trees_of::<Toy, 2>(alloc, &all) else {
        return false;
    };
    let mut had = Vec::new(alloc);
    if add_some(&mut had, &trees.old.blocks, numbers, old).is_err()
        || add_some(&mut had, &trees.new.blocks, numbers, new).is_err()
        || trees.old.root == trees.new.root
    {
        return false;
    }
    is_fetched(alloc, &all, &trees, had)
}

/// Whether it is so for some trees.
fn are_right(alloc: Global, seed: u64, old: u8, new: u8) -> bool {
    let mut numbers = Numbers::of(seed);
    for turn in 0..8u8 {
        let often = [8, 20, 60, 255][usize::from(turn % 4)];
        if !is_right(alloc, &mut numbers, often, old, new) {
            return false;
        }
    }
    true
}

#[test]
fn some_blocks(rt: HostRuntime) {
    assert!(rt;
        are_right(rt.alloc(), 7_310_001, 230, 230)
            && are_right(rt.alloc(), 7_310_003, 128, 128)
            && are_right(rt.alloc(), 7_310_005, 60, 200)
    );
}

#[test]
fn no_block(rt: HostRuntime) {
    assert!(rt; are_right(rt.alloc(), 7_310_007, 0, 0));
}

#[test]
fn the_old_tree_alone(rt: HostRuntime) {
    assert!(rt; are_right(rt.alloc(), 7_310_009, 255, 0));
}
