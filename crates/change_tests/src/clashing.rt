//! Random batches under a digest under which nodes of one length clash.

use crate::fixtures::{Blocks, Pairs, applied, leaves, tree_of};
use crate::histories::{Numbers, random_batch};
use crate::history::{History, begin};
use crate::plain::change_pairs;
use cid::digests::Size;
use edit::{Change, EditFault};
use scratch::Built;
use std::alloc::Global;

/// Whether one of some blocks has the CID of one of others, and other bytes.
fn clash(some: &Blocks<Size>, others: &Blocks<Size>) -> bool {
    for one in some {
        for other in others {
            if one.cid() == other.cid() && one.bytes() != other.bytes() {
                return true;
            }
        }
    }
    false
}

/// The pairs that these leave when they are changed.
fn pairs_after(alloc: Global, pairs: &Pairs, changes: &[Change<'_>]) -> Option<Pairs> {
    let mut after = Vec::new(alloc);
    for (key, value) in pairs {
        after
            .push((Vec::from_slice(alloc, key).ok()?, *value))
            .ok()?;
    }
    match change_pairs(alloc, &mut after, changes) {
        Ok(_) => Some(after),
        Err(_) => None,
    }
}

/// How a batch ended.
#[derive(Clone, Copy, PartialEq, Eq)]
enum Ended {
    /// With the tree from scratch.
    Edit,
    /// With two nodes that clash, as the trees before and after it have some.
    Clash,
    /// Otherwise.
    Wrong,
}

/// How a batch ends that is to leave this tree, which has no clash with the one before.
fn leaves_tree(
    alloc: Global,
    history: &History<Size>,
    changes: &[Change<'_>],
    tree: &Built<Size>,
) -> Ended {
    let (answer, _) = applied::<Size, 2>(alloc, &history.blocks, history.root, changes);
    match answer {
        Ok(edit) => {
            if leaves(alloc, &history.blocks, &edit, tree) {
                Ended::Edit
            } else {
                Ended::Wrong
            }
        }
        Err(_) => Ended::Wrong,
    }
}

/// How a batch ends where two nodes of the trees before and after it clash: it may not meet both.
fn meets_clash(alloc: Global, history: &History<Size>, changes: &[Change<'_>]) -> Ended {
    let (answer, _) = applied::<Size, 2>(alloc, &history.blocks, history.root, changes);
    match answer {
        Ok(_) | Err(EditFault::Clash(_)) => Ended::Clash,
        Err(_) => Ended::Wrong,
    }
}

/// How a batch ends. Where it leaves a tree without a clash, that takes the place of the one before.
fn end(alloc: Global, history: &mut History<Size>, changes: &[Change<'_>]) -> Ended {
    let Some(pairs) = pairs_after(alloc, &history.pairs, changes) else {
        return Ended::Wrong;
    };
    let Some(tree) = tree_of::<Size, 2>(alloc, &pairs) else {
        return meets_clash(alloc, history, changes);
    };
    if clash(&history.blocks, &tree.blocks) {
        return meets_clash(alloc, history, changes);
    }
    let ended = leaves_tree(alloc, history, changes, &tree);
    history.pairs = pairs;
    history.root = tree.root;
    history.blocks = tree.blocks;
    ended
}

/// How many of so many random batches, one after the other, leave a tree, and how many meet a clash.
fn count(alloc: Global, seed: u64, batches: u32) -> Option<(u32, u32)> {
    let mut numbers = Numbers::of(seed);
    let mut history = begin::<Size, 2>(alloc, Vec::new(alloc))?;
    let mut edits = 0u32;
    let mut clashes = 0u32;
    for _ in 0..batches {
        let changes = random_batch(alloc, &mut numbers, &history.pairs).ok()?;
        match end(alloc, &mut history, &changes) {
            Ended::Edit => edits = edits.saturating_add(1),
            Ended::Clash => clashes = clashes.saturating_add(1),
            Ended::Wrong => return None,
        }
    }
    Some((edits, clashes))
}

#[test]
fn histories_under_a_digest_that_clashes(rt: HostRuntime) {
    let counted = count(rt.alloc(), 7, 200);
    assert!(rt; matches!(counted, Some((edits, clashes)) if edits > 20 && clashes > 20));
}
