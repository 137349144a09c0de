//! What the difference of two trees is, plainly: by lists of the keys and of the blocks of both.

use crate::fixtures::{Known, Trees, key_at, value_of};
use block::Block;
use cid::{Cid, Digest};
use difference::{Difference, KeyDifference};
use std::sync::Arc;

/// Whether a change is that of a key.
fn is_change_of(change: &KeyDifference, known: &Known) -> bool {
    change.key.as_slice() == key_at(known.place)
        && change.before == value_of(known.before)
        && change.after == value_of(known.after)
}

/// Whether the changes are just those of the keys whose values differ, in order.
fn are_changes_of(changes: &[KeyDifference], all: &[Known]) -> bool {
    let mut rest = changes;
    for known in all {
        if known.before == known.after {
            continue;
        }
        let [change, later @ ..] = rest else {
            return false;
        };
        if !is_change_of(change, known) {
            return false;
        }
        rest = later;
    }
    rest.is_empty()
}

/// Whether a block is among these.
pub(crate) fn has<D: Digest>(blocks: &[Arc<Block<D>>], cid: Cid) -> bool {
    for block in blocks {
        if block.cid() == cid {
            return true;
        }
    }
    false
}

/// How many of the blocks aren't among the others.
fn count_others<D: Digest>(blocks: &[Arc<Block<D>>], others: &[Arc<Block<D>>]) -> usize {
    let mut left = blocks.len();
    for block in blocks {
        if has(others, block.cid()) && left > 0 {
            left -= 1;
        }
    }
    left
}

/// Whether the nodes that come are those of the new tree that the old one lacks, each once.
fn is_come<D: Digest>(come: &[Arc<Block<D>>], trees: &Trees<D>) -> bool {
    for place in 0..come.len() {
        let cid = come[place].cid();
        if !has(&trees.new.blocks, cid) || has(&trees.old.blocks, cid) {
            return false;
        }
        if has(&come[place + 1..], cid) {
            return false;
        }
    }
    come.len() == count_others(&trees.new.blocks, &trees.old.blocks)
}

/// Whether the nodes that go are those of the old tree that the new one lacks, each once.
fn is_go<D: Digest>(go: &[Cid], trees: &Trees<D>) -> bool {
    for place in 0..go.len() {
        let cid = go[place];
        if !has(&trees.old.blocks, cid) || has(&trees.new.blocks, cid) {
            return false;
        }
        if go[place + 1..].contains(&cid) {
            return false;
        }
    }
    go.len() == count_others(&trees.old.blocks, &trees.new.blocks)
}

/// How many blocks a comparison reads: those that come and go, and a root that the other tree has; none where the roots are
/// equal.
fn reads_of<D: Digest>(found: &Difference<D>, trees: &Trees<D>) -> u64 {
    if trees.old.root == trees.new.root {
        return 0;
    }
    (found.come.len().max(1) as u64).saturating_add(found.go.len().max(1) as u64)
}

/// Whether the nodes that come and go are those that one tree alone has, after so many reads.
pub(crate) fn are_nodes_of<D: Digest>(found: &Difference<D>, reads: u64, trees: &Trees<D>) -> bool {
    is_come(&found.come, trees) && is_go(&found.go, trees) && reads == reads_of(found, trees)
}

/// Whether this is the difference of two trees, after so many reads.
pub(crate) fn is_difference_of<D: Digest>(
    found: &Difference<D>,
    reads: u64,
    all: &[Known],
    trees: &Trees<D>,
) -> bool {
    are_changes_of(&found.changes, all) && are_nodes_of(found, reads, trees)
}
