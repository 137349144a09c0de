//! Keys of high layers, which come into a tree and go again in one batch.

ghost use Rattle.std.specs.Prelude.{◌≤◌};

use crate::fixtures::{Pairs, value};
use crate::history::begin;
use cid::{Cid, Sha256};
use edit::Change;
use std::alloc::{AllocError, Global};

/// Keys whose digests begin with 0, 21, 9 and 3 zero bits, as they ascend: with one bit a layer, a tree of 22 layers.
const KEYS: [&[u8]; 4] = [
    b"2653ae71",
    b"app.bsky.feed.post/3e85fb",
    b"app.bsky.feed.post/454397e440ec",
    b"blue",
];

/// Which of the keys are in a tree.
type Chosen = [bool; 4];

/// All choices.
const CHOICES: [Chosen; 16] = [
    [false, false, false, false],
    [false, false, false, true],
    [false, false, true, false],
    [false, false, true, true],
    [false, true, false, false],
    [false, true, false, true],
    [false, true, true, false],
    [false, true, true, true],
    [true, false, false, false],
    [true, false, false, true],
    [true, false, true, false],
    [true, false, true, true],
    [true, true, false, false],
    [true, true, false, true],
    [true, true, true, false],
    [true, true, true, true],
];

/// The pairs of the chosen keys.
fn pairs_of(alloc: Global, chosen: &Chosen) -> Result<Pairs, AllocError> {
    let mut pairs = Vec::new(alloc);
    for place in 0..4usize {
        if chosen[place] {
            pairs.push((Vec::from_slice(alloc, KEYS[place])?, value(1)))?;
        }
    }
    Ok(pairs)
}

/// What the key at a place is to have: the chosen ones a value, the others none.
fn value_for(chosen: bool) -> Option<Cid> {
    if chosen { Some(value(1)) } else { None }
}

/// The changes after which the chosen keys are in the tree, and no others.
fn changes_to(alloc: Global, chosen: &Chosen) -> Result<Vec<Change<'static>>, AllocError> {
    let mut changes = Vec::new(alloc);
    for place in 0..4usize {
        changes.push(Change {
            key: KEYS[place],
            value: value_for(chosen[place]),
        })?;
    }
    Ok(changes)
}

/// Whether a batch leads from the tree of some of the keys to that of others.
fn leads<const B: u8>(alloc: Global, from: &Chosen, to: &Chosen) -> bool
    requires least { 1 ≤ B }
    requires most { B ≤ 8 }
{
    let (Ok(pairs), Ok(changes)) = (pairs_of(alloc, from), changes_to(alloc, to)) else {
        return false;
    };
    match begin::<Sha256, B>(alloc, pairs) {
        Some(mut history) => history.batch::<B>(alloc, &changes),
        None => false,
    }
}

/// Whether batches lead from the tree of some of the keys to that of any others.
fn leads_to_each<const B: u8>(alloc: Global, from: &Chosen) -> bool
    requires least { 1 ≤ B }
    requires most { B ≤ 8 }
{
    for to in &CHOICES {
        if !leads::<B>(alloc, from, to) {
            return false;
        }
    }
    true
}

#[test]
fn keys_of_high_layers(rt: HostRuntime) {
    for from in &CHOICES {
        assert!(rt; leads_to_each::<1>(rt.alloc(), from) && leads_to_each::<2>(rt.alloc(), from));
    }
}
