//! Some twenty thousand keys changed by one batch.

use crate::fixtures::{Pairs, value};
use crate::history::begin;
use cid::{Cid, Sha256};
use edit::Change;
use std::alloc::{AllocError, Global};

/// How many keys there are.
const KEYS: usize = 21_000;

/// The key of a number below 100,000. Keys ascend as their numbers do.
fn key_of(alloc: Global, number: usize) -> Result<Vec<u8>, AllocError> {
    let mut key = Vec::from_slice(alloc, b"app.bsky.feed.post/")?;
    for unit in [10_000usize, 1_000, 100, 10, 1] {
        key.push(b'0' + (number / unit % 10) as u8)?;
    }
    Ok(key)
}

/// The pairs of the even numbers.
fn pairs_of_even(alloc: Global) -> Result<Pairs, AllocError> {
    let mut pairs = Vec::new(alloc);
    for number in 0..KEYS / 2 {
        pairs.push((key_of(alloc, 2 * number)?, value(1)))?;
    }
    Ok(pairs)
}

/// What the key of a number is to have: in each four numbers a key of the tree goes, one gets another value, and two new ones
/// come.
fn value_for(number: usize) -> Option<Cid> {
    match number % 4 {
        0 => None,
        place => Some(value(place as u8)),
    }
}

/// The keys of all numbers.
fn all_keys(alloc: Global) -> Result<Vec<Vec<u8>>, AllocError> {
    let mut keys = Vec::new(alloc);
    for number in 0..KEYS {
        keys.push(key_of(alloc, number)?)?;
    }
    Ok(keys)
}

/// A change for each key.
fn changes_of(alloc: Global, keys: &[Vec<u8>]) -> Result<Vec<Change<'_>>, AllocError> {
    let mut changes = Vec::new(alloc);
    for (number, key) in keys.iter().enumerate() {
        let value = value_for(number);
        changes.push(Change { key, value })?;
    }
    Ok(changes)
}

/// The same keys taken away.
fn deletes_of(alloc: Global, keys: &[Vec<u8>]) -> Result<Vec<Change<'_>>, AllocError> {
    let mut changes = Vec::new(alloc);
    for key in keys {
        changes.push(Change { key, value: None })?;
    }
    Ok(changes)
}

/// Whether a batch that changes all keys, and then one that takes all away, leave the trees from scratch.
fn agrees(alloc: Global, keys: &[Vec<u8>]) -> bool {
    let (Ok(pairs), Ok(changes), Ok(deletes)) = (
        pairs_of_even(alloc),
        changes_of(alloc, keys),
        deletes_of(alloc, keys),
    ) else {
        return false;
    };
    match begin::<Sha256, 2>(alloc, pairs) {
        Some(mut history) => {
            history.batch::<2>(alloc, &changes) && history.batch::<2>(alloc, &deletes)
        }
        None => false,
    }
}

#[test]
fn all_keys_changed_at_once(rt: HostRuntime) {
    let keys = all_keys(rt.alloc()).expect(&rt, "keys");
    assert!(rt; agrees(rt.alloc(), &keys));
}
