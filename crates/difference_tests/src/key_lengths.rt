//! Keys of many lengths: each is told with its own bytes, whether it has room in a row or not.

use crate::fixtures::{Trees, blocks_without, compared};
use cid::{Cid, Sha256};
use scratch::{Built, build, is_ascending};
use std::alloc::{AllocError, Global};

/// How many keys there are.
const KEYS: u8 = 60;

/// A key of two bytes more than this. Keys ascend as their lengths do.
fn key_of(alloc: Global, length: u8) -> Result<Vec<u8>, AllocError> {
    let mut key = Vec::from_slice(alloc, b"a/")?;
    for _ in 0..length {
        key.push(b'k')?;
    }
    Ok(key)
}

/// The value of a key in the old tree, or in the new one.
fn value_of(number: u8) -> Cid {
    Cid::of::<Sha256>(&[number])
}

/// The tree of all keys, each with the value of this number.
fn tree(alloc: Global, number: u8) -> Option<Built<Sha256>> {
    let mut pairs = Vec::new(alloc);
    for length in 0..KEYS {
        let key = key_of(alloc, length.saturating_add(1)).ok()?;
        pairs.push((key, value_of(number))).ok()?;
    }
    if !is_ascending(&pairs) {
        return None;
    }
    build::<Sha256, 2, Vec<u8>, Global>(alloc, &pairs).ok()
}

/// Whether each key is told, in order, with both values.
fn is_told(alloc: Global, trees: &Trees<Sha256>) -> bool {
    let Ok(blocks) = blocks_without(alloc, trees, value_of(0)) else {
        return false;
    };
    let (answer, _) = compared::<Sha256, 2>(alloc, &blocks, trees.old.root, trees.new.root);
    let Ok(found) = answer else {
        return false;
    };
    let mut length = 0u8;
    for change in &found.changes {
        length = length.saturating_add(1);
        let Ok(key) = key_of(alloc, length) else {
            return false;
        };
        if change.key.as_slice() != key.as_slice()
            || change.before != Some(value_of(1))
            || change.after != Some(value_of(2))
        {
            return false;
        }
    }
    length == KEYS
}

#[test]
fn keys_of_many_lengths(rt: HostRuntime) {
    let old = tree(rt.alloc(), 1).expect(&rt, "a tree");
    let new = tree(rt.alloc(), 2).expect(&rt, "a tree");
    let trees = Trees { old, new };
    assert!(rt; is_told(rt.alloc(), &trees));
}
