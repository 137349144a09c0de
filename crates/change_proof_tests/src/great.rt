//! Some twenty thousand changes at once, the first of the greatest key.

use crate::fixtures::{built, proved, value, verified};
use change_proofs::KeyChange;
use cid::Cid;
use cid::digests::Toy;
use scratch::Built;
use std::alloc::{AllocError, Global};

/// How many keys come beside the greatest one.
const MORE: u32 = 20_000;

/// The greatest key, before all others.
fn great_key(alloc: Global) -> Result<Vec<u8>, AllocError> {
    let mut key = Vec::from_slice(alloc, b"a/")?;
    key.resize(1024, b'k')?;
    Ok(key)
}

/// The key of a number below 100,000. Keys ascend as their numbers do.
fn key_of(alloc: Global, number: u32) -> Result<Vec<u8>, AllocError> {
    let mut key = Vec::from_slice(alloc, b"b/")?;
    for unit in [10_000u32, 1_000, 100, 10, 1] {
        key.push(b'0' + (number / unit % 10) as u8)?;
    }
    Ok(key)
}

/// All keys with a value.
fn pairs(alloc: Global) -> Result<Vec<(Vec<u8>, Cid)>, AllocError> {
    let mut pairs = Vec::new(alloc);
    pairs.push((great_key(alloc)?, value(1)))?;
    for number in 0..MORE {
        pairs.push((key_of(alloc, number)?, value(1)))?;
    }
    Ok(pairs)
}

/// Each pair as one that comes.
fn changes_of(alloc: Global, pairs: &[(Vec<u8>, Cid)]) -> Result<Vec<KeyChange<'_>>, AllocError> {
    let mut changes = Vec::new(alloc);
    for (key, value) in pairs {
        changes.push(KeyChange {
            key,
            before: None,
            after: Some(*value),
        })?;
    }
    Ok(changes)
}

/// The trees without keys and with all of them.
fn trees(alloc: Global, pairs: &[(Vec<u8>, Cid)]) -> Option<(Built<Toy>, Built<Toy>)> {
    Some((built(alloc, &[])?, built(alloc, pairs)?))
}

/// Whether the nodes of the second tree prove that all keys came, and show it.
fn are_shown(alloc: Global) -> bool {
    let Ok(pairs) = pairs(alloc) else {
        return false;
    };
    let (Some((before, after)), Ok(changes)) = (trees(alloc, &pairs), changes_of(alloc, &pairs))
    else {
        return false;
    };
    match proved(alloc, &after.blocks, after.root, &changes) {
        Ok(nodes) => verified(alloc, before.root, after.root, &nodes, &changes).is_ok(),
        Err(_) => false,
    }
}

#[test]
fn all_keys_come_at_once(rt: HostRuntime) {
    assert!(rt; are_shown(rt.alloc()));
}
