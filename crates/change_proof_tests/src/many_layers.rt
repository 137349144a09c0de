//! A change in a tree of twenty-two layers.

use change_proofs::{KeyChange, are_key_changes, prove_inversion_over, verify_inversion_blocks};
use cid::{Cid, Sha256};
use lookups::BlockMap;
use scratch::{Built, build, is_ascending};
use std::alloc::{AllocError, Global};

/// Keys whose digests begin with 0, 21, 9 and 0 zero bits, as they ascend: with one bit a layer, a tree of 22 layers.
const KEYS: [&[u8]; 4] = [
    b"app.bsky.feed.post/3e85fa",
    b"app.bsky.feed.post/3e85fb",
    b"app.bsky.feed.post/454397e440ec",
    b"app.bsky.feed.post/5",
];

/// The value of every key.
fn value() -> Cid {
    Cid::of::<Sha256>(b"\xa0")
}

/// These keys with the value.
fn pairs_of(alloc: Global, keys: &[&[u8]]) -> Result<Vec<(Vec<u8>, Cid)>, AllocError> {
    let mut pairs = Vec::new(alloc);
    for key in keys {
        pairs.push((Vec::from_slice(alloc, key)?, value()))?;
    }
    Ok(pairs)
}

/// The tree of these keys from scratch.
fn tree_of(alloc: Global, keys: &[&[u8]]) -> Option<Built<Sha256>> {
    let pairs = pairs_of(alloc, keys).ok()?;
    if !is_ascending(&pairs) {
        return None;
    }
    build::<Sha256, 1, Vec<u8>, _>(alloc, &pairs).ok()
}

/// A change that brings this key.
fn come(key: &[u8]) -> KeyChange<'_> {
    KeyChange {
        key,
        before: None,
        after: Some(value()),
    }
}

/// Whether the nodes that prove these changes between two trees show them.
fn is_shown(
    alloc: Global,
    before: &Built<Sha256>,
    after: &Built<Sha256>,
    changes: &[KeyChange<'_>],
) -> bool {
    if !are_key_changes(changes) {
        return false;
    }
    let Ok(mut map) = BlockMap::new(alloc, &after.blocks) else {
        return false;
    };
    match prove_inversion_over::<Sha256, 1, _, _>(alloc, &mut map, after.root, changes) {
        Ok(nodes) => {
            nodes.len() >= 22
                && verify_inversion_blocks::<Sha256, 1, _>(
                    alloc,
                    before.root,
                    after.root,
                    &nodes,
                    changes,
                ).is_ok()
        }
        Err(_) => false,
    }
}

#[test]
fn lowest_keys_of_many_layers_come(rt: HostRuntime) {
    let before = tree_of(rt.alloc(), &KEYS[1..3]).expect(&rt, "a tree");
    let after = tree_of(rt.alloc(), &KEYS).expect(&rt, "a tree");
    assert!(rt; is_shown(rt.alloc(), &before, &after, &[come(KEYS[0]), come(KEYS[3])]));
}
