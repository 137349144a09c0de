//! Trees of many keys, of which each changes.

use crate::fixtures::{Blocks, compared, missing_over};
use block::Block;
use cid::{Cid, Sha256};
use lookups::{BlockMap, Source};
use scratch::{Built, build, is_ascending};
use std::alloc::{AllocError, Global};
use std::sync::Arc;

/// How many keys there are.
const KEYS: u32 = 20_000;

/// The key of a number below 100,000. Keys ascend as their numbers do.
fn key_of(alloc: Global, number: u32) -> Result<Vec<u8>, AllocError> {
    let mut key = Vec::from_slice(alloc, b"app.bsky.feed.post/")?;
    for unit in [10_000u32, 1_000, 100, 10, 1] {
        key.push(b'0' + (number / unit % 10) as u8)?;
    }
    Ok(key)
}

/// The tree of all keys, each with the value of this number.
fn tree(alloc: Global, value: u8) -> Option<Built<Sha256>> {
    let mut pairs = Vec::new(alloc);
    for number in 0..KEYS {
        let key = key_of(alloc, number).ok()?;
        pairs.push((key, Cid::of::<Sha256>(&[value]))).ok()?;
    }
    if !is_ascending(&pairs) {
        return None;
    }
    build::<Sha256, 2, Vec<u8>, Global>(alloc, &pairs).ok()
}

/// Adds blocks to others.
fn add_all(all: &mut Blocks<Sha256>, blocks: &[Arc<Block<Sha256>>]) -> Result<(), AllocError> {
    for block in blocks {
        all.push(Arc::try_clone(block)?)?;
    }
    Ok(())
}

/// Whether each key differs, and each node comes and goes.
fn is_compared(alloc: Global, old: &Built<Sha256>, new: &Built<Sha256>) -> bool {
    let mut blocks = Vec::new(alloc);
    if add_all(&mut blocks, &old.blocks).is_err() || add_all(&mut blocks, &new.blocks).is_err() {
        return false;
    }
    let (answer, _) = compared::<Sha256, 2>(alloc, &blocks, old.root, new.root);
    match answer {
        Ok(found) => {
            found.changes.len() == KEYS as usize
                && found.come.len() == new.blocks.len()
                && found.go.len() == old.blocks.len()
        }
        Err(_) => false,
    }
}

#[test]
fn all_values_of_many_keys(rt: HostRuntime) {
    let old = tree(rt.alloc(), 1).expect(&rt, "a tree");
    let new = tree(rt.alloc(), 2).expect(&rt, "a tree");
    assert!(rt; is_compared(rt.alloc(), &old, &new));
}

/// How many blocks a mirror with the old tree fetches in all, and in the greatest round.
fn fetched(alloc: Global, old: &Built<Sha256>, new: &Built<Sha256>) -> Option<(usize, usize)> {
    let mut others = BlockMap::new(alloc, &new.blocks).ok()?;
    let mut had = Vec::new(alloc);
    add_all(&mut had, &old.blocks).ok()?;
    let (mut whole, mut greatest) = (0usize, 0usize);
    for _ in 0..20u8 {
        let found = missing_over::<Sha256, 2>(alloc, &had, old.root, new.root).ok()?;
        if found.is_empty() {
            return Some((whole, greatest));
        }
        for cid in &found {
            let block = others.get(cid)?;
            had.push(Arc::try_clone(block).ok()?).ok()?;
        }
        whole = whole.saturating_add(found.len());
        if found.len() > greatest {
            greatest = found.len();
        }
    }
    None
}

#[test]
fn many_nodes_are_missing_at_once(rt: HostRuntime) {
    let old = tree(rt.alloc(), 1).expect(&rt, "a tree");
    let new = tree(rt.alloc(), 2).expect(&rt, "a tree");
    let (whole, greatest) = fetched(rt.alloc(), &old, &new).expect(&rt, "some rounds");
    assert!(rt;
        whole == new.blocks.len() && greatest > 3_000,
        "{whole}, {greatest}"
    );
}
