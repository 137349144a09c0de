//! Pairs, and the trees of them from scratch.

ghost use Rattle.std.specs.Prelude.{◌≤◌};

use block::Block;
use cid::digests::Toy;
use cid::{Cid, Digest};
use edit::{Edit, EditFault, delete, is_key, put};
use lookups::BlockMap;
use scratch::{Built, build, is_ascending};
use std::alloc::{AllocError, Global};
use std::convert::AsSlice;
use std::sync::Arc;

/// The value of every key, where a test gives none of its own.
pub(crate) fn value() -> Cid {
    Cid::of::<Toy>(b"record")
}

/// The pairs of the tree of five nodes.
pub(crate) fn three_pairs() -> [(&'static [u8], Cid); 3] {
    let value = value();
    [(b"a/p0", value), (b"a/q2", value), (b"a/r0", value)]
}

/// The tree of these pairs from scratch, where it can be built.
pub(crate) fn tree_of<D: Digest, const B: u8, K: AsSlice<u8>>(
    alloc: Global,
    pairs: &[(K, Cid)],
) -> Option<Built<D>>
    requires least { 1 ≤ B }
    requires most { B ≤ 8 }
{
    if !is_ascending(pairs) {
        return None;
    }
    build::<D, B, K, _>(alloc, pairs).ok()
}

/// These keys, each with the same value.
fn pairs_of(alloc: Global, keys: &[&[u8]]) -> Result<Vec<(Vec<u8>, Cid)>, AllocError> {
    let mut pairs = Vec::new(alloc);
    for key in keys {
        pairs.push((Vec::from_slice(alloc, key)?, value()))?;
    }
    Ok(pairs)
}

/// The tree of these keys from scratch, each with the same value, where it can be built.
pub(crate) fn tree<D: Digest>(alloc: Global, keys: &[&[u8]]) -> Option<Built<D>> {
    match pairs_of(alloc, keys) {
        Ok(pairs) => tree_of::<D, 2, _>(alloc, &pairs),
        Err(_) => None,
    }
}

/// Puts a value under a key of the tree of these blocks, or takes the key out where there is none, and tells how many blocks
/// were read for it. Bytes that are no key are answered as if there were no memory.
pub(crate) fn edited<D: Digest, const B: u8>(
    alloc: Global,
    blocks: &[Arc<Block<D>>],
    root: Cid,
    key: &[u8],
    value: Option<Cid>,
) -> (Result<Edit<D>, EditFault<D>>, u64)
    requires least { 1 ≤ B }
    requires most { B ≤ 8 }
{
    let Ok(mut map) = BlockMap::new(alloc, blocks) else {
        return (Err(EditFault::NoMemory), 0);
    };
    let answer = match value {
        Some(value) if is_key(key) => put::<D, B, _, _>(alloc, &mut map, root, key, value),
        Some(_) => Err(EditFault::NoMemory),
        None => delete::<D, B, _, _>(alloc, &mut map, root, key),
    };
    (answer, map.reads())
}

/// The CIDs of some blocks, in their order.
fn cids_of<D: Digest>(alloc: Global, blocks: &[Arc<Block<D>>]) -> Result<Vec<Cid>, AllocError> {
    let mut cids = Vec::new(alloc);
    for block in blocks {
        cids.push(block.cid())?;
    }
    cids.sort()?;
    Ok(cids)
}

/// Whether these are the root and the blocks of a tree, and no others, in any order.
pub(crate) fn are_of<D: Digest>(
    alloc: Global,
    root: Cid,
    blocks: &[Arc<Block<D>>],
    tree: &Built<D>,
) -> bool {
    match (cids_of(alloc, blocks), cids_of(alloc, &tree.blocks)) {
        (Ok(cids), Ok(wanted)) => root == tree.root && cids == wanted,
        _ => false,
    }
}
