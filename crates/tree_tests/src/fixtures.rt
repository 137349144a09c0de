//! Blocks for the tests of look-ups, walks and edits.

use block::Block;
use cid::digests::Toy;
use cid::{Cid, CidRef, Digest};
use node::NodeWriter;
use std::alloc::{AllocError, Allocator, Global};
use std::sync::Arc;

pub(crate) type Blocks<D, A = Global> = Vec<Arc<Block<D, A>, A>, A>;

/// The value of every key.
pub(crate) fn value() -> Cid {
    Cid::of::<Toy>(b"record")
}

/// Adds a block of these bytes.
pub(crate) fn add<D: Digest, A: Allocator + Copy>(
    alloc: A,
    blocks: &mut Blocks<D, A>,
    bytes: Vec<u8, A>,
) -> Result<(), AllocError> {
    blocks.push(Arc::new(alloc, Block::of(bytes))?)?;
    Ok(())
}

/// The bytes of a node of this key with the subtrees before and after it, or of none where the key is empty.
pub(crate) fn node<A: Allocator + Copy>(
    alloc: A,
    before: Option<Cid>,
    key: &[u8],
    after: Option<Cid>,
) -> Result<Vec<u8, A>, AllocError> {
    let mut writer = NodeWriter::begin(alloc, before)?;
    if writer.is_next(key) {
        writer.entry(key, CidRef::from(&value()), after)?;
    }
    writer.finish()
}

/// The CID of the block at a place, where there is one.
pub(crate) fn cid_at<D: Digest, A: Allocator>(
    blocks: &[Arc<Block<D, A>, A>],
    place: Option<usize>,
) -> Option<Cid> {
    match blocks.get(place?) {
        Some(block) => Some(block.cid()),
        None => None,
    }
}

/// Adds a node of this key, or of none where it is empty, with the nodes before and after it by their places.
pub(crate) fn add_node<D: Digest, A: Allocator + Copy>(
    alloc: A,
    blocks: &mut Blocks<D, A>,
    before: Option<usize>,
    key: &[u8],
    after: Option<usize>,
) -> Result<(), AllocError> {
    let bytes = node(alloc, cid_at(blocks, before), key, cid_at(blocks, after))?;
    add(alloc, blocks, bytes)
}

/// The place of the node before a key, the key, and the place of the node after it.
type Placed = (Option<usize>, &'static [u8], Option<usize>);

const FIVE_NODES: [Placed; 5] = [
    (None, b"a/p0", None),
    (Some(0), b"", None),
    (None, b"a/r0", None),
    (Some(2), b"", None),
    (Some(1), b"a/q2", Some(3)),
];

/// The tree of the keys `a/p0`, `a/q2` and `a/r0` with two zero bits a layer: five nodes, the top last. The first two
/// are the left subtree's, from its key up.
pub(crate) fn five_nodes<A: Allocator + Copy>(alloc: A) -> Result<Blocks<Toy, A>, AllocError> {
    let mut blocks = Vec::new(alloc);
    for (before, key, after) in &FIVE_NODES {
        add_node(alloc, &mut blocks, *before, key, *after)?;
    }
    Ok(blocks)
}

/// The CID of its top.
pub(crate) fn root_of_five_nodes(alloc: Global) -> Option<Cid> {
    match five_nodes(alloc) {
        Ok(blocks) => cid_at(&blocks, Some(4)),
        Err(_) => None,
    }
}

/// The same tree without the block at a place.
pub(crate) fn five_nodes_without<A: Allocator + Copy>(
    alloc: A,
    missing: usize,
) -> Result<Blocks<Toy, A>, AllocError> {
    let mut blocks = five_nodes(alloc)?;
    if missing < blocks.len() {
        blocks.remove(missing);
    }
    Ok(blocks)
}
