//! The tree by its definition, plain and slow, for tests to compare with: the pairs of each layer cut the others into
//! groups, and each group has a node of the layer below.

use block::Block;
use cid::{Cid, CidRef, Digest, layer};
use node::NodeWriter;
use std::alloc::{AllocError, Global};

/// A key and its value.
pub type Pair = (Vec<u8>, Cid);

/// The blocks of the node of layer `n`, base 4, its own first.
pub fn nodes<D: Digest>(
    alloc: Global,
    n: u16,
    pairs: &[Pair],
) -> Result<Vec<Block<D>>, AllocError> {
    let mut blocks = Vec::new(alloc);
    node::<D>(alloc, n, pairs, &mut blocks)?;
    Ok(blocks)
}

/// Adds them, and answers the node's CID.
#[cycle(plain)]
fn node<D: Digest>(
    alloc: Global,
    n: u16,
    pairs: &[Pair],
    blocks: &mut Vec<Block<D>>,
) -> Result<Cid, AllocError> {
    let place = blocks.len();
    let (first, mut rest) = cut::<D>(n, pairs);
    let mut writer = NodeWriter::begin(alloc, part::<D>(alloc, n, first, blocks)?)?;
    for _ in 0..pairs.len() {
        let [pair, others @ ..] = rest else {
            break;
        };
        let (group, behind) = cut::<D>(n, others);
        let link = part::<D>(alloc, n, group, blocks)?;
        add_entry(&mut writer, pair, link)?;
        rest = behind;
    }
    put_at(blocks, place, Block::of(writer.finish()?))
}

/// Adds the blocks of a group's node of the layer below `n`, and answers its link, or none without pairs.
#[cycle(plain)]
fn part<D: Digest>(
    alloc: Global,
    n: u16,
    pairs: &[Pair],
    blocks: &mut Vec<Block<D>>,
) -> Result<Option<Cid>, AllocError> {
    if n == 0 || pairs.is_empty() {
        return Ok(None);
    }
    Ok(Some(node::<D>(alloc, n - 1, pairs, blocks)?))
}

/// The pairs before the first one of layer `n`, and that one with those behind it.
fn cut<D: Digest>(n: u16, pairs: &[Pair]) -> (&[Pair], &[Pair]) {
    let mut place = 0usize;
    for (key, _) in pairs {
        if layer::<D, 2>(key) == n {
            break;
        }
        place = place.saturating_add(1);
    }
    match pairs.split_at_checked(place) {
        Some(parts) => parts,
        None => (pairs, &[]),
    }
}

/// Adds the entry of a pair, where it may come next.
fn add_entry(writer: &mut NodeWriter, pair: &Pair, link: Option<Cid>) -> Result<(), AllocError> {
    let (key, value) = pair;
    if writer.is_next(key) {
        writer.entry(key, CidRef::from(value), link)
    } else {
        Ok(())
    }
}

/// Puts a block at a place among these, and answers its CID.
fn put_at<D: Digest>(
    blocks: &mut Vec<Block<D>>,
    place: usize,
    block: Block<D>,
) -> Result<Cid, AllocError> {
    let cid = block.cid();
    if place <= blocks.len() {
        blocks.insert(place, block)?;
    }
    Ok(cid)
}
