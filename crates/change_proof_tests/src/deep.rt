//! Chains of nodes without keys, as deep as a tree may be and deeper: they are no trees.

use crate::fixtures::{Blocks, proved, value, verified};
use block::Block;
use change_proofs::{ChangeFault, KeyChange};
use cid::Cid;
use cid::digests::Toy;
use std::alloc::{AllocError, Global};
use std::sync::Arc;

/// The block of the node without pairs and without a link.
const LAST: &[u8] = b"\xa2\x61\x65\x80\x61\x6c\xf6";

/// The block of the node without pairs and with this link.
fn node_above(link: &Cid) -> [u8; 47] {
    let mut bytes = [0u8; 47];
    bytes[..11].copy_from_slice(b"\xa2\x61\x65\x80\x61\x6c\xd8\x2a\x58\x25\x00");
    bytes[11..].copy_from_slice(link.as_bytes());
    bytes
}

/// Adds the block of these bytes, and answers its CID.
fn add(alloc: Global, blocks: &mut Blocks, bytes: &[u8]) -> Result<Cid, AllocError> {
    let block = Block::of(Vec::from_slice(alloc, bytes)?);
    let cid = block.cid();
    blocks.push(Arc::new(alloc, block)?)?;
    Ok(cid)
}

/// A chain of nodes, and the CID of its top.
#[derive(Drop)]
struct Chain {
    nodes: Blocks,
    top: Cid,
}

/// That of so many nodes and one more.
fn chain_of(alloc: Global, more: usize) -> Result<Chain, AllocError> {
    let mut nodes = Vec::new(alloc);
    let mut top = add(alloc, &mut nodes, LAST)?;
    for _ in 0..more {
        let node = node_above(&top);
        top = add(alloc, &mut nodes, &node)?;
    }
    Ok(Chain { nodes, top })
}

/// Whether an answer is that a link stands below layer 0.
pub(crate) fn is_too_deep<T>(answer: &Result<T, ChangeFault>) -> bool {
    match answer {
        Err(ChangeFault::TooDeep) => true,
        _ => false,
    }
}

/// Whether neither the mirror nor the host takes a chain of so many nodes and one more for a tree.
fn is_refused(alloc: Global, more: usize) -> bool {
    let Ok(chain) = chain_of(alloc, more) else {
        return false;
    };
    let changes = [KeyChange {
        key: b"a/b0".as_slice(),
        before: Some(value(1)),
        after: None,
    }];
    let shown = verified(alloc, value(2), chain.top, &chain.nodes, &changes);
    let proof = proved(alloc, &chain.nodes, chain.top, &changes);
    is_too_deep(&shown) && is_too_deep(&proof)
}

#[test]
fn chains_are_no_trees(rt: HostRuntime) {
    let deepest = is_refused(rt.alloc(), 128);
    assert!(rt; deepest && is_refused(rt.alloc(), 129));
}
