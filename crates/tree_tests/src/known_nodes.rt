//! Blocks, and whether they are a node.

use crate::fixtures::{node, value};
use block::Block;
use cid::Cid;
use cid::digests::Toy;
use rows::to_cid;
use std::alloc::{AllocError, Global};

/// The left link that a block shows, where it is a node.
fn left_of(block: &Block<Toy>) -> Option<Option<Cid>> {
    Some(to_cid(block.node()?.left()))
}

/// Whether a block shows this left link, or no node at all.
fn is_shown(block: &Block<Toy>, left: Option<Option<Cid>>) -> bool {
    block.is_node() == left.is_some() && left_of(block) == left
}

/// Whether the block of these bytes shows this left link, or no node at all, made alone and as one of two.
fn shows(alloc: Global, bytes: &[u8], left: Option<Option<Cid>>) -> Result<bool, AllocError> {
    let alone = Block::of(Vec::from_slice(alloc, bytes)?);
    let two = vec![in alloc;
        Vec::from_slice(alloc, bytes)?,
        Vec::from_slice(alloc, bytes)?,
    ]?;
    let mut are_shown = is_shown(&alone, left);
    for block in &Block::of_each(two)? {
        are_shown &= is_shown(block, left);
    }
    Ok(are_shown)
}

/// A node with these links, which shows the left one, and no node with a byte more.
fn is_a_node(alloc: Global, left: Option<Cid>, tree: Option<Cid>) -> Result<bool, AllocError> {
    let mut bytes = node(alloc, left, b"k", tree)?;
    let is_node = shows(alloc, &bytes, Some(left))?;
    bytes.push(0)?;
    Ok(is_node && shows(alloc, &bytes, None)?)
}

/// A link, or none.
fn link(there: bool) -> Option<Cid> {
    if there { Some(value()) } else { None }
}

#[test]
fn nodes_with_and_without_links(rt: HostRuntime) {
    for (left, tree) in [(false, false), (false, true), (true, false), (true, true)] {
        assert!(rt; is_a_node(rt.alloc(), link(left), link(tree)).expect(&rt, "memory"));
    }
}

#[test]
fn the_empty_node_and_a_record(rt: HostRuntime) {
    let empty = [0xa2, b'a', b'e', 0x80, b'a', b'l', 0xf6];
    let record = [0xa1, b'a', b'e', 0x80];
    assert!(rt; shows(rt.alloc(), &empty, Some(None)).expect(&rt, "memory"));
    assert!(rt; shows(rt.alloc(), &record, None).expect(&rt, "memory"));
}
