//! Blocks of strangers under the root after, which are no tree.

use crate::deep::is_too_deep;
use crate::fixtures::value;
use crate::refusals::is_other_root;
use change_proofs::{ChangeFault, KeyChange, are_key_changes, verify_inversion};
use cid::digests::Toy;
use cid::{Cid, CidRef};
use node::NodeWriter;
use std::alloc::{AllocError, Global};

/// The bytes of a node of this key with the subtrees before and after it, or of none where the key is empty.
fn node(
    alloc: Global,
    before: Option<Cid>,
    key: &[u8],
    after: Option<Cid>,
) -> Result<Vec<u8>, AllocError> {
    let mut writer = NodeWriter::begin(alloc, before)?;
    if writer.is_next(key) {
        writer.entry(key, CidRef::from(&value(1)), after)?;
    }
    writer.finish()
}

/// Adds these bytes, and answers their CID.
fn add(blocks: &mut Vec<Vec<u8>>, bytes: Vec<u8>) -> Result<Cid, AllocError> {
    let cid = Cid::of::<Toy>(&bytes);
    blocks.push(bytes)?;
    Ok(cid)
}

/// What is told of the key's change from one value to another.
fn told(
    alloc: Global,
    blocks: &[Vec<u8>],
    root: Cid,
    key: &'static [u8],
    before: Option<Cid>,
    after: Option<Cid>,
) -> Result<(), ChangeFault> {
    let changes = [KeyChange { key, before, after }];
    if !are_key_changes(&changes) {
        return Err(ChangeFault::NoMemory);
    }
    verify_inversion::<Toy, 2, _, Vec<u8>>(alloc, value(9), root, blocks, &changes)
}

/// What is told where the key came.
fn told_of_new(
    alloc: Global,
    blocks: &[Vec<u8>],
    root: Cid,
    key: &'static [u8],
) -> Result<(), ChangeFault> {
    told(alloc, blocks, root, key, None, Some(value(1)))
}

/// What is told where the key went.
fn told_of_gone(
    alloc: Global,
    blocks: &[Vec<u8>],
    root: Cid,
    key: &'static [u8],
) -> Result<(), ChangeFault> {
    told(alloc, blocks, root, key, Some(value(1)), None)
}

/// The block that is told as no node, if one is.
fn bad_node_in(answer: &Result<(), ChangeFault>) -> Option<Cid> {
    match answer {
        Err(ChangeFault::BadNode(cid)) => Some(*cid),
        _ => None,
    }
}

/// A block that is no node, and a node of `a/q2` with a link to it after its key: their CIDs.
fn add_no_node(alloc: Global, blocks: &mut Vec<Vec<u8>>) -> Result<(Cid, Cid), AllocError> {
    let other = add(blocks, Vec::from_slice(alloc, b"no node")?)?;
    let root = add(blocks, node(alloc, None, b"a/q2", Some(other))?)?;
    Ok((other, root))
}

/// Whether the block that is no node is told where it is needed: as the root, where a key behind the node's one went, and where
/// the node's one came.
fn is_told_as_no_node(alloc: Global, blocks: &[Vec<u8>], other: Cid, root: Cid) -> bool {
    let at_root = told_of_new(alloc, blocks, other, b"a/q2");
    let behind = told_of_gone(alloc, blocks, root, b"a/r0");
    let below = told_of_new(alloc, blocks, root, b"a/q2");
    bad_node_in(&at_root) == Some(other)
        && bad_node_in(&behind) == Some(other)
        && bad_node_in(&below) == Some(other)
}

/// Whether that the key's value was changed is judged without it.
fn is_passed_over(alloc: Global, blocks: &[Vec<u8>], root: Cid) -> bool {
    let answer = told(alloc, blocks, root, b"a/q2", Some(value(2)), Some(value(1)));
    is_other_root(&answer)
}

#[test]
fn a_block_that_is_no_node(rt: HostRuntime) {
    let mut blocks = Vec::new(rt.alloc());
    let cids = add_no_node(rt.alloc(), &mut blocks).expect(&rt, "two blocks");
    let (other, root) = cids;
    let told = is_told_as_no_node(rt.alloc(), &blocks, other, root);
    assert!(rt; told && is_passed_over(rt.alloc(), &blocks, root));
}

/// A node of `a/q0`, whose layer is 0, with a link after its key, and a node of `a/r1` with a link to it before its key: their
/// CIDs.
fn add_deep(alloc: Global, blocks: &mut Vec<Vec<u8>>) -> Result<(Cid, Cid), AllocError> {
    let lowest = add(blocks, node(alloc, None, b"a/q0", Some(value(1)))?)?;
    let root = add(blocks, node(alloc, Some(lowest), b"a/r1", None)?)?;
    Ok((lowest, root))
}

/// Whether its link is told as too deep where a key behind it went, or the key itself came, from both nodes.
fn is_told_as_deep(alloc: Global, blocks: &[Vec<u8>], root: Cid) -> bool {
    let behind = told_of_gone(alloc, blocks, root, b"a/q00");
    let itself = told_of_new(alloc, blocks, root, b"a/q0");
    is_too_deep(&behind) && is_too_deep(&itself)
}

#[test]
fn a_link_below_layer_0(rt: HostRuntime) {
    let mut blocks = Vec::new(rt.alloc());
    let cids = add_deep(rt.alloc(), &mut blocks).expect(&rt, "two blocks");
    let (lowest, root) = cids;
    let told = is_told_as_deep(rt.alloc(), &blocks, lowest);
    assert!(rt; told && is_told_as_deep(rt.alloc(), &blocks, root));
}

/// Whether an answer is that there is no tree.
fn is_not_tree(answer: &Result<(), ChangeFault>) -> bool {
    match answer {
        Err(ChangeFault::NotTree) => true,
        _ => false,
    }
}

/// A node of `a/q1` with a node of one key before its own one, and of another key after it: its CID.
fn add_three(
    alloc: Global,
    blocks: &mut Vec<Vec<u8>>,
    before: &[u8],
    after: &[u8],
) -> Result<Cid, AllocError> {
    let before = add(blocks, node(alloc, None, before, None)?)?;
    let after = add(blocks, node(alloc, None, after, None)?)?;
    add(blocks, node(alloc, Some(before), b"a/q1", Some(after))?)
}

/// What is told of nodes of these keys where the key between them came: undone, they meet in one node.
fn told_of_meeting(alloc: Global, before: &[u8], after: &[u8]) -> Result<(), ChangeFault> {
    let mut blocks = Vec::new(alloc);
    let root = add_three(alloc, &mut blocks, before, after)?;
    told_of_new(alloc, &blocks, root, b"a/q1")
}

#[test]
fn nodes_that_meet_in_no_order(rt: HostRuntime) {
    let ascending = told_of_meeting(rt.alloc(), b"a/p0", b"a/r0");
    let descending = told_of_meeting(rt.alloc(), b"a/r0", b"a/p0");
    let twice = told_of_meeting(rt.alloc(), b"a/p0", b"a/p0");
    assert!(rt; is_other_root(&ascending) && is_not_tree(&descending) && is_not_tree(&twice));
}
