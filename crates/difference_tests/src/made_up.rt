//! Comparisons over blocks that are no tree.

use crate::fixtures::{Blocks, compared, missing_over, value};
use block::Block;
use cid::digests::Toy;
use cid::{Cid, CidRef};
use difference::DifferenceFault;
use node::NodeWriter;
use std::alloc::{AllocError, Global};
use std::sync::Arc;

/// Adds a block of these bytes, and answers its CID.
fn add(alloc: Global, blocks: &mut Blocks<Toy>, bytes: Vec<u8>) -> Result<Cid, AllocError> {
    let block = Arc::new(alloc, Block::of(bytes))?;
    let cid = block.cid();
    blocks.push(block)?;
    Ok(cid)
}

/// Adds a node of this key with the subtrees before and after it.
fn add_node(
    alloc: Global,
    blocks: &mut Blocks<Toy>,
    before: Option<Cid>,
    key: &[u8],
    after: Option<Cid>,
) -> Result<Cid, AllocError> {
    let mut writer = NodeWriter::begin(alloc, before)?;
    if writer.is_next(key) {
        writer.entry(key, CidRef::from(&value(1)), after)?;
    }
    let bytes = writer.finish()?;
    add(alloc, blocks, bytes)
}

/// How a comparison of the last block with the empty tree ends, where another block stands after the key `k/001`, before the
/// key where `twice`.
fn end_of(alloc: Global, last: &[u8], twice: bool) -> Result<Option<DifferenceFault>, AllocError> {
    let mut blocks = Vec::new(alloc);
    let empty = add(
        alloc,
        &mut blocks,
        NodeWriter::begin(alloc, None)?.finish()?,
    )?;
    let below = if last.is_empty() {
        add_node(alloc, &mut blocks, None, b"k/100", None)?
    } else {
        add(alloc, &mut blocks, Vec::from_slice(alloc, last)?)?
    };
    let before = if twice { Some(below) } else { None };
    let root = add_node(alloc, &mut blocks, before, b"k/001", Some(below))?;
    let (answer, _) = compared::<Toy, 2>(alloc, &blocks, empty, root);
    Ok(answer.err())
}

/// A node whose key is of layer 0 with a link below it.
fn deep(alloc: Global) -> Result<Option<DifferenceFault>, AllocError> {
    let mut blocks = Vec::new(alloc);
    let empty = add(
        alloc,
        &mut blocks,
        NodeWriter::begin(alloc, None)?.finish()?,
    )?;
    let below = add_node(alloc, &mut blocks, None, b"k/200", None)?;
    let root = add_node(alloc, &mut blocks, None, b"k/100", Some(below))?;
    let (answer, _) = compared::<Toy, 2>(alloc, &blocks, empty, root);
    Ok(answer.err())
}

/// A node with a smaller key below the link after its own.
fn unsorted(alloc: Global) -> Result<Option<DifferenceFault>, AllocError> {
    let mut blocks = Vec::new(alloc);
    let empty = add(
        alloc,
        &mut blocks,
        NodeWriter::begin(alloc, None)?.finish()?,
    )?;
    let below = add_node(alloc, &mut blocks, None, b"k/000", None)?;
    let root = add_node(alloc, &mut blocks, None, b"k/001", Some(below))?;
    let (answer, _) = compared::<Toy, 2>(alloc, &blocks, empty, root);
    Ok(answer.err())
}

/// Whether two trees over their roots alone, with a leaf of both and one of each after their key, lack just the leaves of each.
fn lacks_leaves(alloc: Global) -> Result<bool, AllocError> {
    let mut leaves = Vec::new(alloc);
    let both = add_node(alloc, &mut leaves, None, b"k/000", None)?;
    let first = add_node(alloc, &mut leaves, None, b"k/100", None)?;
    let second = add_node(alloc, &mut leaves, None, b"k/110", None)?;
    let mut roots = Vec::new(alloc);
    let old = add_node(alloc, &mut roots, Some(both), b"k/001", Some(first))?;
    let new = add_node(alloc, &mut roots, Some(both), b"k/001", Some(second))?;
    let found = missing_over::<Toy, 2>(alloc, &roots, old, new);
    Ok(matches!(found, Ok(cids) if cids.as_slice() == [first, second].as_slice()))
}

#[test]
fn leaves_of_one_tree(rt: HostRuntime) {
    assert!(rt; matches!(lacks_leaves(rt.alloc()), Ok(true)));
}

#[test]
fn a_tree(rt: HostRuntime) {
    assert!(rt; matches!(end_of(rt.alloc(), b"", false), Ok(None)));
}

#[test]
fn no_node(rt: HostRuntime) {
    assert!(rt;
        matches!(
            end_of(rt.alloc(), b"no node", false),
            Ok(Some(DifferenceFault::BadNode(_)))
        )
    );
}

#[test]
fn a_link_twice(rt: HostRuntime) {
    assert!(rt;
        matches!(
            end_of(rt.alloc(), b"", true),
            Ok(Some(DifferenceFault::NotTree))
        )
    );
}

#[test]
fn a_link_below_layer_0(rt: HostRuntime) {
    assert!(rt; matches!(deep(rt.alloc()), Ok(Some(DifferenceFault::TooDeep))));
}

#[test]
fn keys_out_of_order(rt: HostRuntime) {
    assert!(rt; matches!(unsorted(rt.alloc()), Ok(Some(DifferenceFault::NotTree))));
}
