//! Batches over blocks that are no tree, or clash.

use crate::fixtures::{Blocks, applied, value};
use block::Block;
use cid::digests::{Clash, Size, Toy};
use cid::{Cid, CidRef, Digest};
use edit::{BatchEdit, Change, EditFault};
use node::NodeWriter;
use std::alloc::{AllocError, Global};
use std::sync::Arc;

/// The bytes of a node of this key with the subtrees before and after it, or of none where the key is empty.
fn node(
    alloc: Global,
    before: Option<Cid>,
    key: &[u8],
    after: Option<Cid>,
) -> Result<Vec<u8>, AllocError> {
    let mut writer = NodeWriter::begin(alloc, before)?;
    if writer.is_next(key) {
        writer.entry(key, CidRef::from(&value(1)), after)?;
    }
    writer.finish()
}

/// Adds a block of these bytes, and answers its CID.
fn add<D: Digest>(
    alloc: Global,
    blocks: &mut Blocks<D>,
    bytes: Vec<u8>,
) -> Result<Cid, AllocError> {
    let block = Arc::new(alloc, Block::of(bytes))?;
    let cid = block.cid();
    blocks.push(block)?;
    Ok(cid)
}

/// How a batch ended.
#[derive(Clone, Copy, PartialEq, Eq)]
enum Ended {
    Done,
    BadNode,
    TooDeep,
    NotTree,
    Clash,
    Otherwise,
}

/// How a batch ended that answered this.
fn ended_of<D: Digest>(answer: Result<BatchEdit<D>, EditFault<D>>) -> Ended {
    match answer {
        Ok(_) => Ended::Done,
        Err(EditFault::BadNode(_)) => Ended::BadNode,
        Err(EditFault::TooDeep) => Ended::TooDeep,
        Err(EditFault::NotTree) => Ended::NotTree,
        Err(EditFault::Clash(_)) => Ended::Clash,
        Err(_) => Ended::Otherwise,
    }
}

/// How a batch of one put or delete ends, and after how many reads.
fn end<D: Digest>(
    alloc: Global,
    blocks: &[Arc<Block<D>>],
    root: Cid,
    key: &[u8],
    number: Option<u8>,
) -> (Ended, u64) {
    let change = Change {
        key,
        value: number.map(value),
    };
    let (answer, reads) = applied::<D, 2>(alloc, blocks, root, &[change]);
    (ended_of(answer), reads)
}

/// A block that is no node, and a node of `a/q2` with a link to it after its key: their CIDs.
fn add_no_node(alloc: Global, blocks: &mut Blocks<Toy>) -> Result<(Cid, Cid), AllocError> {
    let other = add(alloc, blocks, Vec::from_slice(alloc, b"no node")?)?;
    let root = add(alloc, blocks, node(alloc, None, b"a/q2", Some(other))?)?;
    Ok((other, root))
}

/// Whether batches find the block that is no node where they need it: a put behind the key, the key's delete, and any over
/// that block alone.
fn find_no_node(alloc: Global, blocks: &[Arc<Block<Toy>>], other: Cid, root: Cid) -> bool {
    end(alloc, blocks, root, b"a/r0", Some(1)) == (Ended::BadNode, 2)
        && end(alloc, blocks, root, b"a/q2", None) == (Ended::BadNode, 2)
        && end(alloc, blocks, other, b"a/q2", None) == (Ended::BadNode, 1)
}

/// Whether a delete of the key names the block that is no node.
fn names_no_node(alloc: Global, blocks: &[Arc<Block<Toy>>], other: &Cid, root: Cid) -> bool {
    let change = Change {
        key: b"a/q2".as_slice(),
        value: None,
    };
    let (answer, _) = applied::<Toy, 2>(alloc, blocks, root, &[change]);
    match &answer {
        Err(EditFault::BadNode(cid)) => cid == other,
        _ => false,
    }
}

/// Whether a batch that doesn't need it is done: an update of the key.
fn does_without(alloc: Global, blocks: &[Arc<Block<Toy>>], root: Cid) -> bool {
    end(alloc, blocks, root, b"a/q2", Some(2)) == (Ended::Done, 1)
}

#[test]
fn a_block_that_is_no_node(rt: HostRuntime) {
    let mut blocks = Vec::new(rt.alloc());
    let cids = add_no_node(rt.alloc(), &mut blocks).expect(&rt, "two blocks");
    let (other, root) = cids;
    assert!(rt; find_no_node(rt.alloc(), &blocks, other, root));
    assert!(rt; names_no_node(rt.alloc(), &blocks, &other, root));
    assert!(rt; does_without(rt.alloc(), &blocks, root));
}

/// A node of `a/q2` with a node of `a/p0` before its key and one of `a/a0` after it: its CID.
fn add_unordered(alloc: Global, blocks: &mut Blocks<Toy>) -> Result<Cid, AllocError> {
    let before = add(alloc, blocks, node(alloc, None, b"a/p0", None)?)?;
    let before = add(alloc, blocks, node(alloc, Some(before), b"", None)?)?;
    let after = add(alloc, blocks, node(alloc, None, b"a/a0", None)?)?;
    let after = add(alloc, blocks, node(alloc, Some(after), b"", None)?)?;
    add(
        alloc,
        blocks,
        node(alloc, Some(before), b"a/q2", Some(after))?,
    )
}

#[test]
fn nodes_that_meet_in_no_order(rt: HostRuntime) {
    let mut blocks = Vec::new(rt.alloc());
    let root = add_unordered(rt.alloc(), &mut blocks).expect(&rt, "five blocks");
    assert!(rt; end(rt.alloc(), &blocks, root, b"a/q2", None) == (Ended::NotTree, 5));
}

/// Whether a batch of one change finds a link too deep after this many reads at most.
fn is_refused<D: Digest>(
    alloc: Global,
    blocks: &[Arc<Block<D>>],
    root: Cid,
    key: &[u8],
    number: Option<u8>,
    most: u64,
) -> bool {
    let (ended, reads) = end(alloc, blocks, root, key, number);
    ended == Ended::TooDeep && reads <= most
}

/// Whether a put and a delete over a node without keys that links to itself end so.
fn are_refused(alloc: Global, blocks: &[Arc<Block<Clash>>], root: Cid) -> bool {
    is_refused(alloc, blocks, root, b"a/q2", Some(2), 1)
        && is_refused(alloc, blocks, root, b"a/q2", None, 1)
}

/// A node that links to itself and has no key: under this digest all blocks have one CID.
fn add_empty_loop(alloc: Global, blocks: &mut Blocks<Clash>) -> Result<Cid, AllocError> {
    let root = Cid::of::<Clash>(b"");
    add(alloc, blocks, node(alloc, Some(root), b"", None)?)
}

#[test]
fn a_node_that_links_to_itself(rt: HostRuntime) {
    let mut blocks = Vec::new(rt.alloc());
    let root = add_empty_loop(rt.alloc(), &mut blocks).expect(&rt, "a block");
    assert!(rt; are_refused(rt.alloc(), &blocks, root));
}

/// A node of layer 3 that links to itself behind its key: under this digest nodes of one length have one CID.
fn add_loop(alloc: Global, blocks: &mut Blocks<Size>) -> Result<Cid, AllocError> {
    let other = node(alloc, None, b"a/q3", Some(value(1)))?;
    let root = Cid::of::<Size>(&other);
    add(alloc, blocks, node(alloc, None, b"a/q3", Some(root))?)
}

/// Whether puts behind the key of a node that links to itself, over two layers or at its own one, end so.
fn puts_are_refused(alloc: Global, blocks: &[Arc<Block<Size>>], root: Cid) -> bool {
    is_refused(alloc, blocks, root, b"a/r0", Some(2), 4)
        && is_refused(alloc, blocks, root, b"a/r3", Some(2), 4)
}

#[test]
fn a_node_of_a_high_layer_that_links_to_itself(rt: HostRuntime) {
    let mut blocks = Vec::new(rt.alloc());
    let root = add_loop(rt.alloc(), &mut blocks).expect(&rt, "a block");
    assert!(rt; puts_are_refused(rt.alloc(), &blocks, root));
    assert!(rt; end(rt.alloc(), &blocks, root, b"a/q3", Some(2)) == (Ended::Clash, 1));
}

/// A node of layer 1 with a node before its key that links to itself, and one without a key after it.
fn add_endless(alloc: Global, blocks: &mut Blocks<Size>) -> Result<Cid, AllocError> {
    let linked = Cid::of::<Size>(&node(alloc, Some(value(1)), b"", None)?);
    let before = add(alloc, blocks, node(alloc, Some(linked), b"", None)?)?;
    let after = add(alloc, blocks, node(alloc, None, b"", None)?)?;
    add(
        alloc,
        blocks,
        node(alloc, Some(before), b"a/q1", Some(after))?,
    )
}

#[test]
fn nodes_that_go_on_without_an_end(rt: HostRuntime) {
    let mut blocks = Vec::new(rt.alloc());
    let root = add_endless(rt.alloc(), &mut blocks).expect(&rt, "three blocks");
    assert!(rt; end(rt.alloc(), &blocks, root, b"a/q1", None) == (Ended::NotTree, 3));
}

/// A node of two keys. Under this digest the nodes of each of them alone, which have one length, have one CID.
fn add_two(alloc: Global, blocks: &mut Blocks<Size>) -> Result<Cid, AllocError> {
    let mut writer = NodeWriter::begin(alloc, None)?;
    for key in [b"a/p0", b"a/r0"] {
        if writer.is_next(key) {
            writer.entry(key, CidRef::from(&value(1)), None)?;
        }
    }
    add(alloc, blocks, writer.finish()?)
}

#[test]
fn a_clash_of_the_two_sides_of_a_put(rt: HostRuntime) {
    let mut blocks = Vec::new(rt.alloc());
    let root = add_two(rt.alloc(), &mut blocks).expect(&rt, "a block");
    assert!(rt; end(rt.alloc(), &blocks, root, b"a/q2", Some(1)) == (Ended::Clash, 1));
}
