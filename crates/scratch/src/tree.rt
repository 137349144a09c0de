//! The tree of sorted pairs.

ghost use Rattle.std.specs.Prelude.{◌≡◌, ◌<◌, ◌≤◌, [], true, map, length, IfOk, IfErr, OnOk};
ghost use Rattle.std.specs.Arc.{arc_value};
ghost use Rattle.spec.specs.Cid.{cid as cid_of};
ghost use Rattle.spec.specs.Layer.{layer as layer_of};
ghost use Rattle.spec.specs.NodeFormat.{is_ascending};
ghost use Rattle.spec.specs.Blocks.{IsClashFree, firsts, nodes, root as root_of};
ghost use Rattle.scratch.specs.Pairs.{pairs_of};
ghost use Rattle.scratch.specs.Rows.{pair_of, AreLayered, HaveNothingBelow};
ghost use Rattle.scratch.specs.Faults.{IsFaultOf};

use crate::clashes::{find_clash, show_clash};
use crate::fault::ScratchFault;
use crate::level::{Level, raise};
use crate::merging::Blocks;
use crate::rows::{Row, rows, top_layer};
use block::Block;
use cid::{Cid, Digest};
use node::NodeWriter;
use std::alloc::{AllocError, Allocator, Global};
use std::convert::AsSlice;
use std::sync::Arc;

/// A tree: the CID of its top, and its nodes in the order of the export without records, each once. That is a node
/// first, then the subtree before its keys, and then for each key the subtree after it. This order is this
/// repository's own choice.
#[derive(Drop)]
#[derive_where(Debug)]
pub struct Built<D: Digest, A: Allocator = Global> {
    pub root: Cid,
    pub blocks: Blocks<D, A>,
}

/// The tree of these pairs, whose keys ascend strictly, bytewise, and have 1 to 1,024 bytes; `is_ascending` is the
/// test. The empty list has a tree of one node.
///
/// Each key is hashed once, for its layer, and each node once, for its CID.
/// `ScratchFault::Clash` shows two nodes of this tree with one CID and different bytes, and `ScratchFault::NoMemory`
/// comes where memory was refused. Nothing is left behind then.
/// (AT Protocol repository v3, MST structure; Auvolat and Taïani, SRDS 2019, base `2 ^ B`; `B` is 2 in the protocol.)
pub fn build<D: Digest, const B: u8, K: AsSlice<u8>, A: Allocator + Clone>(
    alloc: A,
    pairs: &[(K, Cid)],
) -> Result<Built<D, A>, ScratchFault<D, A>>
    requires ascending { is_ascending (pairs_of K.items pairs.now) ≡ true }
    requires least { 1 ≤ B }
    requires most { B ≤ 8 }
    ensures root { IfOk result (λ built. built.root
        ≡ root_of D.digest_of B (pairs_of K.items pairs.now)) }
    ensures blocks { IfOk result (λ built. map arc_value built.blocks.items
        ≡ nodes D.digest_of B (pairs_of K.items pairs.now)) }

    // Each node is there once, and no two clash.
    ensures once { OnOk result (firsts (cid_of D.digest_of)
        (nodes D.digest_of B (pairs_of K.items pairs.now))
        ≡ nodes D.digest_of B (pairs_of K.items pairs.now)) }
    ensures clash_free { OnOk result (IsClashFree D.digest_of
        (nodes D.digest_of B (pairs_of K.items pairs.now))) }

    ensures fault { IfErr result (IsFaultOf D.digest_of
        (nodes D.digest_of B (pairs_of K.items pairs.now))) }
{
    let rows = rows::<D, B, K, A>(alloc.clone()?, pairs)?;
    let built = write::<D, B, A>(alloc.clone()?, rows)?;
    match find_clash(alloc, &built.blocks)? {
        None => Ok(built),
        Some((one, other)) => Err(ScratchFault::Clash(show_clash(&built.blocks, one, other)?)),
    }
}

/// The tree of these rows, of which nothing is known of clashes.
fn write<D: Digest, const B: u8, A: Allocator + Clone>(
    alloc: A,
    rows: Vec<Row<'_>, A>,
) -> Result<Built<D, A>, AllocError>
    requires layered { AreLayered (layer_of D.digest_of B) rows.items }
    requires nothing_below { HaveNothingBelow rows.items }
    requires ascending { is_ascending (map pair_of rows.items) ≡ true }
    ensures root { IfOk result (λ built. built.root
        ≡ root_of D.digest_of B (map pair_of rows.entry.items)) }
    ensures blocks { IfOk result (λ built. map arc_value built.blocks.items
        ≡ nodes D.digest_of B (map pair_of rows.entry.items)) }
{
    if rows.is_empty() {
        return write_empty::<D, B, A>(alloc);
    }
    let blocks = write_rows::<D, B, A>(alloc, rows)?;
    let root = blocks[0].cid();
    Ok(Built { root, blocks })
}

/// The tree without pairs: one node, without an entry and without a link.
fn write_empty<D: Digest, const B: u8, A: Allocator + Clone>(
    alloc: A,
) -> Result<Built<D, A>, AllocError>
    ensures root { IfOk result (λ built. built.root ≡ root_of D.digest_of B []) }
    ensures blocks { IfOk result (λ built. map arc_value built.blocks.items
        ≡ nodes D.digest_of B []) }
{
    let node = Block::of(NodeWriter::begin(alloc.clone()?, None)?.finish()?);
    let root = node.cid();
    let mut blocks = Vec::new(alloc.clone()?);
    blocks.push(Arc::new(alloc, node)?)?;
    Ok(Built { root, blocks })
}

/// The nodes of these rows, of which there are some, layer by layer from the lowest up.
fn write_rows<D: Digest, const B: u8, A: Allocator + Clone>(
    alloc: A,
    rows: Vec<Row<'_>, A>,
) -> Result<Blocks<D, A>, AllocError>
    requires some { 0 < length rows.items }
    requires layered { AreLayered (layer_of D.digest_of B) rows.items }
    requires nothing_below { HaveNothingBelow rows.items }
    requires ascending { is_ascending (map pair_of rows.items) ≡ true }
    ensures { IfOk result (λ blocks. map arc_value blocks.items
        ≡ nodes D.digest_of B (map pair_of rows.entry.items)) }
{
    let top = top_layer::<D, B>(&rows);
    let mut level = Level {
        first: 0,
        rows,
        nodes: Vec::new(alloc),
    };
    for layer in 0..top {
        level = raise::<D, B, A>(level, layer)?;
    }
    let whole = raise::<D, B, A>(level, top)?;
    Ok(whole.nodes)
}
