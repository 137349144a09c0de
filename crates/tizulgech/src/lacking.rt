//! Which nodes of two trees are missing among those of a caller.

ghost use Rattle.std.specs.Prelude.{◌≡◌, length, map, IfOk, IfSome, nat_eq, false};
ghost use Rattle.std.specs.Arc.{arc_value};
ghost use Rattle.buffers.specs.Answers.{cids_bytes, IsKept};
ghost use Rattle.buffers.specs.Framing.{cid_at, cut};
ghost use Rattle.tizulgech.specs.Known.{AreKnown};
ghost use Rattle.tizulgech.specs.Lacking.{IsLackKnown, IsLackOver, IsLackTold, IsLacking};

use crate::codes::{BAD, BAD_NODE, MISSING, NO_MEMORY, NOT_TREE, TOO_DEEP, tell_node};
use crate::nodes::blocks_of;
use block::Block;
use buffers::{cid_in, hand, push_cids, slices};
use cid::{Cid, Sha256};
use difference::{DifferenceFault, missing};
use lookups::BlockMap;
use std::alloc::{AllocError, Global};
use std::sync::Arc;

/// Which nodes are missing among the given ones for `tizulgech_difference` of the same roots, of the first layer of both trees
/// that isn't all there: both roots are the first layer, and then the layers come from the top down.
///
/// Nodes and CIDs are given as there. 0, and `out` has the CIDs of all of them, 36 bytes each, each once, those of the tree before
/// first; none where none is missing. So who has them elsewhere is asked once a layer. 30 where a node that is needed before
/// the first missing one is none, whose CID is in `bad`; 35 where a link stands twice on one layer; 251; 252 for arguments that
/// are none; 255.
#[unsafe(no_mangle)]
pub extern "C" fn tizulgech_missing(
    alloc: Global,
    nodes: &[u8],
    node_ends: &[usize],
    cids: &[u8],
    before: &[u8],
    after: &[u8],
    bad: &mut [u8],
    out: &mut [u8],
    size: &mut usize,
) -> u8
    requires known { IfSome (cut 0 node_ends.now nodes.now) (AreKnown cids.now) }
    requires bad { length bad.old ≡ 36 }
    ensures missing { nat_eq result 255 ≡ false → IsLacking result bad.new
        out.old out.new size.new (cut 0 node_ends.now nodes.now) cids.now
        (cid_at before.now) (cid_at after.now) }
    ensures bad { ¬ (result ≡ 2) → ¬ (result ≡ 30) → bad.new ≡ bad.old }
    ensures kept { IsKept result out.old out.new size.old size.new }
{
    let Ok(nodes) = slices(alloc, nodes, node_ends) else {
        return NO_MEMORY;
    };
    let Some(nodes) = nodes else {
        return BAD;
    };
    let Some(before) = cid_in(before) else {
        return BAD;
    };
    let Some(after) = cid_in(after) else {
        return BAD;
    };
    lacking_over(alloc, &nodes, cids, before, after, bad, out, size)
}

/// The same of two roots.
#[tactic(auto, using(crate::proofs::Differed::known_lack, crate::proofs::Differed::unknown_lack))]
fn lacking_over(
    alloc: Global,
    nodes: &[&[u8]],
    cids: &[u8],
    before: Cid,
    after: Cid,
    bad: &mut [u8],
    out: &mut [u8],
    size: &mut usize,
) -> u8
    requires known { AreKnown cids.now (map (λ node. node.now) nodes.now) }
    requires bad { length bad.old ≡ 36 }
    ensures missing { nat_eq result 255 ≡ false → IsLackKnown result bad.new
        out.old out.new size.new (map (λ node. node.now) nodes.now) cids.now before after }
    ensures bad { ¬ (result ≡ 2) → ¬ (result ≡ 30) → bad.new ≡ bad.old }
    ensures kept { IsKept result out.old out.new size.old size.new }
{
    let Ok(blocks) = blocks_of(alloc, nodes, cids) else {
        return NO_MEMORY;
    };
    let Some(blocks) = blocks else {
        return BAD;
    };
    lacking_blocks(alloc, &blocks, before, after, bad, out, size)
}

/// The same over the blocks of nodes.
fn lacking_blocks(
    alloc: Global,
    blocks: &[Arc<Block<Sha256>>],
    before: Cid,
    after: Cid,
    bad: &mut [u8],
    out: &mut [u8],
    size: &mut usize,
) -> u8
    requires bad { length bad.old ≡ 36 }
    ensures missing { nat_eq result 255 ≡ false → IsLackOver result bad.new
        out.old out.new size.new (map arc_value blocks.now) before after }
    ensures bad { ¬ (result ≡ 2) → ¬ (result ≡ 30) → bad.new ≡ bad.old }
    ensures kept { IsKept result out.old out.new size.old size.new }
{
    let Ok(mut source) = BlockMap::new(alloc, blocks) else {
        return NO_MEMORY;
    };
    let answer = missing::<Sha256, 2, _, _>(alloc, &mut source, before, after);
    tell_lack(alloc, &answer, bad, out, size)
}

/// What such an answer is told.
fn tell_lack(
    alloc: Global,
    answer: &Result<Vec<Cid>, DifferenceFault>,
    bad: &mut [u8],
    out: &mut [u8],
    size: &mut usize,
) -> u8
    requires { length bad.old ≡ 36 }
    ensures missing { IsLackTold result bad.new out.old out.new size.new answer.now }
    ensures bad { ¬ (result ≡ 2) → ¬ (result ≡ 30) → bad.new ≡ bad.old }
    ensures kept { IsKept result out.old out.new size.old size.new }
{
    match answer {
        Ok(cids) => match spell_cids(alloc, cids) {
            Ok(bytes) => hand(&bytes, out, size),
            Err(_) => NO_MEMORY,
        },
        // This one doesn't come.
        Err(DifferenceFault::BlockMissing(cid)) => tell_node(MISSING, cid, bad),
        Err(DifferenceFault::BadNode(cid)) => tell_node(BAD_NODE, cid, bad),
        Err(DifferenceFault::TooDeep) => TOO_DEEP,
        Err(DifferenceFault::NotTree) => NOT_TREE,
        Err(DifferenceFault::NoMemory) => NO_MEMORY,
    }
}

/// CIDs, one after another.
fn spell_cids(alloc: Global, cids: &[Cid]) -> Result<Vec<u8>, AllocError>
    ensures { IfOk result (λ bytes. bytes.items ≡ cids_bytes cids.now) }
{
    let mut bytes = Vec::new(alloc);
    push_cids(&mut bytes, cids)?;
    Ok(bytes)
}
