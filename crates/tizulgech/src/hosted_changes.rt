//! What changes make of a tree whose nodes the caller keeps, and what shows it.

ghost use Rattle.std.specs.Prelude.{◌≡◌, length, map, true, IfSome, nat_eq, false};
ghost use Rattle.std.specs.Arc.{arc_value};
ghost use Rattle.key_changes.specs.Keyed.{are_changes as are_changes_of};
ghost use Rattle.buffers.specs.Answers.{IsKept};
ghost use Rattle.buffers.specs.Framing.{cid_at, cut};
ghost use Rattle.tizulgech.specs.HostedChanges.{IsProofKnown, IsProofOver, IsProofTold, IsTreeProof};
ghost use Rattle.tizulgech.specs.Known.{AreKnown};
ghost use Rattle.tizulgech.specs.Trees.{changes_in};

use crate::changes::spell_proof;
use crate::codes::{BAD, BAD_NODE, MISSING, NO_MEMORY, NOT_TREE, TOO_DEEP, tell_node};
use crate::edits::changes_at;
use crate::nodes::blocks_of;
use crate::told_changes::{OTHER_ROOT, OTHER_VALUE};
use block::Block;
use buffers::{cid_in, hand, slices};
use change_proofs::{ChangeFault, ChangeProof, prove_change_over};
use cid::{Cid, Sha256};
use edit::Change;
use lookups::BlockMap;
use std::alloc::Global;
use std::sync::Arc;

/// What some changes make of the tree with this root, over those of its nodes that are given, and the nodes that show it: for
/// who keeps a tree by itself, and tells others of a step.
///
/// Nodes, CIDs and changes are given as `tizulgech_tree_apply` takes them, and which nodes are needed is told by
/// `tizulgech_below`. 0, and `out` has the root after, the value that each key has before the changes, 36 bytes each and zeros for
/// none, and each node that doing them reads, once, with its length in eight bytes, the lowest first, in front: what
/// `tizulgech_verify_change` takes. 2 where a node is missing, whose CID is then in `missing`; 30 where one that is needed is
/// none, whose CID is in `missing` too; 31 where a link stands below layer 0; 35 where keys don't ascend in a node that would be
/// made, or more nodes are read than of a tree; 251; 252 for arguments that are none; 255.
#[unsafe(no_mangle)]
pub extern "C" fn tizulgech_tree_prove_change(
    alloc: Global,
    nodes: &[u8],
    node_ends: &[usize],
    cids: &[u8],
    root: &[u8],
    keys: &[u8],
    key_ends: &[usize],
    values: &[u8],
    missing: &mut [u8],
    out: &mut [u8],
    size: &mut usize,
) -> u8
    requires known { IfSome (cut 0 node_ends.now nodes.now) (AreKnown cids.now) }
    requires missing { length missing.old ≡ 36 }
    ensures proof { nat_eq result 255 ≡ false → IsTreeProof result missing.new
        out.old out.new size.new (cut 0 node_ends.now nodes.now) cids.now (cid_at root.now)
        (changes_in keys.now key_ends.now values.now) }
    ensures missing { ¬ (result ≡ 2) → ¬ (result ≡ 30) → missing.new ≡ missing.old }
    ensures kept { IsKept result out.old out.new size.old size.new }
{
    let Ok(nodes) = slices(alloc, nodes, node_ends) else {
        return NO_MEMORY;
    };
    let Some(nodes) = nodes else {
        return BAD;
    };
    let Some(root) = cid_in(root) else {
        return BAD;
    };
    let Ok(changes) = changes_at(alloc, keys, key_ends, values) else {
        return NO_MEMORY;
    };
    let Some(changes) = changes else {
        return BAD;
    };
    proven_over(alloc, &nodes, cids, root, &changes, missing, out, size)
}

/// The same of changes that a batch takes.
#[tactic(auto, using(crate::proofs::Hosting::proof_known, crate::proofs::Hosting::proof_unknown))]
fn proven_over(
    alloc: Global,
    nodes: &[&[u8]],
    cids: &[u8],
    root: Cid,
    changes: &[Change<'_>],
    missing: &mut [u8],
    out: &mut [u8],
    size: &mut usize,
) -> u8
    requires changes { are_changes_of changes.now ≡ true }
    requires known { AreKnown cids.now (map (λ node. node.now) nodes.now) }
    requires missing { length missing.old ≡ 36 }
    ensures proof { nat_eq result 255 ≡ false → IsProofKnown result missing.new
        out.old out.new size.new (map (λ node. node.now) nodes.now) cids.now root changes.now }
    ensures missing { ¬ (result ≡ 2) → ¬ (result ≡ 30) → missing.new ≡ missing.old }
    ensures kept { IsKept result out.old out.new size.old size.new }
{
    let Ok(blocks) = blocks_of(alloc, nodes, cids) else {
        return NO_MEMORY;
    };
    let Some(blocks) = blocks else {
        return BAD;
    };
    proven_of_blocks(alloc, &blocks, root, changes, missing, out, size)
}

/// The same over the blocks of nodes.
fn proven_of_blocks(
    alloc: Global,
    blocks: &[Arc<Block<Sha256>>],
    root: Cid,
    changes: &[Change<'_>],
    missing: &mut [u8],
    out: &mut [u8],
    size: &mut usize,
) -> u8
    requires changes { are_changes_of changes.now ≡ true }
    requires missing { length missing.old ≡ 36 }
    ensures proof { nat_eq result 255 ≡ false → IsProofOver result missing.new
        out.old out.new size.new (map arc_value blocks.now) root changes.now }
    ensures missing { ¬ (result ≡ 2) → ¬ (result ≡ 30) → missing.new ≡ missing.old }
    ensures kept { IsKept result out.old out.new size.old size.new }
{
    let Ok(mut source) = BlockMap::new(alloc, blocks) else {
        return NO_MEMORY;
    };
    let answer = prove_change_over::<Sha256, 2, _, _>(alloc, &mut source, root, changes);
    tell_proof(alloc, &answer, missing, out, size)
}

/// What a proof is told.
fn tell_proof(
    alloc: Global,
    answer: &Result<ChangeProof<'_, Sha256>, ChangeFault>,
    missing: &mut [u8],
    out: &mut [u8],
    size: &mut usize,
) -> u8
    requires { length missing.old ≡ 36 }
    ensures proof { IsProofTold result missing.new out.old out.new size.new answer.now }
    ensures missing { ¬ (result ≡ 2) → ¬ (result ≡ 30) → missing.new ≡ missing.old }
    ensures kept { IsKept result out.old out.new size.old size.new }
{
    match answer {
        Ok(proof) => match spell_proof(alloc, proof) {
            Ok(bytes) => hand(&bytes, out, size),
            Err(_) => NO_MEMORY,
        },
        Err(ChangeFault::BlockMissing(cid)) => tell_node(MISSING, cid, missing),
        Err(ChangeFault::BadNode(cid)) => tell_node(BAD_NODE, cid, missing),
        Err(ChangeFault::TooDeep) => TOO_DEEP,
        Err(ChangeFault::NotTree) => NOT_TREE,
        // Of these two none comes.
        Err(ChangeFault::OtherValue(_)) => OTHER_VALUE,
        Err(ChangeFault::OtherRoot) => OTHER_ROOT,
        Err(ChangeFault::NoMemory) => NO_MEMORY,
    }
}
