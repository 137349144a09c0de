//! What two trees differ by whose nodes the caller keeps.

ghost use Rattle.std.specs.Prelude.{◌≡◌, ◌++◌, length, map, IfOk, IfSome, OnOk, nat_eq, false};
ghost use Rattle.std.specs.Arc.{arc_value};
ghost use Rattle.std.specs.List.{flat_map};
ghost use Rattle.buffers.specs.Answers.{IsKept};
ghost use Rattle.buffers.specs.Framing.{cid_at, cut};
ghost use Rattle.difference.specs.Merged.{changes_told};
ghost use Rattle.tizulgech.specs.Differing.{change_bytes, difference_bytes, IsDifferenceKnown, IsDifferenceOver, IsDifferenceTold, IsDiffering};
ghost use Rattle.tizulgech.specs.Known.{AreKnown};

use crate::codes::{BAD, BAD_NODE, MISSING, NO_MEMORY, NOT_TREE, TOO_DEEP, tell_node};
use crate::edits::push_nodes;
use crate::nodes::blocks_of;
use block::Block;
use buffers::{cid_in, hand, push_cids, push_number, push_part, push_value, slices};
use cid::{Cid, Sha256};
use difference::{Difference, DifferenceFault, KeyDifference, difference};
use lookups::BlockMap;
use std::alloc::{AllocError, Global};
use std::sync::Arc;

/// What the tree with the root `after` differs by from that with the root `before`, over those of their nodes that are given.
///
/// Nodes and CIDs are given as `tizulgech_tree_apply` takes them. Of each tree the nodes are needed that the other one lacks, and
/// both roots. 0, and `out` has the number of keys that differ in eight bytes, the lowest first, and each: its length in eight
/// bytes, the key, its value in the tree before and in that after, 36 bytes each and zeros for none; the number of nodes that go,
/// and their CIDs; and each node that comes, with its CID and its length in front. 2 where a node is missing, whose CID is then in
/// `missing`; 30 where one that is needed is none, whose CID is in `missing` too; 31 where a link stands below layer 0; 35 where
/// a link stands twice on one layer, or keys don't ascend; 251; 252 for arguments that are none; 255.
#[unsafe(no_mangle)]
pub extern "C" fn tizulgech_difference(
    alloc: Global,
    nodes: &[u8],
    node_ends: &[usize],
    cids: &[u8],
    before: &[u8],
    after: &[u8],
    missing: &mut [u8],
    out: &mut [u8],
    size: &mut usize,
) -> u8
    requires known { IfSome (cut 0 node_ends.now nodes.now) (AreKnown cids.now) }
    requires missing { length missing.old ≡ 36 }
    ensures difference { nat_eq result 255 ≡ false → IsDiffering result missing.new
        out.old out.new size.new (cut 0 node_ends.now nodes.now) cids.now
        (cid_at before.now) (cid_at after.now) }
    ensures missing { ¬ (result ≡ 2) → ¬ (result ≡ 30) → missing.new ≡ missing.old }
    ensures kept { IsKept result out.old out.new size.old size.new }
{
    let Ok(nodes) = slices(alloc, nodes, node_ends) else {
        return NO_MEMORY;
    };
    let Some(nodes) = nodes else {
        return BAD;
    };
    let Some(before) = cid_in(before) else {
        return BAD;
    };
    let Some(after) = cid_in(after) else {
        return BAD;
    };
    differing_over(alloc, &nodes, cids, before, after, missing, out, size)
}

/// The same of two roots.
#[tactic(auto, using(crate::proofs::Differed::known_differ, crate::proofs::Differed::unknown_differ))]
fn differing_over(
    alloc: Global,
    nodes: &[&[u8]],
    cids: &[u8],
    before: Cid,
    after: Cid,
    missing: &mut [u8],
    out: &mut [u8],
    size: &mut usize,
) -> u8
    requires known { AreKnown cids.now (map (λ node. node.now) nodes.now) }
    requires missing { length missing.old ≡ 36 }
    ensures difference { nat_eq result 255 ≡ false → IsDifferenceKnown result missing.new
        out.old out.new size.new (map (λ node. node.now) nodes.now) cids.now before after }
    ensures missing { ¬ (result ≡ 2) → ¬ (result ≡ 30) → missing.new ≡ missing.old }
    ensures kept { IsKept result out.old out.new size.old size.new }
{
    let Ok(blocks) = blocks_of(alloc, nodes, cids) else {
        return NO_MEMORY;
    };
    let Some(blocks) = blocks else {
        return BAD;
    };
    differing_blocks(alloc, &blocks, before, after, missing, out, size)
}

/// The same over the blocks of nodes.
fn differing_blocks(
    alloc: Global,
    blocks: &[Arc<Block<Sha256>>],
    before: Cid,
    after: Cid,
    missing: &mut [u8],
    out: &mut [u8],
    size: &mut usize,
) -> u8
    requires missing { length missing.old ≡ 36 }
    ensures difference { nat_eq result 255 ≡ false → IsDifferenceOver result missing.new
        out.old out.new size.new (map arc_value blocks.now) before after }
    ensures missing { ¬ (result ≡ 2) → ¬ (result ≡ 30) → missing.new ≡ missing.old }
    ensures kept { IsKept result out.old out.new size.old size.new }
{
    let Ok(mut source) = BlockMap::new(alloc, blocks) else {
        return NO_MEMORY;
    };
    let answer = difference::<Sha256, 2, _, _>(alloc, &mut source, before, after);
    tell_difference(alloc, &answer, missing, out, size)
}

/// What a difference is told.
fn tell_difference(
    alloc: Global,
    answer: &Result<Difference<Sha256>, DifferenceFault>,
    missing: &mut [u8],
    out: &mut [u8],
    size: &mut usize,
) -> u8
    requires { length missing.old ≡ 36 }
    ensures difference { IsDifferenceTold result missing.new out.old out.new size.new answer.now }
    ensures missing { ¬ (result ≡ 2) → ¬ (result ≡ 30) → missing.new ≡ missing.old }
    ensures kept { IsKept result out.old out.new size.old size.new }
{
    match answer {
        Ok(found) => match spell_difference(alloc, found) {
            Ok(bytes) => hand(&bytes, out, size),
            Err(_) => NO_MEMORY,
        },
        Err(DifferenceFault::BlockMissing(cid)) => tell_node(MISSING, cid, missing),
        Err(DifferenceFault::BadNode(cid)) => tell_node(BAD_NODE, cid, missing),
        Err(DifferenceFault::TooDeep) => TOO_DEEP,
        Err(DifferenceFault::NotTree) => NOT_TREE,
        Err(DifferenceFault::NoMemory) => NO_MEMORY,
    }
}

/// A difference, spelt.
fn spell_difference(alloc: Global, found: &Difference<Sha256>) -> Result<Vec<u8>, AllocError>
    ensures { IfOk result (λ bytes. bytes.items
        ≡ difference_bytes (changes_told found.now.changes.items)
        found.now.go.items (map arc_value found.now.come.items)) }
{
    let mut bytes = Vec::new(alloc);
    push_number(&mut bytes, found.changes.len() as u64)?;
    push_changes(&mut bytes, &found.changes)?;
    push_number(&mut bytes, found.go.len() as u64)?;
    push_cids(&mut bytes, &found.go)?;
    push_nodes(&mut bytes, &found.come)?;
    Ok(bytes)
}

/// Puts the keys that differ at the end.
#[tactic(auto, using(buffers::proofs::Behind::seen_next))]
fn push_changes(bytes: &mut Vec<u8>, changes: &[KeyDifference]) -> Result<(), AllocError>
    ensures { OnOk result (bytes.new.items
        ≡ bytes.old.items ++ flat_map change_bytes (changes_told changes.now)) }
{
    for change in changes {
        push_part(bytes, &change.key)?;
        push_value(bytes, change.before)?;
        push_value(bytes, change.after)?;
    }
    Ok(())
}
