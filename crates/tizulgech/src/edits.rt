//! A tree changed over nodes that the caller keeps.

ghost use Rattle.std.specs.Prelude.{◌≡◌, length, map, true, IfOk, OnOk, IfSome, option_map, Option, Some, None, nat_eq, false, ◌++◌};
ghost use Rattle.std.specs.Arc.{arc_value};
ghost use Rattle.sha2.specs.Sha256.{sha256};
ghost use Rattle.key_changes.specs.Keyed.{are_changes as are_changes_of};
ghost use Rattle.buffers.specs.Answers.{blocks_bytes, IsKept};
ghost use Rattle.buffers.specs.Framing.{cid_at, cid_or_none_at, cut, with_values};
ghost use Rattle.tizulgech.specs.Known.{AreKnown};
ghost use Rattle.tizulgech.specs.Trees.{changes_in, edit_bytes, IsEdited, IsEditKnown, IsEditOver, IsEditTold};

use crate::codes::{BAD, BAD_NODE, CLASH, MISSING, NO_MEMORY, NONE, NOT_TREE, TOO_DEEP, tell_node};
use crate::nodes::blocks_of;
use block::Block;
use buffers::{
    cid_in, hand, next_value, push_block, push_cids, push_number, push_values, slices, value_in,
};
use cid::{Cid, Sha256};
use edit::{BatchEdit, Change, EditFault, apply, are_changes};
use lookups::BlockMap;
use std::alloc::{AllocError, Global};
use std::sync::Arc;

/// Changes keys of the tree with this root at once, over those of its nodes that are given.
///
/// Of the first nodes the CIDs are given, 36 bytes each: whoever calls owes that these are theirs. Such a node isn't hashed; the
/// others are, several side by side.
///
/// A key gets the value of 36 bytes at its place among `values`, or goes where these are zeros; the keys have 1 to 1,024
/// bytes and ascend strictly. 0, and in `out` what `size` bytes of it say, as `edit_bytes` has it: the root, the values that
/// the keys had, the CIDs that go, and the blocks that come. 2 where a node is missing, whose CID is then in `missing`: who
/// has it gives it too, and calls again. 30 where a node that is needed is none, whose CID is in `missing` too; 31 where a
/// link stands below layer 0; 35 where keys don't ascend in a node that would be made, or more nodes are read than of a tree;
/// 251 where `out` has not the room; 252 for arguments that are none; 253 for a clash; 255 for want of memory.
#[unsafe(no_mangle)]
pub extern "C" fn tizulgech_tree_apply(
    alloc: Global,
    nodes: &[u8],
    node_ends: &[usize],
    cids: &[u8],
    root: &[u8],
    keys: &[u8],
    key_ends: &[usize],
    values: &[u8],
    missing: &mut [u8],
    out: &mut [u8],
    size: &mut usize,
) -> u8
    requires known { IfSome (cut 0 node_ends.now nodes.now) (AreKnown cids.now) }
    requires missing { length missing.old ≡ 36 }
    ensures edit { nat_eq result 255 ≡ false → IsEdited result missing.new out.old out.new size.new
        (cut 0 node_ends.now nodes.now) cids.now (cid_at root.now)
        (changes_in keys.now key_ends.now values.now) }
    ensures missing { ¬ (result ≡ 2) → ¬ (result ≡ 30) → missing.new ≡ missing.old }
    ensures kept { IsKept result out.old out.new size.old size.new }
{
    let Ok(nodes) = slices(alloc, nodes, node_ends) else {
        return NO_MEMORY;
    };
    let Some(nodes) = nodes else {
        return BAD;
    };
    let Some(root) = cid_in(root) else {
        return BAD;
    };
    let Ok(changes) = changes_at(alloc, keys, key_ends, values) else {
        return NO_MEMORY;
    };
    let Some(changes) = changes else {
        return BAD;
    };
    edit_over(alloc, &nodes, cids, root, &changes, missing, out, size)
}

/// The same of changes that a batch takes.
fn edit_over(
    alloc: Global,
    nodes: &[&[u8]],
    cids: &[u8],
    root: Cid,
    changes: &[Change<'_>],
    missing: &mut [u8],
    out: &mut [u8],
    size: &mut usize,
) -> u8
    requires changes { are_changes_of changes.now ≡ true }
    requires known { AreKnown cids.now (map (λ node. node.now) nodes.now) }
    requires missing { length missing.old ≡ 36 }
    ensures edit { nat_eq result 255 ≡ false →
        IsEditKnown result missing.new out.old out.new size.new
        (map (λ node. node.now) nodes.now) cids.now root changes.now }
    ensures missing { ¬ (result ≡ 2) → ¬ (result ≡ 30) → missing.new ≡ missing.old }
    ensures kept { IsKept result out.old out.new size.old size.new }
{
    let Ok(blocks) = blocks_of(alloc, nodes, cids) else {
        return NO_MEMORY;
    };
    let Some(blocks) = blocks else {
        return BAD;
    };
    edit_of_blocks(alloc, &blocks, root, changes, missing, out, size)
}

/// The same over the blocks of nodes.
fn edit_of_blocks(
    alloc: Global,
    blocks: &[Arc<Block<Sha256>>],
    root: Cid,
    changes: &[Change<'_>],
    missing: &mut [u8],
    out: &mut [u8],
    size: &mut usize,
) -> u8
    requires changes { are_changes_of changes.now ≡ true }
    requires missing { length missing.old ≡ 36 }
    ensures edit { nat_eq result 255 ≡ false →
        IsEditOver result missing.new out.old out.new size.new
        (map arc_value blocks.now) root changes.now }
    ensures missing { ¬ (result ≡ 2) → ¬ (result ≡ 30) → missing.new ≡ missing.old }
    ensures kept { IsKept result out.old out.new size.old size.new }
{
    let Ok(mut source) = BlockMap::new(alloc, blocks) else {
        return NO_MEMORY;
    };
    let answer = apply::<Sha256, 2, _, _>(alloc, &mut source, root, changes);
    tell(alloc, &answer, missing, out, size)
}

/// What an edit is told.
fn tell(
    alloc: Global,
    answer: &Result<BatchEdit<Sha256>, EditFault<Sha256>>,
    missing: &mut [u8],
    out: &mut [u8],
    size: &mut usize,
) -> u8
    requires { length missing.old ≡ 36 }
    ensures edit { IsEditTold result missing.new out.old out.new size.new answer.now }
    ensures missing { ¬ (result ≡ 2) → ¬ (result ≡ 30) → missing.new ≡ missing.old }
    ensures kept { IsKept result out.old out.new size.old size.new }
{
    match answer {
        Ok(edit) => match written(alloc, edit) {
            Ok(bytes) => hand(&bytes, out, size),
            Err(_) => NO_MEMORY,
        },
        Err(EditFault::Missing(cid)) => tell_node(MISSING, cid, missing),
        Err(EditFault::BadNode(cid)) => tell_node(BAD_NODE, cid, missing),
        Err(EditFault::TooDeep) => TOO_DEEP,
        Err(EditFault::NotTree) => NOT_TREE,
        Err(EditFault::NoSuchKey) => NONE,
        Err(EditFault::Clash(_)) => CLASH,
        Err(EditFault::NoMemory) => NO_MEMORY,
    }
}

/// An edit, spelt.
fn written(alloc: Global, edit: &BatchEdit<Sha256>) -> Result<Vec<u8>, AllocError>
    ensures { IfOk result (λ bytes. bytes.items ≡ edit_bytes edit.now.root
        edit.now.previous.items edit.now.drop.items (map arc_value edit.now.add.items)) }
{
    let mut bytes = Vec::from_slice(alloc, edit.root.as_bytes())?;
    push_values(&mut bytes, &edit.previous)?;
    push_number(&mut bytes, edit.drop.len() as u64)?;
    push_cids(&mut bytes, &edit.drop)?;
    push_nodes(&mut bytes, &edit.add)?;
    Ok(bytes)
}

/// Puts nodes at the end, each with its CID and its length in front.
pub(crate) fn push_nodes(
    bytes: &mut Vec<u8>,
    nodes: &[Arc<Block<Sha256>>],
) -> Result<(), AllocError>
    ensures { OnOk result (bytes.new.items
        ≡ bytes.old.items ++ blocks_bytes sha256 (map arc_value nodes.now)) }
{
    for node in nodes {
        push_block(bytes, node)?;
    }
    Ok(())
}

/// The changes of these keys: each gets the value at its place, or goes where 36 zeros stand there; or `None` where there are
/// more or fewer values, or one is neither.
pub(crate) fn changes_of<'k>(
    alloc: Global,
    keys: &[&'k [u8]],
    values: &[u8],
) -> Result<Option<Vec<Change<'k>>>, AllocError>
    ensures { IfOk result (λ changes. option_map (λ changes. changes.items) changes
        ≡ with_values cid_or_none_at (map (λ key. key.now) keys.now) values.now) }
{
    let mut changes = Vec::new(alloc);
    let mut rest = values;
    for key in keys {
        let (bytes, others) = next_value(rest);
        let Some(value) = value_in(bytes) else {
            return Ok(None);
        };
        changes.push(Change { key, value })?;
        rest = others;
    }
    if !rest.is_empty() {
        return Ok(None);
    }
    Ok(Some(changes))
}

/// The changes of a listing, where a batch takes them.
pub(crate) fn changes_at<'k>(
    alloc: Global,
    keys: &'k [u8],
    ends: &[usize],
    values: &[u8],
) -> Result<Option<Vec<Change<'k>>>, AllocError>
    ensures changes { IfOk result (λ changes. option_map (λ changes. changes.items) changes
        ≡ changes_in keys.now ends.now values.now) }
    ensures taken { IfOk result (λ changes. IfSome changes
        (λ changes. are_changes_of changes.items ≡ true)) }
{
    let Some(parts) = slices(alloc, keys, ends)? else {
        return Ok(None);
    };
    let Some(changes) = changes_of(alloc, &parts, values)? else {
        return Ok(None);
    };
    if !are_changes(&changes) {
        return Ok(None);
    }
    Ok(Some(changes))
}
