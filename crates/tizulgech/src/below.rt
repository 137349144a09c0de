//! Which nodes below a node are needed to change keys.

ghost use Rattle.std.specs.Prelude.{◌≡◌, ◌≤◌, ◌++◌, length, nat_eq, false, option_map, IfOk, OnOk};
ghost use Rattle.spec.specs.NodeFormat.{read_node};
ghost use Rattle.cid.specs.CidRef.{bytes_of};
ghost use Rattle.rows.specs.Entries.{shape_of};
ghost use Rattle.buffers.specs.Answers.{IsKept, number_bytes};
ghost use Rattle.tizulgech.specs.Below.{AreBelow, below_bytes, front_of, goes_first, link_bytes};
ghost use Rattle.tizulgech.specs.Numbers.{IsHandedOr255};
ghost use Rattle.tizulgech.specs.Trees.{changes_in};

use crate::codes::{BAD, BAD_NODE, NO_MEMORY};
use crate::edits::changes_at;
use buffers::{hand, push_number};
use cid::CidRef;
use edit::Change;
use node::{KeyBuf, NodeView};
use rows::KeyedEntries;
use std::alloc::{AllocError, Global};
use std::cmp::Ordering;

/// Which nodes below the node of these bytes are needed to change these keys, given as `tizulgech_tree_apply` takes them: of each
/// link that changes go below its CID, the number of the first of them, and how many they are.
///
/// A change goes below the link where its key would stand. A key that goes is followed on both sides, where it stands in the node or
/// beside it further up: so the nodes that are put together where it was are needed too. A host goes down from a root, with the
/// changes that go below each node, and reads each node once. 0; 30 where the bytes are no node; 251; 252 for arguments that are
/// none; 255.
#[unsafe(no_mangle)]
pub extern "C" fn tizulgech_below(
    alloc: Global,
    node: &[u8],
    keys: &[u8],
    key_ends: &[usize],
    values: &[u8],
    out: &mut [u8],
    size: &mut usize,
) -> u8
    ensures below { nat_eq result 255 ≡ false → AreBelow result (read_node node.now)
        (changes_in keys.now key_ends.now values.now) out.old out.new size.new }
    ensures kept { IsKept result out.old out.new size.old size.new }
{
    let Ok(view) = NodeView::parse(node) else {
        return BAD_NODE;
    };
    let Ok(changes) = changes_at(alloc, keys, key_ends, values) else {
        return NO_MEMORY;
    };
    let Some(changes) = changes else {
        return BAD;
    };
    below_told(alloc, &view, &changes, out, size)
}

/// The same of a node and changes.
fn below_told(
    alloc: Global,
    view: &NodeView<'_>,
    changes: &[Change<'_>],
    out: &mut [u8],
    size: &mut usize,
) -> u8
    ensures below { IsHandedOr255 result (below_bytes (shape_of view.now) 0 changes.now)
        out.old out.new size.new }
    ensures kept { IsKept result out.old out.new size.old size.new }
{
    match below_of(alloc, view, changes) {
        Ok(bytes) => hand(&bytes, out, size),
        Err(_) => NO_MEMORY,
    }
}

/// The links with their changes, spelt.
#[tactic(auto, using(crate::proofs::Going::below_next, crate::proofs::Going::below_done))]
fn below_of(
    alloc: Global,
    view: &NodeView<'_>,
    changes: &[Change<'_>],
) -> Result<Vec<u8>, AllocError>
    ensures { IfOk result (λ bytes. bytes.items ≡ below_bytes (shape_of view.now) 0 changes.now) }
{
    let mut bytes = Vec::new(alloc);
    let mut rows = KeyedEntries::of(view, KeyBuf::new(alloc)?);
    let mut place = 0;
    loop {
        let link = rows.link();
        if rows.next().is_none() {
            push_link(&mut bytes, link, place, changes.len() - place)?;
            return Ok(bytes);
        }
        let left = &changes[place..];
        push_link(&mut bytes, link, place, front(left, rows.key(), true))?;
        place += front(left, rows.key(), false);
    }
}

/// Puts a link that changes go below at the end, with the number of the first of them and how many they are.
#[tactic(auto, using(crate::proofs::Going::link_none, crate::proofs::Going::link_spelt))]
fn push_link(
    bytes: &mut Vec<u8>,
    link: Option<CidRef<'_>>,
    first: usize,
    count: usize,
) -> Result<(), AllocError>
    ensures { OnOk result (bytes.new.items
        ≡ bytes.old.items ++ link_bytes (option_map bytes_of link.entry) first count) }
{
    let Some(cid) = link else {
        return Ok(());
    };
    if count < 1 {
        return Ok(());
    }
    bytes.extend_from_slice(cid.as_bytes())?;
    push_run(bytes, first, count)?;
    Ok(())
}

/// Puts the number of the first of some changes at the end, and how many they are.
fn push_run(bytes: &mut Vec<u8>, first: usize, count: usize) -> Result<(), AllocError>
    ensures { OnOk result
        (bytes.new.items ≡ bytes.old.items ++ (number_bytes first ++ number_bytes count)) }
{
    push_number(bytes, first as u64)?;
    push_number(bytes, count as u64)?;
    Ok(())
}

/// How many changes at the front stand before a key, or at it and are changes by which it goes, or, where `goes` is false, by which
/// it doesn't.
#[tactic(auto, using(crate::proofs::Going::front_next, crate::proofs::Going::front_stops, crate::proofs::Going::front_done))]
fn front(changes: &[Change<'_>], key: &[u8], goes: bool) -> usize
    ensures value { result ≡ front_of goes key.now changes.now }
    ensures within { result ≤ length changes.now }
{
    let mut count = 0;
    for change in changes {
        if !is_first(change, key, goes) {
            return count;
        }
        count += 1;
    }
    count
}

/// Whether a change is one of those.
fn is_first(change: &Change<'_>, key: &[u8], goes: bool) -> bool
    ensures { result ≡ goes_first goes key.now change.now }
{
    match change.key.cmp(key) {
        Ordering::Less => true,
        Ordering::Equal => change.value.is_none() == goes,
        Ordering::Greater => false,
    }
}
