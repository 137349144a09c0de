//! Whether some nodes show changes between two roots: done on the tree before, or undone on the tree after, as the event stream
//! does it.

ghost use Rattle.std.specs.Prelude.{◌≡◌, length, map, true, false, nat_eq};
ghost use Rattle.key_changes.specs.Keyed.{are_changes as are_changes_of};
ghost use Rattle.change_laws.specs.Told.{undone as undone_of};
ghost use Rattle.buffers.specs.Framing.{cid_at, cut};
ghost use Rattle.tizulgech.specs.Changing.{told_in, IsAnswer, IsVerdictOver, IsVerified};
ghost use Rattle.tizulgech.specs.declared.verdicts.Direction.TheVariants.{Forward, Back};

use crate::codes::{BAD, NO_MEMORY};
use crate::told_changes::{tell_verdict, told_at};
use buffers::{cid_in, slices};
use change_proofs::{ChangeFault, KeyChange, verify_change, verify_inversion};
use cid::{Cid, Sha256};
use std::alloc::Global;

/// Which way changes lead between two roots.
#[derive(Clone, Copy)]
pub(crate) enum Direction {
    /// They are done, on nodes of the tree before.
    Forward,
    /// They are undone, on nodes of the tree after.
    Back,
}

/// Whether the tree with the root `before` becomes that with the root `after` by these changes, as nodes of the tree before
/// show.
///
/// Where the root before is that of some pairs, 0 says that the root after is that of these pairs with the changes done: so it
/// is the root of pairs again, and the next step can be verified from it.
///
/// A key had the value of 36 bytes at its place among `befores`, and has that among `afters`; 36 zeros stand for none. The keys
/// have 1 to 1,024 bytes and ascend strictly. 0 where the step is shown; 2 where a node is missing, whose CID is then in
/// `missing`; 30 where a node that is needed is none, whose CID is in `missing` too; 31 where a link stands below layer 0; 33
/// where a key had another value in the tree before, and `place` is that of its change; 34 where the changes lead to another
/// root; 35 where keys don't ascend in a node that would be made, or more nodes are read than of a tree; 252 for arguments that
/// are none; 255 for want of memory.
#[unsafe(no_mangle)]
pub extern "C" fn tizulgech_verify_change(
    alloc: Global,
    nodes: &[u8],
    node_ends: &[usize],
    before: &[u8],
    after: &[u8],
    keys: &[u8],
    key_ends: &[usize],
    befores: &[u8],
    afters: &[u8],
    missing: &mut [u8],
    place: &mut usize,
) -> u8
    requires { length missing.old ≡ 36 }
    ensures verdict { nat_eq result 255 ≡ false → IsVerified Forward result missing.new place.new
        (cut 0 node_ends.now nodes.now) (cid_at before.now) (cid_at after.now)
        (told_in keys.now key_ends.now befores.now afters.now) }
    ensures missing { ¬ (result ≡ 2) → ¬ (result ≡ 30) → missing.new ≡ missing.old }
    ensures place { ¬ (result ≡ 33) → place.new ≡ place.old }
{
    verified(
        alloc,
        Direction::Forward,
        nodes,
        node_ends,
        before,
        after,
        keys,
        key_ends,
        befores,
        afters,
        missing,
        place,
    )
}

/// Whether these changes undone lead from the tree with the root `after` back to the root `before`, as nodes of the tree after
/// show.
///
/// 0 speaks only of whatever pairs have the root after. Of a root that no pairs have it says nothing, and one can be made up
/// that hides keys: who goes on from root to root calls `tizulgech_verify_change`. It is the operation inversion of the event
/// stream.
///
/// The changes are given as `tizulgech_verify_change` takes them, and the numbers are the same, with both trees exchanged: 33
/// where a key has another value in the tree after, and 34 where the changes undone lead to another root than the one before.
#[unsafe(no_mangle)]
pub extern "C" fn tizulgech_verify_inversion(
    alloc: Global,
    nodes: &[u8],
    node_ends: &[usize],
    before: &[u8],
    after: &[u8],
    keys: &[u8],
    key_ends: &[usize],
    befores: &[u8],
    afters: &[u8],
    missing: &mut [u8],
    place: &mut usize,
) -> u8
    requires { length missing.old ≡ 36 }
    ensures verdict { nat_eq result 255 ≡ false → IsVerified Back result missing.new place.new
        (cut 0 node_ends.now nodes.now) (cid_at before.now) (cid_at after.now)
        (told_in keys.now key_ends.now befores.now afters.now) }
    ensures missing { ¬ (result ≡ 2) → ¬ (result ≡ 30) → missing.new ≡ missing.old }
    ensures place { ¬ (result ≡ 33) → place.new ≡ place.old }
{
    verified(
        alloc,
        Direction::Back,
        nodes,
        node_ends,
        before,
        after,
        keys,
        key_ends,
        befores,
        afters,
        missing,
        place,
    )
}

/// What is told of such arguments, in a direction.
fn verified(
    alloc: Global,
    direction: Direction,
    nodes: &[u8],
    node_ends: &[usize],
    before: &[u8],
    after: &[u8],
    keys: &[u8],
    key_ends: &[usize],
    befores: &[u8],
    afters: &[u8],
    missing: &mut [u8],
    place: &mut usize,
) -> u8
    requires { length missing.old ≡ 36 }
    ensures verdict { nat_eq result 255 ≡ false → IsVerified direction result missing.new place.new
        (cut 0 node_ends.now nodes.now) (cid_at before.now) (cid_at after.now)
        (told_in keys.now key_ends.now befores.now afters.now) }
    ensures missing { ¬ (result ≡ 2) → ¬ (result ≡ 30) → missing.new ≡ missing.old }
    ensures place { ¬ (result ≡ 33) → place.new ≡ place.old }
{
    let Ok(nodes) = slices(alloc, nodes, node_ends) else {
        return NO_MEMORY;
    };
    let Some(nodes) = nodes else {
        return BAD;
    };
    let Some(before) = cid_in(before) else {
        return BAD;
    };
    let Some(after) = cid_in(after) else {
        return BAD;
    };
    let Ok(changes) = told_at(alloc, keys, key_ends, befores, afters) else {
        return NO_MEMORY;
    };
    let Some(changes) = changes else {
        return BAD;
    };
    verified_over(
        alloc, direction, &nodes, before, after, &changes, missing, place,
    )
}

/// The same of changes that a verdict takes.
fn verified_over(
    alloc: Global,
    direction: Direction,
    nodes: &[&[u8]],
    before: Cid,
    after: Cid,
    changes: &[KeyChange<'_>],
    missing: &mut [u8],
    place: &mut usize,
) -> u8
    requires changes { are_changes_of (undone_of changes.now) ≡ true }
    requires missing { length missing.old ≡ 36 }
    ensures verdict { nat_eq result 255 ≡ false → IsVerdictOver direction result missing.new
        place.new (map (λ node. node.now) nodes.now) before after changes.now }
    ensures missing { ¬ (result ≡ 2) → ¬ (result ≡ 30) → missing.new ≡ missing.old }
    ensures place { ¬ (result ≡ 33) → place.new ≡ place.old }
{
    let answer = verdict(alloc, direction, nodes, before, after, changes);
    tell_verdict(&answer, missing, place)
}

/// The verdict itself.
fn verdict(
    alloc: Global,
    direction: Direction,
    nodes: &[&[u8]],
    before: Cid,
    after: Cid,
    changes: &[KeyChange<'_>],
) -> Result<(), ChangeFault>
    requires { are_changes_of (undone_of changes.now) ≡ true }
    ensures { IsAnswer direction (map (λ node. node.now) nodes.now) before after changes.now
        result }
{
    match direction {
        Direction::Forward => {
            verify_change::<Sha256, 2, _, _>(alloc, before, after, nodes, changes)
        }
        Direction::Back => {
            verify_inversion::<Sha256, 2, _, _>(alloc, before, after, nodes, changes)
        }
    }
}
