//! Changes of keys between two roots: how they are read, and how a verdict on them is told.

ghost use Rattle.std.specs.Prelude.{◌≡◌, length, true, option_map, IfOk, IfSome};
ghost use Rattle.key_changes.specs.Keyed.{are_changes as are_changes_of};
ghost use Rattle.change_laws.specs.Told.{undone as undone_of};
ghost use Rattle.buffers.specs.Framing.{cut};
ghost use Rattle.tizulgech.specs.Changing.{both_told, paired_changes, told_in, IsVerdictTold};

use crate::codes::{BAD_NODE, MISSING, NO_MEMORY, NOT_TREE, TOO_DEEP, tell_node};
use crate::edits::changes_of;
use buffers::{DONE, slices};
use change_proofs::{ChangeFault, KeyChange, are_key_changes};
use edit::Change;
use std::alloc::{AllocError, Global};

/// The key of a change has another value in the tree whose nodes are given.
pub(crate) const OTHER_VALUE: u8 = 33;
/// The changes lead to another root.
pub(crate) const OTHER_ROOT: u8 = 34;

/// What a verdict is told.
pub(crate) fn tell_verdict(
    answer: &Result<(), ChangeFault>,
    missing: &mut [u8],
    place: &mut usize,
) -> u8
    requires { length missing.old ≡ 36 }
    ensures verdict { IsVerdictTold result missing.new place.new answer.now }
    ensures missing { ¬ (result ≡ 2) → ¬ (result ≡ 30) → missing.new ≡ missing.old }
    ensures place { ¬ (result ≡ 33) → place.new ≡ place.old }
{
    match answer {
        Ok(()) => DONE,
        Err(ChangeFault::BlockMissing(cid)) => tell_node(MISSING, cid, missing),
        Err(ChangeFault::BadNode(cid)) => tell_node(BAD_NODE, cid, missing),
        Err(ChangeFault::TooDeep) => TOO_DEEP,
        Err(ChangeFault::NotTree) => NOT_TREE,
        Err(ChangeFault::OtherValue(at)) => {
            *place = *at;
            OTHER_VALUE
        }
        Err(ChangeFault::OtherRoot) => OTHER_ROOT,
        Err(ChangeFault::NoMemory) => NO_MEMORY,
    }
}

/// The changes of a listing with the values before and after them, where a verdict takes them.
pub(crate) fn told_at<'k>(
    alloc: Global,
    keys: &'k [u8],
    ends: &[usize],
    befores: &[u8],
    afters: &[u8],
) -> Result<Option<Vec<KeyChange<'k>>>, AllocError>
    ensures told { IfOk result (λ changes. option_map (λ changes. changes.items) changes
        ≡ told_in keys.now ends.now befores.now afters.now) }
    ensures taken { IfOk result (λ changes. IfSome changes
        (λ changes. are_changes_of (undone_of changes.items) ≡ true)) }
{
    let Some(changes) = told_as_they_stand(alloc, keys, ends, befores, afters)? else {
        return Ok(None);
    };
    if !are_key_changes(&changes) {
        return Ok(None);
    }
    Ok(Some(changes))
}

/// The same in any order of the keys.
fn told_as_they_stand<'k>(
    alloc: Global,
    keys: &'k [u8],
    ends: &[usize],
    befores: &[u8],
    afters: &[u8],
) -> Result<Option<Vec<KeyChange<'k>>>, AllocError>
    ensures { IfOk result (λ changes. option_map (λ changes. changes.items) changes
        ≡ both_told (cut 0 ends.now keys.now) befores.now afters.now) }
{
    let Some(parts) = slices(alloc, keys, ends)? else {
        return Ok(None);
    };
    let Some(befores) = changes_of(alloc, &parts, befores)? else {
        return Ok(None);
    };
    let Some(afters) = changes_of(alloc, &parts, afters)? else {
        return Ok(None);
    };
    if befores.len() != afters.len() {
        return Ok(None);
    }
    Ok(Some(key_changes(alloc, &befores, &afters)?))
}

/// The changes from what keys had to what they have.
fn key_changes<'k>(
    alloc: Global,
    befores: &[Change<'k>],
    afters: &[Change<'k>],
) -> Result<Vec<KeyChange<'k>>, AllocError>
    requires { length befores.now ≡ length afters.now }
    ensures { IfOk result (λ changes. changes.items ≡ paired_changes befores.now afters.now) }
{
    let mut changes = Vec::with_capacity(alloc, befores.len())?;
    let mut place = 0;
    while place < befores.len() {
        changes.push(key_change(&befores[place], &afters[place]))?;
        place += 1;
    }
    Ok(changes)
}

/// The change from what a key had to what it has.
fn key_change<'k>(before: &Change<'k>, after: &Change<'k>) -> KeyChange<'k>
    ensures { result ≡ record {
      key = before.now.0;
      before = before.now.1;
      after = after.now.1;
    } }
{
    KeyChange {
        key: before.key,
        before: before.value,
        after: after.value,
    }
}
