//! Changes that are not shown.

use crate::fixtures::{Blocks, Both, add_others, two_trees, value, verified};
use change_proofs::{ChangeFault, KeyChange};
use cid::Cid;
use std::alloc::{AllocError, Global};

/// The block that is told as missing, if one is.
pub(crate) fn missing_in(answer: &Result<(), ChangeFault>) -> Option<Cid> {
    match answer {
        Err(ChangeFault::BlockMissing(cid)) => Some(*cid),
        _ => None,
    }
}

/// The place whose value is told as another, if one is.
pub(crate) fn other_value_in(answer: &Result<(), ChangeFault>) -> Option<usize> {
    match answer {
        Err(ChangeFault::OtherValue(place)) => Some(*place),
        _ => None,
    }
}

/// Whether another root is told.
pub(crate) fn is_other_root(answer: &Result<(), ChangeFault>) -> bool {
    match answer {
        Err(ChangeFault::OtherRoot) => true,
        _ => false,
    }
}

/// The blocks of the tree after, but for the one of this CID.
fn without(alloc: Global, both: &Both, cid: Cid) -> Result<Blocks, AllocError> {
    let mut blocks = Vec::new(alloc);
    add_others(&mut blocks, &both.after.blocks, Some(cid))?;
    Ok(blocks)
}

/// What is told where this block is left out.
fn told_without(alloc: Global, both: &Both, cid: Cid) -> Result<(), ChangeFault> {
    let blocks = without(alloc, both, cid)?;
    verified(
        alloc,
        both.before.root,
        both.after.root,
        &blocks,
        &both.changes,
    )
}

/// Whether a proof without this block tells that it is missing; none where it tells something else, or needs it not.
fn is_missed(alloc: Global, both: &Both, cid: Cid) -> Option<bool> {
    let answer = told_without(alloc, both, cid);
    if answer.is_ok() {
        return Some(false);
    }
    if missing_in(&answer) == Some(cid) {
        Some(true)
    } else {
        None
    }
}

/// How many blocks of the tree after are needed, where each of them is told as missing once it is left out.
fn count_needed(alloc: Global, both: &Both) -> Option<usize> {
    let mut needed = 0usize;
    for block in &both.after.blocks {
        if is_missed(alloc, both, block.cid())? {
            needed = needed.saturating_add(1);
        }
    }
    Some(needed)
}

/// Whether more than three are needed.
fn each_is_missed(alloc: Global, both: &Both) -> bool {
    match count_needed(alloc, both) {
        Some(needed) => 3 < needed,
        None => false,
    }
}

#[test]
fn a_block_is_missing(rt: HostRuntime) {
    let both = two_trees(rt.alloc()).expect(&rt, "two trees");
    assert!(rt; each_is_missed(rt.alloc(), &both));
}

/// Which value of a change is another.
#[derive(Clone, Copy)]
pub(crate) enum Part {
    Before,
    After,
}

/// A change with another value.
fn with_other(change: &KeyChange<'static>, part: Part) -> KeyChange<'static> {
    match part {
        Part::Before => KeyChange {
            key: change.key,
            before: Some(value(7)),
            after: change.after,
        },
        Part::After => KeyChange {
            key: change.key,
            before: change.before,
            after: Some(value(7)),
        },
    }
}

/// A change as it is.
fn same(change: &KeyChange<'static>) -> KeyChange<'static> {
    KeyChange {
        key: change.key,
        before: change.before,
        after: change.after,
    }
}

/// The changes, of which the one at a place is altered.
pub(crate) fn with_altered(
    alloc: Global,
    changes: &[KeyChange<'static>],
    place: usize,
    part: Part,
) -> Result<Vec<KeyChange<'static>>, AllocError> {
    let mut others = Vec::new(alloc);
    for (number, change) in changes.iter().enumerate() {
        if number == place {
            others.push(with_other(change, part))?;
        } else {
            others.push(same(change))?;
        }
    }
    Ok(others)
}

/// What is told of the changes where the one at a place is altered.
fn told_of(alloc: Global, both: &Both, place: usize, part: Part) -> Result<(), ChangeFault> {
    let changes = with_altered(alloc, &both.changes, place, part)?;
    verified(
        alloc,
        both.before.root,
        both.after.root,
        &both.after.blocks,
        &changes,
    )
}

/// Whether another value after the change at each place is told with the place.
fn each_value_is_told(alloc: Global, both: &Both) -> bool {
    for place in 0..both.changes.len() {
        let answer = told_of(alloc, both, place, Part::After);
        if other_value_in(&answer) != Some(place) {
            return false;
        }
    }
    true
}

#[test]
fn another_value_is_told(rt: HostRuntime) {
    let both = two_trees(rt.alloc()).expect(&rt, "two trees");
    assert!(rt; each_value_is_told(rt.alloc(), &both));
}

/// Whether another value before the change at each place leads to another root.
fn each_root_is_told(alloc: Global, both: &Both) -> bool {
    for place in 0..both.changes.len() {
        let answer = told_of(alloc, both, place, Part::Before);
        if !is_other_root(&answer) {
            return false;
        }
    }
    true
}

#[test]
fn another_root_is_told(rt: HostRuntime) {
    let both = two_trees(rt.alloc()).expect(&rt, "two trees");
    assert!(rt; each_root_is_told(rt.alloc(), &both));
}
