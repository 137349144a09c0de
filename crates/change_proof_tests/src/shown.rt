//! Changes that are shown.

use crate::fixtures::{Both, KEYS, add_others, two_trees, value, verified};
use change_proofs::{KeyChange, are_key_changes, verify_inversion};
use cid::Cid;
use cid::digests::Toy;
use std::alloc::{AllocError, Global};

/// Whether they are shown by the blocks of the tree after.
fn are_shown(alloc: Global, both: &Both) -> bool {
    verified(
        alloc,
        both.before.root,
        both.after.root,
        &both.after.blocks,
        &both.changes,
    )
    .is_ok()
}

#[test]
fn true_changes_are_shown(rt: HostRuntime) {
    let both = two_trees(rt.alloc()).expect(&rt, "two trees");
    assert!(rt; are_shown(rt.alloc(), &both));
}

/// Whether they are shown by blocks among which those of the tree before stand, too.
fn is_shown_among_others(alloc: Global, both: &Both) -> bool {
    let mut blocks = Vec::new(alloc);
    if add_others(&mut blocks, &both.before.blocks, None).is_err()
        || add_others(&mut blocks, &both.after.blocks, None).is_err()
    {
        return false;
    }
    verified(
        alloc,
        both.before.root,
        both.after.root,
        &blocks,
        &both.changes,
    )
    .is_ok()
}

#[test]
fn blocks_of_strangers_change_nothing(rt: HostRuntime) {
    let both = two_trees(rt.alloc()).expect(&rt, "two trees");
    assert!(rt; is_shown_among_others(rt.alloc(), &both));
}

/// The bytes of the blocks of the tree after.
fn bytes_after(alloc: Global, both: &Both) -> Result<Vec<Vec<u8>>, AllocError> {
    let mut lists = Vec::new(alloc);
    for block in &both.after.blocks {
        lists.push(Vec::from_slice(alloc, block.bytes())?)?;
    }
    Ok(lists)
}

/// Whether their bytes alone show it.
fn is_shown_by_bytes(alloc: Global, both: &Both) -> bool {
    let Ok(bytes) = bytes_after(alloc, both) else {
        return false;
    };
    if !are_key_changes(&both.changes) {
        return false;
    }
    verify_inversion::<Toy, 2, _, Vec<u8>>(
        alloc,
        both.before.root,
        both.after.root,
        &bytes,
        &both.changes,
    )
    .is_ok()
}

#[test]
fn bytes_show_it(rt: HostRuntime) {
    let both = two_trees(rt.alloc()).expect(&rt, "two trees");
    assert!(rt; is_shown_by_bytes(rt.alloc(), &both));
}

/// One change, of the key at a place.
fn one_change(place: u8, after: Option<Cid>) -> KeyChange<'static> {
    KeyChange {
        key: KEYS[place as usize % 48],
        before: None,
        after,
    }
}

#[test]
fn keys_that_do_not_ascend_are_no_changes(rt: HostRuntime) {
    let changes = [one_change(4, Some(value(1))), one_change(3, None)];
    assert!(rt; !are_key_changes(&changes));
    let twice = [one_change(4, Some(value(1))), one_change(4, None)];
    assert!(rt; !are_key_changes(&twice));
}
