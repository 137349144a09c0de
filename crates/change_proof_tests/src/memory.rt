//! A proof of a change where memory is refused.

ghost use Rattle.std.specs.Prelude.{◌≡◌, true};
ghost use Rattle.key_changes.specs.Keyed.{are_changes as are_changes_of};
ghost use Rattle.change_laws.specs.Told.{undone as undone_of};

use crate::fixtures::{Side, changes, tree_of};
use change_proofs::{ChangeFault, KeyChange, are_key_changes, verify_change, verify_inversion};
use cid::Cid;
use cid::digests::Toy;
use refusing::Refusing;
use std::alloc::{AllocError, Global};

/// Memory that refuses requests.
type Heap<'h> = &'h Refusing<Global>;

/// What blocks of the tree of a side say of the changes: those before are done, those after undone.
fn answer_of<'h>(
    heap: Heap<'h>,
    side: Side,
    before: Cid,
    after: Cid,
    blocks: &[Vec<u8>],
    changes: &[KeyChange<'_>],
) -> Result<(), ChangeFault>
    requires { are_changes_of (undone_of changes.now) ≡ true }
{
    match side {
        Side::Before => {
            verify_change::<Toy, 2, Heap<'h>, Vec<u8>>(heap, before, after, blocks, changes)
        }
        Side::After => {
            verify_inversion::<Toy, 2, Heap<'h>, Vec<u8>>(heap, before, after, blocks, changes)
        }
    }
}

/// What a proof says, by how it ended; none where not all memory is back.
fn is_shown_without<'h>(
    heap: Heap<'h>,
    side: Side,
    before: Cid,
    after: Cid,
    blocks: &[Vec<u8>],
    changes: &[KeyChange<'_>],
    request: u64,
) -> Option<bool> {
    let live = heap.live();
    if !are_key_changes(changes) {
        return None;
    }
    heap.refuse(request);
    let answer = answer_of(heap, side, before, after, blocks, changes);
    let is_shown = match answer {
        Ok(()) => true,
        Err(ChangeFault::NoMemory) => false,
        Err(_) => return None,
    };
    if heap.live() == live {
        Some(is_shown)
    } else {
        None
    }
}

/// Whether it ends for want of memory alone, where each request in turn is refused, and is done once that is none of its own.
fn is_shown_at_last(
    heap: &Refusing<Global>,
    side: Side,
    before: Cid,
    after: Cid,
    blocks: &[Vec<u8>],
    changes: &[KeyChange<'_>],
) -> bool {
    for request in 1..9_999u64 {
        match is_shown_without(heap, side, before, after, blocks, changes, request) {
            Some(true) => return 30 < request && heap.refused() == request - 1,
            Some(false) if heap.refused() == request => {}
            _ => return false,
        }
    }
    false
}

/// The bytes of the tree of a side, and both roots.
fn proof(alloc: Global, side: Side) -> Option<(Cid, Cid, Vec<Vec<u8>>)> {
    let before = tree_of(alloc, Side::Before)?;
    let after = tree_of(alloc, Side::After)?;
    let own = tree_of(alloc, side)?;
    let mut lists = Vec::new(alloc);
    for block in &own.blocks {
        lists
            .push(Vec::from_slice(alloc, block.bytes()).ok()?)
            .ok()?;
    }
    Some((before.root, after.root, lists))
}

/// Whether all of this holds.
fn is_shown_without_memory(alloc: Global, side: Side) -> bool {
    let heap = Refusing::new(alloc);
    let changes: Result<Vec<KeyChange<'static>>, AllocError> = changes(alloc);
    match (proof(alloc, side), changes) {
        (Some((before, after, blocks)), Ok(changes)) => {
            is_shown_at_last(&heap, side, before, after, &blocks, &changes)
        }
        _ => false,
    }
}

#[test]
fn a_proof_without_memory(rt: HostRuntime) {
    assert!(rt; is_shown_without_memory(rt.alloc(), Side::Before));
    assert!(rt; is_shown_without_memory(rt.alloc(), Side::After));
}
