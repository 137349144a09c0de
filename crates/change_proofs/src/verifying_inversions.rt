//! Whether given blocks show some changes, which are undone.

ghost use Rattle.std.specs.Prelude.{◌≡◌, ◌≤◌, true, map, None};
ghost use Rattle.std.specs.Arc.{arc_value};
ghost use Rattle.key_changes.specs.Keyed.{are_changes as are_changes_of};
ghost use Rattle.change_laws.specs.Told.{undone as undone_of};
ghost use Rattle.change_proofs.specs.Verdicts.{IsJudged, judgement, told_of, IsSaidOver, IsVerdict, IsRight, IsWhole, IsOfTree};

use crate::change_fault::ChangeFault;
use crate::given_blocks::blocks_of;
use crate::undoing::undone;
use crate::values::first_other;
use block::Block;
use cid::{Cid, Digest};
use edit::preview;
use key_changes::KeyChange;
use lookups::{BlockMap, Source};
use std::alloc::Allocator;
use std::clone::Clone;
use std::convert::AsSlice;
use std::sync::Arc;

/// Whether these changes undone lead from the root `after` back to the root `before`, as some nodes of the tree after show. An
/// `Ok` speaks only of whatever pairs have the root after; of a root that no pairs have it says nothing, and one can be made up
/// that hides keys. Who goes on from root to root takes [`verify_change`](crate::verify_change).
///
/// It is the operation inversion of the event stream. The answer is the verdict of `change_laws`, whatever blocks are given;
/// `ChangeFault::NoMemory` alone, where memory was refused, says nothing of them. Where they are all or some of a tree's, with
/// the CID of none of its nodes on other bytes, `ChangeFault::BadNode`, `ChangeFault::TooDeep` and `ChangeFault::NotTree` don't
/// come, and `ChangeFault::BlockMissing` has the CID of a node of it.
///
/// [`are_key_changes`](crate::are_key_changes) is the test of what it takes.
pub fn verify_inversion<D: Digest, const B: u8, A: Allocator + Clone, K: AsSlice<u8>>(
    alloc: A,
    before: Cid,
    after: Cid,
    blocks: &[K],
    changes: &[KeyChange<'_>],
) -> Result<(), ChangeFault>
    requires least { 1 ≤ B }
    requires changes { are_changes_of (undone_of changes.now) ≡ true }

    // The answer is the verdict, but for want of memory.
    ensures verdict { IsVerdict D.digest_of B before after (map K.items blocks.now)
        changes.now result }

    // Changes that are shown are true of the pairs of each tree with this root.
    ensures right { IsRight D.digest_of B before after (map K.items blocks.now)
        changes.now result }

    // Changes that are true are shown where the nodes are given that undoing reads.
    ensures comes { IsWhole D.digest_of B before after (map K.items blocks.now)
        changes.now result }

    // Where all or some blocks of a tree are given, nothing is said against a block.
    ensures tree { IsOfTree D.digest_of B before after (map K.items blocks.now)
        changes.now result }
{
    let own = blocks_of::<D, A, K>(alloc.clone()?, blocks)?;
    verify_inversion_blocks::<D, B, A>(alloc, before, after, &own, changes)
}

/// The same over blocks whose CIDs are known.
pub fn verify_inversion_blocks<D: Digest, const B: u8, A: Allocator + Clone>(
    alloc: A,
    before: Cid,
    after: Cid,
    blocks: &[Arc<Block<D, A>, A>],
    changes: &[KeyChange<'_>],
) -> Result<(), ChangeFault>
    requires least { 1 ≤ B }
    requires changes { are_changes_of (undone_of changes.now) ≡ true }
    ensures verdict { IsVerdict D.digest_of B before after (map arc_value blocks.now)
        changes.now result }
    ensures right { IsRight D.digest_of B before after (map arc_value blocks.now)
        changes.now result }
    ensures comes { IsWhole D.digest_of B before after (map arc_value blocks.now)
        changes.now result }
    ensures tree { IsOfTree D.digest_of B before after (map arc_value blocks.now)
        changes.now result }
{
    let mut source = BlockMap::new(alloc.clone()?, blocks)?;
    verify_over::<D, B, A, BlockMap<'_, D, A>>(alloc, before, after, &mut source, changes)
}

/// The same over a source of blocks.
fn verify_over<
    'a,
    D: Digest + 'a,
    const B: u8,
    A: Allocator + Clone + 'a,
    S: Source<&'a Arc<Block<D, A>, A>>,
>(
    alloc: A,
    before: Cid,
    after: Cid,
    src: &mut S,
    changes: &[KeyChange<'_>],
) -> Result<(), ChangeFault>
    requires least { 1 ≤ B }
    requires changes { are_changes_of (undone_of changes.now) ≡ true }
    ensures { IsSaidOver D.digest_of B (S.gives src.old) before after changes.now result }
{
    let undone = undone(alloc.clone()?, changes)?;
    let found = preview::<D, B, A, S>(alloc, src, after, &undone)?;
    judged(first_other(&found.previous, changes), &found.root, &before)
}

/// What is to be said where the key of the change at a place has another value, or each the one that is told, and the changes
/// undone lead to this root.
fn judged(other: Option<usize>, old: &Cid, before: &Cid) -> Result<(), ChangeFault>
    ensures { IsJudged (judgement (told_of other) old.now before.now) result }
{
    match other {
        Some(place) => Err(ChangeFault::OtherValue(place)),
        None => compared(old, before),
    }
}

/// What is to be said where the changes undone lead to this root.
fn compared(old: &Cid, before: &Cid) -> Result<(), ChangeFault>
    ensures { IsJudged (judgement (told_of None) old.now before.now) result }
{
    if old == before {
        return Ok(());
    }
    Err(ChangeFault::OtherRoot)
}
