//! Whether given blocks show a step from one root to the next.

ghost use Rattle.std.specs.Prelude.{◌≡◌, ◌≤◌, true, map};
ghost use Rattle.std.specs.Arc.{arc_value};
ghost use Rattle.key_changes.specs.Keyed.{are_changes as are_changes_of};
ghost use Rattle.change_laws.specs.Told.{undone as undone_of};
ghost use Rattle.change_proofs.specs.StepVerdicts.{IsStepVerdict, IsStepRight, IsStepWhole, IsStepOfTree};

use crate::change_fault::ChangeFault;
use crate::turning::turned;
use crate::verifying_inversions::{verify_inversion, verify_inversion_blocks};
use block::Block;
use cid::{Cid, Digest};
use key_changes::KeyChange;
use std::alloc::Allocator;
use std::clone::Clone;
use std::convert::AsSlice;
use std::sync::Arc;

/// Whether the tree with the root `before` becomes that with the root `after` by these changes, as some nodes of the tree
/// before show.
///
/// Where the root before is that of some pairs, `Ok` says that the root after is that of these pairs with the changes done: so
/// it is the root of pairs again, and the next step can be verified from it. It says too that each key had the value that is
/// told before its change.
///
/// The answer is the verdict of `step_laws`, whatever blocks are given; `ChangeFault::NoMemory` alone, where memory was
/// refused, says nothing of them. `ChangeFault::OtherValue` has the place of the first change whose key has another value in
/// the tree before than the one that is told; `ChangeFault::OtherRoot` says that the changes lead to another root than the one
/// after. Where the blocks are all or some of those of the tree before, with the CID of none of its nodes on other bytes,
/// `ChangeFault::BadNode`, `ChangeFault::TooDeep` and `ChangeFault::NotTree` don't come, and `ChangeFault::BlockMissing` has the
/// CID of a node of that tree: who asks for it, and verifies again, gets on.
///
/// [`are_key_changes`](crate::are_key_changes) is the test of what it takes.
pub fn verify_change<D: Digest, const B: u8, A: Allocator + Clone, K: AsSlice<u8>>(
    alloc: A,
    before: Cid,
    after: Cid,
    blocks: &[K],
    changes: &[KeyChange<'_>],
) -> Result<(), ChangeFault>
    requires least { 1 ≤ B }
    requires changes { are_changes_of (undone_of changes.now) ≡ true }

    // The answer is the verdict, but for want of memory.
    ensures verdict { IsStepVerdict D.digest_of B before after (map K.items blocks.now)
        changes.now result }

    // Where the root before is that of some pairs, the root after is that of these pairs with the changes done.
    ensures right { IsStepRight D.digest_of B before after (map K.items blocks.now)
        changes.now result }

    // A true step is shown where the nodes are given that doing its changes reads.
    ensures comes { IsStepWhole D.digest_of B before after (map K.items blocks.now)
        changes.now result }

    // Where all or some blocks of the tree before are given, nothing is said against a block.
    ensures tree { IsStepOfTree D.digest_of B before after (map K.items blocks.now)
        changes.now result }
{
    let back = turned(alloc.clone()?, changes)?;
    verify_inversion::<D, B, A, K>(alloc, after, before, blocks, &back)
}

/// The same over blocks whose CIDs are known.
pub fn verify_change_blocks<D: Digest, const B: u8, A: Allocator + Clone>(
    alloc: A,
    before: Cid,
    after: Cid,
    blocks: &[Arc<Block<D, A>, A>],
    changes: &[KeyChange<'_>],
) -> Result<(), ChangeFault>
    requires least { 1 ≤ B }
    requires changes { are_changes_of (undone_of changes.now) ≡ true }
    ensures verdict { IsStepVerdict D.digest_of B before after (map arc_value blocks.now)
        changes.now result }
    ensures right { IsStepRight D.digest_of B before after (map arc_value blocks.now)
        changes.now result }
    ensures comes { IsStepWhole D.digest_of B before after (map arc_value blocks.now)
        changes.now result }
    ensures tree { IsStepOfTree D.digest_of B before after (map arc_value blocks.now)
        changes.now result }
{
    let back = turned(alloc.clone()?, changes)?;
    verify_inversion_blocks::<D, B, A>(alloc, after, before, blocks, &back)
}
