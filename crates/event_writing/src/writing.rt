//! The message of a batch.

ghost use Rattle.std.specs.Prelude.{◌≡◌, ◌≤◌, true, IfOk};
ghost use Rattle.spec.specs.Reading.{Gives};
ghost use Rattle.key_changes.specs.Keyed.{are_changes};
ghost use Rattle.change_laws.specs.Told.{undone};
ghost use Rattle.batches.specs.Values.{stamp_of};
ghost use Rattle.event_writing_laws.specs.Messages.{batch_message, commit_over};
ghost use Rattle.event_writing.specs.Views.{told_of, untold_fault_of};
ghost use Rattle.event_writing.specs.Sources.{OfRecords};
ghost use Rattle.event_writing.specs.Steps.{IsTaken, message_with as message_with_commit, stamped_message as message_stamped};

use crate::fault::UntoldFault;
use crate::file::left_file;
use crate::message::message;
use crate::ops::told_ops;
use crate::told::{Told, test_told};
use batches::{Stamp, last_stamp, signed_block};
use block::Block;
use cid::{Cid, Digest};
use kept::Lender;
use key_changes::KeyChange;
use lookups::Source;
use repo::Core;
use std::alloc::Allocator;
use std::sync::Arc;

/// The message `#commit` of a repository's last batch, which led to the repository as it is now from the root `before` by these
/// changes; or why there is none, in the order of `UntoldFault`.
///
/// Of a change that leaves the value that there was the message tells nothing. Its blocks are the commit with the signature, the
/// nodes that undoing the other changes reads, and the records that they leave, each CID where it comes first. That each key has
/// now what is told after its change is looked at. What it had before, and the root before, this repository doesn't know any
/// more: who takes the message finds them out. Where they are so, `commit_events::check_commit` takes the message from the root
/// before, unless two of its blocks or of the tree's nodes have one CID and different bytes.
///
/// `UntoldFault::NoMemory` comes wherever memory was refused. The repository stays as it is.
///
/// `B` is the number of zero bits of a digest that count for one layer, 2 in the AT Protocol. `key_changes::are_key_changes` is
/// the test of what it takes.
pub fn commit_event<D: Digest, const B: u8, A: Allocator + Copy>(
    alloc: A,
    core: &Core<D, B, A>,
    before: Cid,
    changes: &[KeyChange<'_>],
    told: &Told<'_>,
) -> Result<Vec<u8, A>, UntoldFault>
    requires least { 1 ≤ B }
    requires changes { are_changes (undone changes.now) ≡ true }

    // The answer is the message, or why there is none, but for want of memory.
    ensures message { Gives (λ message. message.items) untold_fault_of result
        (batch_message D.digest_of B core.now before changes.now (told_of told.now)) }

    // What is written is taken.
    ensures taken { IfOk result (λ message. IsTaken D.digest_of B core.now before changes.now
        (told_of told.now) message.items) }
{
    let root = core.root();
    let mut lender = core.lender();
    match last_stamp(core.stamps()) {
        Some(stamp) => stamped_message::<D, B, A, Lender<'_, D, A>>(
            alloc,
            &mut lender,
            root,
            stamp,
            &before,
            changes,
            told,
        ),
        None => Err(UntoldFault::NoBatch),
    }
}

/// The message of a batch with this stamp that left a repository with this root, of which the source has all blocks.
pub(crate) fn stamped_message<
    'a,
    D: Digest + 'a,
    const B: u8,
    A: Allocator + Copy + 'a,
    S: Source<&'a Arc<Block<D, A>, A>>,
>(
    alloc: A,
    src: &mut S,
    root: Cid,
    stamp: &Stamp<A>,
    before: &Cid,
    changes: &[KeyChange<'_>],
    told: &Told<'_>,
) -> Result<Vec<u8, A>, UntoldFault>
    requires least { 1 ≤ B }
    requires changes { are_changes (undone changes.now) ≡ true }
    ensures { OfRecords D.digest_of B (S.gives src.old) root (λ m. Gives
        (λ message. message.items) untold_fault_of result (message_stamped D.digest_of B m
        (stamp_of stamp.now) before.now changes.now (told_of told.now))) }
{
    test_told(told, &stamp.rev)?;
    let ops = told_ops(alloc, changes)?;
    signed_message::<D, B, A, S>(alloc, src, root, stamp, before, &ops, told)
}

/// The message of a batch with this stamp and these operations.
fn signed_message<
    'a,
    D: Digest + 'a,
    const B: u8,
    A: Allocator + Copy + 'a,
    S: Source<&'a Arc<Block<D, A>, A>>,
>(
    alloc: A,
    src: &mut S,
    root: Cid,
    stamp: &Stamp<A>,
    before: &Cid,
    ops: &[KeyChange<'_>],
    told: &Told<'_>,
) -> Result<Vec<u8, A>, UntoldFault>
    requires least { 1 ≤ B }
    requires changes { are_changes (undone ops.now) ≡ true }
    ensures { OfRecords D.digest_of B (S.gives src.old) root (λ m. Gives
        (λ message. message.items) untold_fault_of result (message_with_commit D.digest_of B m
        (stamp_of stamp.now) (commit_over D.digest_of B (stamp_of stamp.now) told.now.sig.now m)
        before.now ops.now (told_of told.now))) }
{
    let commit = signed_block::<D, A>(alloc, stamp, &root, told.sig)?;
    message_with::<D, B, A, S>(alloc, src, root, stamp, &commit, before, ops, told)
}

/// The message with this commit.
fn message_with<
    'a,
    D: Digest + 'a,
    const B: u8,
    A: Allocator + Copy + 'a,
    S: Source<&'a Arc<Block<D, A>, A>>,
>(
    alloc: A,
    src: &mut S,
    root: Cid,
    stamp: &Stamp<A>,
    commit: &Block<D, A>,
    before: &Cid,
    ops: &[KeyChange<'_>],
    told: &Told<'_>,
) -> Result<Vec<u8, A>, UntoldFault>
    requires least { 1 ≤ B }
    requires changes { are_changes (undone ops.now) ≡ true }
    ensures { OfRecords D.digest_of B (S.gives src.old) root (λ m. Gives
        (λ message. message.items) untold_fault_of result (message_with_commit D.digest_of B m
        (stamp_of stamp.now) commit.now before.now ops.now (told_of told.now))) }
{
    let file = left_file::<D, B, A, S>(alloc, src, root, commit, ops)?;
    let bytes = message(alloc, told, stamp, &commit.cid(), &file, ops, before)?;
    Ok(bytes)
}
