//! A message, followed.

ghost use Rattle.std.specs.Prelude.{◌≡◌, ◌≤◌, [], true, IfErr, IfOk, OnErr, OnOk};
ghost use Rattle.spec.specs.CarReading.{blocks_of};
ghost use Rattle.store.specs.Stores.{IsStore};
ghost use Rattle.batches.specs.Values.{stamp_of};
ghost use Rattle.kept.specs.Entering.{Enters};
ghost use Rattle.key_changes.specs.Keyed.{are_changes};
ghost use Rattle.change_laws.specs.Told.{undone};
ghost use Rattle.event_laws.specs.Verdict.{ordered, placed_from};
ghost use Rattle.difference_taking.specs.Refusals.{IsRefused, fulls_after_taking};
ghost use Rattle.difference_taking.specs.Taking.{DifferOnlyBy, IsTaken};
ghost use Rattle.repo.specs.Readings.{has_block};
ghost use Rattle.event_format.specs.Views.{event_of};
ghost use Rattle.commit_events.specs.Views.{checked_of};
ghost use Rattle.event_following.specs.Following.{IsFollowed, stamp_in};
ghost use Rattle.event_following.specs.Refusals.{HasRecords, IsUnfollowed, fulls_after_following, refused_as, unread_as};

use crate::fault::FollowingFault;
use crate::leading::{lead_to, root_named};
use batches::Stamp;
use block::Block;
use cid::Digest;
use commit_events::{
    CheckedCommit, EventFault, Placed, changes_of, in_order, place_of, read_commit,
};
use difference_taking::{TakingFault, take_difference};
use event_format::Event;
use key_changes::KeyChange;
use repo::{Applied, Core};
use std::alloc::{AllocError, Allocator};
use std::sync::Arc;
use store::{BlockStore, Hold, StoreFault};

/// A message that was followed, lent from its bytes.
#[derive(Drop)]
pub struct Followed<'a, A: Allocator> {
    /// What it says, its commit, and its blocks.
    pub checked: CheckedCommit<'a, A>,
    /// What its batch left; none of a message without operations, which leaves the repository as it was.
    pub applied: Option<Applied>,
}

/// Follows a message `#commit` in the repository that it tells of: does its operations, where they lead from the repository's root
/// to the one that the message's commit names; or refuses it, and leaves all as it was.
///
/// The operations are done, and not undone on the message's nodes: so the root after is that of a tree, whatever the message
/// holds, and the next message can be followed from it. Of the message's blocks the commit and the records are read; its nodes are
/// named by their CIDs, and else not looked at.
///
/// The batch is a put of its record for each operation that leaves one, and a delete for each other, in the order of their keys,
/// under the message's DID and revision. A message without operations, as one of a new key of the account, changes nothing here: it
/// is followed where its commit names the root that there is, and its revision, which this repository doesn't take then, is for the
/// caller to keep. Who may sign for the DID, whether the commit is signed, and whether it is this
/// repository's DID, is for the caller to see before.
///
/// `FollowingFault` has why a message isn't followed; `FollowingFault::NoMemory` comes wherever memory was refused.
///
/// `B` is the number of zero bits of a digest that count for one layer, 2 in the AT Protocol.
pub fn check_and_apply<
    'a,
    D: Digest,
    const B: u8,
    A: Allocator + Copy,
    S: BlockStore<Arc<Block<D, A>, A>, Hold<D, A>, StoreFault<D, A>>,
>(
    alloc: A,
    store: &mut S,
    core: &mut Core<D, B, A>,
    message: &'a [u8],
) -> Result<Followed<'a, A>, FollowingFault<D, A>>
    requires least { 1 ≤ B }
    requires store { IsStore D.digest_of S.BlockStore }

    // The step that the message tells is done: from the root before to the one that the commit names.
    ensures followed { IfOk result (λ followed. IsFollowed D.digest_of B core.old core.new
        message.now (checked_of followed.checked) followed.applied) }

    // A refusal is right, and all is then as before.
    ensures fault { IfErr result (IsUnfollowed D.digest_of B core.old message.now
        (S.fulls store.old) (S.fulls store.new)) }
    ensures unchanged { OnErr result (core.new ≡ core.old) }

    // The store is asked by the batch alone.
    ensures counted { S.fulls store.new ≡ fulls_after_following (S.fulls store.old) result }
    ensures entered { Enters D.digest_of S.BlockStore core.old.me
        (has_block D.digest_of B core.old) (has_block D.digest_of B core.new)
        store.old store.new }
{
    let checked = match read_commit::<D, A>(alloc, core.root(), message) {
        Ok(checked) => checked,
        Err(fault) => return Err(unread(fault)),
    };
    let sorted = sorted_ops(alloc, &checked.event)?;
    let changes = changes_of(alloc, &sorted)?;
    let leads = lead_to::<D, B, A>(alloc, core, &changes, &root_named(&checked.commit))?;
    if !leads {
        return Err(FollowingFault::OtherRoot);
    }
    if checked.event.ops.as_slice().is_empty() {
        return Ok(Followed {
            checked,
            applied: None,
        });
    }
    match taken(alloc, store, core, &checked, &changes) {
        Ok(applied) => Ok(Followed {
            checked,
            applied: Some(applied),
        }),
        Err(fault) => Err(refused(fault, &sorted)),
    }
}

/// The operations of a message in the order of their keys.
fn sorted_ops<'a, A: Allocator + Copy>(
    alloc: A,
    event: &Event<'a, A>,
) -> Result<Vec<Placed<'a>, A>, AllocError>
    ensures { IfOk result (λ sorted. sorted.items
        ≡ ordered [] (placed_from 0 (event_of event.now).ops)) }
{
    in_order(alloc, &event.ops)
}

/// Makes the changes of a message one batch, and applies it.
fn taken<
    D: Digest,
    const B: u8,
    A: Allocator + Copy,
    S: BlockStore<Arc<Block<D, A>, A>, Hold<D, A>, StoreFault<D, A>>,
>(
    alloc: A,
    store: &mut S,
    core: &mut Core<D, B, A>,
    checked: &CheckedCommit<'_, A>,
    changes: &[KeyChange<'_>],
) -> Result<Applied, TakingFault<D, A>>
    requires store { IsStore D.digest_of S.BlockStore }
    requires changes { are_changes (undone changes.now) ≡ true }
    ensures taken { IfOk result (IsTaken D.digest_of B core.old core.new
        (stamp_in (checked_of checked.now).event) (blocks_of (checked_of checked.now).sections)
        changes.now) }
    ensures differ { OnOk result (DifferOnlyBy D.digest_of core.old core.new changes.now) }
    ensures fault { IfErr result (IsRefused D.digest_of B core.old
        (stamp_in (checked_of checked.now).event) (blocks_of (checked_of checked.now).sections)
        changes.now (S.fulls store.old) (S.fulls store.new)) }
    ensures unchanged { OnErr result (core.new ≡ core.old) }
    ensures counted { S.fulls store.new ≡ fulls_after_taking (S.fulls store.old) result }
    ensures entered { Enters D.digest_of S.BlockStore core.old.me
        (has_block D.digest_of B core.old) (has_block D.digest_of B core.new)
        store.old store.new }
{
    let stamp = stamp_of_event(alloc, &checked.event)?;
    take_difference(alloc, store, core, &stamp, changes, &checked.sections)
}

/// The stamp of a message's batch.
fn stamp_of_event<A: Allocator + Copy>(
    alloc: A,
    event: &Event<'_, A>,
) -> Result<Stamp<A>, AllocError>
    ensures { IfOk result (λ stamp. stamp_of stamp ≡ stamp_in (event_of event.now)) }
{
    Ok(Stamp {
        did: Vec::from_slice(alloc, event.did)?,
        rev: Vec::from_slice(alloc, event.rev)?,
    })
}

/// What a fault of the message is here.
fn unread<D: Digest, A: Allocator>(fault: EventFault) -> FollowingFault<D, A>
    ensures { result ≡ unread_as fault }
{
    match fault {
        EventFault::NoMemory => FollowingFault::NoMemory,
        fault => FollowingFault::Message(fault),
    }
}

/// What a refusal of the batch is here, whose writes are those of operations in the order of their keys. A record for each of them
/// was found before.
fn refused<D: Digest, A: Allocator>(
    fault: TakingFault<D, A>,
    sorted: &[Placed<'_>],
) -> FollowingFault<D, A>
    requires { HasRecords fault }
    ensures { result ≡ refused_as sorted.now fault }
{
    match fault {
        TakingFault::OtherValue(place) => FollowingFault::OtherValue(place_of(sorted, place)),
        TakingFault::Refused(place, fault) => {
            FollowingFault::Refused(place_of(sorted, place), fault)
        }
        TakingFault::NoMemory => FollowingFault::NoMemory,
        TakingFault::RecordMissing(_) => unreachable!(),
    }
}
