//! The message of a batch that isn't accepted yet.

ghost use Rattle.std.specs.Prelude.{◌≡◌, ◌≤◌, ◌+◌, length, Ok, IfErr, IfOk};
ghost use Rattle.event_writing_laws.specs.Signed.{signed_message};
ghost use Rattle.event_writing.specs.Views.{told_of};
ghost use Rattle.event_writing.specs.Signing.{IsPreparedFault, IsSignedTaken};

use crate::signing_fault::{SigningFault, refused, untold};
use crate::told::Told;
use crate::writing::stamped_message;
use cid::Digest;
use kept::LenderWith;
use repo::{Core, PreparedBatch};
use std::alloc::Allocator;

/// The message `#commit` of a batch that was prepared on this repository as it is, before it is accepted; or why it can't be told.
///
/// Who has a repository to itself prepares a batch, signs its commit, makes the message, and accepts the batch with nothing left
/// to be refused but the store: `Core::prepare`, `PreparedBatch::commit_block`, this, and `Core::accept`. Where others may write
/// between the signature and the batch, [`apply_signed`](crate::apply_signed) does all that in one call.
///
/// `SigningFault::Untold` has the fault that [`commit_event`](crate::commit_event) would have of the batch. A clash of two blocks,
/// of which one is of the repository after the batch, is `SigningFault::Refused` at the last write, and `SigningFault::NoMemory`
/// comes where memory was refused. The repository and the prepared batch stay as they are.
///
/// `B` is the number of zero bits of a digest that count for one layer, 2 in the AT Protocol.
pub fn prepared_event<D: Digest, const B: u8, A: Allocator + Copy>(
    alloc: A,
    core: &Core<D, B, A>,
    prepared: &PreparedBatch<D, B, A>,
    told: &Told<'_>,
) -> Result<Vec<u8, A>, SigningFault<D, A>>
    requires least { 1 ≤ B }
    requires same { prepared.now.before ≡ core.now }

    // The message is that of the batch, and is taken.
    ensures message { IfOk result (λ message. signed_message D.digest_of B prepared.now.before
        prepared.now.stamp prepared.now.writes (told_of told.now) ≡ Ok message.items) }
    ensures taken { IfOk result (λ message. IsSignedTaken D.digest_of B prepared.now.before
        prepared.now.stamp prepared.now.writes (told_of told.now) message.items) }

    // Or there is none.
    ensures fault { IfErr result (IsPreparedFault D.digest_of B prepared.now (told_of told.now)) }
{
    let mut lender = match core.lender_with(alloc, prepared) {
        Ok(lender) => lender,
        Err(fault) => return Err(refused(last_of(prepared), fault)),
    };
    let changes = prepared.changes(alloc)?;
    let previous = prepared.previous();
    match stamped_message::<D, B, A, LenderWith<'_, D, A>>(
        alloc,
        &mut lender,
        prepared.root(),
        prepared.stamp(),
        &previous,
        &changes,
        told,
    ) {
        Ok(message) => Ok(message),
        Err(fault) => Err(untold(fault)),
    }
}

/// The place of a prepared batch's last write.
fn last_of<D: Digest, const B: u8, A: Allocator>(prepared: &PreparedBatch<D, B, A>) -> usize
    ensures { result + 1 ≡ length prepared.now.writes }
{
    prepared.writes().len() - 1
}
