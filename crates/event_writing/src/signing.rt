//! A signed batch, accepted with its message.

ghost use Rattle.std.specs.Prelude.{◌≡◌, ◌≤◌, Ok, IfErr, IfOk, OnErr, OnOk};
ghost use Rattle.spec.specs.States.{IsLawful, after_batch, state_root, state_test};
ghost use Rattle.store.specs.Stores.{IsStore};
ghost use Rattle.batches.specs.Values.{stamp_of, writes_of};
ghost use Rattle.kept.specs.Entering.{Enters};
ghost use Rattle.repo.specs.Readings.{has_block};
ghost use Rattle.repo.specs.Refusals.{IsApplied};
ghost use Rattle.event_writing_laws.specs.Signed.{signed_message};
ghost use Rattle.event_writing.specs.Views.{told_of};
ghost use Rattle.event_writing.specs.Signing.{IsSignedTaken, IsUnsigned, fulls_after_signing};

use crate::prepared::prepared_event;
use crate::signing_fault::{SigningFault, refused};
use crate::told::Told;
use batches::{Stamp, Write};
use block::Block;
use cid::{Cid, Digest};
use fitting::fits_in_memory;
use repo::{Applied, Core, PreparedBatch};
use std::alloc::{Allocator, Global};
use std::sync::Arc;
use store::{BlockStore, Hold, StoreFault};

/// What an accepted batch leaves, and the message that tells of it.
#[derive(Drop)]
pub struct Signed<A: Allocator = Global> {
    /// What `Core::apply` answers of the batch.
    pub applied: Applied,
    /// The bytes of the message `#commit`.
    pub message: Vec<u8, A>,
}

/// Accepts a batch that was signed over the root `previous`, and answers its message `#commit`; or refuses it, and leaves all as
/// it was.
///
/// Who sends messages signs a batch's commit before the batch is accepted, as the signature is in the message: `Core::prepare`
/// tells the root that the batch comes from and the bytes of its commit, `PreparedBatch::previous` and
/// `PreparedBatch::commit_block`. Where another batch came between, the signature is of a commit that there won't be:
/// `SigningFault::RootMoved`. A batch that can't be told is `SigningFault::Untold`, with the fault that `commit_event` would have
/// of it. The message is made before the batch is accepted, so that nothing is refused afterwards: an accepted batch has its
/// message.
///
/// `SigningFault::Refused` has what `Core::apply` refuses, with the place of the write; and a clash of two blocks, of which one is
/// of the repository after the batch, at the last write. `SigningFault::NoMemory` comes where memory was refused.
///
/// `B` is the number of zero bits of a digest that count for one layer, 2 in the AT Protocol.
pub fn apply_signed<
    D: Digest,
    const B: u8,
    A: Allocator + Copy,
    S: BlockStore<Arc<Block<D, A>, A>, Hold<D, A>, StoreFault<D, A>>,
>(
    alloc: A,
    store: &mut S,
    core: &mut Core<D, B, A>,
    previous: Cid,
    stamp: &Stamp<A>,
    writes: &[Write<A>],
    told: &Told<'_>,
) -> Result<Signed<A>, SigningFault<D, A>>
    requires least { 1 ≤ B }
    requires store { IsStore D.digest_of S.BlockStore }

    // The batch came from the root that was signed over, passes its tests, and is accepted.
    ensures from { OnOk result (previous ≡ state_root D.digest_of B core.old) }
    ensures passes { OnOk result
        (state_test core.old (stamp_of stamp.now) (writes_of writes.now) ≡ Ok tt) }
    ensures accepted { OnOk result
        (core.new ≡ after_batch core.old (stamp_of stamp.now) (writes_of writes.now)) }
    ensures applied { IfOk result (λ signed. IsApplied D.digest_of B core.old core.new
        signed.applied) }

    // The message is that of the batch, and is taken.
    ensures message { IfOk result (λ signed. signed_message D.digest_of B core.old
        (stamp_of stamp.now) (writes_of writes.now) (told_of told.now)
        ≡ Ok signed.message.items) }
    ensures taken { IfOk result (λ signed. IsSignedTaken D.digest_of B core.old
        (stamp_of stamp.now) (writes_of writes.now) (told_of told.now) signed.message.items) }

    // A refusal is right, and all is then as before.
    ensures fault { IfErr result (IsUnsigned D.digest_of B core.old previous (stamp_of stamp.now)
        (writes_of writes.now) (told_of told.now) (S.fulls store.old) (S.fulls store.new)) }
    ensures unchanged { OnErr result (core.new ≡ core.old) }
    ensures lawful { IsLawful core.old }

    // The store is asked by the batch alone.
    ensures counted { S.fulls store.new ≡ fulls_after_signing (S.fulls store.old) result }
    ensures entered { Enters D.digest_of S.BlockStore core.old.me
        (has_block D.digest_of B core.old) (has_block D.digest_of B core.new)
        store.old store.new }
{
    if core.root() != previous {
        return Err(SigningFault::RootMoved);
    }
    if !fits_in_memory::<PreparedBatch<D, B, A>>() {
        return Err(SigningFault::NoMemory);
    }
    let prepared = match core.prepare(alloc, stamp, writes) {
        Ok(prepared) => prepared,
        Err((place, fault)) => return Err(refused(place, fault)),
    };
    let message = prepared_event(alloc, core, &prepared, told)?;
    match core.accept(store, prepared) {
        Ok(applied) => Ok(Signed { applied, message }),
        Err((place, fault)) => Err(refused(place, fault)),
    }
}
