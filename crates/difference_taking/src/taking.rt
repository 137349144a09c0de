//! A difference, taken as one batch.

ghost use Rattle.std.specs.Prelude.{◌≡◌, true, map, IfOk, IfErr, OnOk, OnErr};
ghost use Rattle.store.specs.Stores.{IsStore};
ghost use Rattle.batches.specs.Values.{stamp_of};
ghost use Rattle.key_changes.specs.Keyed.{are_changes as are_changes_of};
ghost use Rattle.change_laws.specs.Told.{undone};
ghost use Rattle.kept.specs.Entering.{Enters};
ghost use Rattle.repo.specs.Readings.{has_block};
ghost use Rattle.difference_taking.specs.Taking.{DifferOnlyBy, HasRootOfOthers, IsTaken};
ghost use Rattle.difference_taking.specs.Refusals.{IsRefused, fulls_after_taking, refused_as};

use crate::fault::TakingFault;
use crate::values::first_other;
use crate::writes::batch_of;
use batches::{RepoFault, Stamp};
use block::Block;
use cid::Digest;
use key_changes::KeyChange;
use repo::{Applied, Core};
use std::alloc::Allocator;
use std::convert::AsSlice;
use std::sync::Arc;
use store::{BlockStore, Hold, StoreFault};

/// Makes of the changes one batch and applies it: a put of its record for each key that has one afterwards, a delete of each
/// other key. The record of a change is the first of `records` that has the CID after it; others may be among them, in any
/// order. They are copied.
///
/// Where the changes are what this repository and another one differ by, it has the other one's root then, whatever batches led
/// to that.
///
/// `TakingFault::RecordMissing` and `TakingFault::OtherValue` have the place of the first change whose record isn't given, and
/// of the first whose key has another value than the one told before it. `TakingFault::Refused` has what `Core::apply` refuses,
/// with the place of the change; no changes are `RepoFault::EmptyBatch`. `TakingFault::NoMemory` comes where memory was
/// refused. All is then as before.
///
/// `key_changes::are_key_changes` is the test of what it takes.
pub fn take_difference<
    D: Digest,
    const B: u8,
    A: Allocator + Copy,
    S: BlockStore<Arc<Block<D, A>, A>, Hold<D, A>, StoreFault<D, A>>,
    K: AsSlice<u8>,
>(
    alloc: A,
    store: &mut S,
    core: &mut Core<D, B, A>,
    stamp: &Stamp<A>,
    changes: &[KeyChange<'_>],
    records: &[K],
) -> Result<Applied, TakingFault<D, A>>
    requires store { IsStore D.digest_of S.BlockStore }
    requires changes { are_changes_of (undone changes.now) ≡ true }

    // What is done: the batch of the changes.
    ensures taken { IfOk result (IsTaken D.digest_of B core.old core.new (stamp_of stamp.now)
        (map K.items records.now) changes.now) }

    // So each key had and has what is told, and all other keys have what they had.
    ensures differ { OnOk result (DifferOnlyBy D.digest_of core.old core.new changes.now) }

    // Whatever other repository differs so from what this one was has its root.
    ensures root { OnOk result (HasRootOfOthers D.digest_of B core.old core.new changes.now) }

    // A refusal is right, and all is then as before.
    ensures fault { IfErr result (IsRefused D.digest_of B core.old (stamp_of stamp.now)
        (map K.items records.now) changes.now (S.fulls store.old) (S.fulls store.new)) }
    ensures unchanged { OnErr result (core.new ≡ core.old) }

    // The store is asked by the batch alone.
    ensures counted { S.fulls store.new ≡ fulls_after_taking (S.fulls store.old) result }
    ensures entered { Enters D.digest_of S.BlockStore core.old.me
        (has_block D.digest_of B core.old) (has_block D.digest_of B core.new)
        store.old store.new }
{
    let batch = match batch_of::<D, A, K>(alloc, changes, records) {
        Ok(batch) => batch,
        Err(fault) => return Err(fault),
    };
    if let Some(place) = first_other(core, changes) {
        return Err(TakingFault::OtherValue(place));
    }
    match core.apply(alloc, store, stamp, &batch) {
        Ok(applied) => Ok(applied),
        Err((place, fault)) => Err(refused(place, fault)),
    }
}

/// What a refusal of the batch is here.
fn refused<D: Digest, A: Allocator>(place: usize, fault: RepoFault<D, A>) -> TakingFault<D, A>
    ensures { result ≡ refused_as place fault }
{
    match fault {
        RepoFault::NoMemory => TakingFault::NoMemory,
        fault => TakingFault::Refused(place, fault),
    }
}
