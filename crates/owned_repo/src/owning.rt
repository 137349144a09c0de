//! The repository, its store and its next batch.

ghost use Rattle.std.specs.Prelude.{◌≡◌, ◌<◌, ◌≤◌, true, length, Ok, Err, IfOk, IfErr, OnOk, OnErr};
ghost use Rattle.sha2.specs.Sha256.{sha256};
ghost use Rattle.spec.specs.States.{IsLawful, after_batch, fresh, state_test};
ghost use Rattle.repo.specs.Fulls.{fulls_after_batch, fulls_after_step, is_full};
ghost use Rattle.repo.specs.Prepared.{IsPassed, prepared_of, state_after};
ghost use Rattle.repo.specs.Refusals.{IsRefusal, IsApplied, IsOpenRefusal, IsStoreRefusal, IsTestRefusal};
ghost use Rattle.batches.specs.Values.{stamp_of, write_of, writes_of};
ghost use Rattle.batches.specs.declared.fault.RepoFault.TheVariants as faults;
ghost use Rattle.repository_check.specs.Views.{records_of};
ghost use Rattle.checked_opening.specs.Opening.{state_of, IsOpenable};
ghost use Rattle.checked_opening.specs.Refusals.{IsRefusal as IsRefusalOf};
ghost use Rattle.store.specs.Shards.{WasFull};
ghost use Rattle.owned_repo.specs.Owning.{opened, holding, staged, cleared, applied};

use crate::own_shards::OwnShards;
use batches::{RepoFault, Stamp, Write};
use checked_opening::open_checked;
use cid::Sha256;
use repo::{Applied, Core, PreparedBatch};
use std::alloc::{AllocError, Global};
use std::marker::Model;
use std::mem::replace;

/// One repository with a store of its own, and the writes that wait for a stamp.
///
/// A contract sees it as its state and these writes.
pub struct OwnedRepo {
    core: Core<Sha256, 2>,
    store: OwnShards,
    pending: Vec<Write>,
}

impl Model for OwnedRepo {
    ghost use Rattle.batches.specs.Values.{writes_of};
    ghost use Rattle.owned_repo.specs.Owning.{Owned};

    ghost Value = { Owned };

    ghost view = { λ o. record { state = o.core; pending = writes_of o.pending.items } };
}

impl Drop for OwnedRepo {
    fn drop(self) {
        let OwnedRepo {
            core,
            mut store,
            pending,
        } = self;
        core.end(&mut store);
        drop(pending);
        drop(store);
    }
}

impl OwnedRepo {
    /// A repository without writes, which may have `limit` of them. `RepoFault::StoreFull` comes only where a shard of its store
    /// has 1,048,576 blocks.
    pub fn open(alloc: Global, limit: usize) -> Result<OwnedRepo, RepoFault<Sha256>>
        requires least { 1 ≤ limit }
        requires most { limit ≤ 1048576 }
        ensures opened { IfOk result (λ repo. repo ≡ opened limit) }
        ensures fault { IfErr result (IsOpenRefusal sha256 2 (fresh 0 limit)
            0 (fulls_after_step 0 result)) }
        ensures full { IfErr result
            (λ fault. is_full fault ≡ true → WasFull sha256 1048576) }
    {
        let mut store = OwnShards::empty(alloc);
        match Core::open(alloc, &mut store, 0, limit) {
            Ok(core) => Ok(OwnedRepo {
                core,
                store,
                pending: Vec::new(alloc),
            }),
            Err(fault) => Err(fault),
        }
    }

    /// A repository with the records of a file that was checked, which may have `limit` writes: as
    /// `checked_opening::open_checked` has it, by one batch under the DID and the revision of the file's commit.
    /// `RepoFault::WritesFull` comes, before anything is done, where the file has more records than `limit`, and
    /// `RepoFault::StoreFull` only where a shard of its store has 1,048,576 blocks.
    pub fn open_checked(
        alloc: Global,
        limit: usize,
        found: &repository_check::Repository<'_>,
    ) -> Result<OwnedRepo, RepoFault<Sha256>>
        requires least { 1 ≤ limit }
        requires most { limit ≤ 1048576 }
        requires openable { IsOpenable sha256 2 found.now }
        ensures opened { IfOk result (λ repo. repo ≡ holding (state_of 0 limit found.now)) }
        ensures many { limit < length (records_of found.now) → result ≡ Err faults.WritesFull }
        ensures fault { IfErr result (IsRefusalOf sha256 2 0 limit found.now
            0 (fulls_after_step 0 result)) }
        ensures full { IfErr result
            (λ fault. is_full fault ≡ true → WasFull sha256 1048576) }
    {
        let mut store = OwnShards::empty(alloc);
        match open_checked::<Sha256, 2, _>(alloc, &mut store, 0, limit, found) {
            Ok(core) => Ok(OwnedRepo {
                core,
                store,
                pending: Vec::new(alloc),
            }),
            Err(fault) => Err(fault),
        }
    }

    /// The repository: for all that reads.
    pub fn core(&self) -> &Core<Sha256, 2>
        ensures { result.now ≡ self.now.state }
    {
        &self.core
    }

    /// The writes that wait for a stamp, in their order.
    pub fn pending(&self) -> &[Write]
        ensures { writes_of result.now ≡ self.now.pending }
    {
        &self.pending
    }

    /// Tests the writes that wait as one batch under this stamp, and makes what it tells. All stays as it is, and they still wait.
    /// It is refused as `Core::prepare` says.
    pub fn prepare(
        &self,
        alloc: Global,
        stamp: &Stamp,
    ) -> Result<PreparedBatch<Sha256, 2>, (usize, RepoFault<Sha256>)>
        ensures prepared { IfOk result (λ prepared. prepared
            ≡ prepared_of self.now.state (stamp_of stamp.now) self.now.pending) }
        ensures passed { IfOk result IsPassed }
        ensures fault { IfErr result (IsTestRefusal sha256 2 self.now.state
            (stamp_of stamp.now) self.now.pending) }
        ensures lawful { IsLawful self.now.state }
    {
        self.core.prepare(alloc, stamp, &self.pending)
    }

    /// One more write waits for a stamp.
    pub fn stage(&mut self, write: Write) -> Result<(), AllocError>
        ensures staged { OnOk result (self.new ≡ staged self.old (write_of write)) }
        ensures unchanged { OnErr result (self.new ≡ self.old) }
    {
        self.pending.push(write)?;
        Ok(())
    }

    /// No write waits any more.
    pub fn clear(&mut self, alloc: Global)
        ensures { self.new ≡ cleared self.old }
    {
        self.pending = Vec::new(alloc);
    }

    /// Accepts all writes that wait, in order, as one batch under this stamp, or none of them. None waits afterwards.
    /// `RepoFault::StoreFull` comes only where a shard of its store has 1,048,576 blocks.
    pub fn apply(
        &mut self,
        alloc: Global,
        stamp: &Stamp,
    ) -> Result<Applied, (usize, RepoFault<Sha256>)>
        ensures lawful { IsLawful self.new.state }
        ensures accepted { OnOk result (self.new ≡ applied self.old (stamp_of stamp.now)) }
        ensures passes { OnOk result
            (state_test self.old.state (stamp_of stamp.now) self.old.pending ≡ Ok tt) }
        ensures applied { IfOk result (IsApplied sha256 2 self.old.state self.new.state) }
        ensures refused { OnErr result (self.new ≡ cleared self.old) }
        ensures fault { IfErr result (IsRefusal sha256 2 self.old.state
            (stamp_of stamp.now) self.old.pending 0 (fulls_after_batch 0 result)) }
        ensures full { IfErr result
            (λ refusal. is_full refusal.1 ≡ true → WasFull sha256 1048576) }
    {
        let writes = replace(&mut self.pending, Vec::new(alloc));
        apply_in(&mut self.core, &mut self.store, alloc, stamp, &writes)
    }

    /// Accepts a batch of the writes that wait, as it was prepared on the repository as it is now. None waits afterwards. Where it
    /// is refused all is as before, and they still wait. `RepoFault::StoreFull` comes only where a shard of its store has
    /// 1,048,576 blocks.
    pub fn accept(
        &mut self,
        alloc: Global,
        prepared: PreparedBatch<Sha256, 2>,
    ) -> Result<Applied, (usize, RepoFault<Sha256>)>
        requires same { prepared.before ≡ self.old.state }
        requires waiting { prepared.writes ≡ self.old.pending }
        ensures accepted { OnOk result (self.new ≡ applied self.old prepared.stamp) }
        ensures applied { IfOk result (IsApplied sha256 2 self.old.state self.new.state) }
        ensures unchanged { OnErr result (self.new ≡ self.old) }
        ensures fault { IfErr result (IsStoreRefusal sha256 2 self.old.state
            prepared.stamp prepared.writes 0 (fulls_after_batch 0 result)) }
        ensures full { IfErr result
            (λ refusal. is_full refusal.1 ≡ true → WasFull sha256 1048576) }
    {
        match accept_in(&mut self.core, &mut self.store, prepared) {
            Ok(applied) => {
                self.clear(alloc);
                Ok(applied)
            }
            Err(refusal) => Err(refusal),
        }
    }
}

/// The same of writes that are given.
fn apply_in(
    core: &mut Core<Sha256, 2>,
    store: &mut OwnShards,
    alloc: Global,
    stamp: &Stamp,
    writes: &[Write],
) -> Result<Applied, (usize, RepoFault<Sha256>)>
    ensures lawful { IsLawful core.new }
    ensures accepted { OnOk result
        (core.new ≡ after_batch core.old (stamp_of stamp.now) (writes_of writes.now)) }
    ensures passes { OnOk result
        (state_test core.old (stamp_of stamp.now) (writes_of writes.now) ≡ Ok tt) }
    ensures applied { IfOk result (IsApplied sha256 2 core.old core.new) }
    ensures refused { OnErr result (core.new ≡ core.old) }
    ensures fault { IfErr result (IsRefusal sha256 2 core.old
        (stamp_of stamp.now) (writes_of writes.now) 0 (fulls_after_batch 0 result)) }
    ensures full { IfErr result
        (λ refusal. is_full refusal.1 ≡ true → WasFull sha256 1048576) }
{
    core.apply(alloc, store, stamp, writes)
}

/// The same of what was prepared.
fn accept_in(
    core: &mut Core<Sha256, 2>,
    store: &mut OwnShards,
    prepared: PreparedBatch<Sha256, 2>,
) -> Result<Applied, (usize, RepoFault<Sha256>)>
    requires same { prepared.before ≡ core.old }
    ensures accepted { OnOk result (core.new ≡ state_after prepared) }
    ensures applied { IfOk result (IsApplied sha256 2 core.old core.new) }
    ensures unchanged { OnErr result (core.new ≡ core.old) }
    ensures fault { IfErr result (IsStoreRefusal sha256 2 core.old
        prepared.stamp prepared.writes 0 (fulls_after_batch 0 result)) }
    ensures full { IfErr result
        (λ refusal. is_full refusal.1 ≡ true → WasFull sha256 1048576) }
{
    core.accept(store, prepared)
}
