//! A batch that passed its tests, and isn't accepted yet.

ghost use Rattle.std.specs.Prelude.{◌≡◌, true, map as each, IfOk};
ghost use Rattle.std.specs.Arc.{arc_value};
ghost use Rattle.spec.specs.Blocks.{root as root_of};
ghost use Rattle.spec.specs.States.{state_root};
ghost use Rattle.batch_laws.specs.Batch.{changed};
ghost use Rattle.batch_laws.specs.Collecting.{collected as collected_of};
ghost use Rattle.batch_laws.specs.Uses.{records_come};
ghost use Rattle.change_laws.specs.Told.{undone};
ghost use Rattle.key_changes.specs.Keyed.{are_changes};
ghost use Rattle.batches.specs.Values.{stamp_of, shared_writes};
ghost use Rattle.repo.specs.Prepared.{AreNodesAdded, AreNodesDropped, IsPassed, changes_for, commit_after, keys_changed, nodes_before, pairs_before, state_after};

use crate::changes::{collect_all, told_changes};
use crate::copies::Copies;
use crate::cores::Core;
use crate::exchanges::Exchange;
use batches::{Stamp, Write};
use block::Block;
use cid::{Cid, Digest};
use key_changes::KeyChange;
use std::alloc::{AllocError, Allocator, Global};
use std::marker::Model;
use std::snapshot::Snapshot;
use std::sync::Arc;

/// A batch that passed its tests on a repository, and isn't accepted yet: what the repository will be with it, and what its edit
/// read for that.
///
/// [`Core::prepare`] makes it, and [`Core::accept`] takes it. Between the two the root after it and its commit can be signed, and
/// a message or a proof of it be written: [`Core::lender_with`] lends the blocks of the repository as it will be. It shares its
/// blocks with the repository, which stays as it is. Where it is let go, nothing is left of it.
///
/// A contract sees it as the repository before, the stamp and the writes. All that it tells follows from these.
#[derive(Drop)]
pub struct PreparedBatch<D: Digest, const B: u8, A: Allocator = Global> {
    /// The repository before, for proofs alone.
    pub(crate) before: Snapshot<Core<D, B, A>>,
    pub(crate) previous: Cid,
    pub(crate) copies: Copies<A>,
    pub(crate) exchange: Exchange<D, A>,
}

impl<D: Digest, const B: u8, A: Allocator> Model for PreparedBatch<D, B, A> {
    ghost use Rattle.batches.specs.Values.{stamp_of, shared_writes};
    ghost use Rattle.repo.specs.Prepared.{Prepared, IsPreparedBatch, prepared_of};

    ghost Value = { Prepared };

    ghost view = { λ p. prepared_of p.before.value (stamp_of p.copies.stamp)
        (shared_writes p.copies.writes.items) };

    ghost invariant = { λ p. IsPreparedBatch D.digest_of B (prepared_of p.before.value
        (stamp_of p.copies.stamp) (shared_writes p.copies.writes.items)) p.previous p.exchange };
}

impl<D: Digest, const B: u8, A: Allocator> PreparedBatch<D, B, A> {
    /// Its stamp.
    pub fn stamp(&self) -> &Stamp<A>
        ensures value { stamp_of result.now ≡ self.now.stamp }
        ensures passed { IsPassed self.now }
    {
        &self.copies.stamp
    }

    /// Its writes, in their order.
    pub fn writes(&self) -> &[Arc<Write<A>, A>]
        ensures value { shared_writes result.now ≡ self.now.writes }
        ensures passed { IsPassed self.now }
    {
        &self.copies.writes
    }

    /// The root of the tree before it.
    pub fn previous(&self) -> Cid
        ensures value { result ≡ state_root D.digest_of B self.now.before }
        ensures passed { IsPassed self.now }
    {
        self.previous
    }

    /// The root of the tree after it: that of the pairs before, with its changes done.
    pub fn root(&self) -> Cid
        ensures value { result ≡ state_root D.digest_of B (state_after self.now) }
        ensures changed { result ≡ root_of D.digest_of B
            (changed (changes_for D.digest_of self.now) (pairs_before D.digest_of self.now)) }
        ensures passed { IsPassed self.now }
    {
        self.exchange.root
    }

    /// The block of its commit. Its bytes are what is signed, and its CID is that of the repository's commit after it.
    pub fn commit_block(&self) -> &Arc<Block<D, A>, A>
        ensures value { arc_value result.now ≡ commit_after D.digest_of B self.now }
        ensures passed { IsPassed self.now }
    {
        let exchange = &self.exchange;
        &exchange.come[exchange.come.len() - 1]
    }

    /// The nodes of the tree before that its edit reads, each once, in the order in which they are read. Who has these and no
    /// other node of that tree can do the changes, and so see that the one root leads to the other.
    pub fn nodes_read(&self) -> &[Arc<Block<D, A>, A>]
        ensures value { each arc_value result.now ≡ nodes_before D.digest_of B self.now }
        ensures passed { IsPassed self.now }
    {
        &self.exchange.read
    }

    /// The nodes that come: those of the tree after it that the tree before lacks, each once.
    pub fn nodes_added(&self) -> &[Arc<Block<D, A>, A>]
        ensures value { AreNodesAdded D.digest_of B self.now (each arc_value result.now) }
        ensures passed { IsPassed self.now }
    {
        let exchange = &self.exchange;
        &exchange.come[..exchange.nodes]
    }

    /// The CIDs of the nodes that go: those of the tree before it that the tree after lacks, each once.
    pub fn nodes_dropped(&self) -> &[Cid]
        ensures value { AreNodesDropped D.digest_of B self.now result.now }
        ensures passed { IsPassed self.now }
    {
        let exchange = &self.exchange;
        &exchange.go[..exchange.gone]
    }

    /// The records that it brings: one for each key that it changes and that has a record after it, in the order of the keys.
    pub fn records(&self) -> &[Arc<Block<D, A>, A>]
        ensures value { each arc_value result.now ≡ records_come (collected_of self.now.writes) }
        ensures passed { IsPassed self.now }
    {
        let exchange = &self.exchange;
        &exchange.come[exchange.nodes..exchange.come.len() - 1]
    }
}

impl<D: Digest, const B: u8, A: Allocator + Copy> PreparedBatch<D, B, A> {
    /// Each key that its writes name, once, with the CID of its record before and after, in the order of the keys. The keys are
    /// lent.
    ///
    /// `AllocError` comes where memory was refused.
    pub fn changes(&self, alloc: A) -> Result<Vec<KeyChange<'_>, A>, AllocError>
        ensures changes { IfOk result
            (λ changes. changes.items ≡ keys_changed D.digest_of self.now) }
        ensures keyed { IfOk result (λ changes. are_changes (undone changes.items) ≡ true) }
        ensures passed { IsPassed self.now }
    {
        let writes = collect_all(alloc, &self.copies.writes)?;
        let changes = writes.for_edit::<D>(alloc, self.records())?;
        told_changes(alloc, &changes, &self.exchange.values)
    }
}
