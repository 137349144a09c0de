//! One repository.

ghost use Rattle.std.specs.Prelude.{◌≡◌, ◌≤◌, ◌<◌, ◌+◌, Some, Ok, length, option_map, IfOk, IfErr, OnOk, OnErr};
ghost use Rattle.std.specs.Arc.{arc_value};
ghost use Rattle.lookups.specs.Walks.{pairs_given};
ghost use Rattle.spec.specs.States.{IsLawful, fresh, after_batch, state_blocks, state_root, state_commit, state_test};
ghost use Rattle.edit_laws.specs.Uses.{uses as uses_of};
ghost use Rattle.spec.specs.Stamps.{last, rev_of};
ghost use Rattle.kept.specs.Trees.{OfTree, IsValue};
ghost use Rattle.kept.specs.Uses.{used_blocks};
ghost use Rattle.kept.specs.Entering.{Enters, no_block};
ghost use Rattle.repo.specs.Fulls.{fulls_after_batch, fulls_after_step};
ghost use Rattle.repo.specs.Readings.{AreBlocksOnce, CountsBlocks, LendsBlocks, LendsTree, has_block, pairs_from, record_at, state_block};
ghost use Rattle.repo.specs.BlockFaults.{IsBlockFault};
ghost use Rattle.repo.specs.Edits.{IsExchangeMade};
ghost use Rattle.repo.specs.LendingAfter.{LendsBlocksAfter, LendsTreeAfter};
ghost use Rattle.repo.specs.Prepared.{IsPassed, prepared_of, state_after};
ghost use Rattle.repo.specs.Refusals.{IsRefusal, IsApplied, IsOpenRefusal, IsStoreRefusal, IsTestRefusal};
ghost use Rattle.batches.specs.Values.{stamp_of, stamps_of, writes_of, shared_writes};
ghost use Rattle.store.specs.Stores.{IsStore};

use crate::applied::Applied;
use crate::copies::{copies_of, grow, make_room};
use crate::exchanges::{TestedBatch, exchange_of, placed};
use crate::opening::empty_node;
use crate::prepared::PreparedBatch;
use crate::write_tests::test_writes;
use batches::{RepoFault, Stamp, Write, test_stamp};
use block::Block;
use cid::{Cid, Digest};
use kept::{Blocks, Kept, Lender, LenderWith, value_at};
use std::alloc::{AllocError, Allocator, Global};
use std::marker::Model;
use std::snapshot::Snapshot;
use std::sync::Arc;
use store::{BlockStore, Hold, StoreFault};

/// One repository: its accepted writes and their stamps, the root of its tree, and its blocks.
///
/// Always its root and its blocks are those of the Merkle search tree built from scratch from the records that its
/// accepted writes leave, with the commit of its last stamp, and there are no other blocks. It keeps one hold for each
/// block, under its own number.
///
/// A contract sees it as its state: its number, how many writes it may have, the writes, and the stamps.
pub struct Core<D: Digest, const B: u8, A: Allocator = Global> {
    limit: usize,
    accepted: Vec<Arc<Write<A>, A>, A>,
    stamps: Vec<(Stamp<A>, u64), A>,
    root: Cid,
    commit: Option<Cid>,
    kept: Kept<D, A>,
}

impl<D: Digest, const B: u8, A: Allocator> Model for Core<D, B, A> {
    ghost use Rattle.spec.specs.States.{State};
    ghost use Rattle.repo.specs.Views.{state_view};
    ghost use Rattle.repo.specs.Cores.{IsCore};

    ghost Value = { State };

    ghost view = { λ c. state_view c.kept.me c.limit c.accepted.items c.stamps.items };

    ghost invariant = { λ c. IsCore D.digest_of B
        (state_view c.kept.me c.limit c.accepted.items c.stamps.items) c.root c.commit c.kept };
}

impl<D: Digest, const B: u8, A: Allocator> Core<D, B, A> {
    /// The number that it has in the store, below 1,024.
    pub fn me(&self) -> u32
        ensures value { result ≡ self.now.me }
        ensures small { result < 1024 }
        ensures lawful { IsLawful self.now }
    {
        self.kept.me()
    }

    /// How many writes it may have, 1 to 1,048,576.
    pub fn limit(&self) -> usize
        ensures value { result ≡ self.now.limit }
        ensures lawful { IsLawful self.now }
    {
        self.limit
    }

    /// How many writes are accepted.
    pub fn number(&self) -> u64
        ensures value { result ≡ length self.now.accepted }
        ensures lawful { IsLawful self.now }
    {
        self.accepted.len() as u64
    }

    /// The root of the tree.
    pub fn root(&self) -> Cid
        ensures value { result ≡ state_root D.digest_of B self.now }
        ensures lawful { IsLawful self.now }
    {
        self.root
    }

    /// The CID of the last batch's commit, or `None` before the first one.
    pub fn commit(&self) -> Option<Cid>
        ensures value { result ≡ state_commit D.digest_of B self.now }
        ensures lawful { IsLawful self.now }
    {
        self.commit
    }

    /// The accepted writes, the oldest first.
    pub fn accepted(&self) -> &[Arc<Write<A>, A>]
        ensures value { shared_writes result.now ≡ self.now.accepted }
        ensures lawful { IsLawful self.now }
    {
        &self.accepted
    }

    /// The stamp of each batch, the oldest first, with the number of accepted writes after it.
    pub fn stamps(&self) -> &[(Stamp<A>, u64)]
        ensures value { stamps_of result.now ≡ self.now.stamps }
        ensures lawful { IsLawful self.now }
    {
        &self.stamps
    }

    /// Its blocks, each once, in some order: the last commit, the nodes and the records. It takes no memory.
    pub fn blocks(&self) -> Blocks<'_, D, A>
        ensures blocks { AreBlocksOnce D.digest_of B self.now (used_blocks result.entries) }
        ensures lawful { IsLawful self.now }
    {
        self.kept.blocks()
    }

    /// Its blocks as a source that wasn't asked for any so far, for look-ups, proofs and exports: it has each of them, and so
    /// the tree at the root; and it tells of each how often it stands among them. It takes no memory.
    pub fn lender(&self) -> Lender<'_, D, A>
        ensures blocks { LendsBlocks D.digest_of B self.now result.blocks.now }
        ensures tree { LendsTree D.digest_of B self.now result.blocks.now }
        ensures uses { CountsBlocks D.digest_of B self.now result.blocks.now }
        ensures asked { result.asked.times ≡ 0 }
        ensures lawful { IsLawful self.now }
    {
        self.kept.lender()
    }

    /// Gives its blocks back to the store. It takes no memory and can't fail.
    pub fn end<S: BlockStore<Arc<Block<D, A>, A>, Hold<D, A>, StoreFault<D, A>>>(
        self,
        store: &mut S,
    )
        ensures fulls { S.fulls store.new ≡ S.fulls store.old }
        ensures entered { Enters D.digest_of S.BlockStore self.me
            (has_block D.digest_of B self) no_block store.old store.new }
    {
        let Core {
            limit: _,
            accepted: _,
            stamps: _,
            root: _,
            commit: _,
            kept,
        } = self;
        kept.end(store);
    }

    /// Its block with this CID: the last commit, a node or a record. It takes no memory.
    pub fn block(&self, cid: &Cid) -> Option<&Arc<Block<D, A>, A>>
        ensures value { option_map (λ block. arc_value block.now) result
            ≡ state_block D.digest_of B self.now cid.now }
        ensures lawful { IsLawful self.now }
    {
        self.kept.block(cid)
    }

    /// How often the block of this CID stands among its blocks, as a record does under several keys: 0 where it has none. It
    /// takes no memory.
    pub fn uses(&self, cid: &Cid) -> u64
        ensures value { result ≡ uses_of D.digest_of cid.now (state_blocks D.digest_of B self.now) }
        ensures lawful { IsLawful self.now }
    {
        self.kept.uses(cid)
    }

    /// The record of a key, or `None` where there is none. It takes any key and no memory.
    pub fn get(&self, key: &[u8]) -> Option<&Block<D, A>>
        ensures value { option_map (λ block. block.now) result ≡ record_at self.now key.now }
        ensures lawful { IsLawful self.now }
    {
        match value_in::<D, B, A>(&self.kept, self.root, key) {
            Some(cid) => match self.block(&cid) {
                Some(block) => Some(block),
                None => None,
            },
            None => None,
        }
    }
}

impl<D: Digest, const B: u8, A: Allocator + Copy> Core<D, B, A> {
    /// The first `limit` pairs of a key and its record's CID, from a key on, in the order of the keys.
    ///
    /// `AllocError` comes where memory was refused.
    pub fn list(
        &self,
        alloc: A,
        from: &[u8],
        limit: usize,
    ) -> Result<Vec<(Vec<u8, A>, Cid), A>, AllocError>
        ensures pairs { IfOk result (λ found. pairs_given found.items
            ≡ pairs_from D.digest_of self.now from.now limit) }
        ensures lawful { IsLawful self.now }
    {
        kept::pairs_from::<D, B, A>(alloc, &self.kept, self.root, from, limit)
    }

    /// A repository without writes, which may have `limit` of them, under its own number in the store.
    ///
    /// Its one block is the empty node. `RepoFault::Collision` shows that the store has other bytes under its CID,
    /// `RepoFault::StoreFull` says that the store answered so, and `RepoFault::NoMemory` comes where memory was refused.
    /// After a refusal no block is held.
    pub fn open<S: BlockStore<Arc<Block<D, A>, A>, Hold<D, A>, StoreFault<D, A>>>(
        alloc: A,
        store: &mut S,
        me: u32,
        limit: usize,
    ) -> Result<Core<D, B, A>, RepoFault<D, A>>
        requires least_bits { 1 ≤ B }
        requires most_bits { B ≤ 8 }
        requires small { me < 1024 }
        requires least { 1 ≤ limit }
        requires most { limit ≤ 1048576 }
        requires store { IsStore D.digest_of S.BlockStore }
        ensures fresh { IfOk result (λ core. core ≡ fresh me limit) }
        ensures fault { IfErr result (IsOpenRefusal D.digest_of B (fresh me limit)
            (S.fulls store.old) (S.fulls store.new)) }
        ensures counted { S.fulls store.new ≡ fulls_after_step (S.fulls store.old) result }
        ensures entered { OnOk result (Enters D.digest_of S.BlockStore me
            no_block (has_block D.digest_of B (fresh me limit)) store.old store.new) }
        ensures left { OnErr result (Enters D.digest_of S.BlockStore me
            no_block no_block store.old store.new) }
    {
        let node = empty_node(alloc)?;
        let root = node.cid();
        let come = vec![in alloc; node]?;
        let mut kept = Kept::open(alloc, me);
        match kept.exchange(store, come, &[]) {
            Ok(()) => Ok(Core {
                limit,
                accepted: Vec::new(alloc),
                stamps: Vec::new(alloc),
                root,
                commit: None,
                kept,
            }),
            Err(fault) => {
                kept.end(store);
                Err(RepoFault::from(fault))
            }
        }
    }

    /// Accepts all writes of a batch, in order, or none of them.
    ///
    /// The tests come in this order: a batch without writes is `RepoFault::EmptyBatch`; the stamp, `RepoFault::BadDid`,
    /// `RepoFault::BadRev`, `RepoFault::RevOrder`; and then, once the batch is copied, write by write, each on the records that
    /// those before it leave: `RepoFault::WritesFull`, `RepoFault::BadKey`, `RepoFault::RecordSize`, `RepoFault::BadRecord`,
    /// `RepoFault::NotAMap`, `RepoFault::KeyExists` or `RepoFault::NoSuchKey`. Then the blocks are made and held, all at once:
    /// `RepoFault::Collision` shows two blocks that clash, of which one is of the repository after the batch, and
    /// `RepoFault::StoreFull` says that the store answered so. `RepoFault::NoMemory` comes where memory was refused.
    ///
    /// A refusal names a place, from 0. What a test finds stands at its write's place, and what comes of the blocks at the
    /// last write's. A want of memory stands at the place of the write that is tested or whose record's block is made, at the
    /// last one for the commit, and at 0 for all that serves the whole batch: the copies that are to be kept, the tree's new
    /// nodes, and the holds. All is then as before, and each hold that was taken has been given back.
    pub fn apply<S: BlockStore<Arc<Block<D, A>, A>, Hold<D, A>, StoreFault<D, A>>>(
        &mut self,
        alloc: A,
        store: &mut S,
        stamp: &Stamp<A>,
        writes: &[Write<A>],
    ) -> Result<Applied, (usize, RepoFault<D, A>)>
        requires store { IsStore D.digest_of S.BlockStore }
        ensures lawful { IsLawful self.old }
        ensures still_lawful { IsLawful self.new }
        ensures accepted { OnOk result
            (self.new ≡ after_batch self.old (stamp_of stamp.now) (writes_of writes.now)) }
        ensures passes { OnOk result
            (state_test self.old (stamp_of stamp.now) (writes_of writes.now) ≡ Ok tt) }
        ensures applied { IfOk result (IsApplied D.digest_of B self.old self.new) }
        ensures unchanged { OnErr result (self.new ≡ self.old) }
        ensures fault { IfErr result
            (IsRefusal D.digest_of B self.old (stamp_of stamp.now) (writes_of writes.now)
            (S.fulls store.old) (S.fulls store.new)) }
        ensures counted { S.fulls store.new ≡ fulls_after_batch (S.fulls store.old) result }
        ensures entered { Enters D.digest_of S.BlockStore self.old.me
            (has_block D.digest_of B self.old) (has_block D.digest_of B self.new)
            store.old store.new }
    {
        let batch = self.tested(alloc, stamp, writes)?;
        self.exchange(store, batch)
    }

    /// Tests a batch, and makes what it exchanges and tells, all of which the caller then has before it is accepted. The
    /// repository stays as it is.
    ///
    /// It is refused as [`apply`](Core::apply) refuses it before the store is asked: by the tests in the same order, at the same
    /// places; by `RepoFault::Collision`, which shows two nodes of the trees before and after that clash; and by
    /// `RepoFault::NoMemory`.
    pub fn prepare(
        &self,
        alloc: A,
        stamp: &Stamp<A>,
        writes: &[Write<A>],
    ) -> Result<PreparedBatch<D, B, A>, (usize, RepoFault<D, A>)>
        ensures prepared { IfOk result (λ prepared. prepared
            ≡ prepared_of self.now (stamp_of stamp.now) (writes_of writes.now)) }
        ensures passed { IfOk result IsPassed }
        ensures fault { IfErr result (IsTestRefusal D.digest_of B self.now
            (stamp_of stamp.now) (writes_of writes.now)) }
        ensures lawful { IsLawful self.now }
    {
        let previous = self.root;
        let tested = self.tested(alloc, stamp, writes)?;
        let TestedBatch { copies, exchange } = tested;
        Ok(PreparedBatch {
            before: Snapshot::of(self),
            previous,
            copies,
            exchange,
        })
    }

    /// A batch that its tests let through: the copies of it that are to be kept, and what it exchanges; or the place and the
    /// fault by which it's refused before the store is asked.
    ///
    /// No writes come first, then the stamp, then write by write. The writes are copied before they are tested, so one map by
    /// key serves their tests, the blocks of their records and the edit.
    fn tested(
        &self,
        alloc: A,
        stamp: &Stamp<A>,
        writes: &[Write<A>],
    ) -> Result<TestedBatch<D, A>, (usize, RepoFault<D, A>)>
        ensures writes { IfOk result (λ batch.
            shared_writes batch.copies.writes.items ≡ writes_of writes.now) }
        ensures stamp { IfOk result (λ batch. stamp_of batch.copies.stamp ≡ stamp_of stamp.now) }
        ensures exchange { IfOk result (λ batch. IsExchangeMade D.digest_of B self.now
            (stamp_of stamp.now) (writes_of writes.now) batch.exchange) }
        ensures fault { IfErr result (IsTestRefusal D.digest_of B self.now
            (stamp_of stamp.now) (writes_of writes.now)) }
        ensures lawful { IsLawful self.now }
    {
        let (kept, root, before) = (&self.kept, self.root, self.commit);
        if writes.is_empty() {
            return Err((0, RepoFault::EmptyBatch));
        }
        match test_stamp::<D, A>(last_rev(&self.stamps), stamp) {
            Ok(()) => {}
            Err(fault) => return Err((0, fault)),
        }
        let Ok(copies) = copies_of(alloc, stamp, writes) else {
            return Err((0, RepoFault::NoMemory));
        };
        let room = room_for(self.limit, &self.accepted);
        let shared = copies.writes.as_slice();
        let made = {
            let changes = test_writes::<D, B, A>(kept, alloc, room, root, shared)?;
            exchange_of::<D, B, A>(kept, alloc, root, before, stamp, &changes, shared)
        };
        match made {
            Ok(exchange) => Ok(TestedBatch { copies, exchange }),
            Err(refusal) => Err(refusal),
        }
    }

    /// Accepts a batch that was prepared on the repository as it is now.
    ///
    /// Room for its writes is made, and all its blocks are held, or none: `RepoFault::Collision` shows two blocks that clash, of
    /// which one is of the repository after it, and `RepoFault::StoreFull` says that the store answered so, both at the last
    /// write; `RepoFault::NoMemory` comes where memory was refused, at the first one. All is then as before, but the prepared
    /// batch is gone.
    pub fn accept<S: BlockStore<Arc<Block<D, A>, A>, Hold<D, A>, StoreFault<D, A>>>(
        &mut self,
        store: &mut S,
        prepared: PreparedBatch<D, B, A>,
    ) -> Result<Applied, (usize, RepoFault<D, A>)>
        requires store { IsStore D.digest_of S.BlockStore }
        requires same { prepared.before ≡ self.old }
        ensures lawful { IsLawful self.old }
        ensures still_lawful { IsLawful self.new }
        ensures accepted { OnOk result (self.new ≡ state_after prepared) }
        ensures applied { IfOk result (IsApplied D.digest_of B self.old self.new) }
        ensures unchanged { OnErr result (self.new ≡ self.old) }
        ensures fault { IfErr result (IsStoreRefusal D.digest_of B self.old
            prepared.stamp prepared.writes (S.fulls store.old) (S.fulls store.new)) }
        ensures counted { S.fulls store.new ≡ fulls_after_batch (S.fulls store.old) result }
        ensures entered { Enters D.digest_of S.BlockStore self.old.me
            (has_block D.digest_of B self.old) (has_block D.digest_of B self.new)
            store.old store.new }
    {
        let PreparedBatch {
            before: _,
            previous: _,
            copies,
            exchange,
        } = prepared;
        self.exchange(store, TestedBatch { copies, exchange })
    }

    /// Accepts a batch that its tests let through: makes room for the copies of it, and exchanges what it exchanges.
    fn exchange<S: BlockStore<Arc<Block<D, A>, A>, Hold<D, A>, StoreFault<D, A>>>(
        &mut self,
        store: &mut S,
        batch: TestedBatch<D, A>,
    ) -> Result<Applied, (usize, RepoFault<D, A>)>
        requires store { IsStore D.digest_of S.BlockStore }
        requires made { IsExchangeMade D.digest_of B self.old (stamp_of batch.copies.stamp)
            (shared_writes batch.copies.writes.items) batch.exchange }
        ensures lawful { IsLawful self.old }
        ensures still_lawful { IsLawful self.new }
        ensures accepted { OnOk result (self.new ≡ after_batch self.old
            (stamp_of batch.copies.stamp) (shared_writes batch.copies.writes.items)) }
        ensures applied { IfOk result (IsApplied D.digest_of B self.old self.new) }
        ensures unchanged { OnErr result (self.new ≡ self.old) }
        ensures fault { IfErr result (IsStoreRefusal D.digest_of B self.old
            (stamp_of batch.copies.stamp) (shared_writes batch.copies.writes.items)
            (S.fulls store.old) (S.fulls store.new)) }
        ensures counted { S.fulls store.new ≡ fulls_after_batch (S.fulls store.old) result }
        ensures entered { Enters D.digest_of S.BlockStore self.old.me
            (has_block D.digest_of B self.old) (has_block D.digest_of B self.new)
            store.old store.new }
    {
        let TestedBatch { copies, exchange } = batch;
        let last = copies.writes.len() - 1;
        let Ok(()) = make_room(&mut self.accepted, &mut self.stamps, copies.writes.len()) else {
            return Err((0, RepoFault::NoMemory));
        };
        match self.kept.exchange(store, exchange.come, &exchange.go) {
            Ok(()) => {}
            Err(fault) => return Err(placed(last, RepoFault::from(fault))),
        }

        let number = grow(&mut self.accepted, &mut self.stamps, copies);
        let previous = self.root;
        self.root = exchange.root;
        self.commit = Some(exchange.commit);
        Ok(Applied {
            number,
            root: exchange.root,
            previous,
            commit: exchange.commit,
        })
    }

    /// The blocks of the repository as it will be with a batch that was prepared on it as it is now, as a source that wasn't
    /// asked for any so far: those that come in front of those that are there. So proofs, exports and messages of the repository
    /// after the batch are made before it is accepted. Nothing is held.
    ///
    /// `RepoFault::Collision` shows two blocks that clash, of which one is of the repository after the batch, and
    /// `RepoFault::NoMemory` comes where memory was refused. It is no other fault.
    pub fn lender_with<'a>(
        &'a self,
        alloc: A,
        prepared: &'a PreparedBatch<D, B, A>,
    ) -> Result<LenderWith<'a, D, A>, RepoFault<D, A>>
        requires same { prepared.now.before ≡ self.now }
        ensures blocks { IfOk result (LendsBlocksAfter D.digest_of B prepared.now) }
        ensures tree { IfOk result (LendsTreeAfter D.digest_of B prepared.now) }
        ensures asked { IfOk result (λ lender. lender.asked.times ≡ 0) }
        ensures fault { IfErr result (IsBlockFault D.digest_of
            (state_blocks D.digest_of B (state_after prepared.now)) 0 0) }
        ensures passed { IsPassed prepared.now }
    {
        match self.kept.lender_with(alloc, &prepared.exchange.come) {
            Ok(lender) => Ok(lender),
            Err(fault) => Err(RepoFault::from(fault)),
        }
    }
}

/// The value of a key in the tree with this root.
fn value_in<D: Digest, const B: u8, A: Allocator>(
    kept: &Kept<D, A>,
    root: Cid,
    key: &[u8],
) -> Option<Cid>
    requires { 1 ≤ B }
    ensures { OfTree D.digest_of B kept.now.uses root (IsValue key.now result) }
{
    let (value, _) = value_at::<D, B, A>(kept, root, key);
    value
}

/// The last batch's revision, or `None` before the first one.
fn last_rev<A: Allocator>(stamps: &[(Stamp<A>, u64)]) -> Option<&[u8]>
    ensures { option_map (λ rev. rev.now) result ≡ rev_of (last (stamps_of stamps.now)) }
{
    match stamps.last() {
        Some((stamp, _)) => Some(&stamp.rev),
        None => None,
    }
}

/// How many writes more there may be.
fn room_for<A: Allocator>(limit: usize, accepted: &[Arc<Write<A>, A>]) -> usize
    requires { length (shared_writes accepted.now) ≤ limit }
    ensures { length (shared_writes accepted.now) + result ≡ limit }
{
    limit - accepted.len()
}
