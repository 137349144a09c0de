//! A host that has closed, and one that hasn't.

ghost use Rattle.std.specs.Prelude.{◌≡◌, ◌<◌, ℕ, List, [], length, map, All, slice_index_or, IfOk, IfErr, IfSome, IfNone};
ghost use Rattle.std.specs.List.Sorted.{IsStrictlySortedBy};
ghost use Rattle.std.specs.Cmp.Lexicographic.{slice_cmp};
ghost use Rattle.std.specs.Ordering.{nat_cmp};
ghost use Rattle.notices.specs.Numbering.{IsNumbered};
ghost use Rattle.notices.specs.Views.{received_one};
ghost use Rattle.spec.specs.States.{State, IsLawful};
ghost use Rattle.batches.specs.Values.{shared_writes, stamps_of};
ghost use Rattle.kept.specs.Uses.{used_blocks};
ghost use Rattle.closing.specs.Headline.{IsFromScratch, AreTallies};
ghost use Rattle.closing.specs.Tally.{tally, count};
ghost use Rattle.closing.specs.Counts.{count_in, positive};
ghost use Rattle.ended.specs.Ending.{IsEndedAt, joined_all, kept_by};
ghost use Rattle.closing.specs.Settling.{IsSettled, IsUneven, IsAllTold};

use crate::block_counts::{all_counts, count_in_shard, listed};
use crate::comparing::compare;
use crate::mismatch::Mismatch;
use crate::repositories::Repositories;
use crate::shown::{Shown, show};
use cid::{Cid, Digest};
use ended::{Ended, Feed, Settled};
use fitting::element;
use notices::{Notice, Queue};
use repo::Core;
use std::alloc::{AllocError, Allocator, Global};
use std::marker::Model;
use std::sync::Wait;
use store::{SHARDS, Shard};

/// A host that has closed: its cores and the tables of its shards agree, so that each block's count is the number of cores
/// that have it. Where it goes, all blocks are given back.
///
/// A contract sees it as the states of its cores, the tables, the feed, and the writers as they ended.
#[derive(Drop)]
pub struct Closed<D: Digest, const B: u8, A: Allocator + Clone = Global> {
    queue: Queue<A>,
    feed: notices::Feed,
    settled: Vec<Settled<A>, A>,
    repositories: Repositories<D, B, A>,
}

impl<D: Digest, const B: u8, A: Allocator + Clone> Model for Closed<D, B, A> {
    ghost use Rattle.std.specs.Coded.{codes};
    ghost use Rattle.store.specs.Table.{table_code};
    ghost use Rattle.closing.specs.Settling.{ClosedView, IsClosed};

    ghost Value = { ClosedView };

    ghost coded = { Prim.hlevel (codes, table_code) };

    ghost view = { λ c. record {
      cores = c.repositories.cores.items;
      tables = c.repositories.tables;
      feed = c.feed;
      ended = c.settled.items;
    } };

    ghost invariant = { λ c. IsClosed D.digest_of B c.queue.queue_id c.repositories.cores.items
        c.repositories.tables c.feed c.settled.items };
}

/// Cores and tables that don't agree, or cores whose numbers aren't their places, or that have fewer accepted writes than a
/// writer has seen there. Where it goes, all blocks are given back.
///
/// A contract sees it as the states of the cores, the tables, the writers as they ended, and in what they don't agree.
#[derive(Drop)]
pub struct Uneven<D: Digest, const B: u8, A: Allocator + Clone = Global> {
    repositories: Repositories<D, B, A>,
    ended: Vec<Ended<A>, A>,
    mismatch: Mismatch,
}

impl<D: Digest, const B: u8, A: Allocator + Clone> Model for Uneven<D, B, A> {
    ghost use Rattle.std.specs.Coded.{codes};
    ghost use Rattle.store.specs.Table.{table_code};
    ghost use Rattle.closing.specs.Settling.{UnevenView, IsUneven};

    ghost Value = { UnevenView };

    ghost coded = { Prim.hlevel (codes, table_code) };

    ghost view = { λ u. record {
      cores = u.repositories.cores.items;
      tables = u.repositories.tables;
      ended = u.ended.items;
      mismatch = u.mismatch;
    } };

    ghost invariant = { λ u. IsUneven D.digest_of B u.repositories.cores.items
        u.repositories.tables u.ended.items u.mismatch };
}

impl<D: Digest, const B: u8, A: Allocator + Clone> Closed<D, B, A> {
    /// The cores, in the order of their numbers.
    pub fn cores(&self) -> &[Core<D, B, A>]
        ensures { result.now ≡ self.now.cores }
    {
        &self.repositories.cores
    }

    /// The headline: the repository of this number, less than there are cores, and the counts of all blocks.
    ///
    /// Its root, its commit and its blocks are those, and no others, of the Merkle search tree built from scratch from the
    /// records that its accepted writes leave, with the commit of its last stamp; and the count of each CID is the number of
    /// the cores that have a block with it. It takes no memory.
    pub fn shown(&self, number: usize) -> Shown<'_, D, A>
        requires { number < length self.now.cores }
        ensures lawful { (d : State) → IsLawful (slice_index_or self.now.cores number d) }
        ensures accepted { (d : State) → shared_writes result.accepted.now
            ≡ (slice_index_or self.now.cores number d).accepted }
        ensures stamps { (d : State) → stamps_of result.stamps.now
            ≡ (slice_index_or self.now.cores number d).stamps }
        ensures from_scratch { IsFromScratch D.digest_of B (shared_writes result.accepted.now)
            (stamps_of result.stamps.now) result.root result.commit
            (used_blocks result.blocks.entries) }
        ensures counts { AreTallies D.digest_of B self.now.cores self.now.tables }
    {
        show(element(&self.repositories.cores, number))
    }

    /// How many of the cores have a block with this CID, which is the count that its entry in the table of its shard has, 0
    /// without an entry. It takes no memory.
    pub fn count(&self, cid: &Cid) -> u64
        ensures entry { result ≡ count self.now.tables cid.now }
        ensures tally { result ≡ tally D.digest_of B self.now.cores cid.now }
    {
        count_in_shard(&self.repositories.tables, cid)
    }

    /// Takes the oldest notice that was left in the queue, or answers `None` only where the queue was empty at some moment of
    /// the call. Then what was received of each writer, and after it what the writer kept, is what it told. What was received
    /// of a writer is numbered 1, 2, .. in order.
    ///
    /// It takes no memory, and waits for nothing but the queue's own steps.
    pub fn next_left<R: Wait>(&mut self, rt: &R) -> Option<Notice>
        ensures received { IfSome result
            (λ notice. self.new ≡ record self.old { feed = received_one self.old.feed notice }) }
        ensures known { IfSome result (λ notice. notice.writer < self.new.feed.made) }
        ensures unchanged { IfNone result (self.new ≡ self.old) }
        ensures told { IfNone result (IsAllTold self.new.feed self.new.ended) }
        ensures numbered { IsNumbered self.new.feed.received }
    {
        self.queue.take(rt, &mut self.feed)
    }

    /// The notices that the writer of this number kept, the oldest first: none where no writer has it. It takes no memory.
    pub fn kept(&self, writer: u32) -> &[Notice]
        ensures { result.now ≡ kept_by self.now.ended writer }
    {
        for settled in &self.settled {
            if settled.writer() == writer {
                return settled.kept();
            }
        }
        &[]
    }
}

impl<D: Digest, const B: u8, A: Allocator + Clone> Closed<D, B, A> {
    /// Each CID of a count above 0, with its count, in ascending order of the CIDs.
    ///
    /// `AllocError` comes where memory was refused.
    pub fn counts(&self, alloc: A) -> Result<Vec<(Cid, u64), A>, AllocError>
        ensures ascending { IfOk result (λ v. IsStrictlySortedBy (slice_cmp nat_cmp)
            (map (λ e. e.0) v.items)) }
        ensures counts { IfOk result (λ v. (cid : List ℕ) → count_in v.items cid
            ≡ positive (tally D.digest_of B self.now.cores cid)) }
    {
        let all = all_counts(alloc.clone()?, &self.repositories.tables)?;
        listed(alloc, all)
    }
}

impl<D: Digest, const B: u8, A: Allocator + Clone> Closed<D, B, A> {
    /// Gives all blocks back, as a drop does. It takes no lock and no memory.
    pub fn end(self) {
        drop(self);
    }
}

impl<D: Digest, const B: u8, A: Allocator + Clone> Uneven<D, B, A> {
    /// In what they don't agree. Where there is more than one such thing, it is one of them.
    pub fn mismatch(&self) -> Mismatch
        ensures mismatch { result ≡ self.now.mismatch }
        ensures uneven { IsUneven D.digest_of B self.now.cores self.now.tables self.now.ended
            result }
    {
        self.mismatch
    }

    /// The cores, in the order in which they were given.
    pub fn cores(&self) -> &[Core<D, B, A>]
        ensures { result.now ≡ self.now.cores }
    {
        self.repositories.cores.as_slice()
    }
}

/// Compares cores with tables and with what writers have seen, and lets the writers' passes join the feed.
///
/// The feed is the queue's and has joined no pass so far; the writers are all that the queue made a pass for, and each has
/// a number of accepted writes for each core.
///
/// `Uneven` comes only where a core's number isn't its place, the cores that are entered for some CID aren't those that
/// have a block with it, or a core has fewer accepted writes than a writer has seen there: it holds cores, tables and
/// writers as they were given, and names one of these faults that stands in them. The queue is gone then, with what was
/// left in it.
///
/// It takes no lock and no memory.
pub fn close<D: Digest, const B: u8, A: Allocator + Clone>(
    queue: Queue<A>,
    feed: Feed<A>,
    ended: Vec<Ended<A>, A>,
    cores: Vec<Core<D, B, A>, A>,
    tables: [Shard<D, A>; SHARDS],
) -> Result<Closed<D, B, A>, Uneven<D, B, A>>
    requires feed { feed.queue_id ≡ queue.queue_id }
    requires fresh { feed.joined ≡ [] }
    requires ended { All (IsEndedAt queue.queue_id (length cores.items)) ended.items }
    requires all { length ended.items ≡ feed.made }
    ensures cores { IfOk result (λ c. c.cores ≡ cores.items) }
    ensures tables { IfOk result (λ c. c.tables ≡ tables) }
    ensures ended { IfOk result (λ c. c.ended ≡ ended.items) }
    ensures joined { IfOk result (λ c. c.feed ≡ joined_all feed ended.items) }
    ensures settled { IfOk result (λ c. IsSettled D.digest_of B c.cores c.tables c.ended) }
    ensures same { IfErr result (λ u. u ≡ record
        { cores = cores.items; tables = tables; ended = ended.items; mismatch = u.mismatch }) }
    ensures uneven { IfErr result (λ u. IsUneven D.digest_of B u.cores u.tables u.ended
        u.mismatch) }
{
    match compare::<D, B, A>(&cores, &tables, &ended) {
        Ok(()) => {
            let (feed, settled) = feed.settle(&queue, ended);
            Ok(Closed {
                queue,
                feed,
                settled,
                repositories: Repositories { cores, tables },
            })
        }
        Err(mismatch) => Err(Uneven {
            repositories: Repositories { cores, tables },
            ended,
            mismatch,
        }),
    }
}
