//! A writer: what it has told, what it keeps, and what it has seen.

ghost use Rattle.std.specs.Prelude.{◌≡◌, ◌<◌, ◌≤◌, ◌+◌, ◌++◌, ◌∷◌, [], length, IfOk, IfErr, OnErr, OnOk, Err, Some, option_map};
ghost use Rattle.std.specs.VecDeque.{deque_len, deque_capacity};
ghost use Rattle.boxcar.specs.Table.{Shows};
ghost use Rattle.lookups.specs.Walks.{pairs_given};
ghost use Rattle.ended.specs.Ending.{IsEndedAt};
ghost use Rattle.host.specs.Rooting.{IsTaken, IsUntaken};
ghost use Rattle.host.specs.Seeing.{wanted_by};
ghost use Rattle.host.specs.Versions.{IsVersion, IsOfState};
ghost use Rattle.host.specs.Views.{ended_of, with_seen};
ghost use Rattle.host.specs.Telling.{IsFault, IsFaultFrom, IsReadFault, IsPushed, HasNoneBack, IsSame, IsTold, IsOfBatch, IsOfBatchFrom};
ghost use Rattle.host.specs.Telling.{HasNoNumber, HasFound, HasListed, told_by_writer};
ghost use Rattle.host.specs.declared.fault.ApplyFromFault.TheVariants as froms;
ghost use Rattle.host.specs.declared.fault.HostFault.TheVariants as faults;

use crate::fault::{ApplyFromFault, HostFault};
use crate::host::Host;
use crate::version::Receipt;
use batches::{Stamp, Write};
use cid::{Cid, Digest};
use ended::Ended;
use fitting::element;
use notices::{Notice, Sender};
use repo::Applied;
use std::alloc::{Allocator, Global};
use std::collections::VecDeque;
use std::marker::Model;
use std::sync::Wait;

/// A writer: one thread's way to change repositories and to read them.
///
/// It tells of each accepted batch by a notice, which it keeps until the queue takes it; so what it told is what it sent and then
/// what it keeps. For each repository it knows the greatest number of accepted writes that its calls have shown there, and no
/// later answer of its own goes behind that.
///
/// A contract sees its host, how often the queue was full, modulo 2^64, its pass, the notices that it keeps, and what it has seen.
#[derive(Drop)]
pub struct Writer<'a, D: Digest, const B: u8, A: Allocator + Clone = Global> {
    pub(crate) host: &'a Host<D, B, A>,
    // the same once more: of a slice that has an element it is known that a host fits in memory
    pub(crate) hosts: &'a [Host<D, B, A>],
    pub(crate) sender: Sender<'a, A>,
    pub(crate) kept: VecDeque<Notice, A>,
    pub(crate) last: u64,
    pub(crate) seen: Vec<u64, A>,
}

impl<'a, D: Digest, const B: u8, A: Allocator + Clone> Model for Writer<'a, D, B, A> {
    ghost use Rattle.host.specs.Views.{WriterView, IsWriting};

    ghost Value = { WriterView };

    ghost view = { λ w. record {
      host = w.host.now;
      refused = w.sender.refused;
      pass = w.sender.pass;
      kept = w.kept.items;
      seen = w.seen.items;
    } };

    ghost invariant = { λ w.
        IsWriting w.host.now w.hosts.now w.sender w.kept.items w.last w.seen.items };
}

impl<'a, D: Digest, const B: u8, A: Allocator + Clone> Writer<'a, D, B, A> {
    /// How many repositories its host has.
    fn repos(&self) -> usize
        ensures repos { result ≡ self.now.host.repos }
        ensures few { result ≤ 1024 }
    {
        let _ = element(self.hosts, 0);
        self.host.repos()
    }
}

impl<'a, D: Digest, const B: u8, A: Allocator + Copy> Writer<'a, D, B, A> {
    /// What its host answers to a batch for a repository of which this root is wanted, or none.
    fn taken<R: Wait>(
        &self,
        rt: &R,
        alloc: A,
        repo: usize,
        root: Option<Cid>,
        stamp: &Stamp<A>,
        writes: &[Write<A>],
    ) -> Result<Applied, ApplyFromFault<D, A>>
        requires { repo < self.now.host.repos }
        ensures accepted { IfOk result
            (IsTaken D.digest_of B (wanted_by self.now repo) root stamp.now writes.now) }
        ensures refused { IfErr result
            (IsUntaken D.digest_of B (wanted_by self.now repo) root stamp.now writes.now) }
    {
        let _ = element(self.hosts, 0);
        self.host
            .apply(rt, alloc, repo, self.seen[repo], root, stamp, writes)
    }

    /// Applies a batch to a repository, all its writes or none, and tells of it where it is accepted.
    ///
    /// `HostFault::NoSuchRepository` comes first, then `HostFault::SeqFull`, which says that this writer's last accepted call has
    /// the number 2^64 - 1. `HostFault::NoMemory` says that there was no room for one more notice: a place is made before the
    /// repository's lock is taken, so that nothing can be refused once the batch is accepted. `HostFault::Refused` has the place
    /// and the fault that the repository answered. After a refusal the writer is as before.
    ///
    /// It waits for the repository's lock, and then for that of one shard at a time. Last, it pushes the kept notices in order,
    /// as `flush` does.
    pub fn apply<R: Wait>(
        &mut self,
        rt: &R,
        alloc: A,
        repo: usize,
        stamp: &Stamp<A>,
        writes: &[Write<A>],
    ) -> Result<Notice, HostFault<D, A>>
        ensures told { IfOk result
            (λ n. told_by_writer self.new ≡ told_by_writer self.old ++ n ∷ []) }
        ensures notice { IfOk result (IsTold self.old repo) }
        ensures accepted { IfOk result
            (IsOfBatch D.digest_of B self.old repo stamp.now writes.now) }
        ensures seen { IfOk result (λ n. self.new.seen ≡ (with_seen self.old repo n.number).seen) }
        ensures pushed { OnOk result (IsPushed self.old self.new) }
        ensures none_back { OnOk result (HasNoneBack self.old self.new) }
        ensures same { IsSame self.old self.new }
        ensures unchanged { OnErr result (self.new ≡ self.old) }
        ensures fault { IfErr result (IsFault D.digest_of B self.old repo stamp.now writes.now) }
        ensures missing { self.old.host.repos ≤ repo → result ≡ Err faults.NoSuchRepository }
        ensures seq_full { repo < self.old.host.repos → HasNoNumber self.old
            → result ≡ Err faults.SeqFull }
    {
        match self.apply_where(rt, alloc, repo, None, stamp, writes) {
            Ok(notice) => Ok(notice),
            Err(ApplyFromFault::Host(fault)) => Err(fault),
            Err(ApplyFromFault::OtherRoot) => unreachable!(),
        }
    }

    /// Applies a batch to a repository that has the root `previous`, as [`apply`](Writer::apply) does.
    ///
    /// It is for a batch that was told before it is accepted, by a signature of its commit, a message or a proof: such a one is of
    /// what it makes of the repository as it was then (`host_exports::prepare` tells it).
    ///
    /// `ApplyFromFault::OtherRoot` says that the repository has another root, as where another writer's batch came between. It is
    /// tested under the repository's lock, before the batch is. `ApplyFromFault::Host` has what `apply` answers, in its order.
    /// After a refusal the writer is as before.
    pub fn apply_from<R: Wait>(
        &mut self,
        rt: &R,
        alloc: A,
        repo: usize,
        previous: Cid,
        stamp: &Stamp<A>,
        writes: &[Write<A>],
    ) -> Result<Notice, ApplyFromFault<D, A>>
        ensures told { IfOk result
            (λ n. told_by_writer self.new ≡ told_by_writer self.old ++ n ∷ []) }
        ensures notice { IfOk result (IsTold self.old repo) }
        ensures accepted { IfOk result
            (IsOfBatchFrom D.digest_of B self.old repo (Some previous) stamp.now writes.now) }
        ensures seen { IfOk result (λ n. self.new.seen ≡ (with_seen self.old repo n.number).seen) }
        ensures pushed { OnOk result (IsPushed self.old self.new) }
        ensures none_back { OnOk result (HasNoneBack self.old self.new) }
        ensures same { IsSame self.old self.new }
        ensures unchanged { OnErr result (self.new ≡ self.old) }
        ensures fault { IfErr result
            (IsFaultFrom D.digest_of B self.old repo (Some previous) stamp.now writes.now) }
        ensures missing { self.old.host.repos ≤ repo
            → result ≡ Err (froms.Host faults.NoSuchRepository) }
        ensures seq_full { repo < self.old.host.repos → HasNoNumber self.old
            → result ≡ Err (froms.Host faults.SeqFull) }
    {
        self.apply_where(rt, alloc, repo, Some(previous), stamp, writes)
    }

    /// Both: applies a batch to a repository of which this root is wanted, or none.
    fn apply_where<R: Wait>(
        &mut self,
        rt: &R,
        alloc: A,
        repo: usize,
        root: Option<Cid>,
        stamp: &Stamp<A>,
        writes: &[Write<A>],
    ) -> Result<Notice, ApplyFromFault<D, A>>
        ensures told { IfOk result
            (λ n. told_by_writer self.new ≡ told_by_writer self.old ++ n ∷ []) }
        ensures notice { IfOk result (IsTold self.old repo) }
        ensures accepted { IfOk result
            (IsOfBatchFrom D.digest_of B self.old repo root stamp.now writes.now) }
        ensures seen { IfOk result (λ n. self.new.seen ≡ (with_seen self.old repo n.number).seen) }
        ensures pushed { OnOk result (IsPushed self.old self.new) }
        ensures none_back { OnOk result (HasNoneBack self.old self.new) }
        ensures same { IsSame self.old self.new }
        ensures unchanged { OnErr result (self.new ≡ self.old) }
        ensures fault { IfErr result
            (IsFaultFrom D.digest_of B self.old repo root stamp.now writes.now) }
        ensures missing { self.old.host.repos ≤ repo
            → result ≡ Err (froms.Host faults.NoSuchRepository) }
        ensures seq_full { repo < self.old.host.repos → HasNoNumber self.old
            → result ≡ Err (froms.Host faults.SeqFull) }
    {
        if repo >= self.repos() {
            return Err(ApplyFromFault::Host(HostFault::NoSuchRepository));
        }
        if self.last == u64::MAX {
            return Err(ApplyFromFault::Host(HostFault::SeqFull));
        }
        let Ok(()) = self.kept.reserve(1) else {
            return Err(ApplyFromFault::Host(HostFault::NoMemory));
        };
        let applied = match self.taken(rt, alloc, repo, root, stamp, writes) {
            Ok(applied) => applied,
            Err(fault) => return Err(fault),
        };
        self.seen[repo] = applied.number;
        self.last += 1;
        let notice = Notice {
            writer: self.sender.writer(),
            seq: self.last,
            repo: repo as u32,
            number: applied.number,
            root: applied.root,
        };
        keep(&mut self.kept, &notice);
        self.flush(rt);
        Ok(notice)
    }

    /// The record of a key, or `None` where there is none, by a state of the repository with no fewer accepted writes than this
    /// writer has seen there.
    ///
    /// `HostFault::NoSuchRepository` says that there is no such repository, and `HostFault::NoMemory` comes where memory was
    /// refused. It waits for the repository's lock, which it shares with other readers.
    pub fn get<R: Wait>(
        &mut self,
        rt: &R,
        alloc: A,
        repo: usize,
        key: &[u8],
    ) -> Result<Option<Vec<u8, A>>, HostFault<D, A>>
        ensures found { IfOk result (λ o.
            HasFound self.old self.new repo key.now (option_map (λ v. v.items) o)) }
        ensures unchanged { OnErr result (self.new ≡ self.old) }
        ensures fault { IfErr result (IsReadFault self.old.host repo) }
        ensures missing { self.old.host.repos ≤ repo → result ≡ Err faults.NoSuchRepository }
    {
        let _ = element(self.hosts, 0);
        if repo >= self.host.repos() {
            return Err(HostFault::NoSuchRepository);
        }
        match self.host.record(rt, alloc, repo, self.seen[repo], key) {
            Ok((number, record)) => {
                self.seen[repo] = number;
                Ok(record)
            }
            Err(_) => Err(HostFault::NoMemory),
        }
    }

    /// The first `limit` pairs of a key and its record's CID, from a key on, in the order of the keys, by a state of the repository
    /// with no fewer accepted writes than this writer has seen there.
    ///
    /// It refuses and waits as `get` does.
    pub fn list<R: Wait>(
        &mut self,
        rt: &R,
        alloc: A,
        repo: usize,
        from: &[u8],
        limit: usize,
    ) -> Result<Vec<(Vec<u8, A>, Cid), A>, HostFault<D, A>>
        ensures found { IfOk result (λ v.
            HasListed D.digest_of self.old self.new repo from.now limit (pairs_given v.items)) }
        ensures unchanged { OnErr result (self.new ≡ self.old) }
        ensures fault { IfErr result (IsReadFault self.old.host repo) }
        ensures missing { self.old.host.repos ≤ repo → result ≡ Err faults.NoSuchRepository }
    {
        let _ = element(self.hosts, 0);
        if repo >= self.host.repos() {
            return Err(HostFault::NoSuchRepository);
        }
        match self
            .host
            .pairs(rt, alloc, repo, self.seen[repo], from, limit)
        {
            Ok((number, pairs)) => {
                self.seen[repo] = number;
                Ok(pairs)
            }
            Err(_) => Err(HostFault::NoMemory),
        }
    }

    /// Publishes the repository as it is, with no fewer accepted writes than this writer has seen there. `Host::version` lends
    /// the version to any thread.
    ///
    /// It refuses and waits as `get` does.
    pub fn publish<R: Wait>(
        &mut self,
        rt: &R,
        alloc: A,
        repo: usize,
    ) -> Result<Receipt<D, B, A>, HostFault<D, A>>
        ensures shown { IfOk result (Shows self.new.host.shelf) }
        ensures lawful { IfOk result (λ r. IsVersion D.digest_of B r.value) }
        ensures state { IfOk result (λ r.
            IsOfState D.digest_of B (wanted_by self.old repo) r.value) }
        ensures seen { IfOk result (λ r. self.new ≡ with_seen self.old repo r.value.number) }
        ensures unchanged { OnErr result (self.new ≡ self.old) }
        ensures fault { IfErr result (IsReadFault self.old.host repo) }
        ensures missing { self.old.host.repos ≤ repo → result ≡ Err faults.NoSuchRepository }
    {
        let _ = element(self.hosts, 0);
        if repo >= self.host.repos() {
            return Err(HostFault::NoSuchRepository);
        }
        let Ok(version) = self.host.version_from(rt, alloc, repo, self.seen[repo]) else {
            return Err(HostFault::NoMemory);
        };
        let number = version.number;
        match self.host.publish(rt, version) {
            Ok(receipt) => {
                self.seen[repo] = number;
                Ok(receipt)
            }
            Err(_) => Err(HostFault::NoMemory),
        }
    }
}

impl<'a, D: Digest, const B: u8, A: Allocator + Clone> Writer<'a, D, B, A> {
    /// Pushes the kept notices in order until the queue is full, and answers how many are still kept. It takes no memory, and waits
    /// for nothing but the queue's own steps.
    pub fn flush<R: Wait>(&mut self, rt: &R) -> usize
        ensures told { told_by_writer self.new ≡ told_by_writer self.old }
        ensures same { IsSame self.old self.new }
        ensures seen { self.new.seen ≡ self.old.seen }
        ensures kept { result ≡ length self.new.kept }
        ensures pushed { IsPushed self.old self.new }
        ensures none_back { HasNoneBack self.old self.new }
    {
        while let Some(first) = self.kept.front() {
            let notice = *first;
            match self.sender.push(rt, notice) {
                Ok(()) => {}
                Err(_) => return self.kept.len(),
            }
            self.kept.pop_front();
        }
        0
    }

    /// Ends the writer. It drops nothing, and takes no memory.
    pub fn end(self) -> Ended<A>
        ensures same { result ≡ ended_of self.entry }
        ensures ended { IsEndedAt self.entry.host.queue.queue_id self.entry.host.repos result }
    {
        let Writer {
            host: _,
            hosts: _,
            sender,
            kept,
            last: _,
            seen,
        } = self;
        Ended::new(sender.end(), kept.into_vec(), seen)
    }
}

/// Keeps one more notice, for which there is room.
fn keep<A: Allocator>(kept: &mut VecDeque<Notice, A>, notice: &Notice)
    requires { deque_len kept.old < deque_capacity kept.old }
    ensures { kept.new.items ≡ kept.old.items ++ notice.now ∷ [] }
{
    kept.push_back_reserved(*notice);
}
