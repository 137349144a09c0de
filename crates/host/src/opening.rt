//! The opening of a host. The room that its close and its writers' places need is made here.

ghost use Rattle.std.specs.Prelude.{◌≡◌, ◌≤◌, ◌<◌, [], All, length, map, IfOk, IfErr, OnOk, vec_len, vec_capacity};
ghost use Rattle.notices.specs.Views.{fresh_feed};
ghost use Rattle.host.specs.Opening.{AreLawful, IsOutOfRange};
ghost use Rattle.host.specs.Views.{fresh_seat, fresh_seats};

use crate::fault::OpenFault;
use crate::host::{Host, Opened};
use crate::limits::Limits;
use crate::seat::Seat;
use crate::version::Shelf;
use cid::Digest;
use ended::Feed;
use fitting::fits_in_memory;
use notices::{Queue, SendPass};
use repo::{Core, Repository};
use std::alloc::{AllocError, Allocator};
use std::collections::VecDeque;
use std::sync::{RwLock, Wait};
use store::{LockedShards, Shards, TableKey};

/// Whether each limit is in its range.
fn tested(limits: &Limits) -> Result<(), OpenFault>
    ensures lawful { OnOk result (AreLawful limits.now) }
    ensures fault { IfErr result (IsOutOfRange limits.now) }
{
    if limits.repos < 1 || limits.repos > 1024 {
        return Err(OpenFault::BadRepos);
    }
    if limits.writers < 1 || limits.writers > 64 {
        return Err(OpenFault::BadWriters);
    }
    if limits.queue < 1 || limits.queue > 65536 {
        return Err(OpenFault::BadQueue);
    }
    if limits.shard_blocks < 1 || limits.shard_blocks > 1_048_576 {
        return Err(OpenFault::BadBlocks);
    }
    if limits.repo_writes < 1 || limits.repo_writes > 1_048_576 {
        return Err(OpenFault::BadWrites);
    }
    Ok(())
}

/// A seat for each pass, with a place for each repository.
fn seats_of<A: Allocator + Copy>(
    alloc: A,
    passes: Vec<SendPass, A>,
    repos: usize,
) -> Result<Vec<Seat<A>, A>, AllocError>
    requires { All (λ p. p.sent ≡ []) passes.items }
    ensures { IfOk result (λ seats. seats.items ≡ map (fresh_seat repos) passes.items) }
{
    let mut seats = Vec::with_capacity(alloc, passes.len())?;
    for pass in passes {
        let seen = Vec::from_elem(alloc, 0, repos)?;
        let seat = Seat {
            pass,
            kept: VecDeque::new(alloc),
            seen,
        };
        seats.push_reserved(seat);
    }
    Ok(seats)
}

/// Gives the blocks of these repositories back.
fn give_back<D: Digest, const B: u8, A: Allocator + Clone, R: Wait>(
    rt: &R,
    shards: &Shards<D, A>,
    mut repositories: Vec<Repository<D, B, A>, A>,
) {
    let mut store = LockedShards::new(rt, shards);
    while let Some(repository) = repositories.pop() {
        let Repository { lock } = repository;
        lock.into_inner().end(&mut store);
    }
    repositories.destroy_empty();
}

/// So many repositories without writes, and room for their cores. What was opened before a refusal is given back.
fn open_all<D: Digest, const B: u8, A: Allocator + Copy, R: Wait>(
    rt: &R,
    alloc: A,
    shards: &Shards<D, A>,
    count: u32,
    limit: usize,
) -> Result<(Vec<Repository<D, B, A>, A>, Vec<Core<D, B, A>, A>), AllocError>
    requires least_bits { 1 ≤ B }
    requires most_bits { B ≤ 8 }
    requires few { count ≤ 1024 }
    requires least { 1 ≤ limit }
    requires most { limit ≤ 1048576 }
    ensures repositories { IfOk result (λ r. length r.0.items ≡ count) }
    ensures empty { IfOk result (λ r. vec_len r.1 ≡ 0) }
    ensures room { IfOk result (λ r. count ≤ vec_capacity r.1) }
{
    let Ok(room) = Vec::with_capacity(alloc, count as usize) else {
        return Err(AllocError);
    };
    let Ok(mut repositories) = Vec::with_capacity(alloc, count as usize) else {
        room.destroy_empty();
        return Err(AllocError);
    };
    let mut store = LockedShards::new(rt, shards);
    for me in 0..count {
        match Core::open(alloc, &mut store, me, limit) {
            Ok(core) => repositories.push_reserved(Repository {
                lock: RwLock::new(core),
            }),
            Err(_) => {
                give_back(rt, shards, repositories);
                room.destroy_empty();
                return Err(AllocError);
            }
        }
    }
    Ok((repositories, room))
}

/// The queue of a host, the seat of each writer in the order of their numbers, and the feed.
fn queue_of<A: Allocator + Copy>(
    alloc: A,
    limits: &Limits,
) -> Result<(Queue<A>, Vec<Seat<A>, A>, Feed<A>), AllocError>
    requires { AreLawful limits.now }
    ensures room { IfOk result (λ r. r.0.room ≡ limits.now.queue) }
    ensures seats { IfOk result (λ r. r.1.items
        ≡ fresh_seats r.0.queue_id limits.now.writers limits.now.repos) }
    ensures feed { IfOk result (λ r. r.2 ≡ fresh_feed r.0.queue_id limits.now.writers) }
{
    let made = Queue::open(alloc, limits.writers, limits.queue)?;
    let (queue, passes, feed) = made;
    let seats = seats_of(alloc, passes, limits.repos as usize)?;
    let feed = Feed::with_room(alloc, feed, limits.writers)?;
    Ok((queue, seats, feed))
}

impl<D: Digest, const B: u8, A: Allocator + Copy> Host<D, B, A> {
    /// A host with these limits and this key. There is no memory for one whose parts don't fit in it.
    fn with_limits<R: Wait>(
        rt: &R,
        alloc: A,
        limits: &Limits,
        key: TableKey,
    ) -> Result<Opened<D, B, A>, AllocError>
        requires least_bits { 1 ≤ B }
        requires most_bits { B ≤ 8 }
        requires lawful { AreLawful limits.now }
        ensures repos { IfOk result (λ o. o.host.repos ≡ limits.now.repos) }
        ensures limit { IfOk result (λ o. o.host.limit ≡ limits.now.repo_writes) }
        ensures room { IfOk result (λ o. o.host.queue.room ≡ limits.now.queue) }
        ensures feed { IfOk result (λ o.
            o.feed ≡ fresh_feed o.host.queue.queue_id limits.now.writers) }
        ensures seats { IfOk result (λ o. o.seats.items
            ≡ fresh_seats o.host.queue.queue_id limits.now.writers limits.now.repos) }
    {
        if !fits_in_memory::<Shards<D, A>>()
            || !fits_in_memory::<Core<D, B, A>>()
            || !fits_in_memory::<Repository<D, B, A>>()
        {
            return Err(AllocError);
        }
        let opened = queue_of(alloc, limits)?;
        let (queue, seats, feed) = opened;
        let shelf = Shelf::open(alloc)?;
        let shards = Shards::open(alloc, limits.shard_blocks, key);
        let (repositories, room) = open_all(rt, alloc, &shards, limits.repos, limits.repo_writes)?;
        let host = Host {
            queue,
            repositories,
            limit: limits.repo_writes,
            shards,
            room,
            shelf,
        };
        Ok(Opened { host, seats, feed })
    }

    /// A host of repositories without writes, with the seat of each writer in the order of their numbers, and the feed.
    ///
    /// Its shards hash CIDs under this key: two numbers that the caller has drawn at random, or `TableKey::known()`, which
    /// everybody knows. Where strangers choose records it has to be a key that they don't know.
    ///
    /// All limits are tested first, in their order, and the fault names the first one that is out of its range. After that
    /// only memory can be refused, `OpenFault::NoMemory`, also where shards, cores or repositories over this allocator would be
    /// too large for any memory; all that was taken is given back then.
    pub fn open<R: Wait>(
        rt: &R,
        alloc: A,
        limits: Limits,
        key: TableKey,
    ) -> Result<Opened<D, B, A>, OpenFault>
        requires least_bits { 1 ≤ B }
        requires most_bits { B ≤ 8 }
        ensures lawful { OnOk result (AreLawful limits) }
        ensures fault { IfErr result (IsOutOfRange limits) }
        ensures repos { IfOk result (λ o. o.host.repos ≡ limits.repos) }
        ensures limit { IfOk result (λ o. o.host.limit ≡ limits.repo_writes) }
        ensures room { IfOk result (λ o. o.host.queue.room ≡ limits.queue) }
        ensures feed { IfOk result (λ o.
            o.feed ≡ fresh_feed o.host.queue.queue_id limits.writers) }
        ensures seats { IfOk result (λ o. o.seats.items
            ≡ fresh_seats o.host.queue.queue_id limits.writers limits.repos) }
    {
        tested(&limits)?;
        match Host::with_limits(rt, alloc, &limits, key) {
            Ok(opened) => Ok(opened),
            Err(_) => Err(OpenFault::NoMemory),
        }
    }
}
