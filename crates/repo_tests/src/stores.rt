//! A store as tests see it: one shard, or the sixteen locked ones. No contract can say what stands behind a lock.

ghost use Rattle.std.specs.Prelude.{◌≤◌, ◌<◌};

use batches::RepoFault;
use block::Block;
use cid::{Cid, Digest};
use refusing::Refusing;
use repo::Core;
use repo_fixtures::batch::Batch;
use repo_fixtures::cores::{counts, held};
use repo_fixtures::ends::{Ended, end_of};
use std::alloc::Global;
use std::sync::{Arc, Wait};
use store::{BlockStore, Hold, LentShard, LockedShards, Shard, Shards, StoreFault, TableKey};

/// Memory that refuses requests.
pub(crate) type Heap = Refusing<Global>;

/// A store of this memory.
#[derive(Drop)]
pub(crate) enum Store<'r, 'h, R: Wait, D: Digest> {
    /// One shard, which is lent to each call.
    Lent(Shard<D, &'h Heap>),
    /// The sixteen shards behind their locks.
    Locked(Locked<'r, 'h, R, D>),
}

/// The sixteen shards, and the leave to wait for their locks.
#[derive(Drop)]
pub(crate) struct Locked<'r, 'h, R: Wait, D: Digest> {
    rt: &'r R,
    shards: Shards<D, &'h Heap>,
}

/// Both kinds of store, each shard of which may have so many blocks.
pub(crate) fn both_stores<'r, 'h, R: Wait, D: Digest>(
    rt: &'r R,
    heap: &'h Heap,
    limit: usize,
) -> [Store<'r, 'h, R, D>; 2]
    requires least { 1 ≤ limit }
    requires most { limit ≤ 1048576 }
{
    [
        Store::Lent(Shard::new(heap, limit, TableKey::known())),
        Store::Locked(Locked {
            rt,
            shards: Shards::open(heap, limit, TableKey::known()),
        }),
    ]
}

/// A CID whose block would stand in the shard of this number, below 16.
fn cid_in(number: u8) -> Option<Cid> {
    let mut bytes = [0; 36];
    bytes[..4].copy_from_slice(b"\x01\x71\x12\x20");
    bytes[4] = number;
    Cid::from_bytes(bytes)
}

/// How many blocks the shard of this number has, and how many holds of them are out.
fn counts_in<'h, R: Wait, D: Digest>(
    rt: &R,
    shards: &Shards<D, &'h Heap>,
    number: u8,
) -> (u64, u64) {
    match cid_in(number) {
        Some(cid) => counts(&shards.shard(&cid).lock(rt)),
        None => (0, 0),
    }
}

/// The same of all sixteen.
fn counts_behind<'h, R: Wait, D: Digest>(rt: &R, shards: &Shards<D, &'h Heap>) -> (u64, u64) {
    let (mut blocks, mut holds) = (0u64, 0u64);
    for number in 0..16u8 {
        let (some, of_these) = counts_in(rt, shards, number);
        blocks = blocks.saturating_add(some);
        holds = holds.saturating_add(of_these);
    }
    (blocks, holds)
}

/// How many blocks a core has, where it finds each of them under its CID and has it entered in the locked shard; else `None`.
fn held_behind<'h, R: Wait, D: Digest, const B: u8>(
    rt: &R,
    shards: &Shards<D, &'h Heap>,
    core: &Core<D, B, &'h Heap>,
) -> Option<u64> {
    let mut count = 0u64;
    for block in core.blocks() {
        let cid = block.cid();
        match core.block(&cid) {
            Some(found)
                if found.bytes() == block.bytes()
                    && shards.shard(&cid).lock(rt).has(&cid, core.me()) => {}
            _ => return None,
        }
        count = count.saturating_add(1);
    }
    Some(count)
}

impl<'r, 'h, R: Wait, D: Digest> Store<'r, 'h, R, D> {
    /// How many blocks it has, and how many holds of them are out.
    pub(crate) fn counts(&self) -> (u64, u64) {
        match self {
            Store::Lent(shard) => counts(shard),
            Store::Locked(locked) => counts_behind(locked.rt, &locked.shards),
        }
    }

    /// How many cores hold the block of this CID.
    pub(crate) fn count(&self, cid: &Cid) -> u64 {
        match self {
            Store::Lent(shard) => shard.count(cid),
            Store::Locked(locked) => locked.shards.shard(cid).lock(locked.rt).count(cid),
        }
    }

    /// How many blocks a core has, where it finds each of them under its CID and is entered for it here; else `None`.
    pub(crate) fn held<const B: u8>(&self, core: &Core<D, B, &'h Heap>) -> Option<u64> {
        match self {
            Store::Lent(shard) => held(shard, core),
            Store::Locked(locked) => held_behind(locked.rt, &locked.shards, core),
        }
    }

    /// Acquires a block for a core.
    pub(crate) fn acquire(
        &mut self,
        me: u32,
        block: Arc<Block<D, &'h Heap>, &'h Heap>,
    ) -> Result<Hold<D, &'h Heap>, StoreFault<D, &'h Heap>>
        requires { me < 1024 }
    {
        match self {
            Store::Lent(shard) => LentShard::new(shard).acquire(me, block),
            Store::Locked(locked) => LockedShards::new(locked.rt, &locked.shards).acquire(
                me, block,
            ),
        }
    }

    /// Releases a hold.
    pub(crate) fn release(&mut self, hold: Hold<D, &'h Heap>) {
        match self {
            Store::Lent(shard) => LentShard::new(shard).release(hold),
            Store::Locked(locked) => LockedShards::new(locked.rt, &locked.shards).release(hold),
        }
    }

    /// A core without writes, which may have 2,000 of them.
    pub(crate) fn open<const B: u8>(
        &mut self,
        heap: &'h Heap,
        me: u32,
    ) -> Result<Core<D, B, &'h Heap>, RepoFault<D, &'h Heap>>
        requires small { me < 1024 }
        requires least { 1 ≤ B }
        requires most { B ≤ 8 }
    {
        match self {
            Store::Lent(shard) => Core::open(heap, &mut LentShard::new(shard), me, 2000),
            Store::Locked(locked) => Core::open(
                heap,
                &mut LockedShards::new(locked.rt, &locked.shards),
                me,
                2000,
            ),
        }
    }

    /// How a batch ends that is applied to the core.
    pub(crate) fn apply<const B: u8>(
        &mut self,
        heap: &'h Heap,
        core: &mut Core<D, B, &'h Heap>,
        batch: &Batch<&'h Heap>,
    ) -> Ended {
        let (stamp, writes) = (&batch.stamp, &batch.writes);
        end_of(match self {
            Store::Lent(shard) => core.apply(heap, &mut LentShard::new(shard), stamp, writes),
            Store::Locked(locked) => core.apply(
                heap,
                &mut LockedShards::new(locked.rt, &locked.shards),
                stamp,
                writes,
            ),
        })
    }

    /// Gives the core's blocks back.
    pub(crate) fn end<const B: u8>(&mut self, core: Core<D, B, &'h Heap>) {
        match self {
            Store::Lent(shard) => core.end(&mut LentShard::new(shard)),
            Store::Locked(locked) => core.end(&mut LockedShards::new(locked.rt, &locked.shards)),
        }
    }
}
