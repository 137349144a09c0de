ghost use Rattle.std.specs.Prelude.{◌≡◌, ◌<◌, ◌≤◌};
ghost use Rattle.store.specs.Shards.{AreEmpty, AreUnder};
ghost use Rattle.store.specs.Table.{shard_of};

use crate::shard::Shard;
use crate::table_key::TableKey;
use cid::{Cid, Digest};
use std::alloc::{Allocator, Global};
use std::sync::Mutex;

/// How many shards there are.
pub const SHARDS: usize = 16;

/// The number of the shard of a CID, below 16: the low four bits of the first byte of its digest. This
/// is this repository's own choice.
pub fn shard_number(cid: &Cid) -> usize
    ensures value { result ≡ shard_of cid.now }
    ensures small { result < 16 }
{
    usize::from(cid.as_bytes()[4]) % SHARDS
}

/// Sixteen empty shards, each of at most `limit` blocks, 1 to 1,048,576, under this key. It takes no memory yet.
pub fn empty_shards<D: Digest, A: Allocator + Copy>(
    alloc: A,
    limit: usize,
    key: TableKey,
) -> [Shard<D, A>; SHARDS]
    requires least { 1 ≤ limit }
    requires most { limit ≤ 1048576 }
    ensures empty { AreEmpty limit result }
    ensures keyed { AreUnder key result }
{
    [
        Shard::new(alloc, limit, key),
        Shard::new(alloc, limit, key),
        Shard::new(alloc, limit, key),
        Shard::new(alloc, limit, key),
        Shard::new(alloc, limit, key),
        Shard::new(alloc, limit, key),
        Shard::new(alloc, limit, key),
        Shard::new(alloc, limit, key),
        Shard::new(alloc, limit, key),
        Shard::new(alloc, limit, key),
        Shard::new(alloc, limit, key),
        Shard::new(alloc, limit, key),
        Shard::new(alloc, limit, key),
        Shard::new(alloc, limit, key),
        Shard::new(alloc, limit, key),
        Shard::new(alloc, limit, key),
    ]
}

/// An empty shard in its lock.
fn locked<D: Digest, A: Allocator + Copy>(
    alloc: A,
    limit: usize,
    key: TableKey,
) -> Mutex<Shard<D, A>>
    requires least { 1 ≤ limit }
    requires most { limit ≤ 1048576 }
{
    Mutex::new(Shard::new(alloc, limit, key))
}

/// Sixteen locked shards, which threads share. A block stands in the shard of its CID.
#[derive(Drop)]
pub struct Shards<D: Digest, A: Allocator = Global> {
    shards: [Mutex<Shard<D, A>>; SHARDS],
}

impl<D: Digest, A: Allocator> Shards<D, A> {
    /// The shard of a CID, in its lock. No contract can say which lock a call gives, so a test does.
    pub fn shard(&self, cid: &Cid) -> &Mutex<Shard<D, A>> {
        &self.shards[shard_number(cid)]
    }

    /// The locks of the shards, in the order of their numbers.
    pub(crate) fn locks(&self) -> [&Mutex<Shard<D, A>>; SHARDS] {
        self.shards.each_ref()
    }

    /// The shards, in the order of their numbers, out of their locks.
    pub fn tables(self) -> [Shard<D, A>; SHARDS] {
        // `map` would ask that an allocator of unknown size fit in memory once more.
        let [a, b, c, d, e, f, g, h, i, j, k, l, m, n, o, p] = self.shards;
        [
            a.into_inner(),
            b.into_inner(),
            c.into_inner(),
            d.into_inner(),
            e.into_inner(),
            f.into_inner(),
            g.into_inner(),
            h.into_inner(),
            i.into_inner(),
            j.into_inner(),
            k.into_inner(),
            l.into_inner(),
            m.into_inner(),
            n.into_inner(),
            o.into_inner(),
            p.into_inner(),
        ]
    }
}

impl<D: Digest, A: Allocator + Copy> Shards<D, A> {
    /// Sixteen empty shards, each of at most `limit` blocks, 1 to 1,048,576, under this key. It takes no memory yet.
    pub fn open(alloc: A, limit: usize, key: TableKey) -> Shards<D, A>
        requires least { 1 ≤ limit }
        requires most { limit ≤ 1048576 }
    {
        Shards {
            shards: [
                locked(alloc, limit, key),
                locked(alloc, limit, key),
                locked(alloc, limit, key),
                locked(alloc, limit, key),
                locked(alloc, limit, key),
                locked(alloc, limit, key),
                locked(alloc, limit, key),
                locked(alloc, limit, key),
                locked(alloc, limit, key),
                locked(alloc, limit, key),
                locked(alloc, limit, key),
                locked(alloc, limit, key),
                locked(alloc, limit, key),
                locked(alloc, limit, key),
                locked(alloc, limit, key),
                locked(alloc, limit, key),
            ],
        }
    }
}
