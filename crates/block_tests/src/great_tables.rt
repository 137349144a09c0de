//! Tables of many blocks and of great ones, and how each of the sixteen was made.

ghost use Rattle.std.specs.Prelude.{◌≤◌};

use crate::fixtures::{acquired, block, entry_count, keep};
use block::Block;
use cid::digests::{Clash, Toy};
use cid::{Digest, Sha256};
use std::alloc::Global;
use std::hash::{BuildHasher, Hasher};
use std::process::Abort;
use std::sync::{Arc, Wait};
use store::{
    BlockStore, Hold, LentShard, LockedShards, SHARDS, Shard, Shards, StoreFault, TableKey,
    empty_shards,
};

/// What a table makes of the key alone.
fn hash_of(key: TableKey) -> u64 {
    key.build_hasher().finish()
}

/// Whether each of the sixteen may have so many blocks, under this key.
fn have_all(tables: &[Shard<Sha256>; SHARDS], limit: usize, key: TableKey) -> bool {
    for table in tables {
        if table.limit() != limit || hash_of(table.key()) != hash_of(key) {
            return false;
        }
    }
    true
}

/// Whether sixteen shards are made so, in locks and without.
fn are_made_so(alloc: Global, limit: usize, key: TableKey) -> bool
    requires least { 1 ≤ limit }
    requires most { limit ≤ 1048576 }
{
    have_all(&Shards::open(alloc, limit, key).tables(), limit, key)
        && have_all(&empty_shards(alloc, limit, key), limit, key)
}

/// No contract can say what stands behind a lock.
#[test]
fn each_of_sixteen_has_the_limit_and_the_key(rt: HostRuntime) {
    let key = TableKey::of(0x0706_0504_0302_0100, u64::MAX);
    assert!(rt; hash_of(key) != hash_of(TableKey::known()));
    for limit in [1usize, 65_537, 1_048_576] {
        assert!(rt; are_made_so(rt.alloc(), limit, key), "at {limit}");
        assert!(rt;
            are_made_so(rt.alloc(), limit, TableKey::known()),
            "at {limit}"
        );
    }
}

/// How many blocks stand in one table.
const BLOCKS: u32 = 5000;

/// The block of a number.
fn numbered<R: Abort>(rt: &R, alloc: Global, number: u32) -> Arc<Block<Toy>> {
    block(rt, alloc, &number.to_be_bytes())
}

/// The holds of this many blocks by core 0.
fn many<R: Abort>(rt: &R, alloc: Global, shard: &mut Shard<Toy>) -> Vec<Hold<Toy>> {
    let mut holds = Vec::new(alloc);
    for number in 0..BLOCKS {
        let hold = acquired(rt, shard, 0, numbered(rt, alloc, number));
        keep(rt, &mut holds, hold);
    }
    holds
}

/// Whether one more block finds the table full.
fn is_full<R: Abort>(rt: &R, alloc: Global, shard: &mut Shard<Toy>) -> bool {
    match shard.acquire(0, numbered(rt, alloc, BLOCKS)) {
        Ok(hold) => {
            shard.release(hold);
            false
        }
        Err(fault) => matches!(fault, StoreFault::Full),
    }
}

#[test]
fn many_blocks_in_one_table(rt: HostRuntime) {
    let mut shard: Shard<Toy> = Shard::new(rt.alloc(), BLOCKS as usize, TableKey::known());
    let mut holds = many(&rt, rt.alloc(), &mut shard);
    assert!(rt; is_full(&rt, rt.alloc(), &mut shard));
    assert!(rt; entry_count(&shard) == BLOCKS as usize);
    for _ in 0..BLOCKS {
        shard.release(holds.pop().expect(&rt, "a hold of each block"));
    }
    assert!(rt; holds.is_empty() && entry_count(&shard) == 0);
    holds.destroy_empty();
}

/// The greatest record's length.
const GREAT: usize = 1_048_576;

/// A block of so many bytes, all of them this one.
fn great<R: Abort, D: Digest>(rt: &R, alloc: Global, byte: u8) -> Arc<Block<D>> {
    let bytes = Vec::from_elem(alloc, byte, GREAT).expect(rt, "memory for the bytes of a block");
    Arc::new(alloc, Block::of(bytes)).expect(rt, "memory for a block")
}

/// Whether a block is shared by the table and both holds of it, and another one of its CID is shown beside it.
fn is_shared_and_shown<S: BlockStore<Arc<Block<Clash>>, Hold<Clash>, StoreFault<Clash>>, R: Abort>(
    rt: &R,
    alloc: Global,
    store: &mut S,
) -> bool {
    let one = store.acquire(0, great(rt, alloc, 1)).expect(rt, "a block");
    let same = store.acquire(1, great(rt, alloc, 1)).expect(rt, "the same");
    let are_three = Arc::strong_count(one.block()) == 3 && Arc::strong_count(same.block()) == 3;
    let is_shown = match store.acquire(2, great(rt, alloc, 2)) {
        Ok(other) => {
            store.release(other);
            false
        }
        Err(StoreFault::Collision(pair)) => {
            pair.one().bytes().starts_with(&[2]) && pair.other().bytes().starts_with(&[1])
        }
        Err(_) => false,
    };
    store.release(one);
    store.release(same);
    are_three && is_shown
}

/// Whether this is so in one shard and in locked ones.
fn are_so<R: Wait + Abort>(rt: &R, alloc: Global) -> bool {
    let mut shard: Shard<Clash> = Shard::new(alloc, 2, TableKey::known());
    let shards: Shards<Clash> = Shards::open(alloc, 2, TableKey::known());
    is_shared_and_shown(rt, alloc, &mut LentShard::new(&mut shard))
        && is_shared_and_shown(rt, alloc, &mut LockedShards::new(rt, &shards))
}

#[test]
fn great_blocks_are_shared_and_collide(rt: HostRuntime) {
    assert!(rt; are_so(&rt, rt.alloc()));
}
