//! What a core asks of a store, by each of those that there are.

use crate::fixtures::{EMPTY, ONE, block, entry_count};
use block::Block;
use cid::digests::{Clash, Size, Toy};
use cid::{Cid, Digest};
use refusing::Refusing;
use std::alloc::{Allocator, Global};
use std::process::Abort;
use std::sync::{Arc, Wait};
use store::{
    BlockStore, Hold, LentShard, LentShards, LockedShards, SHARDS, Shard, Shards, StoreFault,
    TableKey, empty_shards,
};

/// Whether the store is full for this block.
fn is_full<S: BlockStore<Arc<Block<Toy>>, Hold<Toy>, StoreFault<Toy>>>(
    store: &mut S,
    block: Arc<Block<Toy>>,
) -> bool {
    match store.acquire(0, block) {
        Ok(hold) => {
            store.release(hold);
            false
        }
        Err(fault) => matches!(fault, StoreFault::Full),
    }
}

/// Whether a store with room for one block in each shard holds a block for two cores, and is full then for another of the
/// same shard, and not once both cores have released the first.
fn holds_one<S: BlockStore<Arc<Block<Toy>>, Hold<Toy>, StoreFault<Toy>>, R: Abort>(
    rt: &R,
    alloc: Global,
    store: &mut S,
    bytes: &[u8],
    other: &[u8],
) -> bool {
    let first = store
        .acquire(0, block(rt, alloc, bytes))
        .expect(rt, "the first block");
    let second = store
        .acquire(1, block(rt, alloc, bytes))
        .expect(rt, "the same block");
    let full_before = is_full(store, block(rt, alloc, other));
    store.release(first);
    store.release(second);
    full_before && !is_full(store, block(rt, alloc, other))
}

/// Whether this shard, lent out, is such a store.
fn lends_one<R: Abort>(rt: &R, alloc: Global, shard: &mut Shard<Toy>) -> bool {
    holds_one(rt, alloc, &mut LentShard::new(shard), &EMPTY, &ONE)
}

#[test]
fn one_shard_is_lent(rt: HostRuntime) {
    let mut shard: Shard<Toy> = Shard::new(rt.alloc(), 1, TableKey::known());
    assert!(rt; lends_one(&rt, rt.alloc(), &mut shard));
    assert!(rt; shard.count(&Cid::of::<Toy>(&EMPTY)) == 0 && entry_count(&shard) == 0);
}

/// The DAG-CBOR bytes of the empty list, which stands in one shard with the empty map.
const EMPTY_LIST: [u8; 1] = [0x80];

/// Whether no table has an entry.
fn are_empty<D: Digest>(tables: &[Shard<D>; SHARDS]) -> bool {
    for table in tables {
        if entry_count(table) != 0 {
            return false;
        }
    }
    true
}

#[test]
fn locked_shards_are_a_store(rt: HostRuntime) {
    let shards: Shards<Toy> = Shards::open(rt.alloc(), 1, TableKey::known());
    let mut locked = LockedShards::new(&rt, &shards);
    assert!(rt; holds_one(&rt, rt.alloc(), &mut locked, &EMPTY, &EMPTY_LIST));
    assert!(rt; are_empty(&shards.tables()));
}

#[test]
fn sixteen_shards_are_lent(rt: HostRuntime) {
    let mut shards: [Shard<Toy>; SHARDS] = empty_shards(rt.alloc(), 1, TableKey::known());
    let mut lent = LentShards::<Toy, 1>::new(&mut shards);
    assert!(rt; holds_one(&rt, rt.alloc(), &mut lent, &EMPTY, &EMPTY_LIST));
    assert!(rt; are_empty(&shards));
}

/// The DAG-CBOR bytes of the map of "a" to 2, as many as those of the map to 1.
const TWO: [u8; 4] = [0xa1, 0x61, 0x61, 0x02];

/// Whether a store that holds a block refuses another one of its CID, and shows both.
fn shows_both<D: Digest, S: BlockStore<Arc<Block<D>>, Hold<D>, StoreFault<D>>, R: Abort>(
    rt: &R,
    alloc: Global,
    store: &mut S,
) -> bool {
    let hold = store
        .acquire(0, block(rt, alloc, &ONE))
        .expect(rt, "the first block");
    let are_shown = match store.acquire(1, block(rt, alloc, &TWO)) {
        Ok(other) => {
            store.release(other);
            false
        }
        Err(StoreFault::Collision(pair)) => {
            pair.one().bytes() == TWO.as_slice() && pair.other().bytes() == ONE.as_slice()
        }
        Err(_) => false,
    };
    store.release(hold);
    are_shown
}

/// Whether each store shows two records that clash under this digest, and is empty in the end.
fn show_both<D: Digest, R: Wait + Abort>(rt: &R, alloc: Global) -> bool {
    let mut shard: Shard<D> = Shard::new(alloc, 2, TableKey::known());
    let mut sixteen: [Shard<D>; SHARDS] = empty_shards(alloc, 2, TableKey::known());
    let shards: Shards<D> = Shards::open(alloc, 2, TableKey::known());
    shows_both(rt, alloc, &mut LentShard::new(&mut shard))
        && shows_both(rt, alloc, &mut LentShards::<D, 2>::new(&mut sixteen))
        && shows_both(rt, alloc, &mut LockedShards::new(rt, &shards))
        && entry_count(&shard) == 0
        && are_empty(&sixteen)
        && are_empty(&shards.tables())
}

#[test]
fn blocks_that_clash(rt: HostRuntime) {
    assert!(rt; show_both::<Clash, _>(&rt, rt.alloc()) && show_both::<Size, _>(&rt, rt.alloc()));
}

/// Whether the store says that memory was refused.
fn is_refused<A: Allocator, S: BlockStore<Arc<Block<Toy, A>, A>, Hold<Toy, A>, StoreFault<Toy, A>>>(
    store: &mut S,
    block: Arc<Block<Toy, A>, A>,
) -> bool {
    match store.acquire(0, block) {
        Ok(hold) => {
            store.release(hold);
            false
        }
        Err(fault) => matches!(fault, StoreFault::NoMemory),
    }
}

/// Whether a store of this heap takes no block where the memory of its entry is refused.
fn wants_memory<
    'h,
    S: BlockStore<
        Arc<Block<Toy, &'h Refusing<Global>>, &'h Refusing<Global>>,
        Hold<Toy, &'h Refusing<Global>>,
        StoreFault<Toy, &'h Refusing<Global>>,
    >,
    R: Abort,
>(rt: &R, heap: &'h Refusing<Global>, store: &mut S) -> bool {
    let first = block(rt, heap, &EMPTY);
    heap.refuse(1);
    is_refused(store, first) && !is_refused(store, block(rt, heap, &EMPTY))
}

#[test]
fn memory_refused(rt: HostRuntime) {
    let heap = Refusing::new(rt.alloc());
    let mut shard: Shard<Toy, &Refusing<Global>> = Shard::new(&heap, 2, TableKey::known());
    let shards: Shards<Toy, &Refusing<Global>> = Shards::open(&heap, 2, TableKey::known());
    let lent = wants_memory(&rt, &heap, &mut LentShard::new(&mut shard));
    let locked = wants_memory(&rt, &heap, &mut LockedShards::new(&rt, &shards));
    drop(shard);
    drop(shards);
    assert!(rt; lent && locked && heap.live() == 0);
}
