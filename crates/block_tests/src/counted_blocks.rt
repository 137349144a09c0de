//! One table of counted blocks: who holds them, its limit, collisions, want of memory, and that equal blocks are shared.

use crate::fixtures::{EMPTY, ONE, acquired, block, entry_count, keep, release_each};
use block::Block;
use cid::digests::{Clash, Toy};
use cid::{Cid, Digest};
use refusing::Refusing;
use std::alloc::{Allocator, Global};
use std::process::Abort;
use std::sync::Arc;
use store::{Cores, Hold, Shard, StoreFault, TableKey};

/// The fault of an acquire that is to be refused.
fn fault_of<D: Digest>(shard: &mut Shard<D>, block: Arc<Block<D>>) -> Option<StoreFault<D>> {
    match shard.acquire(0, block) {
        Ok(hold) => {
            shard.release(hold);
            None
        }
        Err(fault) => Some(fault),
    }
}

/// Whether this core holds the block of this CID and these bytes.
fn is_hold_of(hold: &Hold<Toy>, core: u32, cid: Cid, bytes: &[u8]) -> bool {
    hold.core() == core && hold.cid() == cid && hold.block().bytes() == bytes
}

/// Whether the block is refused since the table is full.
fn is_full(shard: &mut Shard<Toy>, block: Arc<Block<Toy>>) -> bool {
    matches!(fault_of(shard, block), Some(StoreFault::Full))
}

/// Takes a block for two cores and releases it: whether its count is right after each step, and the table is full for
/// another block while both hold it.
fn counts_two_cores<R: Abort>(rt: &R, alloc: Global, shard: &mut Shard<Toy>) -> bool {
    let cid = Cid::of::<Toy>(&EMPTY);
    let first = acquired(rt, shard, 0, block(rt, alloc, &EMPTY));
    let one = shard.count(&cid);
    let second = acquired(rt, shard, 1, block(rt, alloc, &EMPTY));
    let two = shard.count(&cid);
    let full = is_full(shard, block(rt, alloc, &ONE));
    shard.release(first);
    let left = shard.count(&cid);
    shard.release(second);
    full && [one, two, left, shard.count(&cid)] == [1, 2, 1, 0]
}

#[test]
fn counts_at_limit_one(rt: HostRuntime) {
    let mut shard: Shard<Toy> = Shard::new(rt.alloc(), 1, TableKey::known());
    assert!(rt; counts_two_cores(&rt, rt.alloc(), &mut shard));
    let other = Cid::of::<Toy>(&ONE);
    let hold = acquired(&rt, &mut shard, 0, block(&rt, rt.alloc(), &ONE));
    assert!(rt; shard.count(&other) == 1 && is_hold_of(&hold, 0, other, &ONE));
    shard.release(hold);
}

#[test]
fn counts_under_a_key(rt: HostRuntime) {
    let key = TableKey::of(0x0706_0504_0302_0100, u64::MAX);
    let mut shard: Shard<Toy> = Shard::new(rt.alloc(), 1, key);
    assert!(rt; counts_two_cores(&rt, rt.alloc(), &mut shard));
}

/// Whether the fault is the collision of a block of these bytes with a held block of those.
fn is_collision(fault: &Option<StoreFault<Clash>>, given: &[u8], held: &[u8]) -> bool {
    match fault {
        Some(StoreFault::Collision(pair)) => {
            pair.one().bytes() == given && pair.other().bytes() == held
        }
        _ => false,
    }
}

#[test]
fn collision_shows_both(rt: HostRuntime) {
    let mut shard: Shard<Clash> = Shard::new(rt.alloc(), 2, TableKey::known());
    let hold = acquired(&rt, &mut shard, 0, block(&rt, rt.alloc(), &EMPTY));
    let fault = fault_of(&mut shard, block(&rt, rt.alloc(), &ONE));
    assert!(rt; is_collision(&fault, &ONE, &EMPTY) && shard.count(&Cid::of::<Clash>(&EMPTY)) == 1);
    shard.release(hold);
}

/// How many cores hold the block of this CID, where each entry has core 3 and lacks this core; else `None`.
fn count_without(shard: &Shard<Toy>, cid: Cid, core: u32) -> Option<u64> {
    for (_, cores) in shard.entries() {
        if cores.has(core) || !cores.has(3) {
            return None;
        }
    }
    Some(shard.count(&cid))
}

/// Releases the hold: whether its core doesn't hold the block of this CID then, and so many others do.
fn leaves(shard: &mut Shard<Toy>, cid: Cid, hold: Hold<Toy>, left: u64) -> bool {
    let core = hold.core();
    shard.release(hold);
    count_without(shard, cid, core) == Some(left)
}

/// The hold of one more core on the empty map, after so many others. All cores come in turn, in an order that looks random.
fn acquired_after<R: Abort>(
    rt: &R,
    alloc: Global,
    shard: &mut Shard<Toy>,
    others: u16,
) -> Hold<Toy> {
    let core = (u32::from(others) * 5 + 3) % 1024;
    acquired(rt, shard, core, block(rt, alloc, &EMPTY))
}

/// Releases the holds of all cores on the block of this CID, each of which must leave the others there.
fn leave_one_by_one<R: Abort>(rt: &R, shard: &mut Shard<Toy>, cid: Cid, mut holds: Vec<Hold<Toy>>) {
    for left in (0..1024u64).rev() {
        let hold = holds.pop().expect(rt, "a hold for each core");
        assert!(rt; leaves(shard, cid, hold, left));
    }
    assert!(rt; holds.is_empty());
    holds.destroy_empty();
}

#[test]
fn holds_all_cores(rt: HostRuntime) {
    let mut shard: Shard<Toy> = Shard::new(rt.alloc(), 1, TableKey::known());
    let cid = Cid::of::<Toy>(&EMPTY);
    let mut holds = Vec::new(rt.alloc());
    for others in 0..1024u16 {
        let hold = acquired_after(&rt, rt.alloc(), &mut shard, others);
        keep(&rt, &mut holds, hold);
        assert!(rt; shard.count(&cid) == u64::from(others) + 1);
    }
    leave_one_by_one(&rt, &mut shard, cid, holds);
    assert!(rt; entry_count(&shard) == 0);
}

/// Whether core 1023 alone of these holds the first block, and core 64 alone of these the second.
fn is_entry_of(cid: Cid, cores: &Cores, first: Cid, second: Cid) -> bool {
    cores.has(1023) == (cid == first)
        && cores.has(64) == (cid == second)
        && !cores.has(0)
        && !cores.has(1024)
        && !cores.has(u32::MAX)
}

/// Whether the table lists these two entries, each once and with its core.
fn lists_both(shard: &Shard<Toy>, first: Cid, second: Cid) -> bool {
    let mut entries = shard.entries();
    match (entries.next(), entries.next()) {
        (Some((one, of_one)), Some((other, of_other))) => {
            one != other
                && is_entry_of(one, &of_one, first, second)
                && is_entry_of(other, &of_other, first, second)
                && entry_count(shard) == 2
        }
        _ => false,
    }
}

#[test]
fn lists_each_entry_once(rt: HostRuntime) {
    let mut shard: Shard<Toy> = Shard::new(rt.alloc(), 2, TableKey::known());
    let first = acquired(&rt, &mut shard, 1023, block(&rt, rt.alloc(), &EMPTY));
    let second = acquired(&rt, &mut shard, 64, block(&rt, rt.alloc(), &ONE));
    assert!(rt; lists_both(&shard, Cid::of::<Toy>(&EMPTY), Cid::of::<Toy>(&ONE)));
    shard.release(first);
    shard.release(second);
}

/// Whether the steps from core to core give 0, 63, 64 and 1,023, and none after that.
fn steps_to_each(cores: &Cores) -> bool {
    let steps = [0, 1, 64, 65, 1024, u32::MAX].map(|from| cores.next_from(from));
    steps == [Some(0), Some(63), Some(64), Some(1023), None, None]
}

/// Whether core 63 holds the empty map and no other block, core 62 doesn't hold it, and the steps in each entry are right.
fn has_the_cores(shard: &Shard<Toy>) -> bool {
    for (_, cores) in shard.entries() {
        if !steps_to_each(&cores) {
            return false;
        }
    }
    let cid = Cid::of::<Toy>(&EMPTY);
    shard.has(&cid, 63) && !shard.has(&cid, 62) && !shard.has(&Cid::of::<Toy>(&ONE), 63)
}

#[test]
fn steps_from_core_to_core(rt: HostRuntime) {
    let mut shard: Shard<Toy> = Shard::new(rt.alloc(), 1, TableKey::known());
    let mut holds = Vec::new(rt.alloc());
    for core in [1023, 0, 64, 63] {
        let hold = acquired(&rt, &mut shard, core, block(&rt, rt.alloc(), &EMPTY));
        keep(&rt, &mut holds, hold);
    }
    assert!(rt; has_the_cores(&shard));
    release_each(&rt, &mut shard, holds, 4);
}

/// How many times the block of a hold is used.
fn uses<A: Allocator>(hold: &Hold<Toy, A>) -> usize {
    Arc::strong_count(hold.block())
}

/// Whether a block that is acquired again, by another core and from other memory of this heap, stands once: the memory
/// that the second core gave is given back, and both holds show the block of the table.
fn shares_equal_blocks<R: Abort, A: Allocator + Copy>(
    rt: &R,
    heap: &Refusing<Global>,
    alloc: A,
) -> bool {
    let mut shard: Shard<Toy, A> = Shard::new(alloc, 1, TableKey::known());
    let first = acquired(rt, &mut shard, 0, block(rt, alloc, &EMPTY));
    let live = heap.live();
    let equal = block(rt, alloc, &EMPTY);
    let taken = heap.live() > live;
    let second = acquired(rt, &mut shard, 1, equal);
    let given_back = heap.live() == live;
    // The uses of the block are the table's and the two holds'.
    let shared = uses(&first) == 3 && uses(&second) == 3;
    shard.release(first);
    shard.release(second);
    taken && given_back && shared
}

#[test]
fn equal_blocks_are_shared(rt: HostRuntime) {
    let heap = Refusing::new(rt.alloc());
    assert!(rt; shares_equal_blocks(&rt, &heap, &heap) && heap.live() == 0);
}

/// Whether core 1 holds the block of this entry, core 2 doesn't, and no other does.
fn is_of_core_one<A: Allocator>(shard: &Shard<Toy, A>, cid: Cid, cores: &Cores) -> bool {
    cores.has(1) && !cores.has(2) && shard.count(&cid) == 1
}

/// Whether each entry of the table is held by core 1 and not by core 2.
fn are_of_core_one<A: Allocator>(shard: &Shard<Toy, A>) -> bool {
    for (held, cores) in shard.entries() {
        if !is_of_core_one(shard, held, &cores) {
            return false;
        }
    }
    true
}

/// Whether the table has this many entries, each held by core 1 and not by core 2, and none of this CID.
fn has_others_only<A: Allocator>(shard: &Shard<Toy, A>, others: u8, cid: Cid) -> bool {
    entry_count(shard) == usize::from(others) && shard.count(&cid) == 0 && are_of_core_one(shard)
}

/// The hold of core 1 on one more use of this block, or whether it is refused for want of memory.
fn acquired_or_refused<R: Abort, A: Allocator + Copy>(
    rt: &R,
    shard: &mut Shard<Toy, A>,
    block: &Arc<Block<Toy, A>, A>,
) -> Result<Hold<Toy, A>, bool> {
    match shard.acquire(1, Arc::try_clone(block).expect(rt, "one more use")) {
        Ok(hold) => Ok(hold),
        Err(fault) => Err(matches!(fault, StoreFault::NoMemory)),
    }
}

/// The hold of core 1, after each request for memory of the acquire was refused in turn, until there was none more that
/// could be. After each refusal the table must be as it was, with this many entries: the error is the request after which
/// it wasn't, or 9 where no acquire succeeds.
fn acquired_at_last<R: Abort, A: Allocator + Copy>(
    rt: &R,
    heap: &Refusing<Global>,
    shard: &mut Shard<Toy, A>,
    others: u8,
    block: &Arc<Block<Toy, A>, A>,
) -> Result<Hold<Toy, A>, u64> {
    for request in 1..9u64 {
        heap.refuse(request);
        match acquired_or_refused(rt, shard, block) {
            Ok(hold) => return Ok(hold),
            Err(refused) => {
                if !refused || !has_others_only(shard, others, block.cid()) {
                    return Err(request);
                }
            }
        }
    }
    Err(9)
}

/// Acquires a held block for core 2 and releases it, where each request for memory is refused: whether two cores hold it in
/// between.
fn is_shared_without_memory<R: Abort, A: Allocator + Copy>(
    rt: &R,
    heap: &Refusing<Global>,
    shard: &mut Shard<Toy, A>,
    block: Arc<Block<Toy, A>, A>,
) -> bool {
    let cid = block.cid();
    heap.refuse_from(1);
    let again = acquired(rt, shard, 2, block);
    let twice = shard.count(&cid) == 2;
    shard.release(again);
    heap.refuse(0);
    twice
}

/// Acquires a new block as above, and answers the hold. Then it stands there once, and neither another core's acquire of
/// it nor the release wants memory.
fn acquired_without_memory<R: Abort, A: Allocator + Copy>(
    rt: &R,
    heap: &Refusing<Global>,
    alloc: A,
    shard: &mut Shard<Toy, A>,
    others: u8,
) -> Hold<Toy, A> {
    let block = block(rt, alloc, &[0xa1, 0x61, 0x61, others]);
    let cid = block.cid();
    let hold = acquired_at_last(rt, heap, shard, others, &block).expect(
        rt,
        "refusals that change nothing, and then a hold",
    );
    let once = shard.count(&cid) == 1;
    let shared = is_shared_without_memory(rt, heap, shard, block);
    assert!(rt; once && shared, "after {others} others");
    hold
}

/// Acquires 40 blocks of this heap's memory as above and releases them: whether the table is empty then.
fn fill_and_empty<R: Abort, A: Allocator + Copy>(
    rt: &R,
    heap: &Refusing<Global>,
    alloc: A,
    mut holds: Vec<Hold<Toy, A>>,
) -> bool {
    let mut shard: Shard<Toy, A> = Shard::new(alloc, 64, TableKey::known());
    for others in 0..40u8 {
        let hold = acquired_without_memory(rt, heap, alloc, &mut shard, others);
        keep(rt, &mut holds, hold);
    }
    release_each(rt, &mut shard, holds, 40);
    entry_count(&shard) == 0
}

#[test]
fn memory_refused(rt: HostRuntime) {
    let heap = Refusing::new(rt.alloc());
    assert!(rt; fill_and_empty(&rt, &heap, &heap, Vec::new(rt.alloc())));
    assert!(rt; heap.refused() >= 4 && heap.live() == 0);
}
