//! Cores and tables that don't agree.

ghost use Rattle.std.specs.Prelude.{◌<◌};

use crate::block_counts::are_counts;
use crate::closes::{Answer, closed, closed_after};
use crate::repositories::{Batch, EMPTY, Heap, is_taken, opened, two_cores};
use block::Block;
use cid::Cid;
use cid::digests::Toy;
use closing::Mismatch;
use refusing::Refusing;
use repo::{Core, end_all};
use std::process::Abort;
use std::sync::{Arc, Wait};
use store::{LentShards, SHARDS, Shard, Shards, TableKey, empty_shards, shard_number};

/// How many cores there are after a close, and in what they don't agree with the rest.
fn compared<'h>(answer: Answer<'h, Toy, 2>) -> (usize, Result<(), Mismatch>) {
    match answer {
        Ok(closed) => (closed.cores().len(), Ok(())),
        Err(uneven) => (uneven.cores().len(), Err(uneven.mismatch())),
    }
}

/// Each of the two repositories accepted one write.
const ONE_EACH: [Batch; 2] = [(0, b'2', Some(EMPTY)), (1, b'2', Some(EMPTY))];

/// The numbers of the two cores, how many accepted writes the writers have seen in each, and in what they don't agree.
const ROWS: [((u32, u32), u64, Result<(), Mismatch>); 5] = [
    ((0, 1), 0, Ok(())),
    ((0, 1), 1, Ok(())),
    ((0, 1), 2, Err(Mismatch::Lists)),
    ((1, 0), 0, Err(Mismatch::Numbers)),
    ((0, 2), 2, Err(Mismatch::Numbers)),
];

#[test]
fn numbers_and_lists(rt: HostRuntime) {
    for (numbers, seen, wanted) in ROWS {
        let heap = Refusing::new(rt.alloc());
        let answer = closed_after(&rt, &heap, numbers, &ONE_EACH, seen);
        assert!(rt;
            compared(answer) == (2, wanted) && heap.live() == 0,
            "{seen}"
        );
    }
}

/// Closes two cores over the tables of shards that never had a block of theirs.
fn closed_with_other_tables<'h, R: Wait + Abort>(
    rt: &R,
    heap: Heap<'h>,
) -> (usize, Result<(), Mismatch>) {
    let shards = Shards::open(heap, 9, TableKey::known());
    let cores = two_cores(rt, heap, &shards, (0, 1), &[]);
    let others = Shards::open(heap, 9, TableKey::known());
    compared(closed(rt, heap, cores, others.tables(), 0))
}

/// Closes two cores without writes, where the tables have what a third one of this number has, after a put or without one.
fn closed_without_the_third<'h, R: Wait + Abort>(
    rt: &R,
    heap: Heap<'h>,
    number: u32,
    is_put: bool,
) -> (usize, Result<(), Mismatch>)
    requires { number < 1024 }
{
    let shards = Shards::open(heap, 9, TableKey::known());
    let mut third: Core<Toy, 2, Heap<'h>> = opened(rt, heap, &shards, number);
    let is_right = !is_put || is_taken(rt, heap, &shards, &mut third, b'2', Some(EMPTY));
    let cores = two_cores(rt, heap, &shards, (0, 1), &[]);
    let found = compared(closed(rt, heap, cores, shards.tables(), 0));
    let mut others = empty_shards(heap, 9, TableKey::known());
    third.end(&mut LentShards::<Toy, 0, Heap<'h>>::new(&mut others));
    assert!(rt; is_right);
    found
}

#[test]
fn counts(rt: HostRuntime) {
    let heap = Refusing::new(rt.alloc());
    let missed = closed_with_other_tables(&rt, &heap);
    // a number that no core has, and that of a core that has no such block
    let unknown = closed_without_the_third(&rt, &heap, 2, false);
    let without = closed_without_the_third(&rt, &heap, 1, true);
    let wanted = (2, Err(Mismatch::Counts));
    assert!(rt; missed == wanted && unknown == wanted && without == wanted);
    assert!(rt; heap.live() == 0);
}

/// Closes two cores without writes, where a block is entered for the first of them in the table of another shard.
fn closes_with_an_entry_elsewhere<'h, R: Wait + Abort>(rt: &R, heap: Heap<'h>) -> bool {
    let shards = Shards::open(heap, 9, TableKey::known());
    let cores = two_cores(rt, heap, &shards, (0, 1), &[]);
    let mut tables = shards.tables();
    let bytes = Vec::from_slice(heap, EMPTY).expect(rt, "room");
    let block = Arc::new(heap, Block::of(bytes)).expect(rt, "room");
    let cid = block.cid();
    let elsewhere = (shard_number(&cid) + 1) % SHARDS;
    match tables[elsewhere].acquire(0, block) {
        Ok(hold) => {
            let is_right = closes_without(rt, heap, cores, tables, &cid);
            Shard::new(heap, 1, TableKey::known()).release(hold);
            is_right
        }
        Err(_) => {
            end_all(cores, tables);
            false
        }
    }
}

/// Whether a close of these cores and tables counts one block, held by two cores, and none of this CID.
fn closes_without<'h, R: Abort>(
    rt: &R,
    heap: Heap<'h>,
    cores: Vec<Core<Toy, 2, Heap<'h>>, Heap<'h>>,
    tables: [Shard<Toy, Heap<'h>>; SHARDS],
    cid: &Cid,
) -> bool {
    match closed(rt, heap, cores, tables, 0) {
        Ok(closed) => closed.count(cid) == 0 && are_counts(heap, &closed, 1, 2),
        Err(_) => false,
    }
}

#[test]
fn an_entry_in_the_table_of_another_shard(rt: HostRuntime) {
    let heap = Refusing::new(rt.alloc());
    assert!(rt; closes_with_an_entry_elsewhere(&rt, &heap) && heap.live() == 0);
}
