//! The sixteen locked shards: where each block stands. No contract can say which lock a call gives, nor what stands
//! behind it.

use crate::fixtures::{EMPTY, block, entry_count, keep};
use block::Block;
use cid::digests::Toy;
use cid::{Cid, Digest, Sha256};
use std::alloc::Global;
use std::process::Abort;
use std::sync::{Arc, Wait};
use store::{
    BlockStore, Hold, LockedShards, SHARDS, Shard, Shards, StoreFault, TableKey, shard_number,
};

/// The hold of core 0 by an acquire that must succeed.
fn acquired<R: Wait + Abort, D: Digest>(
    rt: &R,
    shards: &Shards<D>,
    block: Arc<Block<D>>,
) -> Hold<D> {
    LockedShards::new(rt, shards)
        .acquire(0, block)
        .expect(rt, "an acquire that succeeds")
}

/// Gives the hold back.
fn release<R: Wait, D: Digest>(rt: &R, shards: &Shards<D>, hold: Hold<D>) {
    LockedShards::new(rt, shards).release(hold);
}

/// Whether the block is refused since its shard is full.
fn is_full<R: Wait, D: Digest>(rt: &R, shards: &Shards<D>, block: Arc<Block<D>>) -> bool {
    match LockedShards::new(rt, shards).acquire(0, block) {
        Ok(hold) => {
            release(rt, shards, hold);
            false
        }
        Err(fault) => matches!(fault, StoreFault::Full),
    }
}

/// Whether one core holds the block of this CID, by the table in the lock that `Shards::shard` gives.
fn is_held<R: Wait, D: Digest>(rt: &R, shards: &Shards<D>, cid: Cid) -> bool {
    shards.shard(&cid).lock(rt).count(&cid) == 1
}

/// The DAG-CBOR bytes of the map of this letter to the integer -20. The digit 3, their last byte as ASCII, has `Toy` put
/// them into shard 3.
fn record(letter: u8) -> [u8; 4] {
    [0xa1, 0x61, letter, 0x33]
}

/// The CID of the record of this letter.
fn record_cid(letter: u8) -> Cid {
    Cid::of::<Toy>(&record(letter))
}

/// A block of the record of this letter.
fn record_block<R: Abort>(rt: &R, alloc: Global, letter: u8) -> Arc<Block<Toy>> {
    block(rt, alloc, &record(letter))
}

/// Whether each table has one core for the record where it is table 3, else none, and none for the other block.
fn has_the_record_alone(tables: &[Shard<Toy>; SHARDS], record: Cid, other: Cid) -> bool {
    for (number, table) in tables.iter().enumerate() {
        if table.count(&record) != u64::from(number == 3) || table.count(&other) != 0 {
            return false;
        }
    }
    true
}

/// Whether the block of this CID is held in the shard of this number, which is full with it, as another block of that
/// shard is refused.
fn is_held_alone<R: Wait>(
    rt: &R,
    shards: &Shards<Toy>,
    number: usize,
    cid: Cid,
    other: Arc<Block<Toy>>,
) -> bool {
    let in_shard = shard_number(&cid) == number && shard_number(&other.cid()) == number;
    let before = is_held(rt, shards, cid);
    let full = is_full(rt, shards, other);
    in_shard && before && full && is_held(rt, shards, cid)
}

/// Whether the tables have the record of this hold alone, and not once the hold is released.
fn loses_the_record(mut tables: [Shard<Toy>; SHARDS], hold: Hold<Toy>, other: Cid) -> bool {
    let record = hold.cid();
    let alone = has_the_record_alone(&tables, record, other);
    tables[3].release(hold);
    alone && tables[3].count(&record) == 0
}

/// The record that ends in the digit 3 stands in shard 3, and the empty map in shard 15.
#[test]
fn stands_in_its_shard(rt: HostRuntime) {
    let (alloc, empty_cid) = (rt.alloc(), Cid::of::<Toy>(&EMPTY));
    let shards: Shards<Toy> = Shards::open(alloc, 1, TableKey::known());
    let first = acquired(&rt, &shards, record_block(&rt, alloc, b'a'));
    let second = acquired(&rt, &shards, block(&rt, alloc, &EMPTY));
    let other_record = record_block(&rt, alloc, b'b');
    let record_held = is_held_alone(&rt, &shards, 3, record_cid(b'a'), other_record);
    let empty_list = block(&rt, alloc, &[0x80]);
    assert!(rt; record_held && is_held_alone(&rt, &shards, 15, empty_cid, empty_list));
    release(&rt, &shards, second);
    assert!(rt; loses_the_record(shards.tables(), first, empty_cid));
}

/// Whether the record of this letter stands in shard 3.
fn is_in_shard_3(letter: u8) -> bool {
    shard_number(&record_cid(letter)) == 3
}

/// Whether the records of `a` and `b` are held in shard 3, which is full with them, as the block of the record of `c` is
/// refused.
fn is_full_of_two<R: Wait>(rt: &R, shards: &Shards<Toy>, third: Arc<Block<Toy>>) -> bool {
    let in_shard = is_in_shard_3(b'a') && is_in_shard_3(b'b') && is_in_shard_3(b'c');
    let full = is_full(rt, shards, third);
    in_shard
        && full
        && is_held(rt, shards, record_cid(b'a'))
        && is_held(rt, shards, record_cid(b'b'))
}

/// No contract can say how many blocks a shard behind its lock may have.
#[test]
fn each_shard_has_the_limit(rt: HostRuntime) {
    let alloc = rt.alloc();
    let shards: Shards<Toy> = Shards::open(alloc, 2, TableKey::known());
    let first = acquired(&rt, &shards, record_block(&rt, alloc, b'a'));
    let second = acquired(&rt, &shards, record_block(&rt, alloc, b'b'));
    assert!(rt; is_full_of_two(&rt, &shards, record_block(&rt, alloc, b'c')));
    release(&rt, &shards, first);
    release(&rt, &shards, second);
}

/// At place i is an integer whose DAG-CBOR bytes have a SHA-256 digest with the low four bits i in its first byte, by
/// another program.
const INTEGERS: [u8; SHARDS] = [
    27, 41, 26, 34, 55, 45, 31, 32, 46, 35, 47, 25, 24, 37, 28, 30,
];

/// The DAG-CBOR bytes of an integer from 24 on.
fn spelling(integer: u8) -> [u8; 2] {
    [0x18, integer]
}

/// Whether the table has the block of its own number, held by one core, and none of the fifteen others.
fn has_its_own_alone(table: &Shard<Sha256>, number: usize) -> bool {
    for (place, integer) in INTEGERS.iter().enumerate() {
        let cid = Cid::of::<Sha256>(&spelling(*integer));
        if table.count(&cid) != u64::from(place == number) {
            return false;
        }
    }
    entry_count(table) == 1
}

/// The holds of one block in each shard.
fn one_in_each<R: Wait + Abort>(
    rt: &R,
    alloc: Global,
    shards: &Shards<Sha256>,
) -> Vec<Hold<Sha256>> {
    let mut holds = Vec::new(alloc);
    for (number, integer) in INTEGERS.iter().enumerate() {
        let block = block(rt, alloc, &spelling(*integer));
        assert!(rt; shard_number(&block.cid()) == number, "for shard {number}");
        keep(rt, &mut holds, acquired(rt, shards, block));
    }
    holds
}

/// Whether each of these blocks is held.
fn are_held<R: Wait>(rt: &R, shards: &Shards<Sha256>) -> bool {
    for integer in &INTEGERS {
        if !is_held(rt, shards, Cid::of::<Sha256>(&spelling(*integer))) {
            return false;
        }
    }
    true
}

/// Whether the table has the block of its own number alone until its hold is released, and none then.
fn is_emptied(table: &mut Shard<Sha256>, number: usize, hold: Hold<Sha256>) -> bool {
    let alone = has_its_own_alone(table, number);
    table.release(hold);
    alone && entry_count(table) == 0
}

#[test]
fn each_shard_has_its_own_block(rt: HostRuntime) {
    let shards: Shards<Sha256> = Shards::open(rt.alloc(), 1, TableKey::known());
    let mut holds = one_in_each(&rt, rt.alloc(), &shards);
    assert!(rt; are_held(&rt, &shards));
    let mut tables = shards.tables();
    for number in (0..SHARDS).rev() {
        let hold = holds.pop().expect(&rt, "a hold of each block");
        assert!(rt;
            is_emptied(&mut tables[number], number, hold),
            "in table {number}"
        );
    }
    assert!(rt; holds.is_empty());
    holds.destroy_empty();
}
