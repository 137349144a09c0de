//! Batches that come to less than their writes: what is needed is what they leave.

use crate::opened::opened;
use batches::Write;
use cid::digests::Toy;
use repo::Core;
use repo_fixtures::batch::Step::{Delete, Put};
use repo_fixtures::batch::{Batch, ONE, batch_at, write_of};
use repo_fixtures::cores::{apply, counts, end, held};
use repo_fixtures::ends::Ended::Accepted;
use std::alloc::{AllocError, Global};
use std::process::Abort;
use store::{Shard, TableKey};

/// The record of a number: the map of "n" to its two bytes.
fn record_of(number: u16) -> [u8; 6] {
    let [high, low] = number.to_be_bytes();
    [0xa1, 0x61, b'n', 0x42, high, low]
}

/// A thousand puts of one key, each with a record of its own.
fn overwriting(alloc: Global) -> Result<Batch<Global>, AllocError> {
    let mut batch = batch_at(alloc, 0, &[])?;
    for number in 0..1000u16 {
        let put: Write = write_of(alloc, Put(b"a/b0", &record_of(number)))?;
        batch.writes.push(put)?;
    }
    Ok(batch)
}

/// The key of a number below 100.
fn key_of(number: u8) -> [u8; 5] {
    [
        b'a',
        b'/',
        b'k',
        b'0' + number / 10 % 10,
        b'0' + number % 10,
    ]
}

/// Puts of a hundred keys, and deletes of all of them but one.
fn taken_back(alloc: Global) -> Result<Batch<Global>, AllocError> {
    let mut batch = batch_at(alloc, 0, &[Put(b"a/b0", ONE)])?;
    for number in 0..100u8 {
        let key = key_of(number);
        let record = record_of(u16::from(number));
        batch.writes.push(write_of(alloc, Put(&key, &record))?)?;
    }
    for number in 0..100u8 {
        let key = key_of(number);
        batch.writes.push(write_of(alloc, Delete(&key))?)?;
    }
    Ok(batch)
}

/// Whether a batch on a repository without writes is taken in a store that has room for four blocks: the node before, and the
/// node, the record and the commit after it, which are left.
fn fits<R: Abort>(rt: &R, alloc: Global, batch: &Batch<Global>, record: &[u8]) -> bool {
    let mut shard: Shard<Toy> = Shard::new(alloc, 4, TableKey::known());
    let mut core: Core<Toy, 2> = opened(rt, alloc, &mut shard, 0);
    let is_taken = apply(alloc, &mut shard, &mut core, batch)
        == Accepted(batch.writes.len() as u64);
    let is_left = match core.get(b"a/b0") {
        Some(block) => block.bytes() == record,
        None => false,
    };
    let are_so = (held(&shard, &core), counts(&shard)) == (Some(3), (3, 3));
    end(&mut shard, core);
    is_taken && is_left && are_so
}

/// Of a thousand records under one key the last one is made, and no other.
#[test]
fn each_write_overwrites_the_one_before(rt: HostRuntime) {
    let batch = overwriting(rt.alloc()).expect(&rt, "a batch");
    assert!(rt; fits(&rt, rt.alloc(), &batch, &record_of(999)));
}

/// Neither nodes nor records are made of what the batch takes back.
#[test]
fn keys_that_come_and_go(rt: HostRuntime) {
    let batch = taken_back(rt.alloc()).expect(&rt, "a batch");
    assert!(rt; fits(&rt, rt.alloc(), &batch, ONE));
}
