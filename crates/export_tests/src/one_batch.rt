//! Files and paths of a repository that took its puts in one batch, beside those of one that took them one by one.

ghost use Rattle.std.specs.Prelude.{◌≤◌};

use crate::fixtures::{
    EMPTY_NODE, FIVE_NODES, ONE, Record, THREE, TWO, end, file_of, opened, puts_of, stamp, takes,
};
use batches::Stamp;
use block::Block;
use cid::digests::Toy;
use cid::{Digest, Sha256};
use export::prove;
use repo::Core;
use std::alloc::{AllocError, Global};
use std::process::Abort;
use std::sync::Arc;
use store::{LentShard, Shard, TableKey};

/// One key that is put three times, two keys with one record, and a record with the bytes of the node without entries.
static MIXED: [Record<'static>; 7] = [
    (b"b/q0", ONE),
    (b"a/p1", ONE),
    (b"b/q0", TWO),
    (b"c/r2", EMPTY_NODE),
    (b"a/p1", THREE),
    (b"a/p2", ONE),
    (b"b/q0", THREE),
];

/// Keys, whose last digit is their layer under `Toy`.
const KEYS: [&[u8]; 12] = [
    b"k/000", b"k/101", b"k/202", b"k/303", b"k/010", b"k/111", b"k/212", b"k/313", b"k/020",
    b"k/121", b"k/222", b"k/323",
];

static RECORDS: [&[u8]; 4] = [EMPTY_NODE, ONE, TWO, THREE];

/// So many puts that look random, the same for the same seed, which is no 0.
fn random_records(alloc: Global, seed: u32, count: u8) -> Option<Vec<Record<'static>>> {
    let mut state = seed;
    let mut records = Vec::new(alloc);
    for _ in 0..count {
        state ^= state << 13;
        state ^= state >> 17;
        state ^= state << 5;
        let record = (
            KEYS[(state % 12) as usize],
            RECORDS[(state >> 8) as usize % 4],
        );
        let Ok(()) = records.push(record) else {
            return None;
        };
    }
    Some(records)
}

/// The letters of a revision, in their order.
static LETTERS: [u8; 32] = *b"234567abcdefghijklmnopqrstuvwxyz";

/// The stamp of the batch at a place, which is before that of every other test.
fn stamp_at(alloc: Global, place: usize) -> Result<Stamp, AllocError> {
    let did = Vec::from_slice(alloc, b"did:web:a.b")?;
    let mut rev = Vec::from_slice(alloc, b"22222222222")?;
    rev.push(LETTERS[place / 32 % 32])?;
    rev.push(LETTERS[place % 32])?;
    Ok(Stamp { did, rev })
}

/// Whether a batch of one put, of this record, is accepted under a stamp.
fn takes_one<D: Digest, const B: u8>(
    alloc: Global,
    shard: &mut Shard<D>,
    core: &mut Core<D, B>,
    stamp: Result<Stamp, AllocError>,
    record: Record<'_>,
) -> bool {
    match (stamp, puts_of(alloc, &[record])) {
        (Ok(stamp), Ok(puts)) => core
            .apply(alloc, &mut LentShard::new(shard), &stamp, &puts)
            .is_ok(),
        _ => false,
    }
}

/// Whether puts of these records are accepted one by one, the last one under the stamp of every other test.
fn takes_each<D: Digest, const B: u8>(
    alloc: Global,
    shard: &mut Shard<D>,
    core: &mut Core<D, B>,
    records: &[Record<'_>],
) -> bool {
    let [first @ .., last] = records else {
        return true;
    };
    for (place, record) in first.iter().enumerate() {
        if !takes_one(alloc, shard, core, stamp_at(alloc, place), *record) {
            return false;
        }
    }
    takes_one(alloc, shard, core, stamp(alloc), *last)
}

/// Whether two lists of blocks have the same bytes in the same order.
fn are_equal<D: Digest>(one: &[Arc<Block<D>>], other: &[Arc<Block<D>>]) -> bool {
    for (block, same) in one.iter().zip(other) {
        if block.bytes() != same.bytes() {
            return false;
        }
    }
    one.len() == other.len()
}

/// Whether two cores prove a key by the same nodes.
fn have_same_path<D: Digest, const B: u8>(
    alloc: Global,
    core: &Core<D, B>,
    other: &Core<D, B>,
    key: &[u8],
) -> bool
    requires { 1 ≤ B }
{
    match (prove(alloc, core, key), prove(alloc, other, key)) {
        (Ok(one), Ok(another)) => are_equal(&one, &another),
        _ => false,
    }
}

/// Whether two cores have one file, and prove each key by the same nodes, also those that they don't have.
fn are_alike<D: Digest, const B: u8>(alloc: Global, core: &Core<D, B>, other: &Core<D, B>) -> bool
    requires { 1 ≤ B }
{
    for key in KEYS {
        if !have_same_path(alloc, core, other, key) {
            return false;
        }
    }
    match (file_of(alloc, alloc, core), file_of(alloc, alloc, other)) {
        (Some(one), Some(another)) => one == another,
        _ => false,
    }
}

/// Whether that is so of a core that takes puts of these records in one batch and of one that takes them one by one.
fn is_as_one_by_one<R: Abort, D: Digest, const B: u8>(
    rt: &R,
    alloc: Global,
    records: &[Record<'_>],
) -> bool
    requires least { 1 ≤ B }
    requires most { B ≤ 8 }
{
    let mut shard = Shard::<D>::new(alloc, 2000, TableKey::known());
    let mut core = opened::<R, D, B, Global>(rt, alloc, &mut shard);
    let mut shard_of_other = Shard::<D>::new(alloc, 2000, TableKey::known());
    let mut other = opened::<R, D, B, Global>(rt, alloc, &mut shard_of_other);
    let same = takes(alloc, &mut shard, &mut core, records)
        && takes_each(alloc, &mut shard_of_other, &mut other, records)
        && are_alike(alloc, &core, &other);
    end(&mut shard, core);
    end(&mut shard_of_other, other);
    same
}

/// Whether it is under both digests, and for one, two and eight zero bits a layer.
fn are_as_one_by_one<R: Abort>(rt: &R, alloc: Global, records: &[Record<'_>]) -> bool {
    is_as_one_by_one::<R, Toy, 1>(rt, alloc, records)
        && is_as_one_by_one::<R, Toy, 2>(rt, alloc, records)
        && is_as_one_by_one::<R, Sha256, 2>(rt, alloc, records)
        && is_as_one_by_one::<R, Sha256, 8>(rt, alloc, records)
}

#[test]
fn one_batch_is_like_its_puts_one_by_one(rt: HostRuntime) {
    let alloc = rt.alloc();
    assert!(rt; are_as_one_by_one(&rt, alloc, FIVE_NODES), "five nodes");
    assert!(rt;
        are_as_one_by_one(&rt, alloc, &MIXED),
        "keys that are put again"
    );
}

/// Whether random puts of this seed are.
fn random_ones_are<R: Abort>(rt: &R, alloc: Global, seed: u32) -> bool {
    match random_records(alloc, seed, 40) {
        Some(records) => are_as_one_by_one(rt, alloc, &records),
        None => false,
    }
}

#[test]
fn random_puts_in_one_batch_are_too(rt: HostRuntime) {
    let alloc = rt.alloc();
    for seed in 1..20 {
        assert!(rt; random_ones_are(&rt, alloc, seed), "seed {seed}");
    }
}
