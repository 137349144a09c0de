//! What a core tells of its writes: records by their keys, pairs in order, accepted writes, stamps. Lists are tried with each
//! of their requests for memory refused in turn; the other calls take no memory.

use crate::opened::opened;
use crate::stores::Heap;
use batches::{Stamp, Write};
use cid::digests::Toy;
use cid::{Cid, Digest};
use refusing::Refusing;
use repo::Core;
use repo_fixtures::batch::Step::{Create, Delete, Put, Update};
use repo_fixtures::batch::{DID, EMPTY, ONE, Step, TWO, rev_after};
use repo_fixtures::cores::{apply_steps, counts, end, held};
use repo_fixtures::ends::Ended::Accepted;
use std::alloc::Allocator;
use std::sync::Arc;
use store::{Shard, TableKey};

/// The writes of two batches of three, which leave a tree of five nodes.
const STEPS: [Step<'static>; 6] = [
    Put(b"a/p0", ONE),
    Create(b"a/q2", ONE),
    Put(b"a/s1", TWO),
    Update(b"a/q2", TWO),
    Delete(b"a/s1"),
    Put(b"a/r0", EMPTY),
];

/// Whether both batches are accepted.
fn are_taken<D: Digest, const B: u8, A: Allocator + Copy>(
    alloc: A,
    shard: &mut Shard<D, A>,
    core: &mut Core<D, B, A>,
) -> bool {
    apply_steps(alloc, shard, core, 0, &STEPS[..3]) == Accepted(3)
        && apply_steps(alloc, shard, core, 1, &STEPS[3..]) == Accepted(6)
}

/// A key and its record.
type Record = (&'static [u8], &'static [u8]);

const P0: Record = (b"a/p0", ONE);

const Q2: Record = (b"a/q2", TWO);

const R0: Record = (b"a/r0", EMPTY);

/// The records that both batches leave, in the order of their keys.
const RECORDS: [Record; 3] = [P0, Q2, R0];

/// From a key on, so many pairs at most: the records that are listed.
type List = (&'static [u8], usize, &'static [Record]);

const LISTS: [List; 10] = [
    (b"", 9, &RECORDS),
    (b"", usize::MAX, &RECORDS),
    (b"", 2, &[P0, Q2]),
    (b"", 0, &[]),
    (b"a/p0", 1, &[P0]),
    (b"a/p00", 9, &[Q2, R0]),
    (b"a/q", 1, &[Q2]),
    (b"a/q2", 9, &[Q2, R0]),
    (b"a/r0", 9, &[R0]),
    (b"a/s1", 9, &[]),
];

/// Whether these are the pairs of the records.
fn are_pairs<D: Digest, A: Allocator>(pairs: &[(Vec<u8, A>, Cid)], records: &[Record]) -> bool {
    for place in 0..records.len() {
        let (wanted, record) = records[place];
        match pairs.get(place) {
            Some((key, cid)) if key.as_slice() == wanted && *cid == Cid::of::<D>(record) => {}
            _ => return false,
        }
    }
    pairs.len() == records.len()
}

/// Whether a list is as its row of the table says where this request for memory is refused; `None` where it was.
fn is_listed<D: Digest, const B: u8, A: Allocator + Copy>(
    heap: &Heap,
    alloc: A,
    core: &Core<D, B, A>,
    row: &List,
    request: u64,
) -> Option<bool> {
    let (from, limit, records) = row;
    heap.refuse(request);
    let answer = core.list(alloc, from, *limit);
    heap.refuse(0);
    match answer {
        Ok(pairs) => Some(are_pairs::<D, A>(&pairs, records)),
        Err(_) => None,
    }
}

/// The same after each of its requests was refused in turn and all memory given back each time.
fn is_listed_at_last<D: Digest, const B: u8, A: Allocator + Copy>(
    heap: &Heap,
    alloc: A,
    core: &Core<D, B, A>,
    row: &List,
) -> bool {
    let live = heap.live();
    for request in 1..99u64 {
        let is_so = is_listed(heap, alloc, core, row, request);
        if heap.live() != live || is_so.is_some() {
            return heap.live() == live && is_so == Some(true);
        }
    }
    false
}

/// Whether each list of the table is so.
fn are_listed<D: Digest, const B: u8, A: Allocator + Copy>(
    heap: &Heap,
    alloc: A,
    core: &Core<D, B, A>,
) -> bool {
    for row in &LISTS {
        if !is_listed_at_last(heap, alloc, core, row) {
            return false;
        }
    }
    true
}

/// Whether a look-up gives this record, or none.
fn is_found<D: Digest, const B: u8, A: Allocator>(
    core: &Core<D, B, A>,
    key: &[u8],
    record: Option<&[u8]>,
) -> bool {
    match (core.get(key), record) {
        (Some(block), Some(record)) => block.bytes() == record,
        (None, None) => true,
        _ => false,
    }
}

/// Keys without a record, of which some can't have one.
const OTHER_KEYS: [&[u8]; 5] = [b"a/s1", b"a/p1", b"", b"zz", &[b'a'; 1025]];

/// Whether each record is found under its key, and none under other keys.
fn are_found<D: Digest, const B: u8, A: Allocator>(core: &Core<D, B, A>) -> bool {
    for (key, record) in &RECORDS {
        if !is_found(core, key, Some(record)) {
            return false;
        }
    }
    for key in &OTHER_KEYS {
        if !is_found(core, key, None) {
            return false;
        }
    }
    true
}

/// Whether a write is that of a step.
fn is_write_of<A: Allocator>(write: &Write<A>, step: &Step<'_>) -> bool {
    match (write, step) {
        (Write::Put(key, record), Step::Put(k, r))
        | (Write::Create(key, record), Step::Create(k, r))
        | (Write::Update(key, record), Step::Update(k, r)) => {
            key.as_slice() == *k && record.as_slice() == *r
        }
        (Write::Delete(key), Step::Delete(k)) => key.as_slice() == *k,
        _ => false,
    }
}

/// Whether the accepted writes are those of both batches, in order.
fn are_accepted<A: Allocator>(writes: &[Arc<Write<A>, A>]) -> bool {
    for place in 0..6usize {
        match writes.get(place) {
            Some(write) if is_write_of(write, &STEPS[place]) => {}
            _ => return false,
        }
    }
    writes.len() == 6
}

/// Whether a stamp and the number of writes after it are those of the batch of this turn.
fn is_stamp<A: Allocator>(stamp: &Stamp<A>, number: u64, turn: u16) -> bool {
    stamp.did.as_slice() == DID
        && stamp.rev.as_slice() == rev_after(turn).as_slice()
        && number == 3 * (u64::from(turn) + 1)
}

/// Whether the stamps are those of both batches, with the number of writes after each.
fn are_stamps<A: Allocator>(stamps: &[(Stamp<A>, u64)]) -> bool {
    match stamps {
        [(first, three), (second, six)] => {
            is_stamp(first, *three, 0) && is_stamp(second, *six, 1)
        }
        _ => false,
    }
}

/// Whether a core shows its commit, its numbers and its blocks: five nodes, three records and the commit.
fn is_read<D: Digest, const B: u8, A: Allocator>(
    shard: &Shard<D, A>,
    core: &Core<D, B, A>,
) -> bool {
    let has_commit = match core.commit() {
        Some(cid) => core.block(&cid).is_some(),
        None => false,
    };
    let lends_root = match core.lender().get_counted(&core.root()) {
        Some((_, uses)) => uses == 1,
        None => false,
    };
    has_commit
        && lends_root
        && core.block(&core.root()).is_some()
        && (core.me(), core.limit(), core.number()) == (7, 2000, 6)
        && (
            core.uses(&core.root()),
            core.uses(&Cid::of::<D>(b"another")),
        ) == (1, 0)
        && held(shard, core) == Some(9)
}

/// Whether a core tells all but its lists of two batches.
fn is_told<D: Digest, const B: u8, A: Allocator>(
    shard: &Shard<D, A>,
    core: &Core<D, B, A>,
) -> bool {
    are_found(core)
        && is_read(shard, core)
        && are_accepted(core.accepted())
        && are_stamps(core.stamps())
}

/// Whether a core tells all this of two batches, and takes memory for lists alone.
fn tells_without_memory<D: Digest, const B: u8, A: Allocator + Copy>(
    heap: &Heap,
    alloc: A,
    shard: &mut Shard<D, A>,
    core: &mut Core<D, B, A>,
) -> bool {
    if !are_taken(alloc, shard, core) || !are_listed(heap, alloc, core) {
        return false;
    }
    let refused = heap.refused();
    heap.refuse_from(1);
    refused > 1 && is_told(shard, core) && heap.refused() == refused
}

/// The core's end takes no memory.
#[test]
fn what_two_batches_left(rt: HostRuntime) {
    let heap = Refusing::new(rt.alloc());
    let mut shard: Shard<Toy, &Heap> = Shard::new(&heap, 100, TableKey::known());
    let mut core: Core<Toy, 2, &Heap> = opened(&rt, &heap, &mut shard, 7);
    let is_told = tells_without_memory(&heap, &heap, &mut shard, &mut core);
    let refused = heap.refused();
    end(&mut shard, core);
    let is_empty = heap.refused() == refused && counts(&shard) == (0, 0);
    drop(shard);
    assert!(rt; is_told && is_empty && heap.live() == 0);
}
