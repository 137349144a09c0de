//! At which write of a batch want of memory is told.

use crate::opened::opened;
use crate::stores::Heap;
use cid::digests::Toy;
use refusing::Refusing;
use repo::Core;
use repo_fixtures::batch::Step::{Delete, Put};
use repo_fixtures::batch::{EMPTY, ONE, Step, batch_at};
use repo_fixtures::cores::{apply, apply_steps, end};
use repo_fixtures::ends::Ended::{Accepted, Refused};
use repo_fixtures::ends::Why;
use std::alloc::{AllocError, Global};
use std::process::Abort;
use store::{Shard, TableKey};

/// Three writes, of which two bring a record.
const WRITES: [Step; 3] = [Put(b"a/b0", EMPTY), Put(b"a/c1", ONE), Delete(b"a/b0")];

/// Eight writes of which each brings a record of its own, so that the core's map of blocks grows.
const EIGHT: [Step; 8] = [
    Put(b"a/b0", b"\xa1\x61a\x01"),
    Put(b"a/c0", b"\xa1\x61a\x02"),
    Put(b"a/d0", b"\xa1\x61a\x03"),
    Put(b"a/e0", b"\xa1\x61a\x04"),
    Put(b"a/f0", b"\xa1\x61a\x05"),
    Put(b"a/g0", b"\xa1\x61a\x06"),
    Put(b"a/h0", b"\xa1\x61a\x07"),
    Put(b"a/i0", b"\xa1\x61a\x08"),
];

/// The three before one that its test refuses, so that no block is made.
const REFUSED: [Step; 4] = [
    Put(b"a/b0", EMPTY),
    Put(b"a/c1", ONE),
    Delete(b"a/b0"),
    Delete(b"a/x"),
];

/// A core without writes, or one that took the three writes and has a commit.
fn core_of<'h, R: Abort>(
    rt: &R,
    heap: &'h Heap,
    shard: &mut Shard<Toy, &'h Heap>,
    has_commit: bool,
) -> Core<Toy, 2, &'h Heap> {
    let mut core: Core<Toy, 2, &Heap> = opened(rt, heap, shard, 0);
    if has_commit {
        assert!(rt; apply_steps(heap, shard, &mut core, 0, &WRITES) == Accepted(3));
    }
    core
}

/// The place at which a batch is refused to such a core where this request for memory is refused; `None` where it ends
/// otherwise.
fn place_without<R: Abort>(
    rt: &R,
    alloc: Global,
    has_commit: bool,
    steps: &[Step<'_>],
    request: u64,
) -> Option<usize> {
    let heap = Refusing::new(alloc);
    let mut shard: Shard<Toy, &Heap> = Shard::new(&heap, 100, TableKey::known());
    let mut core = core_of(rt, &heap, &mut shard, has_commit);
    let batch = batch_at(&heap, 1, steps).expect(rt, "memory for a batch");
    heap.refuse(request);
    let ended = apply(&heap, &mut shard, &mut core, &batch);
    heap.refuse(0);
    end(&mut shard, core);
    match ended {
        Refused(place, Why::NoMemory) => Some(place),
        _ => None,
    }
}

/// At which places the requests for memory are told, one after the other, with how many of them there are in turn.
fn told<R: Abort>(
    rt: &R,
    alloc: Global,
    has_commit: bool,
    steps: &[Step<'_>],
) -> Result<Vec<(usize, u64)>, AllocError> {
    let mut runs = Vec::new(alloc);
    let (mut here, mut count) = (0, 0u64);
    for request in 1..400u64 {
        let Some(place) = place_without(rt, alloc, has_commit, steps, request) else {
            break;
        };
        if place != here {
            runs.push((here, count))?;
            here = place;
            count = 0;
        }
        count = count.saturating_add(1);
    }
    runs.push((here, count))?;
    Ok(runs)
}

/// Whether the core has a commit already, the batch, and where its requests are told.
const ROWS: [(bool, &[Step<'static>], &[(usize, u64)]); 6] = [
    (false, &REFUSED, &[(0, 14)]),
    (false, &WRITES, &[(0, 17), (1, 1), (0, 18), (2, 6), (0, 2)]),
    (false, &EIGHT, &TOLD_OF_EIGHT_FIRST),
    (true, &REFUSED, &[(0, 14)]),
    (true, &WRITES, &[(0, 17), (1, 1), (0, 15), (2, 6), (0, 3)]),
    (true, &EIGHT, &TOLD_OF_EIGHT),
];

/// Where those of the eight writes are told: the block of each record at its own, the commit at the last one.
const TOLD_OF_EIGHT: [(usize, u64); 11] = [
    (0, 35),
    (1, 1),
    (2, 1),
    (3, 1),
    (4, 1),
    (5, 1),
    (6, 1),
    (7, 1),
    (0, 28),
    (7, 6),
    (0, 13),
];

/// The same in a core without writes.
const TOLD_OF_EIGHT_FIRST: [(usize, u64); 11] = [
    (0, 35),
    (1, 1),
    (2, 1),
    (3, 1),
    (4, 1),
    (5, 1),
    (6, 1),
    (7, 1),
    (0, 20),
    (7, 6),
    (0, 14),
];

/// What the block of a write's record takes is told at that write, and what the commit takes at the last one; the test of a
/// write takes no memory. All else serves the whole batch and is told at the first: copies of the writes and of the stamp, the
/// edit, what is exchanged, and room for it in the core's lists and in its map of blocks, which grows under eight records. Over
/// the tree that these very writes left its node stays, and so no block is made of it.
#[test]
fn want_of_memory_is_told_at_its_write(rt: HostRuntime) {
    for (has_commit, steps, wanted) in &ROWS {
        let runs = told(&rt, rt.alloc(), *has_commit, steps).expect(&rt, "memory");
        assert!(rt; runs.as_slice() == *wanted, "{runs:?}");
    }
}
