//! Two repositories that share blocks, blocks that clash, and a host that did nothing.

ghost use Rattle.std.specs.Prelude.{◌≤◌};
ghost use Rattle.ended.specs.Ending.{IsEndedAt};

use crate::hosts::{Answer, apply_steps};
use crate::seated::{Alone, close_one, open_one};
use cid::digests::{Clash, Size, Toy};
use cid::{Cid, Digest};
use closing::Closed;
use ended::Ended;
use host::Writer;
use repo_fixtures::batch::{EMPTY, EMPTY_NODE, ONE, Step, TWO};
use repo_fixtures::ends::Why;
use std::alloc::Global;
use std::process::Abort;
use std::sync::Wait;

/// A repository's number, the turn of a batch's stamp, its one step, and how the batch is answered.
type Row = (usize, u16, Step<'static>, Answer);

/// The same record put into both repositories by the same stamp.
static BOTH: [Row; 2] = [
    (0, 1, Step::Put(b"a/b0", EMPTY), Answer::Told(1, 1)),
    (1, 1, Step::Put(b"a/b0", EMPTY), Answer::Told(2, 1)),
];

/// The same, and then the second repository deletes it.
static ONE_DELETES: [Row; 3] = [
    (0, 1, Step::Put(b"a/b0", EMPTY), Answer::Told(1, 1)),
    (1, 1, Step::Put(b"a/b0", EMPTY), Answer::Told(2, 1)),
    (1, 2, Step::Delete(b"a/b0"), Answer::Told(3, 2)),
];

/// Two records of the same length, which clash under `Size`.
static RECORDS_CLASH: [Row; 2] = [
    (0, 1, Step::Put(b"a/b0", ONE), Answer::Told(1, 1)),
    (
        1,
        1,
        Step::Put(b"a/b0", TWO),
        Answer::Refused(0, Why::CollisionOfRecords),
    ),
];

/// A record that clashes with the node without entries under `Clash`.
static RECORD_AND_NODE_CLASH: [Row; 1] = [(
    0,
    1,
    Step::Put(b"a/b", EMPTY),
    Answer::Refused(0, Why::Collision),
)];

/// Does the rows; answers the writer's end, and whether each was answered so.
fn done<D: Digest, const B: u8, R: Wait>(
    rt: &R,
    alloc: Global,
    mut writer: Writer<'_, D, B>,
    rows: &[Row],
) -> (Ended, bool)
    ensures { IsEndedAt writer.entry.host.queue.queue_id writer.entry.host.repos result.0 }
{
    let mut are_answered = true;
    for (repo, turn, step, answer) in rows {
        are_answered = apply_steps(rt, alloc, &mut writer, *repo, *turn, &[*step]) == *answer
            && are_answered;
    }
    (writer.end(), are_answered)
}

/// How many blocks a host has that closed, each with which count, and of which record.
#[derive(Clone, Copy)]
struct Counts<'a> {
    blocks: usize,
    count: u64,
    record: &'a [u8],
}

/// Whether there are so many counts, and each is this one.
fn are_counts(counts: &[(Cid, u64)], blocks: usize, count: u64) -> bool {
    for (_, of_one) in counts {
        if *of_one != count {
            return false;
        }
    }
    counts.len() == blocks
}

/// Whether the root of each repository has this count.
fn have_roots<D: Digest, const B: u8>(closed: &Closed<D, B>, count: u64) -> bool {
    for core in closed.cores() {
        if closed.count(&core.root()) != count {
            return false;
        }
    }
    true
}

/// Whether a host that closed has these counts, and those of the roots and of the record by themselves.
fn has_counts<D: Digest, const B: u8>(
    alloc: Global,
    closed: &Closed<D, B>,
    wanted: Counts<'_>,
) -> bool {
    match closed.counts(alloc) {
        Ok(counts) => {
            are_counts(&counts, wanted.blocks, wanted.count)
                && have_roots(closed, wanted.count)
                && closed.count(&Cid::of::<D>(wanted.record)) == wanted.count
        }
        Err(_) => false,
    }
}

/// Whether a host of two repositories and one writer answers these rows so, and then has these counts.
fn leave<D: Digest, const B: u8, R: Wait + Abort>(
    rt: &R,
    alloc: Global,
    rows: &[Row],
    wanted: Counts<'_>,
) -> bool
    requires least { 1 ≤ B }
    requires most { B ≤ 8 }
{
    let opened = open_one::<D, B, R>(rt, alloc, 2, 9);
    let Alone { host, seat, feed } = opened;
    let (ended, are_answered) = done(rt, alloc, host.writer(seat), rows);
    let closed = close_one(rt, alloc, host, ended, feed);
    are_answered && has_counts(alloc, &closed, wanted)
}

/// The counts after no row, and after each list of rows.
const OF_NONE: Counts<'static> = Counts {
    blocks: 1,
    count: 2,
    record: EMPTY_NODE,
};

const OF_BOTH: Counts<'static> = Counts {
    blocks: 3,
    count: 2,
    record: EMPTY,
};

const OF_ONE: Counts<'static> = Counts {
    blocks: 5,
    count: 1,
    record: EMPTY,
};

/// The blocks of the first repository, and the node without entries of the second.
const OF_A_REFUSED_RECORD: Counts<'static> = Counts {
    blocks: 4,
    count: 1,
    record: ONE,
};

/// The one block of both.
const OF_ONE_CID: Counts<'static> = Counts {
    blocks: 1,
    count: 2,
    record: EMPTY_NODE,
};

/// Whether the counts are right in trees of so many zero bits a layer.
fn are_right<const B: u8, R: Wait + Abort>(rt: &R, alloc: Global) -> bool
    requires least { 1 ≤ B }
    requires most { B ≤ 8 }
{
    leave::<Toy, B, R>(rt, alloc, &[], OF_NONE)
        && leave::<Toy, B, R>(rt, alloc, &BOTH, OF_BOTH)
        && leave::<Toy, B, R>(rt, alloc, &ONE_DELETES, OF_ONE)
}

#[test]
fn repositories_share_blocks(rt: HostRuntime) {
    assert!(rt; are_right::<2, _>(&rt, rt.alloc()));
}

#[test]
fn blocks_that_clash(rt: HostRuntime) {
    let alloc = rt.alloc();
    assert!(rt; leave::<Size, 2, _>(&rt, alloc, &RECORDS_CLASH, OF_A_REFUSED_RECORD));
    assert!(rt; leave::<Clash, 2, _>(&rt, alloc, &RECORD_AND_NODE_CLASH, OF_ONE_CID));
}

#[test]
fn other_numbers_of_zero_bits(rt: HostRuntime) {
    assert!(rt; are_right::<1, _>(&rt, rt.alloc()) && are_right::<8, _>(&rt, rt.alloc()));
}
