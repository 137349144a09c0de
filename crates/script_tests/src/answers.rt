//! What the lines of a script are answered.

use crate::closes::{limits, run};
use crate::tables::{Doing, Row, lines_of};
use cid::digests::Toy;
use host::{HostFault, Limits};
use repo_fixtures::batch::Step::{Create, Delete, Put};
use repo_fixtures::batch::{EMPTY, ONE, TWO};
use repo_fixtures::ends::{Why, why_of};
use scripts::{Answer, OpenGate};
use std::alloc::Global;
use std::process::Abort;
use std::sync::Wait;
use std::thread::Threads;

/// An answer as tables give it.
#[derive(Clone, Copy, PartialEq, Eq)]
pub(crate) enum Said<'a> {
    /// Accepted: the notice's writer, its number, the repository, and how many writes that has.
    Told(u32, u64, u32, u64),
    /// Refused at this place, for this fault.
    Refused(usize, Why),
    NoSuchRepository,
    NoMemory,
    SeqFull,
    Found(&'a [u8]),
    Absent,
}

/// What an answer says.
pub(crate) fn words_of(answer: &Answer<Toy>) -> Said<'_> {
    match answer {
        Answer::Accepted(told) => Said::Told(told.writer, told.seq, told.repo, told.number),
        Answer::Refused(HostFault::NoSuchRepository) => Said::NoSuchRepository,
        Answer::Refused(HostFault::Refused(place, fault)) => Said::Refused(*place, why_of(fault)),
        Answer::Refused(HostFault::NoMemory) => Said::NoMemory,
        Answer::Refused(HostFault::SeqFull) => Said::SeqFull,
        Answer::Found(record) => Said::Found(record),
        Answer::Absent => Said::Absent,
    }
}

/// Whether the answers say this.
pub(crate) fn are_said(answers: &[Answer<Toy>], wanted: &[Said<'_>]) -> bool {
    if answers.len() != wanted.len() {
        return false;
    }
    for (answer, one) in answers.iter().zip(wanted) {
        if words_of(answer) != *one {
            return false;
        }
    }
    true
}

/// One worker's lines in repository 0, and in repository 1, which isn't there.
const ONE_WORKER: [Row<'static>; 14] = [
    (0, 0, Doing::Get(b"a/b0")),
    (0, 0, Doing::Get(b"zz")),
    (0, 0, Doing::Apply(&[Put(b"a/b0", ONE)])),
    (0, 0, Doing::Get(b"a/b0")),
    (0, 1, Doing::Get(b"a/b0")),
    (0, 1, Doing::Apply(&[Put(b"a/b0", ONE)])),
    (0, 0, Doing::Apply(&[])),
    (0, 0, Doing::Apply(&[Create(b"a/b0", TWO)])),
    (0, 0, Doing::Apply(&[Put(b"a/c0", TWO), Delete(b"a/d0")])),
    (0, 0, Doing::Get(b"a/c0")),
    (0, 0, Doing::Apply(&[Put(b"a/c0", TWO), Delete(b"a/b0")])),
    (0, 0, Doing::Get(b"a/b0")),
    (0, 0, Doing::Get(b"a/c0")),
    (0, 1023, Doing::Get(b"")),
];

const ONE_WORKER_SAID: [Said<'static>; 14] = [
    Said::Absent,
    Said::Absent,
    Said::Told(0, 1, 0, 1),
    Said::Found(ONE),
    Said::NoSuchRepository,
    Said::NoSuchRepository,
    Said::Refused(0, Why::EmptyBatch),
    Said::Refused(0, Why::KeyExists),
    Said::Refused(1, Why::NoSuchKey),
    Said::Absent,
    Said::Told(0, 2, 0, 3),
    Said::Absent,
    Said::Found(TWO),
    Said::NoSuchRepository,
];

/// Three workers, each in a repository of its own, with their lines mixed. Worker 1 has none.
const MIXED: [Row<'static>; 8] = [
    (2, 1, Doing::Apply(&[Put(b"a/b0", TWO)])),
    (0, 0, Doing::Get(b"a/b0")),
    (2, 1, Doing::Get(b"a/b0")),
    (0, 0, Doing::Apply(&[Put(b"a/b0", EMPTY)])),
    (0, 0, Doing::Get(b"a/b0")),
    (2, 1, Doing::Apply(&[Delete(b"a/b0")])),
    (2, 1, Doing::Get(b"a/b0")),
    (0, 0, Doing::Apply(&[Create(b"a/b0", ONE)])),
];

const MIXED_SAID: [Said<'static>; 8] = [
    Said::Told(2, 1, 1, 1),
    Said::Absent,
    Said::Found(TWO),
    Said::Told(0, 1, 0, 1),
    Said::Found(EMPTY),
    Said::Told(2, 2, 1, 2),
    Said::Absent,
    Said::Refused(0, Why::KeyExists),
];

/// Two puts where one write is accepted at most.
const ONE_TOO_MANY: [Row<'static>; 2] = [
    (0, 0, Doing::Apply(&[Put(b"a/b0", ONE)])),
    (0, 0, Doing::Apply(&[Put(b"a/b0", TWO)])),
];

const ONE_TOO_MANY_SAID: [Said<'static>; 2] = [
    Said::Told(0, 1, 0, 1),
    Said::Refused(0, Why::WritesFull),
];

/// Whether the lines of these rows are answered so on a host of these limits.
fn are_answered<R: Threads + Wait + Abort + Sync>(
    rt: &R,
    alloc: Global,
    limits: Limits,
    rows: &[Row<'_>],
    wanted: &[Said<'_>],
) -> bool {
    let lines = lines_of(alloc, rows).expect(rt, "lines");
    let ran = run(rt, alloc, limits, &OpenGate, &lines);
    are_said(&ran.answers, wanted)
}

#[test]
fn each_line_is_answered(rt: HostRuntime) {
    let alloc = rt.alloc();
    let one_write = Limits {
        repo_writes: 1,
        ..limits(1, 1, 9)
    };
    assert!(rt; are_answered(&rt, alloc, limits(1, 1, 9), &ONE_WORKER, &ONE_WORKER_SAID));
    assert!(rt; are_answered(&rt, alloc, limits(2, 3, 9), &MIXED, &MIXED_SAID));
    assert!(rt; are_answered(&rt, alloc, one_write, &ONE_TOO_MANY, &ONE_TOO_MANY_SAID));
    assert!(rt; are_answered(&rt, alloc, limits(1, 2, 9), &[], &[]));
}
