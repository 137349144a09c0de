//! Workers that wait for each other at the gate, which they could not in one thread: two of them, and as many as there may be.

use crate::answers::{Said, are_said};
use crate::closes::{limits, run};
use crate::tables::{Doing, Row, line_of, lines_of};
use repo_fixtures::batch::EMPTY;
use repo_fixtures::batch::Step::Put;
use scripts::{Gate, Line};
use std::alloc::{AllocError, Global};
use std::process::Abort;
use std::sync::Wait;
use std::sync::atomic::{AtomicBool, AtomicU64, Ordering};
use std::thread;
use std::thread::Threads;

/// How often a worker looks before it gives up.
const TURNS: u64 = 1_000_000;

/// Something that happens once, in any thread.
#[derive(Drop)]
pub(crate) struct Event {
    happened: AtomicBool,
}

impl Event {
    pub(crate) fn new() -> Event {
        Event {
            happened: AtomicBool::new(false),
        }
    }

    pub(crate) fn happens(&self) {
        self.happened.store(true, Ordering::SeqCst);
    }

    pub(crate) fn has_happened(&self) -> bool {
        self.happened.load(Ordering::SeqCst)
    }

    /// Waits until it has happened, or for so many turns, and answers whether it has.
    pub(crate) fn comes(&self) -> bool {
        for _ in 0..TURNS {
            if self.has_happened() {
                return true;
            }
            thread::yield_now();
        }
        false
    }
}

/// What was called for one line.
#[derive(Drop)]
struct Called {
    before: Event,
    after: Event,
}

impl Called {
    fn new() -> Called {
        Called {
            before: Event::new(),
            after: Event::new(),
        }
    }
}

/// Line 1 isn't begun before line 2 is done. It is a fault where a line is done that wasn't begun.
#[derive(Drop)]
struct SecondFirst {
    first: Called,
    second: Called,
    gave_up: Event,
}

impl SecondFirst {
    fn new() -> SecondFirst {
        SecondFirst {
            first: Called::new(),
            second: Called::new(),
            gave_up: Event::new(),
        }
    }

    fn called(&self, line: usize) -> &Called {
        if line == 1 { &self.first } else { &self.second }
    }

    /// Whether both lines were begun and done, and nobody waited in vain.
    fn is_well(&self) -> bool {
        self.first.after.has_happened()
            && self.second.after.has_happened()
            && !self.gave_up.has_happened()
    }
}

impl Gate for SecondFirst {
    fn before(&self, line: usize) {
        self.called(line).before.happens();
        if line == 1 && !self.second.after.comes() {
            self.gave_up.happens();
        }
    }

    fn after(&self, line: usize) {
        if !self.called(line).before.has_happened() {
            self.gave_up.happens();
        }
        self.called(line).after.happens();
    }
}

/// Neither of lines 1 and 2 is begun before the other's worker has come to it.
#[derive(Drop)]
struct Both {
    first: Event,
    second: Event,
    gave_up: Event,
}

impl Both {
    /// The events of this line and of the other one.
    fn events(&self, line: usize) -> (&Event, &Event) {
        if line == 1 {
            (&self.first, &self.second)
        } else {
            (&self.second, &self.first)
        }
    }
}

impl Gate for Both {
    fn before(&self, line: usize) {
        let (own, other) = self.events(line);
        own.happens();
        if !other.comes() {
            self.gave_up.happens();
        }
    }

    fn after(&self, _line: usize) {}
}

/// How many workers there may be.
const WORKERS: u32 = 64;

/// No worker begins its one line before each of them has come to its own.
#[derive(Drop)]
struct All {
    came: AtomicU64,
    gave_up: Event,
}

impl Gate for All {
    fn before(&self, _line: usize) {
        self.came.fetch_add(1, Ordering::SeqCst);
        for _ in 0..TURNS {
            if self.came.load(Ordering::SeqCst) == u64::from(WORKERS)
                || self.gave_up.has_happened()
            {
                return;
            }
            thread::yield_now();
        }
        self.gave_up.happens();
    }

    fn after(&self, _line: usize) {}
}

/// A put of each worker in its own repository.
const ROWS: [Row<'static>; 2] = [
    (0, 0, Doing::Apply(&[Put(b"a/b0", EMPTY)])),
    (1, 1, Doing::Apply(&[Put(b"a/b0", EMPTY)])),
];

/// Both puts are accepted.
const ROWS_SAID: [Said<'static>; 2] = [Said::Told(0, 1, 0, 1), Said::Told(1, 1, 1, 1)];

/// A look and a put of two workers in one repository.
const LOOK_AND_PUT: [Row<'static>; 2] = [
    (0, 0, Doing::Get(b"a/b0")),
    (1, 0, Doing::Apply(&[Put(b"a/b0", EMPTY)])),
];

/// The look comes second.
const LOOK_AND_PUT_SAID: [Said<'static>; 2] = [Said::Found(EMPTY), Said::Told(1, 1, 0, 1)];

/// A put and a look of two workers in one repository.
const PUT_AND_LOOK: [Row<'static>; 2] = [
    (0, 0, Doing::Apply(&[Put(b"a/b0", EMPTY)])),
    (1, 0, Doing::Get(b"a/b0")),
];

/// The put comes second.
const PUT_AND_LOOK_SAID: [Said<'static>; 2] = [Said::Told(0, 1, 0, 1), Said::Absent];

/// Whether the lines of these rows are answered so, with this gate and a queue with this room.
fn are_said_at<G: Gate, R: Threads + Wait + Abort + Sync>(
    rt: &R,
    alloc: Global,
    queue: usize,
    gate: &G,
    rows: &[Row<'_>],
    wanted: &[Said<'_>],
) -> bool {
    let lines = lines_of(alloc, rows).expect(rt, "lines");
    let ran = run(rt, alloc, limits(2, 2, queue), gate, &lines);
    are_said(&ran.answers, wanted)
}

/// Whether line 1 waits until line 2 is done, and both are answered so.
fn comes_second<R: Threads + Wait + Abort + Sync>(
    rt: &R,
    alloc: Global,
    queue: usize,
    rows: &[Row<'_>],
    wanted: &[Said<'_>],
) -> bool {
    let gate = SecondFirst::new();
    are_said_at(rt, alloc, queue, &gate, rows, wanted) && gate.is_well()
}

/// Whether both lines wait for each other, and both are accepted.
fn meet<R: Threads + Wait + Abort + Sync>(rt: &R, alloc: Global, queue: usize) -> bool {
    let gate = Both {
        first: Event::new(),
        second: Event::new(),
        gave_up: Event::new(),
    };
    are_said_at(rt, alloc, queue, &gate, &ROWS, &ROWS_SAID) && !gate.gave_up.has_happened()
}

#[test]
fn a_line_waits_for_a_later_one(rt: HostRuntime) {
    assert!(rt; comes_second(&rt, rt.alloc(), 9, &ROWS, &ROWS_SAID));
    assert!(rt; comes_second(&rt, rt.alloc(), 1, &ROWS, &ROWS_SAID));
}

#[test]
fn a_line_is_done_between_its_calls(rt: HostRuntime) {
    assert!(rt; comes_second(&rt, rt.alloc(), 9, &LOOK_AND_PUT, &LOOK_AND_PUT_SAID));
    assert!(rt; comes_second(&rt, rt.alloc(), 9, &PUT_AND_LOOK, &PUT_AND_LOOK_SAID));
}

#[test]
fn two_lines_wait_for_each_other(rt: HostRuntime) {
    assert!(rt; meet(&rt, rt.alloc(), 9) && meet(&rt, rt.alloc(), 1));
}

/// A look of each worker in one repository.
fn a_look_each(alloc: Global) -> Result<Vec<Line>, AllocError> {
    let mut lines = Vec::with_capacity(alloc, WORKERS as usize)?;
    for worker in 0..WORKERS {
        lines.push(line_of(alloc, 1, (worker, 0, Doing::Get(b"a/b0")))?)?;
    }
    Ok(lines)
}

/// Whether all workers wait for each other, and each is answered.
fn all_meet<R: Threads + Wait + Abort + Sync>(rt: &R, alloc: Global) -> bool {
    let lines = a_look_each(alloc).expect(rt, "lines");
    let gate = All {
        came: AtomicU64::new(0),
        gave_up: Event::new(),
    };
    let ran = run(rt, alloc, limits(1, WORKERS, 9), &gate, &lines);
    are_said(&ran.answers, &[Said::Absent; 64]) && !gate.gave_up.has_happened()
}

#[test]
fn each_worker_has_its_thread(rt: HostRuntime) {
    assert!(rt; all_meet(&rt, rt.alloc()));
}
