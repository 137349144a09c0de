//! A slow output of a CAR holds up nobody who reads in that repository or writes in another one.

ghost use Rattle.std.specs.Prelude.{◌<◌, All, length};
ghost use Rattle.host.specs.Views.{IsSeatOf};

use crate::answers::{Said, are_said};
use crate::closes::{limits, open};
use crate::gates::Event;
use crate::tables::{Doing, Row, lines_of};
use cid::digests::Toy;
use export::{Failed, Out, ToMemory};
use host::{Host, Opened, Seat};
use host_exports::{CarFault, car};
use repo_fixtures::batch::EMPTY;
use repo_fixtures::batch::Step::Put;
use scripts::{Gate, Line, Report, have_workers, run_script};
use std::alloc::{AllocError, Global};
use std::process::Abort;
use std::sync::Wait;
use std::thread;
use std::thread::Threads;

/// What the output and the worker wait for.
#[derive(Drop)]
pub(crate) struct Beside {
    pub(crate) is_writing: Event,
    pub(crate) are_answered: Event,
    pub(crate) gave_up: Event,
}

impl Beside {
    pub(crate) fn new() -> Beside {
        Beside {
            is_writing: Event::new(),
            are_answered: Event::new(),
            gave_up: Event::new(),
        }
    }
}

/// The worker begins once the output is in its first write.
impl Gate for Beside {
    fn before(&self, _line: usize) {
        if !self.is_writing.comes() {
            self.gave_up.happens();
        }
    }

    fn after(&self, line: usize) {
        if line == 2 {
            self.are_answered.happens();
        }
    }
}

/// An output that takes nothing before the worker's lines are answered.
struct SlowOut<'a> {
    memory: ToMemory,
    beside: &'a Beside,
}

impl<'a> Out for SlowOut<'a> {
    ghost taken = { λ out. out.memory.taken };

    ghost failures = { λ out. out.memory.failures };

    fn write(&mut self, bytes: &[u8]) -> Result<usize, Failed> {
        self.beside.is_writing.happens();
        if !self.beside.are_answered.comes() {
            self.beside.gave_up.happens();
        }
        self.memory.write(bytes)
    }
}

/// A read in repository 0, and a write in repository 1.
const ROWS: [Row<'static>; 2] = [
    (0, 0, Doing::Get(b"a/b0")),
    (0, 1, Doing::Apply(&[Put(b"a/b0", EMPTY)])),
];

/// How long the CAR of repository 0 is, into a slow output.
pub(crate) fn car_of<R: Wait>(
    rt: &R,
    alloc: Global,
    host: &Host<Toy, 2>,
    beside: &Beside,
) -> Result<u64, CarFault> {
    let mut out = SlowOut {
        memory: ToMemory::new(alloc),
        beside,
    };
    let length = car(rt, alloc, host, 0, &mut out);
    let SlowOut { memory, beside: _ } = out;
    drop(memory);
    length
}

/// Whether the lines are answered so with this gate while the CAR of repository 0 is written.
fn are_answered_beside<G: Gate, R: Threads + Wait + Sync>(
    rt: &R,
    alloc: Global,
    host: &Host<Toy, 2>,
    seats: Vec<Seat>,
    lines: &[Line],
    gate: &G,
    beside: &Beside,
    wanted: &[Said<'_>],
) -> bool
    requires seats { All (IsSeatOf host.now) seats.items }
    requires workers { All (λ l. l.worker < length seats.items) lines.now }
{
    let (report, length) = thread::join(
        rt,
        move || -> Result<Report<Toy>, AllocError>
            requires { (All (IsSeatOf host.now) seats.items)
                × (All (λ l. l.worker < length seats.items) lines.now) }
        { run_script(rt, alloc, host, seats, gate, lines) },
        move || car_of(rt, alloc, host, beside),
    );
    match report {
        Ok(report) => {
            are_said(&report.answers, wanted) && length.is_ok() && !beside.gave_up.has_happened()
        }
        Err(_) => false,
    }
}

/// Whether this is so on a host of two repositories whose queue has this room.
fn is_right<R: Threads + Wait + Abort + Sync>(rt: &R, alloc: Global, queue: usize) -> bool {
    let lines = lines_of(alloc, &ROWS).expect(rt, "lines");
    let opened = open(rt, alloc, limits(2, 1, queue));
    let Opened {
        host,
        seats,
        feed: _,
    } = opened;
    if !have_workers(&lines, seats.len()) {
        panic!(rt; "a line without a worker");
    }
    let beside = Beside::new();
    let wanted = [Said::Absent, Said::Told(0, 1, 1, 1)];
    are_answered_beside(rt, alloc, &host, seats, &lines, &beside, &beside, &wanted)
}

#[test]
fn a_slow_output_holds_up_no_reader(rt: HostRuntime) {
    for queue in [9, 1] {
        assert!(rt; is_right(&rt, rt.alloc(), queue), "with room for {queue}");
    }
}

/// How often the second worker lets others go first.
const PAUSES: u64 = 10_000;

/// What the output and two workers wait for.
#[derive(Drop)]
struct Behind {
    beside: Beside,
    has_begun: Event,
}

/// The first worker begins once the output is in its first write, and the second a while after the first.
impl Gate for Behind {
    fn before(&self, line: usize) {
        let earlier = if line == 1 {
            &self.beside.is_writing
        } else {
            &self.has_begun
        };
        if !earlier.comes() {
            self.beside.gave_up.happens();
        }
        if line == 1 {
            self.has_begun.happens();
        } else {
            for _ in 0..PAUSES {
                thread::yield_now();
            }
        }
    }

    fn after(&self, line: usize) {
        if line == 2 {
            self.beside.are_answered.happens();
        }
    }
}

/// A put in the repository whose CAR is written, which waits for that, and one in another.
const PUTS: [Row<'static>; 2] = [
    (0, 0, Doing::Apply(&[Put(b"a/b0", EMPTY)])),
    (1, 1, Doing::Apply(&[Put(b"a/b0", EMPTY)])),
];

/// Whether the second put is accepted while the first one waits.
fn is_accepted_beside<R: Threads + Wait + Abort + Sync>(rt: &R, alloc: Global) -> bool {
    let lines = lines_of(alloc, &PUTS).expect(rt, "lines");
    let opened = open(rt, alloc, limits(2, 2, 9));
    let Opened {
        host,
        seats,
        feed: _,
    } = opened;
    if !have_workers(&lines, seats.len()) {
        panic!(rt; "a line without a worker");
    }
    let behind = Behind {
        beside: Beside::new(),
        has_begun: Event::new(),
    };
    let wanted = [Said::Told(0, 1, 0, 1), Said::Told(1, 1, 1, 1)];
    are_answered_beside(
        rt,
        alloc,
        &host,
        seats,
        &lines,
        &behind,
        &behind.beside,
        &wanted,
    )
}

#[test]
fn a_waiting_writer_holds_up_no_other_repository(rt: HostRuntime) {
    assert!(rt; is_accepted_beside(&rt, rt.alloc()));
}
