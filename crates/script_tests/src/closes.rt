//! Scripts on a host that is opened for them, and closed.

ghost use Rattle.std.specs.Prelude.{◌≡◌, [], length, All};
ghost use Rattle.host.specs.Views.{IsSeatOf};

use cid::digests::Toy;
use closing::Closed;
use host::{Host, Limits, Opened};
use host_close::close;
use scripts::{Answer, Gate, Line, Report, have_workers, run_script};
use std::alloc::Global;
use std::process::Abort;
use std::sync::Wait;
use std::thread::Threads;
use store::TableKey;

/// So many repositories and writers, and a queue with this room.
pub(crate) fn limits(repos: u32, writers: u32, queue: usize) -> Limits {
    Limits {
        repos,
        writers,
        queue,
        shard_blocks: 1000,
        repo_writes: 10_000,
    }
}

/// A host of these limits.
pub(crate) fn open<R: Wait + Abort>(rt: &R, alloc: Global, limits: Limits) -> Opened<Toy, 2>
    ensures seats { All (IsSeatOf result.host) result.seats.items }
    ensures all { length result.seats.items ≡ result.feed.made }
    ensures feed { result.feed.queue_id ≡ result.host.queue.queue_id }
    ensures fresh { result.feed.joined ≡ [] }
{
    match Host::<Toy, 2>::open(rt, alloc, limits, TableKey::known()) {
        Ok(opened) => opened,
        Err(_) => panic!(rt; "no host"),
    }
}

/// What came of a script, and the host after it.
#[derive(Drop)]
pub(crate) struct Ran {
    pub(crate) answers: Vec<Answer<Toy>>,
    pub(crate) closed: Closed<Toy, 2>,
}

/// Opens a host, does a script with all its seats, and closes the host.
pub(crate) fn run<G: Gate, R: Threads + Wait + Abort + Sync>(
    rt: &R,
    alloc: Global,
    limits: Limits,
    gate: &G,
    lines: &[Line],
) -> Ran {
    let opened = open(rt, alloc, limits);
    let Opened { host, seats, feed } = opened;
    if !have_workers(lines, seats.len()) {
        panic!(rt; "a line without a worker");
    }
    let report = run_script(rt, alloc, &host, seats, gate, lines).expect(rt, "a report");
    let Report { answers, ended } = report;
    match close(host, ended, feed) {
        Ok(closed) => Ran { answers, closed },
        Err(_) => panic!(rt; "it doesn't close"),
    }
}
