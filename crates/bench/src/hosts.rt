//! The puts of many writers of one host, and its close.

ghost use Rattle.std.specs.Prelude.{◌≡◌, [], length, All};
ghost use Rattle.host.specs.Views.{IsSeatOf};
ghost use Rattle.ended.specs.Ending.{IsEndedAt};

use crate::watch::Watch;
use crate::writers::{Load, Task, open, shares, write_all};
use cid::Sha256;
use closing::Closed;
use ended::{Ended, Feed};
use host::{Host, Opened, Seat};
use std::alloc::Global;
use std::sync::Wait;
use std::sync::atomic::{AtomicU64, Ordering};
use std::thread::Threads;
use std::time::Clock;

/// What was measured of a host.
#[derive(Clone, Copy, Drop)]
pub struct Measured {
    /// How many writes all repositories accepted.
    pub accepted: u64,
    /// How many revisions were taken, of which those that weren't accepted came too late.
    pub revisions: u64,
    /// How many blocks the host had in the end.
    pub blocks: usize,
    /// Nanoseconds of all writers together.
    pub puts: u128,
    /// Nanoseconds of the close.
    pub close: u128,
    /// Nanoseconds in which the blocks were given back.
    pub end: u128,
}

/// Opens a host, has its writers put what the load says, and closes it. `None` where memory was refused, or the host doesn't
/// open or close.
pub fn measure<R: Threads + Wait + Sync + Clock>(
    rt: &R,
    alloc: Global,
    load: Load,
) -> Option<Measured> {
    let shares = shares(alloc, load).ok()?;
    let Opened { host, seats, feed } = open(rt, alloc, load)?;
    run(rt, alloc, host, seats, feed, &shares)
}

/// The writers write, and then the host closes.
fn run<R: Threads + Wait + Sync + Clock>(
    rt: &R,
    alloc: Global,
    host: Host<Sha256, 2>,
    seats: Vec<Seat>,
    feed: Feed,
    shares: &[Vec<Task>],
) -> Option<Measured>
    requires seats { All (IsSeatOf host) seats.items }
    requires all { length seats.items ≡ feed.made }
    requires feed { feed.queue_id ≡ host.queue.queue_id }
    requires fresh { feed.joined ≡ [] }
{
    let revisions = AtomicU64::new(1);
    let watch = Watch::start(rt);
    let wrote = write_all(rt, alloc, &host, seats, &revisions, shares);
    let puts = watch.nanos(rt);
    match wrote {
        Ok(ended) => {
            let closed = close(rt, alloc, host, ended, feed)?;
            Some(Measured {
                puts,
                revisions: revisions.load(Ordering::SeqCst).saturating_sub(1),
                ..closed
            })
        }
        Err(_) => None,
    }
}

/// The close of a host, and what it has then.
fn close<R: Clock>(
    rt: &R,
    alloc: Global,
    host: Host<Sha256, 2>,
    ended: Vec<Ended>,
    feed: Feed,
) -> Option<Measured>
    requires feed { feed.queue_id ≡ host.queue.queue_id }
    requires fresh { feed.joined ≡ [] }
    requires ended { All (IsEndedAt host.queue.queue_id host.repos) ended.items }
    requires all { length ended.items ≡ feed.made }
{
    let watch = Watch::start(rt);
    let closed = host_close::close(host, ended, feed);
    let close = watch.nanos(rt);
    match closed {
        Ok(closed) => Some(end(rt, alloc, closed, close)),
        Err(_) => None,
    }
}

/// What a host has that took so long to close, and how long it takes to end it.
fn end<R: Clock>(rt: &R, alloc: Global, closed: Closed<Sha256, 2>, close: u128) -> Measured {
    let accepted = accepted(&closed);
    let blocks = blocks(alloc, &closed);
    let watch = Watch::start(rt);
    closed.end();
    Measured {
        accepted,
        revisions: 0,
        blocks,
        puts: 0,
        close,
        end: watch.nanos(rt),
    }
}

/// How many writes the repositories of a host accepted.
fn accepted(closed: &Closed<Sha256, 2>) -> u64 {
    let mut accepted = 0u64;
    for core in closed.cores() {
        accepted = accepted.saturating_add(core.number());
    }
    accepted
}

/// How many blocks a host has, or 0 where memory is refused.
fn blocks(alloc: Global, closed: &Closed<Sha256, 2>) -> usize {
    match closed.counts(alloc) {
        Ok(counts) => counts.len(),
        Err(_) => 0,
    }
}
