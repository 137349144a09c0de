//! Two workers of 1,000 accepted calls and one that takes their notices, on three threads.

ghost use Rattle.std.specs.Prelude.{◌≡◌, IfOk, All, length, ◌<◌};
ghost use Rattle.ended.specs.Ending.{IsEndedAt};
ghost use Rattle.host.specs.Views.{IsSeatOf};

use crate::closes::{limits, open};
use crate::tables::{Doing, line_of};
use cid::digests::Toy;
use closing::Closed;
use ended::Feed;
use host::{Host, Opened, Seat};
use host_close::close;
use notices::Notice;
use repo_fixtures::batch::Step::Put;
use repo_fixtures::batch::{ONE, TWO};
use scripts::{Line, OpenGate, Report, have_workers, run_script};
use std::alloc::{AllocError, Global};
use std::process::Abort;
use std::sync::Wait;
use std::sync::atomic::{AtomicBool, Ordering};
use std::thread;
use std::thread::Threads;

/// How often the taker tries. It stops before, once the script is done.
const TURNS: u64 = 20_000_000;

/// How many lines each worker has.
const LINES: usize = 1000;

/// A put of each worker into its own repository, so many times.
fn many_puts(alloc: Global) -> Result<Vec<Line>, AllocError> {
    let mut lines = Vec::with_capacity(alloc, 2 * LINES)?;
    for number in 1..=LINES {
        let record = if number % 2 == 0 { ONE } else { TWO };
        let steps = [Put(b"a/b0", record)];
        for worker in 0..2u32 {
            let row = (worker, worker, Doing::Apply(&steps));
            lines.push(line_of(alloc, number, row)?)?;
        }
    }
    Ok(lines)
}

/// The last number of each writer's notices so far, and whether these were 1, 2, .. in order.
#[derive(Clone, Copy)]
struct Counted {
    last: [u64; 2],
    are_in_order: bool,
}

impl Counted {
    /// One more notice.
    fn count(&mut self, notice: &Notice) {
        let place = notice.writer as usize;
        if place < 2 && notice.seq.checked_sub(1) == Some(self.last[place]) {
            self.last[place] = notice.seq;
        } else {
            self.are_in_order = false;
        }
    }
}

/// Takes until the script is done.
fn take_all<R: Wait>(
    rt: &R,
    host: &Host<Toy, 2>,
    feed: Feed,
    is_done: &AtomicBool,
) -> (Feed, Counted)
    requires { feed.queue_id ≡ host.now.queue.queue_id }
    ensures queue { result.0.queue_id ≡ feed.queue_id }
    ensures made { result.0.made ≡ feed.made }
    ensures joined { result.0.joined ≡ feed.joined }
{
    let mut taker = host.taker(feed);
    let mut counted = Counted {
        last: [0, 0],
        are_in_order: true,
    };
    for _ in 0..TURNS {
        match taker.pop(rt) {
            Some(notice) => counted.count(&notice),
            None if is_done.load(Ordering::SeqCst) => break,
            None => thread::yield_now(),
        }
    }
    (taker.end(), counted)
}

/// Does the script, and says when it is done.
fn work<R: Threads + Wait + Sync>(
    rt: &R,
    alloc: Global,
    host: &Host<Toy, 2>,
    seats: Vec<Seat>,
    lines: &[Line],
    is_done: &AtomicBool,
) -> Result<Report<Toy>, AllocError>
    requires seats { All (IsSeatOf host.now) seats.items }
    requires workers { All (λ l. l.worker < length seats.items) lines.now }
    ensures workers { IfOk result (λ r. length r.ended.items ≡ length seats.items) }
    ensures ended { IfOk result (λ r.
        All (IsEndedAt host.now.queue.queue_id host.now.repos) r.ended.items) }
{
    let report = run_script(rt, alloc, host, seats, &OpenGate, lines);
    is_done.store(true, Ordering::SeqCst);
    report
}

/// Counts what was left in the queue, and what each writer kept. These are all, once each writer's last number is known.
fn count_rest<R: Wait>(rt: &R, mut closed: Closed<Toy, 2>, counted: &mut Counted) {
    for _ in 0..=2 * LINES {
        let Some(notice) = closed.next_left(rt) else {
            break;
        };
        counted.count(&notice);
    }
    for writer in 0..2 {
        for notice in closed.kept(writer) {
            counted.count(notice);
        }
    }
}

/// Whether each writer's notices, taken, left and kept, are 1 to 1,000 in order, with a queue with this room.
fn are_all_told<R: Threads + Wait + Abort + Sync>(
    rt: &R,
    alloc: Global,
    lines: &[Line],
    queue: usize,
) -> bool {
    let opened = open(rt, alloc, limits(2, 2, queue));
    let Opened { host, seats, feed } = opened;
    if !have_workers(lines, seats.len()) {
        panic!(rt; "a line without a worker");
    }
    let ended = AtomicBool::new(false);
    let (lent, is_done) = (&host, &ended);
    let (report, (feed, mut counted)) = thread::join(
        rt,
        move || -> Result<Report<Toy>, AllocError>
            requires { (All (IsSeatOf lent.now) seats.items)
                × (All (λ l. l.worker < length seats.items) lines.now) }
            ensures { IfOk result (λ r. (length r.ended.items ≡ length seats.items)
                × (All (IsEndedAt lent.entry.now.queue.queue_id lent.entry.now.repos)
                r.ended.items)) }
        { work(rt, alloc, lent, seats, lines, is_done) },
        move || -> (Feed, Counted)
            requires { feed.queue_id ≡ lent.now.queue.queue_id }
            ensures { (result.0.queue_id ≡ feed.queue_id) × (result.0.made ≡ feed.made)
                × (result.0.joined ≡ feed.joined) }
        { take_all(rt, lent, feed, is_done) },
    );
    let Report { answers: _, ended } = report.expect(rt, "a report");
    match close(host, ended, feed) {
        Ok(closed) => count_rest(rt, closed, &mut counted),
        Err(_) => return false,
    }
    counted.are_in_order && counted.last == [LINES as u64, LINES as u64]
}

#[test]
fn two_workers_and_a_taker(rt: HostRuntime) {
    let lines = many_puts(rt.alloc()).expect(&rt, "lines");
    for queue in [1, 16] {
        assert!(rt;
            are_all_told(&rt, rt.alloc(), &lines, queue),
            "a queue of {queue}"
        );
    }
}
