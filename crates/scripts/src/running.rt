//! A whole script, each worker in a thread of its own.

ghost use Rattle.std.specs.Prelude.{◌≡◌, ◌<◌, length, map, All, IfOk, Ok};
ghost use Rattle.ended.specs.Ending.{IsEndedAt};
ghost use Rattle.host.specs.Views.{IsSeatOf};
ghost use Rattle.scripts.specs.Working.{IsWork};
ghost use Rattle.scripts.specs.Scripts.{AreByPlace, AreDone, AreEachDone, AreEachEnded};

use crate::gate::Gate;
use crate::merging::in_order;
use crate::script::{Answer, Line, Report};
use crate::working::{Done, work};
use cid::Digest;
use ended::Ended;
use host::{Host, Seat};
use std::alloc::{AllocError, Global};
use std::collections::VecDeque;
use std::sync::Wait;
use std::thread;
use std::thread::Threads;

/// A worker's number, which is the place of its seat, and the seat.
#[derive(Drop)]
struct Place {
    worker: usize,
    seat: Seat,
}

/// The seats with their places.
fn placed(alloc: Global, seats: Vec<Seat>) -> Result<Vec<Place>, AllocError>
    ensures seats { IfOk result (λ v. map (λ p. p.seat) v.items ≡ seats.items) }
    ensures places { IfOk result (λ v. AreByPlace v.items) }
{
    let mut places = Vec::with_capacity(alloc, seats.len())?;
    for seat in seats {
        let worker = places.len();
        places.push_reserved(Place { worker, seat });
    }
    Ok(places)
}

/// All workers, each in a thread of its own.
fn work_all<D: Digest + Send + Sync, const B: u8, G: Gate, R: Threads + Wait + Sync>(
    rt: &R,
    alloc: Global,
    host: &Host<D, B>,
    seats: Vec<Seat>,
    gate: &G,
    lines: &[Line],
) -> Result<Vec<Result<Done<D>, AllocError>>, AllocError>
    requires { All (IsSeatOf host.now) seats.items }
    ensures all { IfOk result (λ v. length v.items ≡ length seats.items) }
    ensures done { IfOk result (λ v.
        AreEachDone D.digest_of B host.now seats.items lines.now v.items) }
    ensures ended { IfOk result (λ v. AreEachEnded host.now v.items) }
{
    let places = placed(alloc, seats)?;
    thread::map_vec(
        rt,
        places,
        &|place: Place| -> Result<Done<D>, AllocError>
            requires { IsSeatOf host.now place.seat }
            ensures done { IfOk result (IsWork D.digest_of B host.entry.now place.seat place.worker
                lines.entry.now) }
            ensures ended { IfOk result (λ d.
                IsEndedAt host.entry.now.queue.queue_id host.entry.now.repos d.ended) }
        {
            let Place { worker, seat } = place;
            work(rt, alloc, host, seat, worker, gate, lines)
        },
    )
}

/// What each worker did, where memory was refused to none.
fn all_done<D: Digest>(
    alloc: Global,
    results: Vec<Result<Done<D>, AllocError>>,
) -> Result<Vec<Done<D>>, AllocError>
    ensures { IfOk result (λ done. results.items ≡ map Ok done.items) }
{
    let mut all = Vec::with_capacity(alloc, results.len())?;
    for result in results {
        let done = result?;
        all.push_reserved(done);
    }
    Ok(all)
}

/// How the writers ended, and what each was answered.
fn parted<D: Digest>(
    alloc: Global,
    done: Vec<Done<D>>,
) -> Result<(Vec<Ended>, Vec<VecDeque<Answer<D>>>), AllocError>
    ensures ended { IfOk result (λ r. r.0.items ≡ map (λ d. d.ended) done.items) }
    ensures answers { IfOk result (λ r. r.1.items ≡ map (λ d. d.answers) done.items) }
{
    let mut ended = Vec::with_capacity(alloc, done.len())?;
    let mut given = Vec::with_capacity(alloc, done.len())?;
    for one in done {
        let Done {
            ended: last,
            answers,
        } = one;
        ended.push_reserved(last);
        given.push_reserved(answers);
    }
    Ok((ended, given))
}

/// Does the lines of a script: the worker of each seat does its own, in their order, in a thread of its own, and calls the gate
/// before and after each.
///
/// The seats must be this host's, and each line's worker the place of a seat. `AllocError` comes where memory was refused. It says
/// nothing of how many lines were done, and the seats are lost then, so that this host can't be closed; dropped, it gives its
/// blocks back.
pub fn run_script<D: Digest + Send + Sync, const B: u8, G: Gate, R: Threads + Wait + Sync>(
    rt: &R,
    alloc: Global,
    host: &Host<D, B>,
    seats: Vec<Seat>,
    gate: &G,
    lines: &[Line],
) -> Result<Report<D>, AllocError>
    requires seats { All (IsSeatOf host.now) seats.items }
    requires workers { All (λ l. l.worker < length seats.items) lines.now }
    ensures all { IfOk result (λ r. length r.answers.items ≡ length lines.now) }
    ensures workers { IfOk result (λ r. length r.ended.items ≡ length seats.items) }
    ensures done { IfOk result (λ r. AreDone D.digest_of B host.now seats.items lines.now
        r.answers.items r.ended.items) }
    ensures ended { IfOk result (λ r.
        All (IsEndedAt host.now.queue.queue_id host.now.repos) r.ended.items) }
{
    let results = work_all(rt, alloc, host, seats, gate, lines)?;
    let done = all_done(alloc, results)?;
    let (ended, given) = parted(alloc, done)?;
    let answers = in_order(alloc, given, lines)?;
    Ok(Report { answers, ended })
}
