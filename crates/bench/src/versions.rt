//! Readings of a published version by many threads, while nobody writes and while a writer goes on.

ghost use Rattle.std.specs.Prelude.{◌≡◌};
ghost use Rattle.boxcar.specs.Table.{Shows};
ghost use Rattle.host.specs.Views.{IsSeatOf};

use crate::watch::Watch;
use crate::writers::{Load, Task, open, put, shares};
use cid::Sha256;
use host::{Host, Opened, Receipt, Seat, Writer};
use std::alloc::Global;
use std::sync::Wait;
use std::sync::atomic::{AtomicBool, AtomicU64, Ordering};
use std::thread;
use std::thread::Threads;
use std::time::Clock;

/// How many threads read, how many times each, and how many batches there are for the writer.
#[derive(Clone, Copy, Drop)]
pub struct Reading {
    pub readers: u32,
    pub readings: u32,
    pub batches: u32,
}

/// What was measured of readings.
#[derive(Clone, Copy, Drop)]
pub struct Measured {
    /// Nanoseconds of all readings while nobody writes.
    pub alone: u128,
    /// Nanoseconds of all readings beside the writer.
    pub beside: u128,
    /// How many batches were accepted beside them.
    pub accepted: u64,
}

/// Opens a host of one repository, puts half of the batches, of one write each, publishes a version, and has it read; and once
/// more while the other half is put. `None` where memory was refused, or a batch.
pub fn measure<R: Threads + Wait + Sync + Clock>(
    rt: &R,
    alloc: Global,
    reading: Reading,
) -> Option<Measured> {
    let load = Load {
        repos: 1,
        writers: 1,
        batches: reading.batches,
        size: 1,
    };
    let shares = shares(alloc, load).ok()?;
    let Opened {
        host,
        mut seats,
        feed: _,
    } = open(rt, alloc, load)?;
    let seat = seats.pop()?;
    measure_at(rt, alloc, reading, &host, seat, shares.first()?)
}

/// The same by the writer of this seat, who has these batches.
fn measure_at<R: Threads + Wait + Sync + Clock>(
    rt: &R,
    alloc: Global,
    reading: Reading,
    host: &Host<Sha256, 2>,
    seat: Seat,
    tasks: &[Task],
) -> Option<Measured>
    requires { IsSeatOf host.now seat }
{
    let revisions = AtomicU64::new(1);
    let ended = AtomicBool::new(false);
    let (first, rest) = tasks.split_at(tasks.len() / 2);
    let mut writer = host.writer(seat);
    write(rt, alloc, &mut writer, &revisions, first, &ended);
    let Ok(receipt) = writer.publish(rt, alloc, 0) else {
        return None;
    };
    let watch = Watch::start(rt);
    read_all(rt, alloc, host, &receipt, reading, &ended);
    let alone = watch.nanos(rt);
    ended.store(false, Ordering::SeqCst);
    let watch = Watch::start(rt);
    let accepted = read_beside(
        rt,
        alloc,
        host,
        &receipt,
        reading,
        &ended,
        &mut writer,
        &revisions,
        rest,
    );
    Some(Measured {
        alone,
        beside: watch.nanos(rt),
        accepted,
    })
}

/// Applies batches until the readings have ended, and counts those that were accepted.
fn write<R: Wait>(
    rt: &R,
    alloc: Global,
    writer: &mut Writer<'_, Sha256, 2>,
    revisions: &AtomicU64,
    tasks: &[Task],
    ended: &AtomicBool,
) -> u64
    ensures { writer.new.host ≡ writer.old.host }
{
    let mut accepted = 0u64;
    for task in tasks {
        if ended.load(Ordering::SeqCst) || !put(rt, alloc, writer, revisions, task) {
            break;
        }
        accepted = accepted.saturating_add(1);
    }
    accepted
}

/// Reads a version so many times, and adds up what it says.
fn read(host: &Host<Sha256, 2>, receipt: &Receipt<Sha256, 2>, readings: u32) -> u64
    requires { Shows host.now.shelf receipt.now }
{
    let mut sum = 0u64;
    for _ in 0..readings {
        sum = sum.wrapping_add(host.version(receipt).number);
    }
    sum
}

/// All readings, each reader's in a thread of its own; then they have ended. Answers what they add up to.
fn read_all<R: Threads + Sync>(
    rt: &R,
    alloc: Global,
    host: &Host<Sha256, 2>,
    receipt: &Receipt<Sha256, 2>,
    reading: Reading,
    ended: &AtomicBool,
) -> u64
    requires { Shows host.now.shelf receipt.now }
{
    let sums = thread::map_indices(
        rt,
        alloc,
        reading.readers as usize,
        &|_| -> u64
            requires { Shows host.now.shelf receipt.now }
        { read(host, receipt, reading.readings) },
    );
    ended.store(true, Ordering::SeqCst);
    match sums {
        Ok(sums) => total(&sums),
        Err(_) => 0,
    }
}

/// What these add up to.
fn total(sums: &[u64]) -> u64 {
    let mut total = 0u64;
    for sum in sums {
        total = total.wrapping_add(*sum);
    }
    total
}

/// All readings beside the writer, who goes on until they have ended. Answers how many batches were accepted.
fn read_beside<R: Threads + Wait + Sync>(
    rt: &R,
    alloc: Global,
    host: &Host<Sha256, 2>,
    receipt: &Receipt<Sha256, 2>,
    reading: Reading,
    ended: &AtomicBool,
    writer: &mut Writer<'_, Sha256, 2>,
    revisions: &AtomicU64,
    tasks: &[Task],
) -> u64
    requires { Shows host.now.shelf receipt.now }
{
    let (_, accepted) = thread::join(
        rt,
        || -> u64
            requires { Shows host.now.shelf receipt.now }
        { read_all(rt, alloc, host, receipt, reading, ended) },
        || write(rt, alloc, writer, revisions, tasks, ended),
    );
    accepted
}
