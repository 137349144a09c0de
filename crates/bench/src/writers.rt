//! A host whose writers put what a plan has, each in a thread of its own.

ghost use Rattle.std.specs.Prelude.{◌≡◌, [], length, All, IfOk, IfSome};
ghost use Rattle.ended.specs.Ending.{IsEndedAt};
ghost use Rattle.host.specs.Views.{IsSeatOf};

use crate::edits::Change;
use crate::plans::{Plan, stamp};
use batches::{RepoFault, Write};
use cid::Sha256;
use ended::Ended;
use host::{Host, HostFault, Limits, Opened, Seat, Writer};
use std::alloc::{AllocError, Global};
use std::sync::Wait;
use std::sync::atomic::{AtomicU64, Ordering};
use std::thread;
use std::thread::Threads;
use store::TableKey;

/// How many repositories and writers a host has, how many batches it gets, and how many puts each of these has.
#[derive(Clone, Copy, Drop)]
pub struct Load {
    pub repos: u32,
    pub writers: u32,
    pub batches: u32,
    pub size: u32,
}

/// The writes of a batch, and the repository that gets them.
#[derive(Drop)]
pub struct Task {
    repo: usize,
    writes: Vec<Write>,
}

/// The batches of each writer. Batch after batch goes to the next writer and to the next repository.
pub fn shares(alloc: Global, load: Load) -> Result<Vec<Vec<Task>>, AllocError> {
    let puts = load.batches.saturating_mul(load.size);
    let plan = Plan::parted(alloc, puts, puts)?;
    let mut shares = Vec::new(alloc);
    for writer in 0..load.writers {
        shares.push(share(alloc, &plan, load, writer as usize)?)?;
    }
    Ok(shares)
}

/// The batches of one writer.
fn share(alloc: Global, plan: &Plan, load: Load, writer: usize) -> Result<Vec<Task>, AllocError> {
    let (writers, repos) = (load.writers.max(1) as usize, load.repos.max(1) as usize);
    let mut share = Vec::new(alloc);
    for (number, places) in plan
        .places
        .new
        .chunks(load.size.max(1) as usize)
        .enumerate()
    {
        if number % writers == writer {
            share.push(task_at(alloc, plan, number % repos, places)?)?;
        }
    }
    Ok(share)
}

/// Puts at these places into a repository.
fn task_at(alloc: Global, plan: &Plan, repo: usize, places: &[usize]) -> Result<Task, AllocError> {
    let writes = plan.writes(alloc, Change::Put, places)?;
    Ok(Task { repo, writes })
}

/// A host for such a load, with a queue of 65,536 notices.
pub fn open<R: Wait>(rt: &R, alloc: Global, load: Load) -> Option<Opened<Sha256, 2>>
    ensures seats { IfSome result (λ o. All (IsSeatOf o.host) o.seats.items) }
    ensures all { IfSome result (λ o. length o.seats.items ≡ o.feed.made) }
    ensures feed { IfSome result (λ o. o.feed.queue_id ≡ o.host.queue.queue_id) }
    ensures fresh { IfSome result (λ o. o.feed.joined ≡ []) }
{
    let limits = Limits {
        repos: load.repos,
        writers: load.writers,
        queue: 65_536,
        shard_blocks: 1_048_576,
        repo_writes: 1_048_576,
    };
    match Host::<Sha256, 2>::open(rt, alloc, limits, TableKey::known()) {
        Ok(opened) => Some(opened),
        Err(_) => None,
    }
}

/// Applies a batch by the next revision, and says whether it was accepted. Where another writer was quicker with a later
/// revision it tries again.
pub fn put<R: Wait>(
    rt: &R,
    alloc: Global,
    writer: &mut Writer<'_, Sha256, 2>,
    revisions: &AtomicU64,
    task: &Task,
) -> bool
    ensures { writer.new.host ≡ writer.old.host }
{
    for _ in rt.forever() {
        let Ok(stamp) = stamp(alloc, revisions.fetch_add(1, Ordering::SeqCst)) else {
            return false;
        };
        match writer.apply(rt, alloc, task.repo, &stamp, &task.writes) {
            Ok(_) => return true,
            Err(HostFault::Refused(_, RepoFault::RevOrder)) => {}
            Err(_) => return false,
        }
    }
    unreachable!()
}

/// Applies batches up to one that is refused.
fn put_all<R: Wait>(
    rt: &R,
    alloc: Global,
    writer: &mut Writer<'_, Sha256, 2>,
    revisions: &AtomicU64,
    tasks: &[Task],
)
    ensures { writer.new.host ≡ writer.old.host }
{
    for task in tasks {
        if !put(rt, alloc, writer, revisions, task) {
            break;
        }
    }
}

/// What the writer of this seat has to do, and its end.
fn write<R: Wait>(
    rt: &R,
    alloc: Global,
    host: &Host<Sha256, 2>,
    seat: Seat,
    revisions: &AtomicU64,
    shares: &[Vec<Task>],
) -> Ended
    requires { IsSeatOf host.now seat }
    ensures { IsEndedAt host.now.queue.queue_id host.now.repos result }
{
    let number = seat.writer() as usize;
    let mut writer = host.writer(seat);
    if let Some(tasks) = shares.get(number) {
        put_all(rt, alloc, &mut writer, revisions, tasks);
    }
    writer.end()
}

/// All writers, each in a thread of its own.
pub fn write_all<R: Threads + Wait + Sync>(
    rt: &R,
    alloc: Global,
    host: &Host<Sha256, 2>,
    seats: Vec<Seat>,
    revisions: &AtomicU64,
    shares: &[Vec<Task>],
) -> Result<Vec<Ended>, AllocError>
    requires { All (IsSeatOf host.now) seats.items }
    ensures all { IfOk result (λ v. length v.items ≡ length seats.items) }
    ensures ended { IfOk result (λ v.
        All (IsEndedAt host.now.queue.queue_id host.now.repos) v.items) }
{
    thread::map_vec(
        rt,
        seats,
        &|seat: Seat| -> Ended
            requires { IsSeatOf host.now seat }
            ensures { IsEndedAt host.entry.now.queue.queue_id host.entry.now.repos result }
        { write(rt, alloc, host, seat, revisions, shares) },
    )
}
