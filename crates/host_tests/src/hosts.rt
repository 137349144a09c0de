//! What the writers of hosts do.

ghost use Rattle.std.specs.Prelude.{◌≡◌};

use cid::Digest;
use cid::digests::Toy;
use host::{HostFault, Limits, Writer};
use notices::Notice;
use repo_fixtures::batch::{Batch, Step, batch_at};
use repo_fixtures::ends::{Why, why_of};
use std::alloc::{AllocError, Allocator};
use std::sync::Wait;

/// So many repositories and writers, and a queue with this room.
pub(crate) fn limits(repos: u32, writers: u32, queue: usize) -> Limits
    ensures repos { result.repos ≡ repos }
    ensures writers { result.writers ≡ writers }
{
    Limits {
        repos,
        writers,
        queue,
        shard_blocks: 1000,
        repo_writes: 1000,
    }
}

/// How a batch was answered.
#[derive(Clone, Copy, PartialEq, Eq)]
pub(crate) enum Answer {
    /// Accepted: the notice's number of its writer, and how many writes the repository then has.
    Told(u64, u64),
    NoSuchRepository,
    /// Refused at this place, for this fault.
    Refused(usize, Why),
    NoMemory,
    SeqFull,
}

/// The answer of a call.
pub(crate) fn answer_of<D: Digest, A: Allocator>(
    answer: Result<Notice, HostFault<D, A>>,
) -> Answer {
    match answer {
        Ok(notice) => Answer::Told(notice.seq, notice.number),
        Err(HostFault::NoSuchRepository) => Answer::NoSuchRepository,
        Err(HostFault::Refused(place, fault)) => Answer::Refused(place, why_of(&fault)),
        Err(HostFault::NoMemory) => Answer::NoMemory,
        Err(HostFault::SeqFull) => Answer::SeqFull,
    }
}

/// How a writer's batch is answered, for which there may have been no memory.
fn apply<D: Digest, const B: u8, A: Allocator + Copy, R: Wait>(
    rt: &R,
    alloc: A,
    writer: &mut Writer<'_, D, B, A>,
    repo: usize,
    batch: Result<Batch<A>, AllocError>,
) -> Answer
    ensures { writer.new.host ≡ writer.old.host }
{
    match batch {
        Ok(batch) => answer_of(writer.apply(rt, alloc, repo, &batch.stamp, &batch.writes)),
        Err(_) => Answer::NoMemory,
    }
}

/// How the batch of these steps is answered, under the stamp that comes so many after the first one.
pub(crate) fn apply_steps<D: Digest, const B: u8, A: Allocator + Copy, R: Wait>(
    rt: &R,
    alloc: A,
    writer: &mut Writer<'_, D, B, A>,
    repo: usize,
    turn: u16,
    steps: &[Step<'_>],
) -> Answer
    ensures { writer.new.host ≡ writer.old.host }
{
    apply(rt, alloc, writer, repo, batch_at(alloc, turn, steps))
}

/// Whether the writer finds this record under the key "a/b0".
pub(crate) fn finds<const B: u8, A: Allocator + Copy, R: Wait>(
    rt: &R,
    alloc: A,
    writer: &mut Writer<'_, Toy, B, A>,
    repo: usize,
    record: Option<&[u8]>,
) -> bool
    ensures { writer.new.host ≡ writer.old.host }
{
    match writer.get(rt, alloc, repo, b"a/b0") {
        Ok(Some(found)) => record == Some(found.as_slice()),
        Ok(None) => record.is_none(),
        Err(_) => false,
    }
}
