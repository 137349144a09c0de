//! Closes by two writers.

ghost use Rattle.std.specs.Prelude.{◌≡◌, ◌≤◌, ◌<◌, All, length};
ghost use Rattle.ended.specs.Ending.{IsEndedAt};

use crate::repositories::{Batch, Heap, two_cores};
use cid::Digest;
use closing::{Closed, Uneven, close};
use ended::{Ended, Feed};
use notices::{Notice, Queue, SendPass};
use repo::Core;
use std::process::Abort;
use std::sync::Wait;
use store::{SHARDS, Shard, Shards, TableKey};

/// What a close answers.
pub(crate) type Answer<'h, D, const B: u8> = Result<Closed<D, B, Heap<'h>>, Uneven<D, B, Heap<'h>>>;

/// A writer that has ended: it keeps this notice, and has seen so many accepted writes in each repository.
fn ended<'h, R: Abort>(
    rt: &R,
    heap: Heap<'h>,
    pass: SendPass,
    kept: Option<Notice>,
    repositories: usize,
    seen: u64,
) -> Ended<Heap<'h>>
    ensures { IsEndedAt pass.queue_id repositories result }
{
    let mut notices = Vec::new(heap);
    if let Some(notice) = kept {
        notices.push(notice).expect(rt, "room");
    }
    let seen = vec![in heap; seen; repositories].expect(rt, "room");
    Ended::new(pass, notices, seen)
}

/// Two writers that have ended, of which the second keeps this notice.
pub(crate) fn two_ended<'h, R: Abort>(
    rt: &R,
    heap: Heap<'h>,
    first: SendPass,
    second: SendPass,
    kept: Option<Notice>,
    repositories: usize,
    seen: u64,
) -> Vec<Ended<Heap<'h>>, Heap<'h>>
    requires { second.queue_id ≡ first.queue_id }
    ensures ended { All (IsEndedAt first.queue_id repositories) result.items }
    ensures two { length result.items ≡ 2 }
{
    let mut writers = Vec::with_capacity(heap, 2).expect(rt, "room");
    writers.push_reserved(ended(rt, heap, first, None, repositories, seen));
    writers.push_reserved(ended(rt, heap, second, kept, repositories, seen));
    writers
}

/// Closes these cores and tables, with all memory refused. Each of two writers has told nothing, and seen so many accepted
/// writes in each repository.
pub(crate) fn closed<'h, D: Digest, R: Abort, const B: u8>(
    rt: &R,
    heap: Heap<'h>,
    cores: Vec<Core<D, B, Heap<'h>>, Heap<'h>>,
    tables: [Shard<D, Heap<'h>>; SHARDS],
    seen: u64,
) -> Answer<'h, D, B> {
    let (queue, mut passes, feed) = Queue::open(heap, 2, 2).expect(rt, "a queue");
    let second = passes.pop().expect(rt, "a pass");
    let first = passes.pop().expect(rt, "a pass");
    let feed = Feed::with_room(heap, feed, 2).expect(rt, "room");
    let ended = two_ended(rt, heap, first, second, None, cores.len(), seen);
    heap.refuse_from(1);
    let answer = close(queue, feed, ended, cores, tables);
    heap.refuse(0);
    answer
}

/// Closes two repositories of these numbers, after these batches.
pub(crate) fn closed_after<'h, D: Digest, R: Wait + Abort, const B: u8>(
    rt: &R,
    heap: Heap<'h>,
    numbers: (u32, u32),
    batches: &[Batch],
    seen: u64,
) -> Answer<'h, D, B>
    requires least { 1 ≤ B }
    requires most { B ≤ 8 }
    requires first { numbers.0 < 1024 }
    requires second { numbers.1 < 1024 }
{
    let shards = Shards::open(heap, 9, TableKey::known());
    let cores = two_cores(rt, heap, &shards, numbers, batches);
    closed(rt, heap, cores, shards.tables(), seen)
}
