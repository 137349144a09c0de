//! Notices that are left in the queue at the close, and those that a writer kept.

ghost use Rattle.std.specs.Prelude.{◌≡◌, []};

use crate::closes::two_ended;
use crate::repositories::{Heap, two_cores};
use crate::writer::{Writer, notice};
use cid::digests::Toy;
use closing::{Closed, close};
use ended::{Ended, Feed, Taker};
use notices::{Notice, Queue, SendPass};
use refusing::Refusing;
use repo::Core;
use std::process::Abort;
use std::sync::Wait;
use store::{SHARDS, Shard, Shards, TableKey};

/// Two writers that left a queue of two, and its feed.
#[derive(Drop)]
struct Left<'h> {
    first: SendPass,
    second: SendPass,
    feed: Feed<Heap<'h>>,
    kept: Option<Notice>,
    is_right: bool,
}

/// What the taker is given.
fn popped<'q, 'h, R: Wait>(rt: &R, taker: &mut Taker<'q, Heap<'h>>) -> Option<Notice>
    ensures queue { taker.new.queue_id ≡ taker.old.queue_id }
    ensures made { taker.new.made ≡ taker.old.made }
    ensures joined { taker.new.joined ≡ taker.old.joined }
{
    taker.pop(rt)
}

/// Writer 0 tells a notice, writer 1 too, and the second of writer 0 is given back. One is taken, and there is room for it
/// again; the second of writer 1 is kept.
fn tell_in_turn<'h, R: Wait>(
    rt: &R,
    queue: &Queue<Heap<'h>>,
    first: SendPass,
    second: SendPass,
    feed: Feed<Heap<'h>>,
) -> Left<'h>
    requires first { first.queue_id ≡ queue.now.queue_id }
    requires nothing_first { first.sent ≡ [] }
    requires second { second.queue_id ≡ queue.now.queue_id }
    requires nothing_second { second.sent ≡ [] }
    requires feed { feed.queue_id ≡ queue.now.queue_id }
    requires joined { feed.joined ≡ [] }
    ensures first { result.first.queue_id ≡ queue.now.queue_id }
    ensures second { result.second.queue_id ≡ queue.now.queue_id }
    ensures feed { result.feed.queue_id ≡ queue.now.queue_id }
    ensures joined { result.feed.joined ≡ [] }
    ensures made { result.feed.made ≡ feed.entry.made }
{
    let mut zero = Writer::new(queue, first);
    let mut one = Writer::new(queue, second);
    let mut taker = feed.taker(queue);
    let are_given_back = [
        zero.tell(rt).is_some(),
        one.tell(rt).is_some(),
        zero.tell(rt).is_some(),
    ];
    let taken = popped(rt, &mut taker);
    let is_given_back = zero.tell(rt).is_some();
    Left {
        kept: one.tell(rt),
        first: zero.end(),
        second: one.end(),
        feed: taker.end(),
        is_right: are_given_back == [false, false, true]
            && taken == Some(notice(0, 1))
            && !is_given_back,
    }
}

/// Whether a writer has ended under this number, keeps these notices, and has seen nothing in either repository.
fn is_ended<'h>(ended: &Ended<Heap<'h>>, writer: u32, kept: &[Notice]) -> bool {
    ended.writer() == writer && ended.kept() == kept && ended.seen() == [0, 0].as_slice()
}

/// Whether one notice of each writer is left, and writer 1 kept another one.
fn are_left<'h, R: Wait>(rt: &R, mut closed: Closed<Toy, 2, Heap<'h>>) -> bool {
    closed.next_left(rt) == Some(notice(1, 1))
        && closed.next_left(rt) == Some(notice(0, 2))
        && closed.next_left(rt).is_none()
        && closed.kept(0).is_empty()
        && closed.kept(1) == [notice(1, 2)].as_slice()
        && closed.kept(2).is_empty()
}

/// Whether that is left where two repositories without writes are closed after it.
fn close_after_notices<'h, R: Wait + Abort>(
    rt: &R,
    heap: Heap<'h>,
    cores: Vec<Core<Toy, 2, Heap<'h>>, Heap<'h>>,
    tables: [Shard<Toy, Heap<'h>>; SHARDS],
) -> bool {
    let (queue, mut passes, feed) = Queue::open(heap, 2, 2).expect(rt, "a queue");
    let second = passes.pop().expect(rt, "a pass");
    let first = passes.pop().expect(rt, "a pass");
    let feed = Feed::with_room(heap, feed, 2).expect(rt, "room");
    let left = tell_in_turn(rt, &queue, first, second, feed);
    let Left {
        first,
        second,
        feed,
        kept,
        is_right,
    } = left;
    let ended = two_ended(rt, heap, first, second, kept, cores.len(), 0);
    let have_ended = match ended.as_slice() {
        [zero, one] => is_ended(zero, 0, &[]) && is_ended(one, 1, &[notice(1, 2)]),
        _ => false,
    };
    heap.refuse_from(1);
    match close(queue, feed, ended, cores, tables) {
        Ok(closed) => are_left(rt, closed) && is_right && have_ended,
        Err(_) => false,
    }
}

#[test]
fn a_kept_notice_at_the_close(rt: HostRuntime) {
    let heap = Refusing::new(rt.alloc());
    let shards = Shards::open(&heap, 9, TableKey::known());
    let cores = two_cores(&rt, &heap, &shards, (0, 1), &[]);
    assert!(rt; close_after_notices(&rt, &heap, cores, shards.tables()) && heap.refused() == 0);
    assert!(rt; heap.live() == 0);
}
