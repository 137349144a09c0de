//! A queue of two, and a writer that tells three notices.

ghost use Rattle.std.specs.Prelude.{◌≡◌};
ghost use Rattle.ended.specs.Ending.{IsEndedAt};

use crate::hosts::{Answer, apply_steps, finds};
use crate::seated::{Alone, close_one, open_one};
use cid::digests::Toy;
use closing::Closed;
use ended::{Ended, Feed, Taker};
use host::Writer;
use notices::Notice;
use repo_fixtures::batch::{ONE, Step, TWO};
use std::alloc::{Allocator, Global};
use std::process::Abort;
use std::sync::Wait;

/// The DAG-CBOR bytes of the map of "a" to 3.
pub(crate) const THREE: &[u8] = b"\xa1\x61a\x03";

/// The number of a notice, 0 without one.
fn seq_of(notice: Option<Notice>) -> u64 {
    match notice {
        Some(notice) => notice.seq,
        None => 0,
    }
}

/// The number of the next notice, 0 where there is none.
pub(crate) fn popped<A: Allocator, R: Wait>(rt: &R, taker: &mut Taker<'_, A>) -> u64
    ensures queue { taker.new.queue_id ≡ taker.old.queue_id }
    ensures made { taker.new.made ≡ taker.old.made }
    ensures joined { taker.new.joined ≡ taker.old.joined }
{
    seq_of(taker.pop(rt))
}

/// Whether three puts are told by the numbers 1 to 3, and the last one is found.
fn tells_three<R: Wait>(rt: &R, alloc: Global, writer: &mut Writer<'_, Toy, 2>) -> bool
    ensures { writer.new.host ≡ writer.old.host }
{
    let one = apply_steps(rt, alloc, writer, 0, 1, &[Step::Put(b"a/b0", ONE)]);
    let two = apply_steps(rt, alloc, writer, 0, 2, &[Step::Put(b"a/b0", TWO)]);
    let three = apply_steps(rt, alloc, writer, 0, 3, &[Step::Put(b"a/b0", THREE)]);
    let are_told = one == Answer::Told(1, 1)
        && two == Answer::Told(2, 2)
        && three == Answer::Told(3, 3);
    finds(rt, alloc, writer, 0, Some(THREE)) && are_told
}

/// What a writer and a taker leave, and whether all was right so far.
#[derive(Drop)]
pub(crate) struct Left<A: Allocator = Global> {
    pub(crate) ended: Ended<A>,
    pub(crate) feed: Feed<A>,
    pub(crate) is_right: bool,
}

/// The row: two notices are in the queue and one is kept, until one is taken.
fn take_all<R: Wait>(
    rt: &R,
    alloc: Global,
    mut writer: Writer<'_, Toy, 2>,
    mut taker: Taker<'_>,
) -> Left
    ensures ended { IsEndedAt writer.entry.host.queue.queue_id writer.entry.host.repos
        result.ended }
    ensures queue { result.feed.queue_id ≡ taker.entry.queue_id }
    ensures made { result.feed.made ≡ taker.entry.made }
    ensures joined { result.feed.joined ≡ taker.entry.joined }
{
    let are_told = tells_three(rt, alloc, &mut writer);
    let first = popped(rt, &mut taker);
    let left = writer.flush(rt);
    let second = popped(rt, &mut taker);
    let third = popped(rt, &mut taker);
    let none = popped(rt, &mut taker);
    Left {
        ended: writer.end(),
        feed: taker.end(),
        is_right: are_told && first == 1 && left == 0 && second == 2 && third == 3 && none == 0,
    }
}

/// Whether a host that closed has this one repository of three writes, and nothing was left.
fn is_closed<R: Wait>(rt: &R, mut closed: Closed<Toy, 2>) -> bool {
    let number = match closed.cores().first() {
        Some(core) => core.number(),
        None => 0,
    };
    number == 3 && closed.next_left(rt).is_none() && closed.kept(0).is_empty()
}

/// Whether all this is so from opening to close.
fn is_right<R: Wait + Abort>(rt: &R, alloc: Global) -> bool {
    let opened = open_one::<Toy, 2, R>(rt, alloc, 1, 2);
    let Alone { host, seat, feed } = opened;
    let left = take_all(rt, alloc, host.writer(seat), host.taker(feed));
    let Left {
        ended,
        feed,
        is_right,
    } = left;
    is_closed(rt, close_one(rt, alloc, host, ended, feed)) && is_right
}

#[test]
fn a_queue_of_two(rt: HostRuntime) {
    assert!(rt; is_right(&rt, rt.alloc()));
}
