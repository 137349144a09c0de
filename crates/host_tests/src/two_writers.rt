//! Two writers that are called from one thread: each finds what the other wrote, and what a full queue doesn't take is there at
//! the close.

ghost use Rattle.std.specs.Prelude.{◌≡◌};
ghost use Rattle.ended.specs.Ending.{IsEndedAt};

use crate::hosts::{Answer, apply_steps, finds};
use crate::seated::{Pair, close_two, open_two};
use cid::Cid;
use cid::digests::Toy;
use closing::Closed;
use ended::{Ended, Feed, Taker};
use host::Writer;
use notices::Notice;
use repo_fixtures::batch::{EMPTY, ONE, Step};
use std::alloc::Global;
use std::process::Abort;
use std::sync::Wait;

/// A notice's writer, its number, the repository, and how many writes that has.
type Words = (u32, u64, u32, u64);

/// What a notice says.
fn words_of(notice: &Notice) -> Words {
    (notice.writer, notice.seq, notice.repo, notice.number)
}

/// What the next notice says, or `None` where there is none.
fn popped<R: Wait>(rt: &R, taker: &mut Taker<'_>) -> Option<Words>
    ensures queue { taker.new.queue_id ≡ taker.old.queue_id }
    ensures made { taker.new.made ≡ taker.old.made }
    ensures joined { taker.new.joined ≡ taker.old.joined }
{
    match taker.pop(rt) {
        Some(notice) => Some(words_of(&notice)),
        None => None,
    }
}

/// How a put of this record under the key "a/b0" is answered, under the stamp of this turn.
fn puts<R: Wait>(
    rt: &R,
    alloc: Global,
    writer: &mut Writer<'_, Toy, 2>,
    repo: usize,
    turn: u16,
    record: &[u8],
) -> Answer
    ensures { writer.new.host ≡ writer.old.host }
{
    apply_steps(rt, alloc, writer, repo, turn, &[Step::Put(b"a/b0", record)])
}

/// Whether these are the key "a/b0" with this record and no others.
fn are_one(pairs: &[(Vec<u8>, Cid)], record: &[u8]) -> bool {
    match pairs {
        [(key, cid)] => key.as_slice() == b"a/b0".as_slice() && *cid == Cid::of::<Toy>(record),
        _ => false,
    }
}

/// Whether the writer lists this record alone in a repository.
fn lists<R: Wait>(
    rt: &R,
    alloc: Global,
    writer: &mut Writer<'_, Toy, 2>,
    repo: usize,
    record: &[u8],
) -> bool
    ensures { writer.new.host ≡ writer.old.host }
{
    match writer.list(rt, alloc, repo, b"", 9) {
        Ok(pairs) => are_one(&pairs, record),
        Err(_) => false,
    }
}

/// Whether what writer 0 puts into repository 0 is what writer 1 finds and lists there, and not in repository 1.
fn finds_what_another_puts<R: Wait>(
    rt: &R,
    alloc: Global,
    zero: &mut Writer<'_, Toy, 2>,
    one: &mut Writer<'_, Toy, 2>,
) -> bool
    ensures zero { zero.new.host ≡ zero.old.host }
    ensures one { one.new.host ≡ one.old.host }
{
    let before = finds(rt, alloc, one, 0, None);
    let told = puts(rt, alloc, zero, 0, 1, EMPTY);
    let found = finds(rt, alloc, one, 0, Some(EMPTY));
    let listed = lists(rt, alloc, one, 0, EMPTY);
    finds(rt, alloc, one, 1, None) && before && told == Answer::Told(1, 1) && found && listed
}

/// Whether of the next two puts the queue of two takes the first, and what writer 0 keeps goes once one notice is taken.
fn keep_what_is_given_back<R: Wait>(
    rt: &R,
    alloc: Global,
    zero: &mut Writer<'_, Toy, 2>,
    one: &mut Writer<'_, Toy, 2>,
    taker: &mut Taker<'_>,
) -> bool
    ensures zero { zero.new.host ≡ zero.old.host }
    ensures one { one.new.host ≡ one.old.host }
    ensures queue { taker.new.queue_id ≡ taker.old.queue_id }
    ensures made { taker.new.made ≡ taker.old.made }
    ensures joined { taker.new.joined ≡ taker.old.joined }
{
    let by_one = puts(rt, alloc, one, 1, 1, ONE);
    let by_zero = puts(rt, alloc, zero, 0, 2, ONE);
    let kept = zero.flush(rt);
    let taken = popped(rt, taker);
    let kept_then = zero.flush(rt);
    let last = puts(rt, alloc, one, 1, 2, EMPTY);
    by_one == Answer::Told(1, 1)
        && by_zero == Answer::Told(2, 2)
        && kept == 1
        && kept_then == 0
        && taken == Some((0, 1, 0, 1))
        && last == Answer::Told(2, 2)
}

/// What two writers and a taker leave, and whether all was right so far.
#[derive(Drop)]
struct Left {
    first: Ended,
    second: Ended,
    feed: Feed,
    is_right: bool,
}

/// The calls of both writers and of the taker.
fn do_all<R: Wait>(
    rt: &R,
    alloc: Global,
    mut zero: Writer<'_, Toy, 2>,
    mut one: Writer<'_, Toy, 2>,
    mut taker: Taker<'_>,
) -> Left
    ensures first { IsEndedAt zero.entry.host.queue.queue_id zero.entry.host.repos result.first }
    ensures second { IsEndedAt one.entry.host.queue.queue_id one.entry.host.repos result.second }
    ensures queue { result.feed.queue_id ≡ taker.entry.queue_id }
    ensures made { result.feed.made ≡ taker.entry.made }
    ensures joined { result.feed.joined ≡ taker.entry.joined }
{
    let are_found = finds_what_another_puts(rt, alloc, &mut zero, &mut one);
    let are_kept = keep_what_is_given_back(rt, alloc, &mut zero, &mut one, &mut taker);
    Left {
        first: zero.end(),
        second: one.end(),
        feed: taker.end(),
        is_right: are_found && are_kept,
    }
}

/// What the next notice that was left says, or `None` where there is none.
fn next_left<R: Wait>(rt: &R, closed: &mut Closed<Toy, 2>) -> Option<Words> {
    match closed.next_left(rt) {
        Some(notice) => Some(words_of(&notice)),
        None => None,
    }
}

/// Whether the notices that were left are the first one of writer 1 and the second one of writer 0, and no others.
fn are_left<R: Wait>(rt: &R, closed: &mut Closed<Toy, 2>) -> bool {
    next_left(rt, closed) == Some((1, 1, 1, 1))
        && next_left(rt, closed) == Some((0, 2, 0, 2))
        && next_left(rt, closed).is_none()
}

/// Whether writer 1 kept this notice alone, and writer 0 none.
fn has_kept(closed: &Closed<Toy, 2>, words: Words) -> bool {
    match closed.kept(1) {
        [notice] => words_of(notice) == words && closed.kept(0).is_empty(),
        _ => false,
    }
}

/// Whether all this is so from opening to close, and each notice that wasn't taken is there then.
fn is_right<R: Wait + Abort>(rt: &R, alloc: Global) -> bool {
    let opened = open_two(rt, alloc, 2);
    let Pair {
        host,
        first,
        second,
        feed,
    } = opened;
    let are_numbered = host.repos() == 2 && first.writer() == 0 && second.writer() == 1;
    let left = do_all(
        rt,
        alloc,
        host.writer(first),
        host.writer(second),
        host.taker(feed),
    );
    let Left {
        first,
        second,
        feed,
        is_right,
    } = left;
    let mut closed = close_two(rt, alloc, host, first, second, feed);
    let are_left = are_left(rt, &mut closed);
    are_left && has_kept(&closed, (1, 2, 1, 2)) && is_right && are_numbered
}

#[test]
fn two_writers_of_one_thread(rt: HostRuntime) {
    assert!(rt; is_right(&rt, rt.alloc()));
}
