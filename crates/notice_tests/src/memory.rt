//! Memory is taken at `open` alone. Where it is refused there, all is given back.
ghost use Rattle.std.specs.Prelude.{◌≡◌, ◌<◌, []};

use crate::writer::{Pushed, Writer, notice};
use notices::{Feed, Notice, Queue, SendPass, Taker};
use refusing::Refusing;
use std::alloc::{AllocError, Allocator, Global};
use std::sync::Wait;
use std::test::Fail;

/// Three notices for a queue of two: whether the third is given back.
fn send_three<R: Wait, A: Allocator>(
    rt: &R,
    zero: &mut Writer<'_, A>,
    one: &mut Writer<'_, A>,
) -> bool
    ensures zero { zero.new.sender.pass.queue_id ≡ zero.old.sender.pass.queue_id }
    ensures one { one.new.sender.pass.queue_id ≡ one.old.sender.pass.queue_id }
{
    zero.push(rt, notice(0, 1)) == Pushed::Put
        && one.push(rt, notice(1, 1)) == Pushed::Put
        && zero.push(rt, notice(0, 2)) == Pushed::GivenBack
}

/// Whether there is room for one more once the oldest is taken, and for no other.
fn take_and_send<R: Wait, A: Allocator>(
    rt: &R,
    zero: &mut Writer<'_, A>,
    one: &mut Writer<'_, A>,
    taker: &mut Taker<'_, A>,
) -> bool
    ensures zero { zero.new.sender.pass.queue_id ≡ zero.old.sender.pass.queue_id }
    ensures one { one.new.sender.pass.queue_id ≡ one.old.sender.pass.queue_id }
    ensures taker { taker.new.queue_id ≡ taker.old.queue_id }
{
    taker.pop(rt) == Some(notice(0, 1))
        && zero.push(rt, notice(0, 2)) == Pushed::Put
        && one.push(rt, notice(1, 2)) == Pushed::GivenBack
}

/// Whether what is left in the queue is what was sent and not yet taken.
fn take_the_rest<R: Wait, A: Allocator>(rt: &R, queue: &Queue<A>, feed: &mut Feed) -> bool
    requires { feed.old.queue_id ≡ queue.now.queue_id }
{
    queue.take(rt, feed) == Some(notice(1, 1))
        && queue.take(rt, feed) == Some(notice(0, 2))
        && queue.take(rt, feed).is_none()
}

/// Each call after `open`, by two writers over a queue of two: whether each answered as it is to.
fn each_call<R: Wait, A: Allocator>(
    rt: &R,
    queue: &Queue<A>,
    first: SendPass,
    second: SendPass,
    feed: Feed,
) -> bool
    requires first { (first.queue_id ≡ queue.now.queue_id) × (first.sent ≡ []) }
    requires second { (second.queue_id ≡ queue.now.queue_id) × (second.sent ≡ []) }
    requires feed { feed.queue_id ≡ queue.now.queue_id }
{
    let named = first.writer() == 0 && second.writer() == 1;
    let mut zero = Writer::new(queue, first);
    let mut one = Writer::new(queue, second);
    let mut taker = queue.taker(feed);
    let sent = send_three(rt, &mut zero, &mut one)
        && take_and_send(rt, &mut zero, &mut one, &mut taker);
    let refused = zero.writer() == 0 && zero.refused() == 1 && one.refused() == 1;
    let mut feed = taker.end();
    queue.join(&mut feed, zero.end());
    queue.join(&mut feed, one.end());
    queue.look(&mut feed);
    named && sent && refused && take_the_rest(rt, queue, &mut feed)
}

#[test]
fn two_writers_in_one_thread(rt: HostRuntime) -> Result<(), Fail> {
    let heap = Refusing::new(rt.alloc());
    let (queue, mut passes, feed) = Queue::open(&heap, 2, 2)?;
    let second = passes.pop().expect(&rt, "a pass");
    let first = passes.pop().expect(&rt, "a pass");
    heap.refuse_from(1);
    assert!(rt; each_call(&rt, &queue, first, second, feed));
    assert!(rt; heap.refused() == 0);
    Ok(())
}

#[test]
fn each_request_of_open_is_refused(rt: HostRuntime) -> Result<(), Fail> {
    let heap = Refusing::new(rt.alloc());
    let mut requests = 0;
    for number in 1..100u64 {
        heap.refuse(number);
        let opened = Queue::open(&heap, 3, 2).is_ok();
        assert!(rt; heap.live() == 0, "at request {number}");
        if opened {
            break;
        }
        requests = number;
    }
    assert!(rt;
        heap.refused() == requests && (2..20).contains(&requests),
        "{requests}"
    );
    Ok(())
}
