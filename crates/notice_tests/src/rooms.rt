//! A queue of each room, on one thread.
ghost use Rattle.std.specs.Prelude.{◌≡◌, ◌<◌, []};

use crate::writer::{Pushed, Writer, notice};
use notices::{Feed, Queue, SendPass};
use std::alloc::{AllocError, Global};
use std::sync::Wait;
use std::test::Fail;

/// What a queue did that one writer filled and the taker emptied.
#[derive(Clone, Copy, PartialEq, Eq, Debug)]
struct Filled {
    put: u64,
    given_back: u64,
    taken: u64,
    in_order: bool,
}

fn fill<R: Wait>(rt: &R, queue: &Queue, pass: SendPass, feed: Feed, turns: u64) -> Filled
    requires pass { pass.queue_id ≡ queue.now.queue_id }
    requires fresh { pass.sent ≡ [] }
    requires feed { feed.queue_id ≡ queue.now.queue_id }
{
    let mut writer = Writer::new(queue, pass);
    let mut put = 0;
    for seq in 1..=turns {
        if writer.push(rt, notice(0, seq)) != Pushed::Put {
            break;
        }
        put = seq;
    }
    let mut taker = queue.taker(feed);
    let mut taken = 0;
    let mut in_order = true;
    for seq in 1..=turns {
        let Some(popped) = taker.pop(rt) else {
            break;
        };
        taken = seq;
        in_order = in_order && popped == notice(0, seq);
    }
    Filled {
        put,
        given_back: writer.refused(),
        taken,
        in_order,
    }
}

#[test]
fn holds_as_many_as_it_has_room_for(rt: HostRuntime) -> Result<(), Fail> {
    for room in [1usize, 2, 65_536] {
        let (queue, mut passes, feed) = Queue::open(rt.alloc(), 1, room)?;
        let pass = passes.pop().expect(&rt, "a pass");
        let room = room as u64;
        let filled = fill(&rt, &queue, pass, feed, room + 2);
        let wanted = Filled {
            put: room,
            given_back: 1,
            taken: room,
            in_order: true,
        };
        assert_eq!(rt; filled, wanted, "room for {room}");
    }
    Ok(())
}

/// One writer and a queue of two: what was put, what was popped.
fn one_writer<R: Wait>(rt: &R, queue: &Queue, pass: SendPass, feed: Feed) -> bool
    requires pass { pass.queue_id ≡ queue.now.queue_id }
    requires fresh { pass.sent ≡ [] }
    requires feed { feed.queue_id ≡ queue.now.queue_id }
{
    let mut writer = Writer::new(queue, pass);
    let mut taker = queue.taker(feed);
    writer.push(rt, notice(0, 1)) == Pushed::Put
        && writer.push(rt, notice(0, 2)) == Pushed::Put
        && writer.push(rt, notice(0, 3)) == Pushed::GivenBack
        && taker.pop(rt) == Some(notice(0, 1))
        && writer.push(rt, notice(0, 3)) == Pushed::Put
        && taker.pop(rt) == Some(notice(0, 2))
        && taker.pop(rt) == Some(notice(0, 3))
        && taker.pop(rt).is_none()
}

#[test]
fn gives_the_third_of_two_back(rt: HostRuntime) -> Result<(), Fail> {
    let (queue, mut passes, feed) = Queue::open(rt.alloc(), 1, 2)?;
    let pass = passes.pop().expect(&rt, "a pass");
    assert!(rt; one_writer(&rt, &queue, pass, feed));
    Ok(())
}
