//! Calls of a host while all memory is refused: those that take none answer as ever, the others say so, and all is as before.

ghost use Rattle.std.specs.Prelude.{◌≡◌};
ghost use Rattle.boxcar.specs.Table.{Shows};
ghost use Rattle.ended.specs.Ending.{IsEndedAt};

use crate::asked_again::{
    Heap, Stand, closes, is_version, puts_three, room_for_one, seated, stands, tells,
};
use crate::hosts::{Answer, answer_of};
use crate::queue_of_two::Left;
use crate::seated::Alone;
use cid::digests::Toy;
use ended::Taker;
use host::{Host, HostFault, Receipt, Writer};
use refusing::Refusing;
use repo_fixtures::batch::{ONE, Step, batch_at};
use repo_fixtures::ends::Why;
use std::process::Abort;
use std::sync::Wait;

/// How a put is answered for which there is no memory beyond its batch.
fn put_without<'h, R: Wait + Abort>(
    rt: &R,
    heap: &'h Heap,
    writer: &mut Writer<'_, Toy, 2, &'h Heap>,
    turn: u16,
) -> Answer
    ensures { writer.new.host ≡ writer.old.host }
{
    let batch = batch_at(heap, turn, &[Step::Put(b"a/b0", ONE)]).expect(rt, "a batch");
    heap.refuse_from(1);
    let answer = answer_of(writer.apply(rt, heap, 0, &batch.stamp, &batch.writes));
    heap.refuse(0);
    answer
}

/// Whether a look-up says that there is no memory.
fn gets_nothing<'h, R: Wait>(
    rt: &R,
    heap: &'h Heap,
    writer: &mut Writer<'_, Toy, 2, &'h Heap>,
) -> bool
    ensures { writer.new.host ≡ writer.old.host }
{
    matches!(writer.get(rt, heap, 0, b"a/b0"), Err(HostFault::NoMemory))
}

/// Whether a list of pairs does so.
fn lists_nothing<'h, R: Wait>(
    rt: &R,
    heap: &'h Heap,
    writer: &mut Writer<'_, Toy, 2, &'h Heap>,
) -> bool
    ensures { writer.new.host ≡ writer.old.host }
{
    matches!(writer.list(rt, heap, 0, b"", 9), Err(HostFault::NoMemory))
}

/// Whether a version that is to be published does so.
fn publishes_nothing<'h, R: Wait>(
    rt: &R,
    heap: &'h Heap,
    writer: &mut Writer<'_, Toy, 2, &'h Heap>,
) -> bool
    ensures { writer.new.host ≡ writer.old.host }
{
    matches!(writer.publish(rt, heap, 0), Err(HostFault::NoMemory))
}

/// Whether each reading call says that there is no memory.
fn reads_nothing<'h, R: Wait>(
    rt: &R,
    heap: &'h Heap,
    writer: &mut Writer<'_, Toy, 2, &'h Heap>,
) -> bool
    ensures { writer.new.host ≡ writer.old.host }
{
    heap.refuse_from(1);
    let is_refused = gets_nothing(rt, heap, writer)
        && lists_nothing(rt, heap, writer)
        && publishes_nothing(rt, heap, writer);
    heap.refuse(0);
    is_refused
}

/// Whether a version is shown and the notices are told as ever, without a request for memory.
fn answers_without<'h, R: Wait>(
    rt: &R,
    heap: &'h Heap,
    host: &Host<Toy, 2, &'h Heap>,
    writer: &mut Writer<'_, Toy, 2, &'h Heap>,
    taker: &mut Taker<'_, &'h Heap>,
    receipt: &Receipt<Toy, 2, &'h Heap>,
    stand: &Stand,
) -> bool
    requires { Shows host.now.shelf receipt.now }
    ensures host { writer.new.host ≡ writer.old.host }
    ensures queue { taker.new.queue_id ≡ taker.old.queue_id }
    ensures made { taker.new.made ≡ taker.old.made }
    ensures joined { taker.new.joined ≡ taker.old.joined }
{
    let refused = heap.refused();
    heap.refuse_from(1);
    let are_answered = is_version(host.version(receipt), stand)
        && writer.flush(rt) == 1
        && tells(rt, writer, taker);
    heap.refuse(0);
    are_answered && heap.refused() == refused
}

/// Whether all this is so after three puts.
fn goes_on<'h, R: Wait + Abort>(
    rt: &R,
    heap: &'h Heap,
    host: &Host<Toy, 2, &'h Heap>,
    writer: &mut Writer<'_, Toy, 2, &'h Heap>,
    taker: &mut Taker<'_, &'h Heap>,
    stand: &Stand,
) -> bool
    requires { writer.old.host ≡ host.now }
    ensures host { writer.new.host ≡ writer.old.host }
    ensures queue { taker.new.queue_id ≡ taker.old.queue_id }
    ensures made { taker.new.made ≡ taker.old.made }
    ensures joined { taker.new.joined ≡ taker.old.joined }
{
    let receipt = writer.publish(rt, heap, 0).expect(rt, "a version");
    put_without(rt, heap, writer, 4) == Answer::Refused(0, Why::NoMemory)
        && reads_nothing(rt, heap, writer)
        && answers_without(rt, heap, host, writer, taker, &receipt, stand)
        && stands(rt, heap, host, writer, stand, 0)
}

/// Whether all this is so from a writer's first call on, and what it and the taker leave. They end without memory.
fn do_all<'h, R: Wait + Abort>(
    rt: &R,
    heap: &'h Heap,
    host: &Host<Toy, 2, &'h Heap>,
    mut writer: Writer<'_, Toy, 2, &'h Heap>,
    mut taker: Taker<'_, &'h Heap>,
) -> Left<&'h Heap>
    requires { writer.host ≡ host.now }
    ensures ended { IsEndedAt writer.entry.host.queue.queue_id writer.entry.host.repos
        result.ended }
    ensures queue { result.feed.queue_id ≡ taker.entry.queue_id }
    ensures made { result.feed.made ≡ taker.entry.made }
    ensures joined { result.feed.joined ≡ taker.entry.joined }
{
    heap.refuse(0);
    let is_refused = put_without(rt, heap, &mut writer, 1) == Answer::NoMemory;
    let is_right = match puts_three(rt, heap, host, &mut writer) {
        Some(stand) => goes_on(rt, heap, host, &mut writer, &mut taker, &stand),
        None => false,
    };
    heap.refuse_from(1);
    Left {
        ended: writer.end(),
        feed: taker.end(),
        is_right: is_right && is_refused,
    }
}

/// Whether all is so from opening to close: but for the writer's own calls nothing asks for memory once the host is open.
fn is_right<'h, R: Wait + Abort>(rt: &R, heap: &'h Heap) -> bool {
    let alone = seated(rt, heap);
    let Alone { host, seat, feed } = alone;
    let room = room_for_one(rt, heap);
    heap.refuse_from(1);
    let (writer, taker) = (host.writer(seat), host.taker(feed));
    let left = do_all(rt, heap, &host, writer, taker);
    let Left {
        ended,
        feed,
        is_right,
    } = left;
    let refused = heap.refused();
    closes(rt, room, host, ended, feed) && is_right && heap.refused() == refused
}

#[test]
fn calls_that_take_no_memory(rt: HostRuntime) {
    let heap = Refusing::new(rt.alloc());
    assert!(rt; is_right(&rt, &heap) && heap.live() == 0);
}
