//! Each call of a host with each of its requests for memory refused in turn: all is as before then, and asked again it goes on.

ghost use Rattle.std.specs.Prelude.{◌≡◌, ◌≤◌, [], vec_capacity};
ghost use Rattle.ended.specs.Ending.{IsEndedAt};
ghost use Rattle.host.specs.Views.{IsSeatOf, fresh_seats};
ghost use Rattle.notices.specs.Views.{fresh_feed};

use crate::hosts::{finds, limits};
use crate::queue_of_two::{Left, THREE, popped};
use crate::seated::Alone;
use cid::Cid;
use cid::digests::Toy;
use closing::Closed;
use ended::{Ended, Feed, Taker};
use export::ToMemory;
use host::{Host, HostFault, OpenFault, Opened, Version, Writer};
use host_close::close;
use host_exports::{car, prove};
use notices::Notice;
use refusing::Refusing;
use repo_fixtures::batch::{Batch, EMPTY_NODE, ONE, Step, TWO, batch_at};
use repo_fixtures::ends::{Why, why_of};
use std::alloc::{AllocError, Allocator, Global};
use std::process::Abort;
use std::sync::Wait;
use store::TableKey;

/// Memory that refuses requests.
pub(crate) type Heap = Refusing<Global>;

/// A host of one repository and one writer, with a queue of two. Where it isn't opened all memory is given back.
fn opened<'h, R: Wait + Abort>(rt: &R, heap: &'h Heap) -> Opened<Toy, 2, &'h Heap>
    ensures repos { result.host.repos ≡ 1 }
    ensures feed { result.feed ≡ fresh_feed result.host.queue.queue_id 1 }
    ensures seats { result.seats.items ≡ fresh_seats result.host.queue.queue_id 1 1 }
{
    let key = TableKey::known();
    match Host::<Toy, 2, &'h Heap>::open(rt, heap, limits(1, 1, 2), key) {
        Ok(opened) => opened,
        Err(fault) => {
            assert!(rt; fault == OpenFault::NoMemory && heap.refused() == 1 && heap.live() == 0);
            Host::<Toy, 2, &'h Heap>::open(rt, heap, limits(1, 1, 2), key).expect(rt, "a host")
        }
    }
}

/// The same with its writer's seat.
pub(crate) fn seated<'h, R: Wait + Abort>(rt: &R, heap: &'h Heap) -> Alone<Toy, 2, &'h Heap>
    ensures seat { IsSeatOf result.host result.seat }
    ensures feed { result.feed.queue_id ≡ result.host.queue.queue_id }
    ensures one { result.feed.made ≡ 1 }
    ensures fresh { result.feed.joined ≡ [] }
{
    let opened = opened(rt, heap);
    let Opened {
        host,
        mut seats,
        feed,
    } = opened;
    let seat = seats.pop().expect(rt, "a seat");
    Alone { host, seat, feed }
}

/// How many writes the repository has, of which each put the next record, and its root.
#[derive(Clone, Copy)]
pub(crate) struct Stand {
    pub(crate) number: u16,
    pub(crate) root: Cid,
}

/// The record that then stands under the one key.
fn record_of(stand: &Stand) -> Option<&'static [u8]> {
    match stand.number {
        0 => None,
        1 => Some(ONE),
        2 => Some(TWO),
        _ => Some(THREE),
    }
}

/// Whether the one key is listed with this record's CID, or nothing where there is none.
fn lists<'h, R: Wait>(
    rt: &R,
    heap: &'h Heap,
    writer: &mut Writer<'_, Toy, 2, &'h Heap>,
    record: Option<&[u8]>,
) -> bool
    ensures { writer.new.host ≡ writer.old.host }
{
    match writer.list(rt, heap, 0, b"", 9) {
        Ok(pairs) => match (pairs.as_slice(), record) {
            ([], None) => true,
            ([(key, value)], Some(record)) => key.as_slice() == b"a/b0".as_slice()
                && *value == Cid::of::<Toy>(record),
            _ => false,
        },
        Err(_) => false,
    }
}

/// Whether a version has this number of writes and this root.
pub(crate) fn is_version<A: Allocator>(version: &Version<A>, stand: &Stand) -> bool {
    version.number == u64::from(stand.number)
        && version.root == stand.root
        && version.writes.len() == usize::from(stand.number)
}

/// Whether a version of the repository has this number of writes and this root.
fn shows<'h, R: Wait>(
    rt: &R,
    heap: &'h Heap,
    host: &Host<Toy, 2, &'h Heap>,
    writer: &mut Writer<'_, Toy, 2, &'h Heap>,
    stand: &Stand,
) -> bool
    requires { writer.old.host ≡ host.now }
    ensures { writer.new.host ≡ writer.old.host }
{
    match writer.publish(rt, heap, 0) {
        Ok(receipt) => {
            let version = host.version(&receipt);
            is_version(version, stand)
        }
        Err(_) => false,
    }
}

/// Whether all stands so, with so many notices kept.
pub(crate) fn stands<'h, R: Wait>(
    rt: &R,
    heap: &'h Heap,
    host: &Host<Toy, 2, &'h Heap>,
    writer: &mut Writer<'_, Toy, 2, &'h Heap>,
    stand: &Stand,
    kept: usize,
) -> bool
    requires { writer.old.host ≡ host.now }
    ensures { writer.new.host ≡ writer.old.host }
{
    let record = record_of(stand);
    finds(rt, heap, writer, 0, record)
        && lists(rt, heap, writer, record)
        && shows(rt, heap, host, writer, stand)
        && writer.flush(rt) == kept
}

/// How a put is answered: by the next notice, and with this root; for want of memory; or in another way.
#[derive(Clone, Copy)]
enum PutAnswer {
    Told(Cid),
    NoMemory,
    Wrong,
}

/// How a put was answered under the stamp of this turn, where it was accepted.
fn told(notice: &Notice, turn: u16) -> PutAnswer {
    if notice.seq == u64::from(turn) && notice.number == notice.seq {
        PutAnswer::Told(notice.root)
    } else {
        PutAnswer::Wrong
    }
}

/// The same where its write was refused.
fn refused(place: usize, why: Why) -> PutAnswer {
    if place == 0 && why == Why::NoMemory {
        PutAnswer::NoMemory
    } else {
        PutAnswer::Wrong
    }
}

/// The answer of a call.
fn answer_of<'h>(answer: Result<Notice, HostFault<Toy, &'h Heap>>, turn: u16) -> PutAnswer {
    match answer {
        Ok(notice) => told(&notice, turn),
        Err(HostFault::NoSuchRepository) => PutAnswer::Wrong,
        Err(HostFault::Refused(place, fault)) => refused(place, why_of(&fault)),
        Err(HostFault::NoMemory) => PutAnswer::NoMemory,
        Err(HostFault::SeqFull) => PutAnswer::Wrong,
    }
}

/// How a batch is answered under the stamp of this turn, for which there may have been no memory.
fn apply<'h, R: Wait>(
    rt: &R,
    heap: &'h Heap,
    writer: &mut Writer<'_, Toy, 2, &'h Heap>,
    turn: u16,
    batch: Result<Batch<&'h Heap>, AllocError>,
) -> PutAnswer
    ensures { writer.new.host ≡ writer.old.host }
{
    match batch {
        Ok(batch) => answer_of(writer.apply(rt, heap, 0, &batch.stamp, &batch.writes), turn),
        Err(_) => PutAnswer::NoMemory,
    }
}

/// How a put of this record is answered, under the stamp of this turn.
fn put<'h, R: Wait>(
    rt: &R,
    heap: &'h Heap,
    writer: &mut Writer<'_, Toy, 2, &'h Heap>,
    turn: u16,
    record: &[u8],
) -> PutAnswer
    ensures { writer.new.host ≡ writer.old.host }
{
    let batch = batch_at(heap, turn, &[Step::Put(b"a/b0", record)]);
    apply(rt, heap, writer, turn, batch)
}

/// What stands after a put of this record; where memory is refused for it all is as before, and it is asked again.
fn puts<'h, R: Wait>(
    rt: &R,
    heap: &'h Heap,
    host: &Host<Toy, 2, &'h Heap>,
    writer: &mut Writer<'_, Toy, 2, &'h Heap>,
    stand: &Stand,
    record: &[u8],
) -> Option<Stand>
    requires { writer.old.host ≡ host.now }
    ensures { writer.new.host ≡ writer.old.host }
{
    let number = stand.number.saturating_add(1);
    let mut answer = put(rt, heap, writer, number, record);
    if matches!(answer, PutAnswer::NoMemory)
        && heap.refused() == 1
        && stands(rt, heap, host, writer, stand, 0)
    {
        answer = put(rt, heap, writer, number, record);
    }
    match answer {
        PutAnswer::Told(root) => Some(Stand { number, root }),
        _ => None,
    }
}

/// What stands after three puts.
pub(crate) fn puts_three<'h, R: Wait>(
    rt: &R,
    heap: &'h Heap,
    host: &Host<Toy, 2, &'h Heap>,
    writer: &mut Writer<'_, Toy, 2, &'h Heap>,
) -> Option<Stand>
    requires { writer.old.host ≡ host.now }
    ensures { writer.new.host ≡ writer.old.host }
{
    let none = Stand {
        number: 0,
        root: Cid::of::<Toy>(EMPTY_NODE),
    };
    let one = puts(rt, heap, host, writer, &none, ONE)?;
    let two = puts(rt, heap, host, writer, &one, TWO)?;
    puts(rt, heap, host, writer, &two, THREE)
}

/// Whether the repository's file is made, and a proof of its key.
fn exports<'h, R: Wait>(rt: &R, heap: &'h Heap, host: &Host<Toy, 2, &'h Heap>) -> bool {
    let mut out = ToMemory::new(heap);
    let is_made = match car(rt, heap, host, 0, &mut out) {
        Ok(length) => length == out.bytes().len() as u64,
        Err(_) => false,
    };
    match prove(rt, heap, host, 0, b"a/b0") {
        Ok(nodes) => nodes.len() == 1 && is_made,
        Err(_) => false,
    }
}

/// Whether all calls of a writer are answered so.
fn answers<'h, R: Wait>(
    rt: &R,
    heap: &'h Heap,
    host: &Host<Toy, 2, &'h Heap>,
    writer: &mut Writer<'_, Toy, 2, &'h Heap>,
) -> bool
    requires { writer.old.host ≡ host.now }
    ensures { writer.new.host ≡ writer.old.host }
{
    match puts_three(rt, heap, host, writer) {
        Some(stand) => {
            (stands(rt, heap, host, writer, &stand, 1)
                || (heap.refused() == 1 && stands(rt, heap, host, writer, &stand, 1)))
                && (exports(rt, heap, host) || (heap.refused() == 1 && exports(rt, heap, host)))
        }
        None => false,
    }
}

/// Whether the first two notices are in the queue, and the third comes once one was taken.
pub(crate) fn tells<'h, R: Wait>(
    rt: &R,
    writer: &mut Writer<'_, Toy, 2, &'h Heap>,
    taker: &mut Taker<'_, &'h Heap>,
) -> bool
    ensures host { writer.new.host ≡ writer.old.host }
    ensures queue { taker.new.queue_id ≡ taker.old.queue_id }
    ensures made { taker.new.made ≡ taker.old.made }
    ensures joined { taker.new.joined ≡ taker.old.joined }
{
    popped(rt, taker) == 1
        && writer.flush(rt) == 0
        && popped(rt, taker) == 2
        && popped(rt, taker) == 3
        && popped(rt, taker) == 0
}

/// All this by one writer and the taker.
fn do_all<'h, R: Wait>(
    rt: &R,
    heap: &'h Heap,
    host: &Host<Toy, 2, &'h Heap>,
    mut writer: Writer<'_, Toy, 2, &'h Heap>,
    mut taker: Taker<'_, &'h Heap>,
) -> Left<&'h Heap>
    requires { writer.host ≡ host.now }
    ensures ended { IsEndedAt writer.entry.host.queue.queue_id writer.entry.host.repos
        result.ended }
    ensures queue { result.feed.queue_id ≡ taker.entry.queue_id }
    ensures made { result.feed.made ≡ taker.entry.made }
    ensures joined { result.feed.joined ≡ taker.entry.joined }
{
    let is_right = answers(rt, heap, host, &mut writer) && tells(rt, &mut writer, &mut taker);
    Left {
        ended: writer.end(),
        feed: taker.end(),
        is_right,
    }
}

/// Room for what one writer ends with.
pub(crate) fn room_for_one<'h, R: Abort>(rt: &R, heap: &'h Heap) -> Vec<Ended<&'h Heap>, &'h Heap>
    ensures empty { result.items ≡ [] }
    ensures room { 1 ≤ vec_capacity result }
{
    match Vec::with_capacity(heap, 1) {
        Ok(room) => room,
        Err(_) => Vec::with_capacity(heap, 1).expect(rt, "room"),
    }
}

/// Whether a host that closed has this one repository of three writes, and nothing was left.
fn is_closed<'h, R: Wait>(rt: &R, mut closed: Closed<Toy, 2, &'h Heap>) -> bool {
    let number = match closed.cores().first() {
        Some(core) => core.number(),
        None => 0,
    };
    number == 3 && closed.next_left(rt).is_none() && closed.kept(0).is_empty()
}

/// Whether the host closes with the three writes.
pub(crate) fn closes<'h, R: Wait>(
    rt: &R,
    room: Vec<Ended<&'h Heap>, &'h Heap>,
    host: Host<Toy, 2, &'h Heap>,
    ended: Ended<&'h Heap>,
    feed: Feed<&'h Heap>,
) -> bool
    requires empty { room.items ≡ [] }
    requires room { 1 ≤ vec_capacity room }
    requires ended { IsEndedAt host.queue.queue_id host.repos ended }
    requires queue { feed.queue_id ≡ host.queue.queue_id }
    requires one { feed.made ≡ 1 }
    requires fresh { feed.joined ≡ [] }
{
    let mut all = room;
    all.push_reserved(ended);
    match close(host, all, feed) {
        Ok(closed) => is_closed(rt, closed),
        Err(_) => false,
    }
}

/// Whether all is so from opening to close.
fn is_right<'h, R: Wait + Abort>(rt: &R, heap: &'h Heap) -> bool {
    let alone = seated(rt, heap);
    let Alone { host, seat, feed } = alone;
    let left = do_all(rt, heap, &host, host.writer(seat), host.taker(feed));
    let Left {
        ended,
        feed,
        is_right,
    } = left;
    closes(rt, room_for_one(rt, heap), host, ended, feed) && is_right
}

/// Whether it is so with each request for memory refused in turn, and all memory is given back each time.
fn is_right_in_turn<R: Wait + Abort>(rt: &R, alloc: Global) -> bool {
    for request in 1..1000u64 {
        let heap = Refusing::new(alloc);
        heap.refuse(request);
        if !is_right(rt, &heap) || heap.live() != 0 {
            return false;
        }
        if heap.refused() == 0 {
            return request > 100;
        }
    }
    false
}

#[test]
fn each_call_is_asked_again(rt: HostRuntime) {
    assert!(rt; is_right_in_turn(&rt, rt.alloc()));
}
