//! Hosts that are opened with one writer or with two, and closed.

ghost use Rattle.std.specs.Prelude.{◌≡◌, ◌≤◌, [], vec_capacity};
ghost use Rattle.ended.specs.Ending.{IsEndedAt};
ghost use Rattle.host.specs.Views.{IsSeatOf};

use crate::hosts::limits;
use cid::Digest;
use cid::digests::Toy;
use closing::Closed;
use ended::{Ended, Feed};
use host::{Host, Opened, Seat};
use host_close::close;
use std::alloc::{Allocator, Global};
use std::process::Abort;
use std::sync::Wait;
use store::TableKey;

/// A host with one writer.
#[derive(Drop)]
pub(crate) struct Alone<D: Digest, const B: u8, A: Allocator + Clone = Global> {
    pub(crate) host: Host<D, B, A>,
    pub(crate) seat: Seat<A>,
    pub(crate) feed: Feed<A>,
}

/// A host of so many repositories and one writer, and a queue with this room.
pub(crate) fn open_one<D: Digest, const B: u8, R: Wait + Abort>(
    rt: &R,
    alloc: Global,
    repos: u32,
    queue: usize,
) -> Alone<D, B>
    requires least { 1 ≤ B }
    requires most { B ≤ 8 }
    ensures seat { IsSeatOf result.host result.seat }
    ensures feed { result.feed.queue_id ≡ result.host.queue.queue_id }
    ensures one { result.feed.made ≡ 1 }
    ensures fresh { result.feed.joined ≡ [] }
{
    let key = TableKey::known();
    let opened = Host::<D, B>::open(rt, alloc, limits(repos, 1, queue), key).expect(rt, "a host");
    let Opened {
        host,
        mut seats,
        feed,
    } = opened;
    let seat = seats.pop().expect(rt, "a seat");
    Alone { host, seat, feed }
}

/// Closes a host whose one writer has ended.
pub(crate) fn close_one<D: Digest, const B: u8, R: Abort>(
    rt: &R,
    alloc: Global,
    host: Host<D, B>,
    ended: Ended,
    feed: Feed,
) -> Closed<D, B>
    requires ended { IsEndedAt host.queue.queue_id host.repos ended }
    requires queue { feed.queue_id ≡ host.queue.queue_id }
    requires one { feed.made ≡ 1 }
    requires fresh { feed.joined ≡ [] }
{
    let room = Vec::with_capacity(alloc, 1).expect(rt, "room");
    close_in(rt, room, host, ended, feed)
}

/// The same with room for what the writer ends with.
pub(crate) fn close_in<D: Digest, const B: u8, R: Abort>(
    rt: &R,
    room: Vec<Ended>,
    host: Host<D, B>,
    ended: Ended,
    feed: Feed,
) -> Closed<D, B>
    requires empty { room.items ≡ [] }
    requires room { 1 ≤ vec_capacity room }
    requires ended { IsEndedAt host.queue.queue_id host.repos ended }
    requires queue { feed.queue_id ≡ host.queue.queue_id }
    requires one { feed.made ≡ 1 }
    requires fresh { feed.joined ≡ [] }
{
    let mut all = room;
    all.push_reserved(ended);
    match close(host, all, feed) {
        Ok(closed) => closed,
        Err(_) => panic!(rt; "it doesn't close"),
    }
}

/// A host with two writers.
#[derive(Drop)]
pub(crate) struct Pair {
    pub(crate) host: Host<Toy, 2>,
    pub(crate) first: Seat,
    pub(crate) second: Seat,
    pub(crate) feed: Feed,
}

/// A host of two repositories and two writers, and a queue with this room.
pub(crate) fn open_two<R: Wait + Abort>(rt: &R, alloc: Global, queue: usize) -> Pair
    ensures first { IsSeatOf result.host result.first }
    ensures second { IsSeatOf result.host result.second }
    ensures feed { result.feed.queue_id ≡ result.host.queue.queue_id }
    ensures two { result.feed.made ≡ 2 }
    ensures fresh { result.feed.joined ≡ [] }
{
    let key = TableKey::known();
    let opened = Host::<Toy, 2>::open(rt, alloc, limits(2, 2, queue), key).expect(rt, "a host");
    let Opened {
        host,
        mut seats,
        feed,
    } = opened;
    let second = seats.pop().expect(rt, "a seat");
    let first = seats.pop().expect(rt, "a seat");
    Pair {
        host,
        first,
        second,
        feed,
    }
}

/// Closes a host whose two writers have ended.
pub(crate) fn close_two<R: Abort>(
    rt: &R,
    alloc: Global,
    host: Host<Toy, 2>,
    first: Ended,
    second: Ended,
    feed: Feed,
) -> Closed<Toy, 2>
    requires first { IsEndedAt host.queue.queue_id host.repos first }
    requires second { IsEndedAt host.queue.queue_id host.repos second }
    requires queue { feed.queue_id ≡ host.queue.queue_id }
    requires two { feed.made ≡ 2 }
    requires fresh { feed.joined ≡ [] }
{
    let mut all = Vec::with_capacity(alloc, 2).expect(rt, "room");
    all.push_reserved(first);
    all.push_reserved(second);
    match close(host, all, feed) {
        Ok(closed) => closed,
        Err(_) => panic!(rt; "it doesn't close"),
    }
}
