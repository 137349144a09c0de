//! The feed of a host's queue, and the one that takes by it.

ghost use Rattle.std.specs.Prelude.{◌≡◌, ◌≤◌, ◌<◌, All, IfOk, IfSome, IfNone, length};
ghost use Rattle.notices.specs.Numbering.{IsNumbered};
ghost use Rattle.notices.specs.Views.{received_one, WasEmpty, HaveAllJoined, IsAllReceived};
ghost use Rattle.ended.specs.Ending.{joined_all};

use crate::ended::Ended;
use crate::settled::{Settled, settle_all};
use notices::{Notice, Queue};
use std::alloc::{AllocError, Allocator, Global};
use std::marker::Model;
use std::sync::Wait;

/// The right to take from a host's queue, and room for the writers that end, so that a close takes no memory.
///
/// A contract sees the queue's feed.
#[derive(Drop)]
pub struct Feed<A: Allocator = Global> {
    feed: notices::Feed,
    room: Vec<Settled<A>, A>,
}

impl<A: Allocator> Model for Feed<A> {
    ghost use Rattle.std.specs.Prelude.{◌≡◌, ◌≤◌, [], vec_capacity};
    ghost use Rattle.notices.specs.Views.{FeedView};

    ghost Value = { FeedView };

    ghost view = { λ f. f.feed };

    ghost invariant = { λ f. (f.room.items ≡ []) × (f.feed.made ≤ vec_capacity f.room) };
}

impl<A: Allocator> Feed<A> {
    /// The queue's feed, with room for so many writers, at least as many as there are passes.
    ///
    /// `AllocError` comes where memory was refused. The queue's feed is gone then.
    pub fn with_room(alloc: A, feed: notices::Feed, writers: u32) -> Result<Feed<A>, AllocError>
        requires { feed.made ≤ writers }
        ensures { IfOk result (λ made. made ≡ feed) }
    {
        let room = Vec::with_capacity(alloc, writers as usize)?;
        Ok(Feed { feed, room })
    }

    /// The one that takes from the queue by this feed, which must be of this queue. It takes no memory.
    pub fn taker(self, queue: &Queue<A>) -> Taker<'_, A>
        requires { self.queue_id ≡ queue.now.queue_id }
        ensures { result ≡ self }
    {
        let Feed { feed, room } = self;
        Taker {
            taker: queue.taker(feed),
            room,
        }
    }

    /// Lets the passes of these writers join the queue's feed, in order: the feed that they have joined, and the writers as
    /// they ended. There is room for as many as there are passes: it takes no memory.
    pub fn settle(
        self,
        queue: &Queue<A>,
        ended: Vec<Ended<A>, A>,
    ) -> (notices::Feed, Vec<Settled<A>, A>)
        requires feed { self.queue_id ≡ queue.now.queue_id }
        requires ended { All (λ e. e.pass.queue_id ≡ queue.now.queue_id) ended.items }
        requires few { length ended.items ≤ self.made }
        ensures feed { result.0 ≡ joined_all self ended.items }
        ensures same { result.1.items ≡ ended.items }
    {
        let Feed { mut feed, room } = self;
        let settled = settle_all(queue, &mut feed, ended, room);
        (feed, settled)
    }
}

/// The one that takes from a host's queue.
///
/// A contract sees its feed.
#[derive(Drop)]
pub struct Taker<'a, A: Allocator = Global> {
    taker: notices::Taker<'a, A>,
    room: Vec<Settled<A>, A>,
}

impl<'a, A: Allocator> Model for Taker<'a, A> {
    ghost use Rattle.std.specs.Prelude.{◌≡◌, ◌≤◌, [], vec_capacity};
    ghost use Rattle.notices.specs.Views.{FeedView};

    ghost Value = { FeedView };

    ghost view = { λ t. t.taker };

    ghost invariant = { λ t. (t.room.items ≡ []) × (t.taker.made ≤ vec_capacity t.room) };
}

impl<'a, A: Allocator> Taker<'a, A> {
    /// Takes the oldest notice, or answers `None` only where the queue was empty at some moment of the call.
    ///
    /// It takes no memory, and waits for nothing but the queue's own steps.
    pub fn pop<R: Wait>(&mut self, rt: &R) -> Option<Notice>
        ensures received { IfSome result (λ notice. self.new ≡ received_one self.old notice) }
        ensures known { IfSome result (λ notice. notice.writer < self.new.made) }
        ensures unchanged { IfNone result (self.new ≡ self.old) }
        ensures empty { IfNone result (WasEmpty self.new) }
        ensures all { IfNone result (HaveAllJoined self.new → IsAllReceived self.new) }
        ensures numbered { IsNumbered self.new.received }
    {
        self.taker.pop(rt)
    }

    /// Leaves the queue with the feed. It takes no memory.
    pub fn end(self) -> Feed<A>
        ensures { result ≡ self.entry }
    {
        let Taker { taker, room } = self;
        Feed {
            feed: taker.end(),
            room,
        }
    }
}
