ghost use Rattle.std.specs.Prelude.{◌≡◌, ◌<◌, IfSome, IfNone};
ghost use Rattle.notices.specs.Numbering.{IsNumbered};
ghost use Rattle.notices.specs.Views.{received_one, WasEmpty, HaveAllJoined, IsAllReceived};

use crate::notice::Notice;
use crate::passes::Feed;
use crate::queue::Queue;
use std::alloc::{Allocator, Global};
use std::marker::Model;
use std::sync::Wait;

/// The one that takes from the queue, from `Queue::taker` until `Taker::end`.
///
/// A contract sees its feed.
#[derive(Drop)]
pub struct Taker<'a, A: Allocator = Global> {
    pub(crate) queue: &'a Queue<A>,
    pub(crate) feed: Feed,
}

impl<'a, A: Allocator> Model for Taker<'a, A> {
    ghost use Rattle.std.specs.Prelude.{◌≡◌};
    ghost use Rattle.notices.specs.Views.{FeedView};

    ghost Value = { FeedView };

    ghost view = { λ t. t.feed };

    ghost invariant = { λ t. t.feed.queue_id ≡ t.queue.now.queue_id };
}

impl<'a, A: Allocator> Taker<'a, A> {
    /// Takes the oldest notice, or answers `None` only where the queue was empty at some moment of the call.
    ///
    /// It takes no memory, and waits for nothing but the queue's own steps.
    pub fn pop<R: Wait>(&mut self, rt: &R) -> Option<Notice>
        ensures received { IfSome result (λ notice. self.new ≡ received_one self.old notice) }
        ensures known { IfSome result (λ notice. notice.writer < self.new.made) }
        ensures unchanged { IfNone result (self.new ≡ self.old) }
        ensures empty { IfNone result (WasEmpty self.new) }
        ensures all { IfNone result (HaveAllJoined self.new → IsAllReceived self.new) }
        ensures numbered { IsNumbered self.new.received }
    {
        self.queue.take(rt, &mut self.feed)
    }

    /// Leaves the queue with the feed.
    pub fn end(self) -> Feed
        ensures { result ≡ self.entry }
    {
        self.feed
    }
}
