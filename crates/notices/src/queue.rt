ghost use Rattle.std.specs.Prelude.{◌≡◌, ◌<◌, IfOk, IfSome, IfNone};
ghost use Rattle.notices.specs.Numbering.{IsNumbered};
ghost use Rattle.notices.specs.Steps.{AreDistinct};
ghost use Rattle.notices.specs.Views.{fresh_passes, fresh_feed, received_one, joined_one};
ghost use Rattle.notices.specs.Views.{WasEmpty, HaveAllJoined, HasEachOnce, IsAllReceived};

use crate::notice::Notice;
use crate::passes::{Feed, SendPass};
use crate::rule::Ring;
use crate::sender::Sender;
use crate::taker::Taker;
use std::alloc::{AllocError, Allocator, Global};
use std::marker::Model;
use std::sync::Wait;

/// A bounded queue of notices, which threads share by reference.
///
/// A contract sees which queue it is, and how many notices it has room for.
#[derive(Drop)]
pub struct Queue<A: Allocator = Global> {
    pub(crate) ring: Ring<A>,
}

impl<A: Allocator> Model for Queue<A> {
    ghost use Rattle.crossbeam_queue.specs.Passes.{ruled_capacity};
    ghost use Rattle.notices.specs.Views.{QueueView};

    ghost Value = { QueueView };

    ghost view = { λ q. record {
      queue_id = q.ring.table.shared.table_id;
      room = ruled_capacity q.ring;
    } };
}

impl<A: Allocator + Clone> Queue<A> {
    /// A queue with room for so many notices, the pass of each writer in the order of their numbers, and the feed.
    ///
    /// All the memory that the queue ever takes is taken here. An error means that some was refused, and all is given
    /// back.
    pub fn open(
        alloc: A,
        writers: u32,
        room: usize,
    ) -> Result<(Queue<A>, Vec<SendPass, A>, Feed), AllocError>
        requires { 0 < room }
        ensures room { IfOk result (λ r. r.0.room ≡ room) }
        ensures passes { IfOk result (λ r. r.1.items ≡ fresh_passes r.0.queue_id writers) }
        ensures feed { IfOk result (λ r. r.2 ≡ fresh_feed r.0.queue_id writers) }
    {
        let mut passes = Vec::with_capacity(alloc.clone()?, writers as usize)?;
        let (queue, mut feed) = Queue::without_writers(alloc, room)?;
        for writer in 0..writers {
            let pass = queue.make_pass(&mut feed, writer);
            passes.push_reserved(pass);
        }
        Ok((queue, passes, feed))
    }

    /// A queue with room for so many notices and no pass so far, and the feed.
    fn without_writers(alloc: A, room: usize) -> Result<(Queue<A>, Feed), AllocError>
        requires { 0 < room }
        ensures room { IfOk result (λ r. r.0.room ≡ room) }
        ensures feed { IfOk result (λ r. r.1 ≡ fresh_feed r.0.queue_id 0) }
    {
        let (ring, ticket) = Ring::ruled(alloc, room)?;
        Ok((Queue { ring }, Feed { ticket }))
    }
}

impl<A: Allocator> Queue<A> {
    /// The writer of this pass at the queue. The pass must be of this queue.
    pub fn sender(&self, pass: SendPass) -> Sender<'_, A>
        requires queue { pass.queue_id ≡ self.now.queue_id }
        ensures room { result.room ≡ self.now.room }
        ensures pass { result.pass ≡ pass }
        ensures refused { result.refused ≡ 0 }
    {
        Sender {
            queue: self,
            refused: 0,
            pass,
        }
    }

    /// The one that takes, by this feed. The feed must be of this queue.
    pub fn taker(&self, feed: Feed) -> Taker<'_, A>
        requires queue { feed.queue_id ≡ self.now.queue_id }
        ensures { result ≡ feed }
    {
        Taker { queue: self, feed }
    }

    /// Takes the oldest notice, or answers `None` only where the queue was empty at some moment of the call.
    ///
    /// It is `Taker::pop` for a caller who keeps the feed. It takes no memory, and waits for nothing but the queue's own
    /// steps.
    pub fn take<R: Wait>(&self, rt: &R, feed: &mut Feed) -> Option<Notice>
        requires queue { feed.old.queue_id ≡ self.now.queue_id }
        ensures received { IfSome result (λ notice. feed.new ≡ received_one feed.old notice) }
        ensures known { IfSome result (λ notice. notice.writer < feed.new.made) }
        ensures unchanged { IfNone result (feed.new ≡ feed.old) }
        ensures empty { IfNone result (WasEmpty feed.new) }
        ensures all { IfNone result (HaveAllJoined feed.new → IsAllReceived feed.new) }
        ensures numbered { IsNumbered feed.new.received }
    {
        self.take_one(rt, feed)
    }

    /// Joins a writer's pass to the feed: from now on the feed knows the number and all that was sent under it.
    ///
    /// Both must be of this queue. It takes no memory, waits for nobody, and can't fail.
    pub fn join(&self, feed: &mut Feed, pass: SendPass)
        requires feed { feed.old.queue_id ≡ self.now.queue_id }
        requires pass { pass.queue_id ≡ self.now.queue_id }
        ensures { feed.new ≡ joined_one feed.old pass }
    {
        self.take_in(feed, pass);
    }

    /// Shows that no two passes that joined are of one writer, so that, if as many joined as were made, each writer's
    /// pass joined once. It changes nothing.
    pub fn look(&self, feed: &mut Feed)
        requires queue { feed.old.queue_id ≡ self.now.queue_id }
        ensures same { feed.new ≡ feed.old }
        ensures distinct { AreDistinct feed.new.made feed.new.joined }
        ensures each { HaveAllJoined feed.new → HasEachOnce feed.new }
    {
        self.learn(feed);
    }
}
