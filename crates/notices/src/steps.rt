//! The steps on the ring. Each is proved to keep the rule, whatever the other threads did before.
ghost use Rattle.std.specs.Prelude.{◌≡◌, ◌+◌, length};
ghost use Rattle.notices.specs.Numbering.{IsNumbered};
ghost use Rattle.notices.specs.Steps.{AreDistinct};
ghost use Rattle.notices.specs.Views.{fresh, made_one, joined_one, IsPut, IsTake, HaveAllJoined, HasEachOnce};

use crate::notice::Notice;
use crate::passes::{Feed, SendPass};
use crate::queue::Queue;
use crate::rule::{Joins, Looks, Opens, Puts, Takes};
use std::alloc::Allocator;
use std::sync::Wait;

impl<A: Allocator> Queue<A> {
    /// The pass of one writer more.
    pub(crate) fn make_pass(&self, feed: &mut Feed, writer: u32) -> SendPass
        requires queue { feed.old.queue_id ≡ self.now.queue_id }
        requires next { writer ≡ feed.old.made }
        ensures feed { feed.new ≡ made_one feed.old }
        ensures pass { result ≡ fresh self.now.queue_id writer }
    {
        let ticket = self.ring.another::<Opens>(&mut feed.ticket);
        SendPass { writer, ticket }
    }

    /// Puts the notice, or gives it back.
    pub(crate) fn put<R: Wait>(
        &self,
        rt: &R,
        pass: &mut SendPass,
        notice: Notice,
    ) -> Result<(), Notice>
        requires queue { pass.old.queue_id ≡ self.now.queue_id }
        requires writer { notice.writer ≡ pass.old.writer }
        requires next { notice.seq ≡ length pass.old.sent + 1 }
        ensures { IsPut self.now.room pass.old notice result pass.new }
    {
        self.ring.push_as::<Puts, R>(rt, &mut pass.ticket, notice)
    }

    /// Takes the oldest notice, if there is one.
    pub(crate) fn take_one<R: Wait>(&self, rt: &R, feed: &mut Feed) -> Option<Notice>
        requires queue { feed.old.queue_id ≡ self.now.queue_id }
        ensures take { IsTake feed.old result feed.new }
        ensures numbered { IsNumbered feed.new.received }
    {
        self.ring.pop_as::<Takes, R>(rt, &mut feed.ticket)
    }

    /// Takes a writer's pass in.
    pub(crate) fn take_in(&self, feed: &mut Feed, pass: SendPass)
        requires feed { feed.old.queue_id ≡ self.now.queue_id }
        requires pass { pass.queue_id ≡ self.now.queue_id }
        ensures { feed.new ≡ joined_one feed.old pass }
    {
        self.ring.absorb::<Joins>(&mut feed.ticket, pass.ticket);
    }

    /// Shows that the accounts that joined are of distinct writers.
    pub(crate) fn learn(&self, feed: &mut Feed)
        requires queue { feed.old.queue_id ≡ self.now.queue_id }
        ensures same { feed.new ≡ feed.old }
        ensures distinct { AreDistinct feed.new.made feed.new.joined }
        ensures each { HaveAllJoined feed.new → HasEachOnce feed.new }
    {
        self.ring.learn_as::<Looks>(&mut feed.ticket);
    }
}
