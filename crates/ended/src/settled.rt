//! Writers whose passes have joined the feed.

ghost use Rattle.std.specs.Prelude.{◌≡◌, ◌≤◌, [], All, vec_capacity, vec_len};
ghost use Rattle.notices.specs.Views.{joined_one};
ghost use Rattle.ended.specs.Ending.{joined_all};

use crate::ended::Ended;
use notices::{Feed, Notice, Queue, SendPass};
use std::alloc::{Allocator, Global};
use std::marker::Model;
use std::snapshot::Snapshot;

/// A writer whose pass has joined the feed.
///
/// A contract sees it as it ended.
#[derive(Drop)]
pub struct Settled<A: Allocator = Global> {
    writer: u32,
    sent: Snapshot<SendPass>,
    kept: Vec<Notice, A>,
    seen: Vec<u64, A>,
}

impl<A: Allocator> Model for Settled<A> {
    ghost use Rattle.std.specs.Prelude.{◌≡◌};
    ghost use Rattle.ended.specs.Ending.{EndedView};

    ghost Value = { EndedView };

    ghost view = { λ s. record { pass = s.sent.value; kept = s.kept.items; seen = s.seen.items } };

    ghost invariant = { λ s. s.writer ≡ s.sent.value.writer };
}

impl<A: Allocator> Settled<A> {
    /// The writer's number.
    pub fn writer(&self) -> u32
        ensures { result ≡ self.now.pass.writer }
    {
        self.writer
    }

    /// The notices that it kept.
    pub fn kept(&self) -> &[Notice]
        ensures { result.now ≡ self.now.kept }
    {
        &self.kept
    }
}

/// Lets a writer's pass join.
fn settle<A: Allocator>(queue: &Queue<A>, feed: &mut Feed, ended: Ended<A>) -> Settled<A>
    requires feed { feed.old.queue_id ≡ queue.now.queue_id }
    requires ended { ended.pass.queue_id ≡ queue.now.queue_id }
    ensures feed { feed.new ≡ joined_one feed.old ended.pass }
    ensures same { result ≡ ended }
{
    let Ended { pass, kept, seen } = ended;
    let settled = Settled {
        writer: pass.writer(),
        sent: Snapshot::of(&pass),
        kept,
        seen,
    };
    queue.join(feed, pass);
    settled
}

/// Lets each writer's pass join. There is room for all of them.
pub(crate) fn settle_all<A: Allocator>(
    queue: &Queue<A>,
    feed: &mut Feed,
    ended: Vec<Ended<A>, A>,
    mut room: Vec<Settled<A>, A>,
) -> Vec<Settled<A>, A>
    requires feed { feed.old.queue_id ≡ queue.now.queue_id }
    requires ended { All (λ e. e.pass.queue_id ≡ queue.now.queue_id) ended.items }
    requires empty { room.items ≡ [] }
    requires room { vec_len ended ≤ vec_capacity room }
    ensures feed { feed.new ≡ joined_all feed.old ended.items }
    ensures same { result.items ≡ ended.items }
{
    for one in ended {
        let settled = settle(queue, feed, one);
        room.push_reserved(settled);
    }
    room
}
