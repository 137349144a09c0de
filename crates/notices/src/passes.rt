//! What a thread carries to the queue: a writer's pass, or the feed.
ghost use Rattle.std.specs.Prelude.{◌≡◌};

use crate::rule::Ticket;
use std::marker::Model;

/// The right to send under one writer's number, from `Queue::open` until `Queue::join`.
///
/// There is one for each writer, it can't be copied, and it has no bytes beside the number. It goes with its writer from
/// thread to thread, and `Queue::sender` lets it send. One that is dropped is lost: what it sent is still received, but it
/// never joins.
///
/// A contract sees which queue it is of, the writer's number, and all that the writer sent, in order.
#[derive(Drop)]
pub struct SendPass {
    pub(crate) writer: u32,
    pub(crate) ticket: Ticket,
}

impl Model for SendPass {
    ghost use Rattle.std.specs.Prelude.{◌≡◌, []};
    ghost use Rattle.crossbeam_queue.specs.Passes.{view as view_of};
    ghost use Rattle.notices.specs.Views.{PassView, pass_view, IsSender};

    ghost Value = { PassView };

    ghost view = { λ p. pass_view p.ticket.table_id p.writer (view_of p.ticket) };

    ghost invariant = { λ p. (p.ticket.me.1 ≡ []) × IsSender p.writer (view_of p.ticket) };
}

impl SendPass {
    /// The writer's number: the place of this pass in what `Queue::open` gave.
    pub fn writer(&self) -> u32
        ensures { result ≡ self.now.writer }
    {
        self.writer
    }
}

/// The right to take from one queue. There is one, and it can't be copied.
///
/// `Queue::taker` takes by it, and so does `Queue::take` for a caller who owns queue and feed, as at a close.
///
/// A contract sees which queue it is of, how many writers' passes were made, all that was received, in order, and the
/// accounts of the passes that joined.
#[derive(Drop)]
pub struct Feed {
    pub(crate) ticket: Ticket,
}

impl Model for Feed {
    ghost use Rattle.std.specs.Prelude.{◌≡◌, []};
    ghost use Rattle.crossbeam_queue.specs.Passes.{view as view_of};
    ghost use Rattle.notices.specs.Views.{FeedView, feed_view, IsFeed};

    ghost Value = { FeedView };

    ghost view = { λ f. feed_view f.ticket.table_id (view_of f.ticket) };

    ghost invariant = { λ f. (f.ticket.me.1 ≡ []) × IsFeed (view_of f.ticket) };
}
