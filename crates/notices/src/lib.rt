//! A bounded queue of change notices: many writers send, one taker receives, and each writer's notices arrive whole, once
//! and in their order, whatever the threads' schedule.
//!
//! `Queue::open` gives a queue, one `SendPass` for each writer, and the `Feed` of the taker. A pass can't be copied, so
//! nobody else sends under a writer's number. Each thread takes its pass to the queue, which all share by reference:
//!
//! - A writer sends by `Sender::push`. A full queue gives the notice back, and the writer may push it again later: no
//!   other notice of this writer is put before it, as each must have the next number.
//! - The taker receives by `Taker::pop`.
//! - At the end the writers' passes join the feed by `Queue::join`, and `Queue::take` takes out what is left. Where all
//!   passes joined and it answers `None`, what was received of each writer is all that it sent.
//!
//! ```text
//! let (queue, mut passes, mut feed) = Queue::open(alloc, 1, 1024)?;
//! let Some(pass) = passes.pop() else { .. };
//! let mut sender = queue.sender(pass);
//! match sender.push(rt, Notice { writer: 0, seq: 1, repo, number, root }) {
//!     Ok(()) => ..,
//!     Err(notice) => .., // the queue was full: push this one again, before any other
//! }
//! queue.join(&mut feed, sender.end());
//! while let Some(notice) = queue.take(rt, &mut feed) { .. }
//! ```
//!
//! # What is proved, and what isn't
//!
//! Every step of every thread keeps one rule (`specs/Rule.antt`): for each writer, what was received of it, followed by
//! what the queue holds of it, is what it sent, numbered 1, 2, .. in order. It holds for any number of writers.
//!
//! No clause can say of a shared queue what it holds now, so each says what its own thread knows. That the queue was full
//! is said as far as one writer can tell: some list of as many notices as there is room for ends with what this writer
//! sent last. Such a list can be made up in a proof, so this clause alone doesn't rule out a body that gives every notice
//! back; that there is room where notices were taken is shown by tests. A sender counts its refusals, and its clauses
//! say by how much: so a layer above can state, and prove, that it keeps a notice only where the queue refused one.
//! Likewise that the queue was empty says nothing of writers that haven't joined; that `pop` finds what was sent is
//! shown by tests. Once all have joined it is exact.
//!
//! Nothing is said of the order between writers, nor that a notice is ever taken. `push`, `pop` and `take` may spin
//! behind a thread that has stalled inside a call.
#![tactic(auto)]

mod notice;
mod passes;
mod queue;
mod rule;
mod sender;
mod steps;
mod taker;

pub use notice::Notice;
pub use passes::{Feed, SendPass};
pub use queue::Queue;
pub use sender::Sender;
pub use taker::Taker;
