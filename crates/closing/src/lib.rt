//! The close of a host of many repositories: its cores and the tables of its shards are compared, and what its writers left is
//! put together.
//!
//! What stands behind a lock is known by its type alone. Once all threads have ended, cores and tables are out of their
//! locks, and [`close`] compares them:
//!
//! - [`Closed`] says that they agree. Its `shown` is the headline: of each repository the root, the commit and the blocks,
//!   and no others, are those of the Merkle search tree built from scratch from the records that its accepted writes leave,
//!   with the commit of its last stamp; and each block's count is the number of repositories that have it. `count` and
//!   `counts` tell the counts. `next_left` gives the notices that nobody took, and `kept` those that a writer kept: with
//!   what was taken they are all that the writer told.
//! - [`Uneven`] holds what isn't so: a core's number isn't its place, cores and tables don't agree, or a core has fewer
//!   writes than a writer has seen there; and it tells which.
//!
//! Both give all blocks back when they go. What writers leave when they end, and the feed that has room for all of them, stand
//! in the crate `ended`; so the close takes no memory.
//!
//! Not said: that cores and tables are those that stood behind some locks, which is their caller's to see to.
#![tactic(auto)]

mod atproto;
mod block_counts;
mod closed;
mod comparing;
mod mismatch;
mod repositories;
mod seeing;
mod shown;

pub use atproto::{AtprotoClosed, AtprotoUneven};
pub use closed::{Closed, Uneven, close};
pub use mismatch::Mismatch;
pub use shown::Shown;
