//! What writers leave when they end, and the feed that their passes join.
//!
//! A writer that ends leaves an [`Ended`]: its pass, the notices that it kept, and for each repository the greatest number of
//! accepted writes that it has seen there. A host gives out a [`Feed`], by which a [`Taker`] takes notices out of its queue.
//! The feed has room for all writers, so that a close takes no memory: `Feed::settle` lets their passes join, and gives each
//! writer back as a [`Settled`], which still shows what it kept.
#![tactic(auto)]

mod ended;
mod feed;
mod settled;

pub use ended::Ended;
pub use feed::{Feed, Taker};
pub use settled::Settled;
