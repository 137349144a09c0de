//! The blocks that a core keeps, with how often each is used.
//!
//! - [`Kept`] has a hold for each block, with one count of its uses. [`Kept::exchange`] lets blocks come and go, all of them or
//!   none: what isn't held is acquired, and what is used no longer goes back to the store.
//! - [`value_at`] and [`pairs_from`] look up and list in the tree with a root among these blocks, and [`apply_over`] makes the
//!   edit of many of its keys, whose blocks can then be exchanged. [`Lender`] lends the blocks as a source, [`LenderWith`] the
//!   same with blocks that are to come in front, and [`Blocks`] lists them.
//! - `end` gives all blocks back to the store that it is given.
//!
//! It is the lower half of a repository. The crate `repo` says which uses a batch of writes has, and has an example.
#![tactic(auto)]

mod blocks;
mod kept;
mod kept_use;
mod lender;
mod lender_with;
mod trees;
mod use_map;

pub use blocks::Blocks;
pub use kept::Kept;
pub use lender::Lender;
pub use lender_with::LenderWith;
pub use trees::{apply_over, pairs_from, value_at};
