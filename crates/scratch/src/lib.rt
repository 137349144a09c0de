//! The whole tree of sorted pairs (AT Protocol repository v3, MST structure; Auvolat and Taïani, SRDS 2019).
//!
//! [`build`] makes the Merkle search tree of pairs of a key and a record's CID whose keys ascend, as [`is_ascending`]
//! tests: the root, and each node's block once, a node before those under it. It is the definition in code. Each other
//! way to a tree, as a put along one path, is proved to give the same root and the same blocks.
//!
//! Use it where all pairs are at hand: to check a repository that came from elsewhere, to print a tree, to begin one with
//! many records at once. To change one key of a tree that stands, use `edit`. README.md has an example of both.
#![tactic(auto)]

mod clashes;
mod fault;
mod keys;
mod level;
mod merging;
mod nodes;
mod rows;
mod tree;
mod unread;

pub use fault::ScratchFault;
pub use keys::is_ascending;
pub use node::is_key;
pub use tree::{Built, build};
