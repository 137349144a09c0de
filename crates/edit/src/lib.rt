//! A tree changed, by one key or by many at once: each node that is read is read once, each node that changes is written
//! once.
//!
//! - [`put`] and [`delete`] change one key of the tree with a root, wherever its blocks are kept ([`lookups::Source`]), and
//!   answer an [`Edit`]: the root after it, the blocks to add, the CIDs to drop, and the value that the key had. They change
//!   nothing themselves: that is for who keeps the blocks. Those that stay with those that come are the blocks of the tree
//!   built from scratch.
//! - [`apply`] changes many keys at once, and answers a [`BatchEdit`], with the values that they had. A [`Change`] is a key
//!   with its new value, or none where the key goes; it lends the key. [`are_changes`] tells whether a batch takes some.
//! - An [`EditFault`] says why there is no edit; where the source lacks a block, it has its CID, so that who has the block
//!   elsewhere can add it and call again.
//!
//! Use a batch where several keys change: of a node that many of them change it makes one new node, where a put or a delete
//! for each would make one each time. A put and a delete are a batch of one change.
//!
//! ```text
//! let edit = put::<Sha256, 2, _, _>(alloc, &mut source, root, b"app.bsky.feed.post/3l", record)?;
//!
//! let changes = [Change { key, value: Some(cid) }, Change { key: other, value: None }];
//! if are_changes(&changes) {
//!     let edit = apply::<Sha256, 2, _, _>(alloc, &mut source, root, &changes)?;
//! }
//! ```
//!
//! README.md has an example of a put.
//!
//! There are two sides. The walk goes over the old tree in the order of keys, merges it with the changes, and says what
//! the new tree has: pairs, and subtrees in which no change lies, which aren't read. The edge takes these one after
//! another. It is the right edge of the new tree, from the top down: for each layer the node in the making, and below the
//! lowest of them nothing, or one subtree that waits and isn't read. A pair closes all that stands below its layer; a
//! subtree waits until something else comes into its gap, and is opened then. So a split, a merge, a raised top and a
//! pruned one are nothing of their own.
//!
//! `walk` is the one side, over the `changes` around each key, each of which was `hashed` once; `edge`, with `level` for what
//! comes to one layer, `joining` and `tops` are the other. `whole` puts them together, `differences` compares what was read
//! with what was made, `applying` is the call for many keys, and `singles` has those for one.
#![tactic(auto)]

mod applying;
mod changes;
mod differences;
mod edge;
mod hashed;
mod joining;
mod level;
mod outcome;
mod passing;
mod previews;
mod shown;
mod singles;
mod tops;
mod walk;
mod whole;

pub use applying::apply;
pub use key_changes::{Change, are_changes};
pub use node::is_key;
pub use outcome::{BatchEdit, Edit, EditFault};
pub use previews::{BatchPreview, preview};
pub use singles::{delete, put};
