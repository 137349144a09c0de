//! Whether a message `#commit` of the event stream `com.atproto.sync.subscribeRepos` is true of a repository whose root is
//! known (AT Protocol, sync 1.1, operation inversion).
//!
//! - [`check_commit`] takes a message from whoever sent it, and the root that the repository had before. What it answers is
//!   true of whatever pairs have the commit's root, whatever blocks were given; only who signed isn't looked at. That some
//!   pairs have that root it doesn't say, as it undoes the operations: who goes on from message to message keeps the
//!   repository and does them (`event_following::check_and_apply`). [`EventFault`] is the first fault.
//!
//! ```text
//! let checked = check_commit::<Sha256, 2, Global>(alloc, root, &message)?;
//! let signed = checked.commit.unsigned_bytes(alloc)?; // what checked.commit.sig signs
//! root = checked.commit.root.to_cid();
//! ```
//!
//! [`read_commit`] does the same but for the operations themselves, for who has the repository and does them; [`in_order`] has
//! these in the order of their keys.
//!
//! `order` has the operations in the order of their keys, `single` looks for two with one key, `blocks` reads what the
//! message's blocks hold, `known` has these as blocks whose CIDs are known, `changes` undoes the operations on them, and
//! `checking` puts these together. What a message says and when that is true is defined in the crate `event_laws`.
#![tactic(auto)]

mod blocks;
mod changes;
mod checked;
mod checking;
mod fault;
mod known;
mod order;
mod single;

pub use checked::CheckedCommit;
pub use checking::{check_commit, read_commit};
pub use fault::EventFault;
pub use order::{Placed, changes_of, in_order, place_of};
