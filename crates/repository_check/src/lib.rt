//! Whether a CAR is the export of a repository, and of which.
//!
//! [`check`] takes the bytes of a file, as `com.atproto.sync.getRepo` serves it, and answers its signed commit and its
//! records, each under its key and with its CID ([`Repository`]), or why it is no export ([`CheckFault`]). It trusts nothing
//! of the file: each block is hashed, the tree is built from scratch from the pairs that the nodes list, and its root has to
//! be the one that the commit names.
//!
//! The commit and the records are lent from the file; the keys are put together from the nodes, which spell them in parts.
//! Nothing tests the signature: `SignedCommit::unsigned_bytes` is what was signed.
//!
//! ```text
//! let found = check::<Sha256, 2, Global>(alloc, &file)?;
//! let signed = found.commit.unsigned_bytes(alloc)?; // what found.commit.sig signs
//! for record in &found.records {
//!     // record.key, record.cid and record.bytes
//! }
//! ```
#![tactic(auto)]

mod checking;
mod fault;
mod opening;
mod records;
mod repository;
mod tree;
mod walking;

pub use checking::check;
pub use fault::{CheckFault, RecordFault};
pub use repository::{Record, Repository};
