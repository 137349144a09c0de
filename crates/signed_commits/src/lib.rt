//! Signed commits (AT Protocol repository v3, commit objects), read where they lie and written.
//!
//! - [`read_commit`] takes exactly the bytes of a commit and lends its fields. It names the first fault, [`CommitFault`].
//! - [`SignedCommit::unsigned_bytes`] are the bytes that were signed. Nothing here tests a signature, or makes one.
//! - [`SignedCommit::signed_bytes`] are those of the commit with its signature.
#![tactic(auto)]

mod commit;
mod fault;
pub mod laws;
mod parts;
mod writing;

pub use commit::{SignedCommit, read_commit};
pub use fault::CommitFault;
