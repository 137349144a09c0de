//! A repository that begins with the records of a checked file, so that a mirror starts from an export.
//!
//! [`open_checked`] takes what `repository_check::check` answers, and opens a core with its records, as one batch under the
//! DID and the revision of the file's commit. The root of its tree is the one that the commit names.
//!
//! The commit of the core is its own, without a signature: it has the file's DID, revision and root, but other bytes than the
//! file's signed commit, and so another CID. Who serves the signed commit keeps it beside the core.
//!
//! ```text
//! let found = check::<Sha256, 2, Global>(alloc, &file)?;
//! let core = open_checked::<Sha256, 2, _>(alloc, &mut store, 0, 1_000_000, &found)?;
//! ```
#![tactic(auto)]

mod batch;
pub mod laws;
mod opening;

pub use opening::open_checked;
