//! What a batch of writes to a repository is, before anything is stored.
//!
//! - [`Write`] names a key and what is to stand there: a put, a create, an update or a delete. `test_write` is its
//!   test, `is_repository_key` that of its key.
//! - [`Stamp`] is what a batch is stamped with for its commit: a DID and a revision. `is_did` and `is_tid` test the two,
//!   `test_stamp` the stamp after the revision of the batch before.
//! - `commit_bytes` spells the unsigned commit of a stamp over the root of a tree (AT Protocol repository v3, commit
//!   objects, without the field sig), and `signed_block` makes the block of the signed one. `last_stamp` is the stamp of a
//!   repository's last batch.
//! - [`RepoFault`] says why a batch was refused; `refusal_name` and [`RefusalName`] have its name, as commands and reports show
//!   it.
//!
//! The crate `repo` applies batches; its root has an example.
#![tactic(auto)]

mod commit;
mod fault;
mod names;
mod signed;
mod stamp;
mod stamp_test;
mod stamps;
mod write_test;

pub use block::Write;
pub use commit::commit_bytes;
pub use fault::RepoFault;
pub use names::{RefusalName, refusal_name};
pub use record_rules::{is_did, is_repository_key, is_tid};
pub use signed::signed_block;
pub use stamp::Stamp;
pub use stamp_test::test_stamp;
pub use stamps::last_stamp;
pub use write_test::test_write;
