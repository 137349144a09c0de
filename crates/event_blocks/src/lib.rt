//! What the blocks of a message `#commit` hold, before the changes are judged: its CAR file, its signed commit, its records
//! (AT Protocol, sync 1.1).
//!
//! - [`read_blocks`] gives the sections of the file, whose root is the commit and each of which has the CID of its block.
//! - [`commit_in`] gives the commit, which is of the message's repository and revision.
//! - [`test_records`] tests that the record of each operation is there, is one, and isn't too long.
//!
//! Each names the first fault, [`BlocksFault`].
#![tactic(auto)]

mod commit;
mod fault;
mod file;
mod records;

pub use commit::commit_in;
pub use fault::BlocksFault;
pub use file::read_blocks;
pub use records::test_records;
