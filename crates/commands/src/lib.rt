//! The commands of `msthost`, over any reader and any writers: Merkle search trees of AT Protocol repositories, from
//! lines of text, their exports and proofs (AT Protocol repository v3, MST structure; the form of the texts is this
//! repository's own).
//!
//! - `run_words` does what a command line says: it takes the words, the standard streams, or stand-ins for them, and
//!   answers an `Outcome`: the `Request` that the words make, and the exit status. It writes help, faults and the version
//!   too. A program gives it its own words.
//! - `laws` shows what the definitions make of some command lines.
//! - `not_started` says what a program does that doesn't get as far.
//!
//! Each command has a crate of its own, for callers that have no command line: `tree_command` lists trees,
//! `repository_commands` has `car`, `prove` and `verify`, `change_commands` has `prove-change` and `verify-change`,
//! `event_commands` has `commit-event`, `sync-event` and `check-event`, `export_commands` has `check`, `records` and `commit`,
//! `difference_commands` has `changes`, and `run_command` does scripts. `command_line` knows them all, and `run` does the one
//! that is asked for.
#![tactic(auto)]

mod command_line;
pub mod laws;
mod run;
mod starting;

pub use command_line::Request;
pub use run::{Outcome, run_words};
pub use starting::not_started;
