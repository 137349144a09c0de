//! The commands on an export, over any reader and writers: a CAR file as a server exports a repository, checked, and what it
//! shows (CARv1; AT Protocol repository v3; the forms of the texts are this repository's own).
//!
//! - `export_text` reads a file and writes what an `ExportCommand` tells of the repository that the file is the export of:
//!   whose it is (`Check`), its records, their JSON or their CIDs (`Records`), what was signed and the signature (`Commit`).
//! - `ExportFault` says why there is no text: the first fault of a file that is no export, or a record without JSON.
//!
//! A program has them by `with_words`, `command_of` and `run`: what help shows of them, which of them a command line asks
//! for, and its run to the exit status.
//!
//! ```text
//! export_text::<Sha256, _, _, _>(ExportCommand::Check, Global, &mut file, &mut line)?; // DID REV ROOT COUNT
//! export_text::<Sha256, _, _, _>(ExportCommand::Commit, Global, &mut file, &mut lines)?; // for who has the key
//! ```
#![tactic(auto)]

mod command;
mod fault;
mod forms;
mod lines;
mod names;
mod records;
mod running;
mod telling;
mod text;
mod words;

pub use command::{ExportCommand, Values};
pub use fault::ExportFault;
pub use running::run;
pub use text::export_text;
pub use words::{command_of, with_words};
