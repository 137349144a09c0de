//! The command `explain`: what a fault of the program means, and what usually causes it.
//!
//! - `FAULTS` has them, each with its name, `FAULTS_OF_FILES` those of files and of records as JSON, and `FAULTS_OF_MESSAGES`
//!   those of messages. They are the one place of these texts: tables of documents are made from them.
//! - `run` writes what there is to say of a name, or the names of all.
//!
//! A program has it by `with_words`, `command_of` and `run`.
#![tactic(auto)]

mod running;
mod table;
mod text;
mod words;

pub use running::run;
pub use table::{Explanation, FAULTS, FAULTS_OF_FILES, FAULTS_OF_MESSAGES};
pub use words::{ExplainCommand, command_of, with_words};
