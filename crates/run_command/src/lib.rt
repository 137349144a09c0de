//! The command `run`, over any reader and writers: it reads a script, lets a host's workers do it, each in a thread of its
//! own, and writes what came of it (the form of the text is this repository's own).
//!
//! - `Settings` is how many repositories and workers there are, and how many notices the host's queue has room for.
//! - `run_text` reads the script and writes the report.
//! - `script` reads a script's lines, of which `ScriptFault` says why a text has none, and writes the lines of a report.
//! - `RunFault` says why there is no report, or not all of it.
//!
//! A program has it by `with_words`, `command_of` and `run`: what help shows of it, whether a command line asks for it, and
//! its run to the exit status.
#![tactic(auto)]

mod drained;
mod fault;
mod hosting;
mod report;
mod running;
mod script;
mod settings;
mod text;
mod words;

pub use fault::RunFault;
pub use running::run;
pub use script::ScriptFault;
pub use settings::Settings;
pub use text::run_text;
pub use words::{RunCommand, command_of, with_words};
