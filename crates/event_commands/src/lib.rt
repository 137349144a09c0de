//! The commands on messages of the event stream, over any reader and writers (AT Protocol, `com.atproto.sync.subscribeRepos`,
//! `#commit` and `#sync`; the forms of the texts are this repository's own).
//!
//! - `event_text` reads the records of a repository and the writes of a batch, and writes the message of the batch, or that of the
//!   state which it leaves.
//! - `check_event_text` reads messages one after the other, and writes a line of each, where all are true of the repository that
//!   had a root before the first of them.
//!
//! A program has them by `with_words`, `command_of` and `run`: what help shows of them, which of them a command line asks
//! for, and its run to the exit status. [`MessageFault`] says why there is no text.
//!
//! ```text
//! let mut lines: &[u8] = b"\nput a/b a0";
//! event_text::<Sha256, _, _>(Global, Subject::Batch, Form::Hex, &words, &mut lines, &mut message)?;
//! check_event_text::<Sha256, _, _>(Global, Form::Hex, before, &mut &message[..], &mut out)?; // DID REV ROOT COUNT
//! ```
#![tactic(auto)]

mod checking;
mod command;
mod fault;
mod names;
mod running;
mod telling;
mod words;
mod writing;

pub use checking::check_event_text;
pub use command::{EventCommand, EventWords, Subject};
pub use fault::MessageFault;
pub use running::run;
pub use words::{command_of, with_words};
pub use writing::event_text;
