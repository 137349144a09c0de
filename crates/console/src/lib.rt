//! What the commands of a program share: their input, their output, and what they say at the end.
//!
//! - `read_all` reads all of an input, `bytes_of_hex` the bytes of a word in hexadecimal, and `space_in` finds the end of a
//!   line's first word. `specs/Lines` says how an input is cut into lines.
//! - `write_whole` and `write_hex` write a run of bytes and its digits, with a word on what was written where they fail.
//!   `Decimal` shows a number, and `push_value` puts the word of a record's CID into a line.
//! - `Files` is where a command finds the files that its words name, and saves what it makes in others. `OpenFault` says why
//!   one can't be opened, and `SaveFault` why one wasn't saved.
//! - `with_file` gives a command the word that names the file that it reads, and `file_of` reads it. `required` is a word that
//!   must be there, and `word_or` the text of a word.
//! - `Watched` shows how much of an input was read, where that takes long.
//! - `DONE`, `FAULTY`, `USAGE`, `NO_MEMORY` and `IO_FAILED` are the exit statuses. `done` ends what has written its text.
//!   `tell` says on standard error what is wrong; `no_memory`, `write_failed`, `unwritten`, `unopened` and `unsaved` do so and
//!   answer the status.
#![tactic(auto)]

mod decimal;
mod fault;
mod file_word;
mod files;
mod hexadecimal;
mod numbered;
mod progress;
mod reading;
mod save_fault;
mod spaces;
mod status;
mod telling;
mod values;
mod words;
mod writing;

pub use decimal::Decimal;
pub use fault::{CommandFault, write_made};
pub use file_word::{file_of, with_file};
pub use files::{Files, OpenFault};
pub use hexadecimal::bytes_of_hex;
pub use numbered::{NumberedLines, numbered_lines};
pub use progress::Watched;
pub use reading::{ReadFault, read_all};
pub use save_fault::SaveFault;
pub use spaces::space_in;
pub use status::{DONE, FAULTY, IO_FAILED, NO_MEMORY, USAGE};
pub use telling::{done, no_memory, tell, unopened, unsaved, unwritten, write_failed};
pub use values::push_value;
pub use words::{required, word_or};
pub use writing::{WriteFault, write_hex, write_whole};
