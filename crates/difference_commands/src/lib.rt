//! The command on what two files differ by, over bytes, any readers and a writer: two repositories, each as a CAR file or as
//! lines of text, and the changes that lead from the one to the other (AT Protocol repository v3; the forms of the texts are
//! this repository's own).
//!
//! - `texts_of` takes the bytes of two files and makes a line for each key that they differ in, and a slice of the blocks that
//!   come, `Told`. `ChangesCommand` says in which `Form` the files are, or that it is to be found out, with which `Values` a
//!   change is told, and whether blocks are wanted.
//! - `ChangesFault` says why there is no text: the first fault of a file, and of which, `FileFault`.
//!
//! A program has it by `with_words`, `words_of` and `run_on_files`: what help shows of it, what a command line asks for, and
//! its run to the exit status on the files that this names. `run` is the same on two readers.
//!
//! ```text
//! let command = ChangesCommand { form: None, values: Values::Cids, blocks: false };
//! let told = texts_of::<Sha256, Global>(command, Global, &old, &new)?;
//! write_whole(out, &told.lines)?; // change KEY BEFORE AFTER
//! ```
#![tactic(auto)]

mod command;
mod contents;
mod entries;
mod entry;
mod fault;
mod file_fault;
mod form;
mod line_fault;
mod lines_fault;
mod making;
mod on_files;
mod record_line;
mod record_map;
mod running;
mod slice;
mod text;
mod told;
mod trees;
mod words;

pub use command::{ChangesCommand, Form, Values};
pub use fault::ChangesFault;
pub use file_fault::FileFault;
pub use line_fault::LineFault;
pub use lines_fault::LinesFault;
pub use making::texts_of;
pub use on_files::run_on_files;
pub use running::run;
pub use told::Told;
pub use words::{ChangesWords, with_words, words_of};
