//! The command `tree`, over any reader and writer: it lists the Merkle search tree of the keys and CIDs that the lines of its
//! input give (AT Protocol repository v3, MST structure; the form of the text is this repository's own).
//!
//! - `tree_text` reads the lines and writes the listing, with the fault as a value: under a digest and a fan-out fixed by
//!   types, and with any allocator.
//! - `TreeOptions` says how: with which fan-out (`Bits`), and which keys are taken (`Keys`).
//! - `TreeFault` says why there is no listing, or not all of it.
//!
//! For a repository take `Keys::Paths`: then a line whose key is no record's is refused, and no tree of something else is
//! listed. In a shell: `msthost tree --paths < examples/repository.txt`.
//!
//! `map_of_input` has the pairs of the lines alone, for other commands that read them; a `ListedKey` is a key among them.
//!
//! A program has it by `with_words`, `options_of` and `run`: what help shows of it, what a command line tells it, and its run
//! to the exit status.
#![tactic(auto)]

mod bits;
mod fault;
mod key;
mod keys;
mod line;
mod listing;
mod node_lines;
mod options;
mod running;
mod text;
mod words;

pub use bits::Bits;
pub use fault::{LineFault, TreeFault};
pub use key::ListedKey;
pub use keys::Keys;
pub use listing::map_of_input;
pub use options::TreeOptions;
pub use running::run;
pub use text::tree_text;
pub use words::{EXAMPLE, options_of, with_words};
