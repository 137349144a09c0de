//! The commands on a change of a repository, over any reader and writers: a batch, what it changes, and the nodes that show
//! it (AT Protocol repository v3; the forms of the texts are this repository's own).
//!
//! - `prove_change_text` reads the records of a repository and the writes of a batch, and writes both roots, the changes of
//!   the keys, and the nodes that show them.
//! - `verify_change_text` reads such a text beside two roots that are known, and writes whether it shows that the one came of
//!   the other.
//!
//! Both go forward, or by [`Direction::Inversion`] back: forward the changes are done in the tree before them, and for the
//! inversion they are undone in the tree after them.
//!
//! A program has them by `with_words`, `command_of` and `run`: what help shows of them, which of them a command line asks
//! for, and its run to the exit status. Their faults are those of `repository_commands`.
//!
//! What other commands on a batch need is public too: `read_story` reads an input as `prove_change_text` does, and `proof_ahead`
//! says what writes make of a repository.
//!
//! ```text
//! let mut lines: &[u8] = b"\nput a/b a0";
//! prove_change_text::<Sha256, _, _>(Global, Direction::Forward, Form::Hex, &mut lines, &mut text)?;
//! verify_change_text::<Sha256, _, _>(Global, Direction::Forward, before, after, &mut &text[..], &mut out)?;
//! ```
#![tactic(auto)]

mod change_words;
mod changed;
mod direction;
mod proving;
mod roots;
mod running;
mod story;
mod text;
mod told;
mod verifying;
mod words;
mod write_lines;

pub use direction::Direction;
pub use proving::{proof_ahead, prove_change_text};
pub use running::run;
pub use story::{Story, read_story};
pub use verifying::verify_change_text;
pub use words::{ChangeCommand, command_of, with_words};
