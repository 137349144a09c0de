//! The commands on one repository, over any reader and writers: its export, proofs of its keys, and what such proofs show
//! (AT Protocol repository v3, CARv1; the forms of the texts are this repository's own).
//!
//! - `car_text` writes the file of the repository that the lines of an input leave, and `signed_car_text` the one that a server
//!   serves, whose root is its commit with a signature.
//! - `prove_text` puts the lines into a repository and writes the nodes on the path of a key.
//! - `verify_text` reads such nodes and writes what they show of a key under a root.
//! - `TextFault` says why there is no text, a line of the input by its number.
//!
//! A program has them by `with_words`, `command_of` and `run`: what help shows of them, which of them a command line asks
//! for, and its run to the exit status.
//!
//! What other commands on repositories need is public too: `Puts` of lines, `filled` and `apply_puts`, which put them into a
//! repository, `push_root` and `push_lines` of its blocks, `status_of` for the end, and words of a command line.
//!
//! ```text
//! let mut lines: &[u8] = b"a/b a0";
//! let stamp = Stamp { did, rev };
//! car_text::<Sha256, _, _>(Global, Form::Hex, &stamp, &mut lines, &mut out)?;
//!
//! let mut nodes: &[u8] = b"a2616580616cf6";
//! verify_text::<Sha256, _, _, _>(Global, root, b"a/b", &mut nodes, &mut out)?;
//! ```
#![tactic(auto)]

mod blocks;
mod car;
mod ending;
mod fault;
mod filling;
mod names;
mod proving;
mod puts;
mod running;
mod signing;
mod verifying;
mod words;

pub use car::car_text;
pub use ending::status_of;
pub use fault::{LineFault, TextFault};
pub use filling::{MOST_BLOCKS, apply_puts, filled, number_at};
pub use proving::{prove_text, push_lines, push_root};
pub use puts::{Puts, Stop, put_of_line};
pub use running::{run, stamp_of_words};
pub use signing::signed_car_text;
pub use verifying::verify_text;
pub use words::{DID, REV, RepositoryCommand, command_of, with_words};
