//! Changes of keys.
//!
//! A batch says of each key what it is to have; proofs of a change and messages of the event stream tell also what it had.
//! Whoever names changes stands on no tree and no repository.
//!
//! - [`Change`] is a key and the value that it is to have; [`KeyChange`] a key, and the CID of its record before and after.
//! - [`are_changes`] and [`are_key_changes`] tell whether the keys ascend and have lengths that a tree takes. [`Keyed`] is what
//!   both kinds of changes have in common, and [`are_keyed`] the test of it.
//! - [`is_same`] tells whether a key has what is told of it.
#![tactic(auto)]

mod change;
mod keyed;
mod value;

pub use change::{Change, KeyChange};
pub use keyed::{Keyed, are_changes, are_key_changes, are_keyed};
pub use value::is_same;
