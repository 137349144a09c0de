//! One path in place of the whole tree: what a look-up, a walk, a put and a delete read of a Merkle search tree, and what they make of it.
//!
//! The definitions stand in `specs/`: functions of trees, then functions of the shapes that blocks show, then loops over
//! a source of blocks; then how often the blocks of a repository are used. Each function here is a law of them, and does
//! nothing when it is called.
#![tactic(auto)]

pub mod lookups;
pub mod sources;
pub mod uses;
pub mod walks;
