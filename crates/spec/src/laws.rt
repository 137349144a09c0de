//! Laws that show what the definitions mean.
//!
//! Each function here is empty, and its contract is a law about the definitions in `specs/`, stated in
//! `specs/Laws/`. A function is proved only where its contract is, so each law is proved.

pub mod blocks;
pub mod cars;
pub mod cids;
pub mod clashes;
pub mod commits;
pub mod dagcbor;
pub mod heads;
pub mod nodes;
pub mod once;
pub mod roots;
pub mod states;
pub mod tree;
pub mod verifier;
pub mod writes;
