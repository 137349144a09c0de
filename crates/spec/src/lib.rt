//! The definitions that the other crates are proved to meet, over plain lists of numbers.
//!
//! They stand in `specs/`, in the order in which a newcomer reads them, as `specs/Lib.antt` lists them: CIDs and
//! DAG-CBOR, a key's layer, the tree of sorted pairs, a node's bytes, the blocks and the root of a repository, CAR files
//! as they are written and read, path proofs, keys, writes, stamps, commits, exports, and the states of a repository.
//!
//! The functions here are laws: each does nothing when it is called, and its contract is a theorem that shows what the
//! definitions mean. The worked examples come out as they should; a tree doesn't depend on the order of the writes; what
//! was written is read back; a path proof proves what it says.
//!
//! Look here first to know what a promise is about. The contracts of the other crates cite a definition by its name, as
//! `Rattle.spec.specs.Blocks.nodes`.
#![tactic(auto)]

pub mod laws;
