//! Proofs of a change: what some nodes of the tree after a batch of changes show of the tree before it.
//!
//! Who knows a repository's root before and its root after, and is told which keys changed and how, need neither believe it
//! nor fetch the repository. The changes are undone on the nodes of the new tree, and the old root comes out. Of the old tree
//! nothing is needed, and of the new one only the nodes in whose range of keys a change lies, and their neighbours.
//!
//! The definitions stand in `specs/`, to be read in this order: `Told` says what a change is, and when two lists of pairs
//! differ by some; `Within` is what a tree has for a batch, how many nodes to read, and keys that ascend; `Given` is a batch over
//! given blocks, the one of `batch_laws` over the source that they are, with the fault where that one stops or isn't within what
//! a tree has; `Verdict` undoes the changes by it, and compares the values that it meets and the root; `Laws` says what the
//! verdict means.
//! Each function here is a law of them, and does nothing when it is called.
#![tactic(auto)]

pub mod verdicts;
