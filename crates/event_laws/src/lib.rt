//! The definitions of a message `#commit` (AT Protocol, event streams, sync 1.1), of what its bytes say and of its verdict,
//! and the laws of them.
//!
//! The definitions stand in `specs/`, to be read in this order: `Ops` says what a message tells of a key, `Events` what a message
//! is and its bytes, `Fields` and `Reading` what bytes say as a message, with the first fault, `Verdict` whether what it says is
//! true of a repository with a root, and `Laws` what that means.
//! Each function here is a law of them, and does nothing when it is called.
#![tactic(auto)]

ghost use Rattle.event_laws.specs.Laws.{NewNodesAreRead, TakenIsTrue};

/// A node of the tree after a batch is one of the tree before, or one of those that undoing the batch reads.
pub fn new_nodes_are_read()
    ensures { NewNodesAreRead }
{}

/// What is taken is true of the tree with the commit's root.
pub fn taken_is_true()
    ensures { TakenIsTrue }
{}
