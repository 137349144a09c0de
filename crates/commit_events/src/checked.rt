//! What was checked.

use car_reader::Section;
use event_format::Event;
use signed_commits::SignedCommit;
use std::alloc::Allocator;

/// A message that is true of the repository that had the root before, lent from its bytes.
#[derive(Drop)]
pub struct CheckedCommit<'a, A: Allocator> {
    /// What it says: whose repository it is, the revision, and the operations in the order of the message.
    pub event: Event<'a, A>,
    /// The signed commit, of this repository and revision. Its `root` is that of the tree after the batch. Nothing tests the
    /// signature.
    pub commit: SignedCommit<'a>,
    /// The blocks of the message, each with its CID: the commit, nodes, and the records that the operations leave.
    pub sections: Vec<Section<'a>, A>,
}
