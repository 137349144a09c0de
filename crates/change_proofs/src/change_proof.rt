//! A change and what shows it.

use block::Block;
use cid::{Cid, Digest};
use key_changes::KeyChange;
use std::alloc::{Allocator, Global};
use std::sync::Arc;

/// A change of a tree, and what shows it to who knows the root before.
#[derive(Drop)]
pub struct ChangeProof<'k, D: Digest, A: Allocator = Global> {
    /// The root after the changes.
    pub after: Cid,
    /// The changes in their order, each with what its key had before.
    pub changes: Vec<KeyChange<'k>, A>,
    /// The nodes of the tree before that doing the changes reads, each once, in the order in which they are read, shared with
    /// the source.
    pub nodes: Vec<Arc<Block<D, A>, A>, A>,
}
