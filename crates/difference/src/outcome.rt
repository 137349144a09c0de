//! What comes between two trees.

use block::Block;
use cid::{Cid, Digest};
use std::alloc::{Allocator, Global};
use std::sync::Arc;

/// A key that two trees differ in, and the CID of its record in both, or none where the key isn't there.
#[derive(Drop)]
pub struct KeyDifference<A: Allocator = Global> {
    pub key: Vec<u8, A>,
    pub before: Option<Cid>,
    pub after: Option<Cid>,
}

/// What makes one tree of another. The blocks of the old tree, without those of `go` and with those of `come`, are the blocks
/// of the new tree.
#[derive(Drop)]
pub struct Difference<D: Digest, A: Allocator = Global> {
    /// The keys that differ, in ascending order.
    pub changes: Vec<KeyDifference<A>, A>,

    /// The nodes of the new tree that the old one lacks, each once and before those below it, shared with the source.
    pub come: Vec<Arc<Block<D, A>, A>, A>,

    /// The CIDs of the nodes of the old tree that the new one lacks, each once.
    pub go: Vec<Cid, A>,
}
