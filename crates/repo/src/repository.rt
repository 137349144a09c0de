//! A repository that threads share.

use crate::cores::Core;
use cid::Digest;
use std::alloc::{Allocator, Global};
use std::sync::RwLock;

/// A repository that threads share: its core behind a lock.
///
/// Each time the lock is taken, the core is that of some lawful state: its root and its blocks are those of the tree built
/// from scratch from the records that its accepted writes leave, with its last batch's commit. It can't be dropped, as no
/// core can: who owns it alone takes the core out and gives its blocks back.
pub struct Repository<D: Digest, const B: u8, A: Allocator = Global> {
    /// Its core.
    pub lock: RwLock<Core<D, B, A>>,
}
