//! The repositories of a host, out of their locks.

use cid::Digest;
use fitting::element;
use repo::{Core, end_all};
use std::alloc::Allocator;
use store::{SHARDS, Shard};

/// The cores of a host, and the tables of the shards that have their blocks. Where it goes, all blocks are given back.
pub(crate) struct Repositories<D: Digest, const B: u8, A: Allocator + Clone> {
    pub(crate) cores: Vec<Core<D, B, A>, A>,
    pub(crate) tables: [Shard<D, A>; SHARDS],
}

impl<D: Digest, const B: u8, A: Allocator + Clone> Drop for Repositories<D, B, A> {
    fn drop(self) {
        let Repositories { cores, tables } = self;
        if cores.is_empty() {
            cores.destroy_empty();
        } else {
            // where there is a core, its type fits in memory
            let _ = element(&cores, 0);
            end_all(cores, tables);
        }
    }
}
