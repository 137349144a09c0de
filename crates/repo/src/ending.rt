//! The end of all repositories of a store.

use crate::cores::Core;
use cid::Digest;
use std::alloc::Allocator;
use store::{LentShards, SHARDS, Shard};

/// Gives the blocks of all cores back to the tables. It takes no lock and no memory.
pub fn end_all<D: Digest, const B: u8, A: Allocator + Clone>(
    mut cores: Vec<Core<D, B, A>, A>,
    mut tables: [Shard<D, A>; SHARDS],
) {
    let mut store = LentShards::<D, 0, A>::new(&mut tables);
    while let Some(core) = cores.pop() {
        core.end(&mut store);
    }
    cores.destroy_empty();
}
