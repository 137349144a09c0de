//! Blocks and holds for the tests.
ghost use Rattle.std.specs.Prelude.{◌<◌};

use block::Block;
use cid::Digest;
use std::alloc::Allocator;
use std::process::Abort;
use std::sync::Arc;
use store::{Hold, Shard};

/// The DAG-CBOR bytes of the node without entries and without a left link.
pub(crate) const EMPTY_NODE: [u8; 7] = [0xa2, 0x61, 0x65, 0x80, 0x61, 0x6c, 0xf6];

/// The DAG-CBOR bytes of the empty map.
pub(crate) const EMPTY: [u8; 1] = [0xa0];

/// The DAG-CBOR bytes of the map of "a" to 1.
pub(crate) const ONE: [u8; 4] = [0xa1, 0x61, 0x61, 0x01];

/// A block of these bytes in memory of its own.
pub(crate) fn block<R: Abort, D: Digest, A: Allocator + Copy>(
    rt: &R,
    alloc: A,
    bytes: &[u8],
) -> Arc<Block<D, A>, A> {
    let bytes = Vec::from_slice(alloc, bytes).expect(rt, "memory for the bytes of a block");
    Arc::new(alloc, Block::of(bytes)).expect(rt, "memory for a block")
}

/// The hold of an acquire that must succeed.
pub(crate) fn acquired<R: Abort, D: Digest, A: Allocator + Clone>(
    rt: &R,
    shard: &mut Shard<D, A>,
    core: u32,
    block: Arc<Block<D, A>, A>,
) -> Hold<D, A>
    requires { core < 1024 }
{
    shard
        .acquire(core, block)
        .expect(rt, "an acquire that succeeds")
}

/// Puts a hold to the others, where it stays until it is released: a hold can't be dropped.
pub(crate) fn keep<R: Abort, D: Digest, A: Allocator>(
    rt: &R,
    holds: &mut Vec<Hold<D, A>>,
    hold: Hold<D, A>,
) {
    holds.reserve(1).expect(rt, "room for a hold");
    holds.push_reserved(hold);
}

/// How many entries the table has.
pub(crate) fn entry_count<D: Digest, A: Allocator>(shard: &Shard<D, A>) -> usize {
    let mut count = 0usize;
    for _ in shard.entries() {
        count = count.saturating_add(1);
    }
    count
}

/// Releases this many holds, which must be all.
pub(crate) fn release_each<R: Abort, D: Digest, A: Allocator>(
    rt: &R,
    shard: &mut Shard<D, A>,
    mut holds: Vec<Hold<D, A>>,
    count: u8,
) {
    for _ in 0..count {
        shard.release(holds.pop().expect(rt, "as many holds"));
    }
    assert!(rt; holds.is_empty());
    holds.destroy_empty();
}
