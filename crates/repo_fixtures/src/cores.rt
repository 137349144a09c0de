//! Cores over one shard, which is lent to them call by call.

use crate::batch::{Batch, Step, batch_at};
use crate::ends::{Ended, end_of};
use cid::Digest;
use repo::Core;
use std::alloc::{AllocError, Allocator};
use store::{LentShard, Shard};

/// Gives the core's blocks back to the shard.
pub fn end<D: Digest, const B: u8, A: Allocator + Clone>(
    shard: &mut Shard<D, A>,
    core: Core<D, B, A>,
) {
    core.end(&mut LentShard::new(shard));
}

/// How a batch ends that is applied to the core over the shard.
pub fn apply<D: Digest, const B: u8, A: Allocator + Copy>(
    alloc: A,
    shard: &mut Shard<D, A>,
    core: &mut Core<D, B, A>,
    batch: &Batch<A>,
) -> Ended {
    end_of(core.apply(
        alloc,
        &mut LentShard::new(shard),
        &batch.stamp,
        &batch.writes,
    ))
}

/// The same for a batch for which there may have been no memory.
pub fn apply_made<D: Digest, const B: u8, A: Allocator + Copy>(
    alloc: A,
    shard: &mut Shard<D, A>,
    core: &mut Core<D, B, A>,
    batch: Result<Batch<A>, AllocError>,
) -> Ended {
    match batch {
        Ok(batch) => apply(alloc, shard, core, &batch),
        Err(_) => Ended::Unmade,
    }
}

/// The same for the batch of these steps, with the timestamp identifier that comes so many after the first one.
pub fn apply_steps<D: Digest, const B: u8, A: Allocator + Copy>(
    alloc: A,
    shard: &mut Shard<D, A>,
    core: &mut Core<D, B, A>,
    turn: u16,
    steps: &[Step<'_>],
) -> Ended {
    apply_made(alloc, shard, core, batch_at(alloc, turn, steps))
}

/// How many blocks a core has, where it finds each of them under its CID and the shard has the core entered for it; else
/// `None`.
pub fn held<D: Digest, const B: u8, A: Allocator>(
    shard: &Shard<D, A>,
    core: &Core<D, B, A>,
) -> Option<u64> {
    let mut count = 0u64;
    for block in core.blocks() {
        let cid = block.cid();
        match core.block(&cid) {
            Some(found) if found.bytes() == block.bytes() && shard.has(&cid, core.me()) => {}
            _ => return None,
        }
        count = count.saturating_add(1);
    }
    Some(count)
}

/// How many blocks a shard has, and how many holds of them are out.
pub fn counts<D: Digest, A: Allocator>(shard: &Shard<D, A>) -> (u64, u64) {
    let (mut blocks, mut holds) = (0u64, 0u64);
    for (cid, _) in shard.entries() {
        blocks = blocks.saturating_add(1);
        holds = holds.saturating_add(shard.count(&cid));
    }
    (blocks, holds)
}
