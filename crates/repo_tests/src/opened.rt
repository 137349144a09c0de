//! Cores without writes.

ghost use Rattle.std.specs.Prelude.{◌≤◌, ◌<◌};

use cid::Digest;
use repo::Core;
use std::alloc::Allocator;
use std::process::Abort;
use store::{LentShard, Shard};

/// The core of a repository that may have 2,000 writes, under this number in the shard.
pub(crate) fn opened<R: Abort, D: Digest, const B: u8, A: Allocator + Copy>(
    rt: &R,
    alloc: A,
    shard: &mut Shard<D, A>,
    me: u32,
) -> Core<D, B, A>
    requires least { 1 ≤ B }
    requires most { B ≤ 8 }
    requires small { me < 1024 }
{
    Core::open(alloc, &mut LentShard::new(shard), me, 2000).expect(rt, "a core")
}
