//! Cores without writes.

ghost use Rattle.std.specs.Prelude.{◌≤◌, ◌<◌};

use cid::Digest;
use repo::Core;
use std::alloc::Global;
use std::process::Abort;
use store::{LentShard, Shard};

/// The core of a repository that may have so many writes, under this number in the shard.
pub(crate) fn opened<R: Abort, D: Digest>(
    rt: &R,
    alloc: Global,
    shard: &mut Shard<D>,
    me: u32,
    limit: usize,
) -> Core<D, 2>
    requires small { me < 1024 }
    requires least { 1 ≤ limit }
    requires most { limit ≤ 2000 }
{
    Core::open(alloc, &mut LentShard::new(shard), me, limit).expect(rt, "a core")
}
