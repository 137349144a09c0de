//! What a reader is shown of a repository.

ghost use Rattle.std.specs.Prelude.{◌≡◌};
ghost use Rattle.spec.specs.States.{IsLawful};
ghost use Rattle.batches.specs.Values.{shared_writes, stamps_of};
ghost use Rattle.kept.specs.Uses.{used_blocks};
ghost use Rattle.closing.specs.Headline.{IsFromScratch};

use batches::{Stamp, Write};
use cid::{Cid, Digest};
use kept::Blocks;
use repo::Core;
use std::alloc::{Allocator, Global};
use std::sync::Arc;

/// A repository: its accepted writes with their stamps, and what it has by them.
#[derive(Drop)]
pub struct Shown<'a, D: Digest, A: Allocator = Global> {
    /// The accepted writes, the oldest first.
    pub accepted: &'a [Arc<Write<A>, A>],
    /// The stamp of each batch, the oldest first, with the number of accepted writes after it.
    pub stamps: &'a [(Stamp<A>, u64)],
    /// The root of the tree.
    pub root: Cid,
    /// The CID of the last batch's commit, or `None` before the first one.
    pub commit: Option<Cid>,
    /// The blocks, each once, in some order.
    pub blocks: Blocks<'a, D, A>,
}

/// Shows a core. It takes no memory.
pub(crate) fn show<D: Digest, const B: u8, A: Allocator>(core: &Core<D, B, A>) -> Shown<'_, D, A>
    ensures lawful { IsLawful core.now }
    ensures accepted { shared_writes result.accepted.now ≡ core.now.accepted }
    ensures stamps { stamps_of result.stamps.now ≡ core.now.stamps }
    ensures from_scratch { IsFromScratch D.digest_of B (shared_writes result.accepted.now)
        (stamps_of result.stamps.now) result.root result.commit
        (used_blocks result.blocks.entries) }
{
    Shown {
        accepted: core.accepted(),
        stamps: core.stamps(),
        root: core.root(),
        commit: core.commit(),
        blocks: core.blocks(),
    }
}
