//! A block that is kept, with its uses.

ghost use Rattle.std.specs.Prelude.{◌≡◌, ◌≢◌, nat_lt, IfErr, OnOk, OnErr};
ghost use Rattle.std.specs.Arc.{arc_value};
ghost use Rattle.store.specs.Faults.{IsRefusalOf};
ghost use Rattle.kept.specs.Uses.{lowered_use, HaveOneCid, raised_use};
ghost use Rattle.kept.specs.Faults.{IsNotFull};

use block::{Block, Collided};
use cid::Digest;
use std::alloc::Allocator;
use std::sync::Arc;
use store::{BlockStore, Hold, StoreFault};

/// A block that a core holds, and how many uses it has.
pub(crate) struct Use<D: Digest, A: Allocator> {
    pub(crate) hold: Hold<D, A>,
    pub(crate) uses: u64,
}

/// Shows that another block is held under the CID of the block that came.
pub(crate) fn collision<D: Digest, A: Allocator>(
    came: &Arc<Block<D, A>, A>,
    held: &Arc<Block<D, A>, A>,
) -> StoreFault<D, A>
    requires one_cid { HaveOneCid D.digest_of (arc_value came.now) (arc_value held.now) }
    requires others { arc_value came.now ≢ arc_value held.now }
    ensures fault { IsRefusalOf D.digest_of (arc_value came.now) result }
    ensures not_full { IsNotFull result }
{
    match Collided::of_shared(came, held) {
        Ok(pair) => StoreFault::Collision(pair),
        Err(_) => StoreFault::NoMemory,
    }
}

impl<D: Digest, A: Allocator> Use<D, A> {
    /// Tests that a block with its CID is the same: another one is a collision.
    pub(crate) fn test_same(&self, block: &Arc<Block<D, A>, A>) -> Result<(), StoreFault<D, A>>
        requires { HaveOneCid D.digest_of (arc_value block.now) (arc_value self.now.hold.0) }
        ensures same_bytes { OnOk result (arc_value self.now.hold.0 ≡ arc_value block.now) }
        ensures fault { IfErr result (IsRefusalOf D.digest_of (arc_value block.now)) }
        ensures not_full { IfErr result IsNotFull }
    {
        if self.hold.block().bytes() != block.bytes() {
            return Err(collision(block, self.hold.block()));
        }
        Ok(())
    }

    /// Counts one use more of the same block. Another block with its CID is a collision.
    pub(crate) fn raise(&mut self, block: &Arc<Block<D, A>, A>) -> Result<(), StoreFault<D, A>>
        requires { HaveOneCid D.digest_of (arc_value block.now) (arc_value self.old.hold.0) }
        ensures raised { OnOk result (self.new ≡ raised_use self.old) }
        ensures same_bytes { OnOk result (arc_value self.old.hold.0 ≡ arc_value block.now) }
        ensures unchanged { OnErr result (self.new ≡ self.old) }
        ensures fault { IfErr result (IsRefusalOf D.digest_of (arc_value block.now)) }
        ensures not_full { IfErr result IsNotFull }
    {
        self.test_same(block)?;
        // Each use has a key or a node in memory, so there is always a greater number.
        let Some(uses) = self.uses.checked_add(1) else {
            return Err(StoreFault::NoMemory);
        };
        self.uses = uses;
        Ok(())
    }

    /// Counts one use less, where there is one, and tells whether the block is still used.
    pub(crate) fn lower(&mut self) -> bool
        ensures lowered { self.new ≡ lowered_use self.old }
        ensures used { result ≡ nat_lt 0 self.new.uses }
    {
        self.uses = self.uses.saturating_sub(1);
        self.uses > 0
    }

    /// Gives the block back to the store. It takes no memory.
    pub(crate) fn give_back<S: BlockStore<Arc<Block<D, A>, A>, Hold<D, A>, StoreFault<D, A>>>(
        self,
        store: &mut S,
    )
        ensures counted { S.fulls store.new ≡ S.fulls store.old }
        ensures left { S.leaves store.old self.hold store.new }
    {
        let Use { hold, uses: _ } = self;
        store.release(hold);
    }
}
