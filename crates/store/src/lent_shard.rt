//! One shard as a store.

ghost use Rattle.std.specs.Prelude.{◌≡◌, ◌<◌, IfErr};
ghost use Rattle.std.specs.Arc.{arc_value};
ghost use Rattle.spec.specs.Cid.{cid as cid_of};
ghost use Rattle.store.specs.Faults.{IsRefusal};
ghost use Rattle.store.specs.Stores.{IsAnswer, IsMade};
ghost use Rattle.store.specs.Table.{left};

use crate::block_store::BlockStore;
use crate::fault::StoreFault;
use crate::shard::{Hold, Shard};
use block::Block;
use cid::Digest;
use counts::Count;
use std::alloc::{Allocator, Global};
use std::sync::Arc;

/// One shard that its single owner lends: a store without a lock, for blocks of any CID.
///
/// Its contract tells what becomes of the shard's table.
#[derive(Drop)]
pub struct LentShard<'a, D: Digest, A: Allocator = Global> {
    shard: &'a mut Shard<D, A>,
    fulls: Count,
}

impl<'a, D: Digest, A: Allocator> LentShard<'a, D, A> {
    /// This shard as a store.
    pub fn new(shard: &'a mut Shard<D, A>) -> LentShard<'a, D, A> {
        LentShard {
            shard,
            fulls: Count::never(),
        }
    }
}

impl<'a, D: Digest, A: Allocator + Clone> BlockStore<
    Arc<Block<D, A>, A>,
    Hold<D, A>,
    StoreFault<D, A>,
> for LentShard<'a, D, A> {
    ghost use Rattle.std.specs.Prelude.{◌≡◌};
    ghost use Rattle.std.specs.Arc.{arc_value};
    ghost use Rattle.spec.specs.Cid.{cid as cid_of};
    ghost use Rattle.store.specs.Stores.{IsAnswer, IsMade};
    ghost use Rattle.store.specs.Table.{left};

    ghost fulls = { λ s. s.fulls.times };

    ghost answers = { λ s b core r t.
        IsAnswer D.digest_of (arc_value b) core s.fulls.times r t.fulls.times };

    ghost makes = { λ s b core r t.
        IsMade D.digest_of (arc_value b) core s.shard.now r t.shard.now };

    ghost leaves = { λ s h t.
        t.shard.now ≡ left s.shard.now (cid_of D.digest_of (arc_value h.0)) h.1 };

    fn acquire(
        &mut self,
        core: u32,
        block: Arc<Block<D, A>, A>,
    ) -> Result<Hold<D, A>, StoreFault<D, A>>
        requires { core < 1024 }
        ensures answer { IsAnswer D.digest_of
            (arc_value block) core self.old.fulls.times result self.new.fulls.times }
        ensures made { IsMade D.digest_of
            (arc_value block) core self.old.shard.now result self.new.shard.now }
        ensures refused { IfErr result (IsRefusal D.digest_of self.old.shard.now
            (arc_value block)) }
    {
        let answer = self.shard.acquire(core, block);
        if matches!(answer, Err(StoreFault::Full)) {
            self.fulls = self.fulls.once_more();
        }
        answer
    }

    fn release(&mut self, hold: Hold<D, A>)
        ensures counted { self.new.fulls.times ≡ self.old.fulls.times }
        ensures left { self.new.shard.now
            ≡ left self.old.shard.now (cid_of D.digest_of (arc_value hold.0)) hold.1 }
    {
        self.shard.release(hold);
    }
}
