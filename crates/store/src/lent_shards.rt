//! Sixteen shards as a store, without locks.

ghost use Rattle.std.specs.Prelude.{◌≡◌, ◌<◌, length, IfErr};
ghost use Rattle.std.specs.Arc.{arc_value};
ghost use Rattle.store.specs.Faults.{IsRefusal};
ghost use Rattle.store.specs.Stores.{IsAnswer};
ghost use Rattle.store.specs.Shards.{AreEmpty, AreShardsOf, IsMadeIn, WasFull, left_in, own_shard};

use crate::block_store::BlockStore;
use crate::fault::StoreFault;
use crate::shard::{Hold, Shard};
use crate::shards::{SHARDS, shard_number};
use block::Block;
use cid::Digest;
use counts::Count;
use std::alloc::{Allocator, Global};
use std::sync::Arc;

/// The sixteen shards of a store that nobody shares, which their owner lends: a store without locks. A block stands in the
/// shard of its CID.
///
/// Where they are lent as new shards, `LIMIT` is how many blocks each may have, and the store answers that it's full only
/// where one of them has so many. Of other shards `LIMIT` is 0, and nothing is said of how many blocks they have.
///
/// Its contract tells what becomes of the tables.
#[derive(Drop)]
pub struct LentShards<'a, D: Digest, const LIMIT: usize, A: Allocator = Global> {
    shards: &'a mut [Shard<D, A>],
    fulls: Count,
    pub ghost sixteen: { length shards.now ≡ 16 },
    pub ghost own: { 0 < LIMIT → AreShardsOf LIMIT shards.now },
    pub ghost full: { 0 < LIMIT → 0 < fulls.times → WasFull D.digest_of LIMIT },
}

impl<'a, D: Digest, const LIMIT: usize, A: Allocator> LentShards<'a, D, LIMIT, A> {
    /// These shards as a store.
    pub fn new(shards: &'a mut [Shard<D, A>; SHARDS]) -> LentShards<'a, D, LIMIT, A>
        requires { 0 < LIMIT → AreEmpty LIMIT shards.old }
        ensures { result.fulls.times ≡ 0 }
    {
        LentShards {
            shards: shards.as_mut_slice(),
            fulls: Count::never(),
        }
    }
}

impl<'a, D: Digest, const LIMIT: usize, A: Allocator + Clone> BlockStore<
    Arc<Block<D, A>, A>,
    Hold<D, A>,
    StoreFault<D, A>,
> for LentShards<'a, D, LIMIT, A> {
    ghost use Rattle.std.specs.Prelude.{◌≡◌};
    ghost use Rattle.std.specs.Arc.{arc_value};
    ghost use Rattle.store.specs.Stores.{IsAnswer};
    ghost use Rattle.store.specs.Shards.{IsMadeIn, left_in};

    ghost fulls = { λ s. s.fulls.times };

    ghost answers = { λ s b core r t.
        IsAnswer D.digest_of (arc_value b) core s.fulls.times r t.fulls.times };

    ghost makes = { λ s b core r t.
        IsMadeIn D.digest_of (arc_value b) core s.shards.now r t.shards.now };

    ghost leaves = { λ s h t. t.shards.now ≡ left_in D.digest_of s.shards.now h };

    fn acquire(
        &mut self,
        core: u32,
        block: Arc<Block<D, A>, A>,
    ) -> Result<Hold<D, A>, StoreFault<D, A>>
        requires { core < 1024 }
        ensures answer { IsAnswer D.digest_of
            (arc_value block) core self.old.fulls.times result self.new.fulls.times }
        ensures made { IsMadeIn D.digest_of
            (arc_value block) core self.old.shards.now result self.new.shards.now }
        ensures refused { IfErr result (IsRefusal D.digest_of
            (own_shard D.digest_of self.old.shards.now (arc_value block)) (arc_value block)) }
    {
        let cid = block.cid();
        let number = shard_number(&cid);
        let shards = &mut *self.shards;
        let answer = shards[number].acquire(core, block);
        if matches!(answer, Err(StoreFault::Full)) {
            // that each block stands under its CID is known here
            let again = &*shards;
            let _ = again[number].count(&cid);
            self.fulls = self.fulls.once_more();
        }
        answer
    }

    fn release(&mut self, hold: Hold<D, A>)
        ensures counted { self.new.fulls.times ≡ self.old.fulls.times }
        ensures left { self.new.shards.now ≡ left_in D.digest_of self.old.shards.now hold }
    {
        let number = shard_number(&hold.cid());
        let shards = &mut *self.shards;
        shards[number].release(hold);
    }
}
