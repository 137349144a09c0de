//! The locked shards as a store.

ghost use Rattle.std.specs.Prelude.{◌≡◌, ◌<◌};
ghost use Rattle.std.specs.Arc.{arc_value};
ghost use Rattle.store.specs.Stores.{IsAnswer};

use crate::block_store::BlockStore;
use crate::fault::StoreFault;
use crate::shard::{Hold, Shard};
use crate::shards::{SHARDS, Shards, shard_number};
use block::Block;
use cid::Digest;
use counts::Count;
use std::alloc::{Allocator, Global};
use std::sync::{Arc, Mutex, Wait};

/// The sixteen shards that threads share, with the leave to wait for their locks. It waits for one lock at a time, that of
/// the block's shard.
#[derive(Drop)]
pub struct LockedShards<'a, R: Wait, D: Digest, A: Allocator = Global> {
    rt: &'a R,
    // That sixteen locks of an allocator of unknown size fit in memory is known only where the shards are passed.
    locks: [&'a Mutex<Shard<D, A>>; SHARDS],
    fulls: Count,
}

impl<'a, R: Wait, D: Digest, A: Allocator> LockedShards<'a, R, D, A> {
    /// These shards as a store.
    pub fn new(rt: &'a R, shards: &'a Shards<D, A>) -> LockedShards<'a, R, D, A> {
        LockedShards {
            rt,
            locks: shards.locks(),
            fulls: Count::never(),
        }
    }
}

impl<'a, R: Wait, D: Digest, A: Allocator + Clone> BlockStore<
    Arc<Block<D, A>, A>,
    Hold<D, A>,
    StoreFault<D, A>,
> for LockedShards<'a, R, D, A> {
    ghost use Rattle.std.specs.Prelude.{◌≡◌};
    ghost use Rattle.std.specs.Arc.{arc_value};
    ghost use Rattle.store.specs.Stores.{IsAnswer};

    ghost fulls = { λ s. s.fulls.times };

    ghost answers = { λ s b core r t.
        IsAnswer D.digest_of (arc_value b) core s.fulls.times r t.fulls.times };

    // What becomes of a table behind its lock has no place in a contract.
    ghost makes = { λ s b core r t.
        IsAnswer D.digest_of (arc_value b) core s.fulls.times r t.fulls.times };

    ghost leaves = { λ s h t. t.fulls.times ≡ s.fulls.times };

    fn acquire(
        &mut self,
        core: u32,
        block: Arc<Block<D, A>, A>,
    ) -> Result<Hold<D, A>, StoreFault<D, A>>
        requires { core < 1024 }
        ensures answer { IsAnswer D.digest_of
            (arc_value block) core self.old.fulls.times result self.new.fulls.times }
        ensures made { IsAnswer D.digest_of
            (arc_value block) core self.old.fulls.times result self.new.fulls.times }
    {
        let locks = self.locks.as_slice();
        let lock = locks[shard_number(&block.cid())];
        let answer = lock.lock(self.rt).acquire(core, block);
        if matches!(answer, Err(StoreFault::Full)) {
            self.fulls = self.fulls.once_more();
        }
        answer
    }

    fn release(&mut self, hold: Hold<D, A>)
        ensures counted { self.new.fulls.times ≡ self.old.fulls.times }
        ensures left { self.new.fulls.times ≡ self.old.fulls.times }
    {
        let locks = self.locks.as_slice();
        let lock = locks[shard_number(&hold.cid())];
        lock.lock(self.rt).release(hold);
    }
}
