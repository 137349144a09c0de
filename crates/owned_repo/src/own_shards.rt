//! The store of one repository.

ghost use Rattle.std.specs.Prelude.{◌≡◌, ◌<◌, length};
ghost use Rattle.std.specs.Arc.{arc_value};
ghost use Rattle.sha2.specs.Sha256.{sha256};
ghost use Rattle.store.specs.Shards.{AreEmpty, AreShardsOf, WasFull};
ghost use Rattle.store.specs.Stores.{IsAnswer};

use block::Block;
use cid::Sha256;
use counts::Count;
use std::alloc::Global;
use std::sync::Arc;
use store::{BlockStore, Hold, SHARDS, Shard, StoreFault, TableKey, empty_shards, shard_number};

/// How many blocks each shard may have.
const MOST_BLOCKS: usize = 1_048_576;

/// Sixteen shards that nobody shares, as a store without locks. It answers that it's full only where one of them has as many
/// blocks as it may have.
#[derive(Drop)]
pub(crate) struct OwnShards {
    shards: [Shard<Sha256>; SHARDS],
    fulls: Count,
    pub ghost sixteen: { length shards ≡ 16 },
    pub ghost own: { AreShardsOf 1048576 shards },
    pub ghost full: { 0 < fulls.times → WasFull sha256 1048576 },
}

impl OwnShards {
    /// Sixteen without blocks.
    pub(crate) fn empty(alloc: Global) -> OwnShards
        ensures { result.fulls.times ≡ 0 }
    {
        OwnShards::of(empty_shards(alloc, MOST_BLOCKS, TableKey::known()))
    }

    /// These, which have none.
    fn of(shards: [Shard<Sha256>; SHARDS]) -> OwnShards
        requires { AreEmpty 1048576 shards }
        ensures { result.fulls.times ≡ 0 }
    {
        OwnShards {
            shards,
            fulls: Count::never(),
        }
    }
}

impl BlockStore<Arc<Block<Sha256>>, Hold<Sha256>, StoreFault<Sha256>> for OwnShards {
    ghost use Rattle.std.specs.Prelude.{◌≡◌, ⊤};
    ghost use Rattle.std.specs.Arc.{arc_value};
    ghost use Rattle.sha2.specs.Sha256.{sha256};
    ghost use Rattle.store.specs.Stores.{IsAnswer};

    ghost fulls = { λ s. s.fulls.times };

    ghost answers = { λ s b core r t.
        IsAnswer sha256 (arc_value b) core s.fulls.times r t.fulls.times };

    ghost makes = { λ s b core r t. ⊤ };

    ghost leaves = { λ s h t. ⊤ };

    fn acquire(
        &mut self,
        core: u32,
        block: Arc<Block<Sha256>>,
    ) -> Result<Hold<Sha256>, StoreFault<Sha256>>
        requires { core < 1024 }
        ensures { IsAnswer sha256
            (arc_value block) core self.old.fulls.times result self.new.fulls.times }
    {
        let cid = block.cid();
        let number = shard_number(&cid);
        let shards = self.shards.as_mut_slice();
        let answer = shards[number].acquire(core, block);
        if matches!(answer, Err(StoreFault::Full)) {
            // that each block stands under its CID is known here
            let again = &*shards;
            let _ = again[number].count(&cid);
            self.fulls = self.fulls.once_more();
        }
        answer
    }

    fn release(&mut self, hold: Hold<Sha256>)
        ensures { self.new.fulls.times ≡ self.old.fulls.times }
    {
        let number = shard_number(&hold.cid());
        let shards = self.shards.as_mut_slice();
        shards[number].release(hold);
    }
}
