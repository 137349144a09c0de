//! What a core asks of a store.

ghost use Rattle.std.specs.Prelude.{◌≡◌, ◌<◌, ℕ, Result};

/// Where a core acquires and releases its blocks: the sixteen shards behind their locks (`LockedShards`), sixteen without
/// locks that their owner lends (`LentShards`), or one of them (`LentShard`). What is proved over any store holds for each.
///
/// `T` is what holds a block, `Arc<Block<D, A>, A>`; `H` is a core's right to one, `Hold<D, A>`; `F` is `StoreFault<D, A>`.
/// A contract sees how often the answer was `StoreFault::Full`, so that a layer above can say that it answers so only
/// where the store did, and which answers may come. Code over any store asks that these are the answers of an acquire
/// (`IsStore`), which holds for each. It sees too what an acquire and a release may make of the store, so that a layer above
/// can say what its calls have done here, and not in another store: whatever tells of the states of this store for which
/// blocks a core is entered, and follows these steps (`IsReading`), follows what the core holds.
pub trait BlockStore<T, H, F> {
    /// How often the answer was `StoreFault::Full`.
    ghost fulls: { Self → ℕ };

    /// What may be answered for a block and a core, between the store before and the store after.
    ghost answers: { Self → T → ℕ → Result H F → Self → Type 0 };

    /// What an acquire of a block for a core, which was answered so, may make of the store.
    ghost makes: { Self → T → ℕ → Result H F → Self → Type 0 };

    /// What a release of a hold may make of the store.
    ghost leaves: { Self → H → Self → Type 0 };

    /// Enters the core, a number below 1,024, among those that hold the block, and gives the hold.
    ///
    /// `StoreFault::Collision` shows the given and the held block where other bytes are held under the CID,
    /// `StoreFault::Full` says that the block is new and its shard has as many as it may have, and `StoreFault::NoMemory`
    /// comes where memory was refused. After a refusal nothing has changed.
    fn acquire(&mut self, core: u32, block: T) -> Result<H, F>
        requires { core < 1024 }
        ensures answer { answers self.old block core result self.new }
        ensures made { makes self.old block core result self.new };

    /// Takes the hold's core out of those that hold the block. It takes no memory and can't fail.
    fn release(&mut self, hold: H)
        ensures counted { fulls self.new ≡ fulls self.old }
        ensures left { leaves self.old hold self.new };
}
