//! The blocks that a core keeps, by their CIDs.

ghost use Rattle.std.specs.Prelude.{◌≡◌, ◌<◌, ℕ, nat_eq, map as each, option_map, [], IfSome, IfNone, IfErr, OnOk, OnErr};
ghost use Rattle.std.specs.Arc.{arc_value};
ghost use Rattle.std.specs.Cmp.Lexicographic.{pointwise};
ghost use Rattle.std.specs.List.{IsDistinct};
ghost use Rattle.std.specs.Map.{keys_of};
ghost use Rattle.std.specs.FinMap as map;
ghost use Rattle.store.specs.Faults.{IsRefusalOf};
ghost use Rattle.store.specs.Stores.{IsStore, fulls_after};
ghost use Rattle.kept.specs.Counts.{Counts, AllUsed, ComeAlone, HasNoOther, gained, lost};
ghost use Rattle.kept.specs.Uses.{at, counted, AreNamed, AreUses, lowered_in, IsChanged, IsRaisedIn, IsTaken};
ghost use Rattle.kept.specs.Faults.{IsNotFull, IsRefusalOfOne};
ghost use Rattle.kept.specs.Entering.{Enters, Follows, has_entry, no_block};

use crate::kept_use::Use;
use block::Block;
use cid::{Cid, Digest};
use std::alloc::{AllocError, AllocFailed, Allocator};
use std::collections::HashMap;
use std::collections::hash_map::Iter;
use std::hash::{BuildHasherDefault, FoldHasher};
use std::marker::Model;
use std::sync::Arc;
use store::{BlockStore, Hold, StoreFault};

type Blocks<D, A> = HashMap<Cid, Use<D, A>, BuildHasherDefault<FoldHasher>, A>;

/// Each kept block under its CID, with its uses.
///
/// A contract sees it as a finite map.
pub(crate) struct UseMap<D: Digest, A: Allocator> {
    blocks: Blocks<D, A>,
}

impl<D: Digest, A: Allocator> Model for UseMap<D, A> {
    ghost use Rattle.std.specs.Coded.{codes, coded_list, coded_ℕ};
    ghost use Rattle.std.specs.FinMap as map;
    ghost use Rattle.kept.specs.Uses.{Uses};

    ghost Value = { Uses D A };

    ghost coded = { map.code (coded_list coded_ℕ) (Prim.hlevel codes) };

    ghost view = { λ m. map.from_entries m.blocks.entries };
}

/// Takes an entry out, where there is one.
fn take_one<D: Digest, A: Allocator>(blocks: &mut Blocks<D, A>) -> Option<(Cid, Use<D, A>)>
    ensures taken { IfSome result (λ e. IsTaken blocks.old.entries e blocks.new.entries) }
    ensures none { IfNone result (blocks.old.entries ≡ []) }
    ensures empty { IfNone result (blocks.new.entries ≡ []) }
{
    let cid = *blocks.keys().next()?;
    blocks.remove_entry(&cid)
}

impl<D: Digest, A: Allocator> UseMap<D, A> {
    /// No block so far. It takes no memory yet.
    pub(crate) fn new(alloc: A) -> UseMap<D, A>
        ensures { result ≡ map.empty }
    {
        UseMap {
            blocks: HashMap::new(alloc),
        }
    }

    /// The block of this CID with its uses.
    pub(crate) fn get(&self, cid: &Cid) -> Option<&Use<D, A>>
        ensures { option_map (λ held. held.now) result ≡ at self.now cid.now }
    {
        self.blocks.get(cid)
    }

    /// Each block with its uses under its CID, once.
    pub(crate) fn iter(&self) -> Iter<'_, Cid, Use<D, A>>
        ensures entries { map.from_entries result ≡ self.now }
        ensures distinct { IsDistinct (pointwise nat_eq) (keys_of result) }
    {
        self.blocks.iter()
    }

    /// Tests that no other block is kept under the CID of a block: a collision shows the two.
    pub(crate) fn test_other(&self, block: &Arc<Block<D, A>, A>) -> Result<(), StoreFault<D, A>>
        requires { AreNamed D.digest_of self.now }
        ensures none { OnOk result
            (HasNoOther D.digest_of (counted self.now) (arc_value block.now)) }
        ensures fault { IfErr result (IsRefusalOf D.digest_of (arc_value block.now)) }
        ensures not_full { IfErr result IsNotFull }
    {
        let Some(held) = self.get(&block.cid()) else {
            return Ok(());
        };
        held.test_same(block)
    }

    /// Counts one use less of the block with this CID, where there is one. A block without a use is given back. It takes no
    /// memory.
    fn lower<S: BlockStore<Arc<Block<D, A>, A>, Hold<D, A>, StoreFault<D, A>>>(
        &mut self,
        store: &mut S,
        cid: &Cid,
    )
        ensures lowered { IsChanged lowered_in self.old self.new cid.now }
        ensures fulls { S.fulls store.new ≡ S.fulls store.old }
        ensures followed { Follows D.digest_of S.BlockStore
            (at self.old) (at self.new) store.old store.new }
    {
        let Some(held) = self.blocks.get_mut(cid) else {
            return;
        };
        if held.lower() {
            return;
        }
        if let Some(unused) = self.blocks.remove(cid) {
            unused.give_back(store);
        }
    }

    /// Counts one use less of each of the blocks with these CIDs, where there is one. A block without a use is given back. It
    /// takes no memory.
    pub(crate) fn lose<S: BlockStore<Arc<Block<D, A>, A>, Hold<D, A>, StoreFault<D, A>>>(
        &mut self,
        store: &mut S,
        go: &[Cid],
    )
        ensures lost { counted self.new ≡ lost (counted self.old) go.now }
        ensures fulls { S.fulls store.new ≡ S.fulls store.old }
        ensures followed { Follows D.digest_of S.BlockStore
            (at self.old) (at self.new) store.old store.new }
    {
        for cid in go {
            self.lower(store, cid);
        }
    }

    /// Takes back one use of each of these blocks, which came last, one after the other. It takes no memory.
    fn take_back<S: BlockStore<Arc<Block<D, A>, A>, Hold<D, A>, StoreFault<D, A>>>(
        &mut self,
        store: &mut S,
        came: &[Arc<Block<D, A>, A>],
    )
        ensures taken_back { (before : Counts) → AllUsed before
            → ComeAlone D.digest_of before (each arc_value came.now)
            → counted self.old ≡ gained D.digest_of before (each arc_value came.now)
            → counted self.new ≡ before }
        ensures fulls { S.fulls store.new ≡ S.fulls store.old }
        ensures followed { Follows D.digest_of S.BlockStore
            (at self.old) (at self.new) store.old store.new }
    {
        let mut left = came.len();
        while left > 0 {
            left -= 1;
            self.lower(store, &came[left].cid());
        }
    }

    /// Gives all blocks back. It takes no memory.
    pub(crate) fn end<S: BlockStore<Arc<Block<D, A>, A>, Hold<D, A>, StoreFault<D, A>>>(
        self,
        store: &mut S,
    )
        ensures fulls { S.fulls store.new ≡ S.fulls store.old }
        ensures entered { (me : ℕ) → AreUses D.digest_of me (at self) → Enters D.digest_of
            S.BlockStore me (has_entry self) no_block store.old store.new }
    {
        let UseMap { mut blocks } = self;
        while let Some((_, held)) = take_one(&mut blocks) {
            held.give_back(store);
        }
        blocks.destroy_empty();
    }
}

impl<D: Digest, A: Allocator + Clone> UseMap<D, A> {
    /// Counts one use more of each of these blocks, in their order. What isn't held is acquired for the core, with room made
    /// first. A refusal changes nothing: all that came before it is taken back.
    pub(crate) fn gain<S: BlockStore<Arc<Block<D, A>, A>, Hold<D, A>, StoreFault<D, A>>>(
        &mut self,
        store: &mut S,
        me: u32,
        come: &[Arc<Block<D, A>, A>],
    ) -> Result<(), StoreFault<D, A>>
        requires small { me < 1024 }
        requires uses { AreUses D.digest_of me (at self.old) }
        requires store { IsStore D.digest_of S.BlockStore }
        ensures gained { OnOk result (counted self.new
            ≡ gained D.digest_of (counted self.old) (each arc_value come.now)) }
        ensures alone { OnOk result
            (ComeAlone D.digest_of (counted self.old) (each arc_value come.now)) }
        ensures unchanged { OnErr result (counted self.new ≡ counted self.old) }
        ensures fault { IfErr result (IsRefusalOfOne D.digest_of (each arc_value come.now)) }
        ensures uses { AreUses D.digest_of me (at self.new) }
        ensures fulls { S.fulls store.new ≡ fulls_after (S.fulls store.old) result }
        ensures entered { Enters D.digest_of S.BlockStore me
            (has_entry self.old) (has_entry self.new) store.old store.new }
    {
        self.reserve(come.len())?;
        for (place, block) in come.iter().enumerate() {
            match self.raise(store, me, block) {
                Ok(()) => {}
                Err(fault) => {
                    self.take_back(store, &come[..place]);
                    return Err(fault);
                }
            }
        }
        Ok(())
    }

    /// Makes room for so many blocks more.
    fn reserve(&mut self, more: usize) -> Result<(), AllocError>
        ensures { self.new ≡ self.old }
    {
        self.blocks.reserve(more)
    }

    /// Counts one use more of a block, which is acquired for the core where it isn't held.
    fn raise<S: BlockStore<Arc<Block<D, A>, A>, Hold<D, A>, StoreFault<D, A>>>(
        &mut self,
        store: &mut S,
        me: u32,
        block: &Arc<Block<D, A>, A>,
    ) -> Result<(), StoreFault<D, A>>
        requires small { me < 1024 }
        requires uses { AreUses D.digest_of me (at self.old) }
        requires store { IsStore D.digest_of S.BlockStore }
        ensures raised { OnOk result (IsRaisedIn D.digest_of me self.old self.new
            (arc_value block.now)) }
        ensures unchanged { OnErr result (self.new ≡ self.old) }
        ensures fault { IfErr result (IsRefusalOf D.digest_of (arc_value block.now)) }
        ensures fulls { S.fulls store.new ≡ fulls_after (S.fulls store.old) result }
        ensures entered { Enters D.digest_of S.BlockStore me
            (has_entry self.old) (has_entry self.new) store.old store.new }
    {
        let cid = block.cid();
        if let Some(held) = self.blocks.get_mut(&cid) {
            return held.raise(block);
        }
        let shared = Arc::try_clone(block)?;
        let hold = store.acquire(me, shared)?;
        let before = match self.blocks.insert(cid, Use { hold, uses: 1 }) {
            Ok(before) => before,
            Err(
                AllocFailed {
                    value: (_, refused),
                },
            ) => {
                refused.give_back(store);
                return Err(StoreFault::NoMemory);
            }
        };
        // Never, as nothing stood there.
        if let Some(other) = before {
            other.give_back(store);
        }
        Ok(())
    }
}
