//! What a core keeps.

ghost use Rattle.std.specs.Prelude.{◌≡◌, ◌<◌, map, option_map, IfOk, IfErr, OnOk, OnErr};
ghost use Rattle.std.specs.Arc.{arc_value};
ghost use Rattle.std.specs.List.Sorted.{IsPermutation};
ghost use Rattle.spec.specs.Blocks.{IsClashFree};
ghost use Rattle.lookups.specs.Maps.{first_of};
ghost use Rattle.store.specs.Faults.{IsRefusalOf};
ghost use Rattle.store.specs.Stores.{IsStore, fulls_after};
ghost use Rattle.kept.specs.Counts.{HaveNoOther, count_at, bytes_at, blocks_of, gained, none_kept, exchanged};
ghost use Rattle.kept.specs.Uses.{counted, used_blocks, AreNamed, HasAll, HasUses};
ghost use Rattle.kept.specs.Alone.{AreAlone, IsGivenSame};
ghost use Rattle.kept.specs.Faults.{IsNotFull, IsRefusalOfOne};
ghost use Rattle.kept.specs.Fronts.{LendsAll};
ghost use Rattle.kept.specs.Leaving.{is_held};
ghost use Rattle.kept.specs.Entering.{Enters, EntersKept, no_block};

use crate::blocks::Blocks;
use crate::kept_use::collision;
use crate::lender::Lender;
use crate::lender_with::LenderWith;
use crate::use_map::UseMap;
use block::Block;
use cid::{Cid, Digest};
use counts::Count;
use lookups::{BlockMap, Source};
use std::alloc::{Allocator, Global};
use std::marker::Model;
use std::sync::Arc;
use store::{BlockStore, Hold, StoreFault};

/// The blocks that a core holds, each with how often it is used: at least once.
///
/// It can't be dropped, as no hold can: `end` gives all blocks back. A contract sees it as the core's number and a
/// finite map from CIDs to bytes and counts above 0.
pub struct Kept<D: Digest, A: Allocator = Global> {
    me: u32,
    blocks: UseMap<D, A>,
}

impl<D: Digest, A: Allocator> Model for Kept<D, A> {
    ghost use Rattle.kept.specs.Counts.{Keeping, keeping_code};
    ghost use Rattle.kept.specs.Uses.{keeping_of, IsKept};

    ghost Value = { Keeping };

    ghost coded = { keeping_code };

    ghost view = { λ k. keeping_of k.me k.blocks };

    ghost invariant = { λ k. IsKept D.digest_of k.me k.blocks };
}

impl<D: Digest, A: Allocator> Kept<D, A> {
    /// No block yet, for the core with this number, below 1,024. It takes no memory yet.
    pub fn open(alloc: A, me: u32) -> Kept<D, A>
        requires { me < 1024 }
        ensures { result ≡ none_kept me }
    {
        Kept {
            me,
            blocks: UseMap::new(alloc),
        }
    }

    /// The number of the core, below 1,024.
    pub fn me(&self) -> u32
        ensures value { result ≡ self.now.me }
        ensures small { result < 1024 }
    {
        self.me
    }

    /// The block of this CID, if it is one of these.
    pub fn block(&self, cid: &Cid) -> Option<&Arc<Block<D, A>, A>>
        ensures { option_map (λ b. arc_value b.now) result ≡ bytes_at self.now.uses cid.now }
    {
        let Some(held) = self.blocks.get(cid) else {
            return None;
        };
        Some(held.hold.block())
    }

    /// How often the block of this CID is used: 0 where it isn't one of these.
    pub fn uses(&self, cid: &Cid) -> u64
        ensures { result ≡ count_at self.now.uses cid.now }
    {
        match self.blocks.get(cid) {
            Some(held) => held.uses,
            None => 0,
        }
    }

    /// The blocks, each once, in some order. It takes no memory.
    pub fn blocks(&self) -> Blocks<'_, D, A>
        ensures { IsPermutation (blocks_of self.now.uses) (used_blocks result.entries) }
    {
        Blocks {
            entries: self.blocks.iter(),
        }
    }

    /// The blocks as a source that wasn't asked for any so far.
    pub fn lender(&self) -> Lender<'_, D, A>
        ensures blocks { HasAll result.blocks.now self.now.uses }
        ensures uses { HasUses D.digest_of result.blocks.now self.now.uses }
        ensures asked { result.asked.times ≡ 0 }
    {
        Lender {
            blocks: &self.blocks,
            asked: Count::never(),
        }
    }

    /// Gives all blocks back. It takes no memory and can't fail.
    pub fn end<S: BlockStore<Arc<Block<D, A>, A>, Hold<D, A>, StoreFault<D, A>>>(
        self,
        store: &mut S,
    )
        ensures fulls { S.fulls store.new ≡ S.fulls store.old }
        ensures entered { Enters D.digest_of S.BlockStore self.me
            (is_held self) no_block store.old store.new }
    {
        let Kept { me: _, blocks } = self;
        blocks.end(store);
    }
}

impl<D: Digest, A: Allocator + Clone> Kept<D, A> {
    /// The blocks as a source that wasn't asked for any so far, with others in front that are to come: what is kept once these
    /// have come, and what is kept now. Nothing is acquired.
    ///
    /// `StoreFault::Collision` shows a block that is to come and another one under its CID, which is to come too or is kept, and
    /// `StoreFault::NoMemory` comes where memory was refused. It is no other fault.
    pub fn lender_with<'a>(
        &'a self,
        alloc: A,
        come: &'a [Arc<Block<D, A>, A>],
    ) -> Result<LenderWith<'a, D, A>, StoreFault<D, A>>
        ensures blocks { IfOk result (λ lender. LendsAll D.digest_of lender
            (gained D.digest_of self.now.uses (map arc_value come.now))) }
        ensures no_other { OnOk result
            (HaveNoOther D.digest_of self.now.uses (map arc_value come.now)) }
        ensures clash_free { OnOk result (IsClashFree D.digest_of (map arc_value come.now)) }
        ensures asked { IfOk result (λ lender. lender.asked.times ≡ 0) }
        ensures fault { IfErr result (IsRefusalOfOne D.digest_of (map arc_value come.now)) }
        ensures not_full { IfErr result IsNotFull }
    {
        let mut front = BlockMap::new(alloc, come)?;
        test_alone(&self.blocks, &mut front, come)?;
        Ok(LenderWith {
            come: front,
            kept: self.lender(),
            asked: Count::never(),
        })
    }

    /// Counts one use more of each block that comes, in their order, and then one use less of the block with each of the CIDs
    /// that go, where there is one. What isn't held is acquired, and a block without a use is given back. A block may come
    /// several times, and go several times.
    ///
    /// `StoreFault::Collision` shows a block that comes and the held one where other bytes are held under its CID, here or in
    /// the store; `StoreFault::Full` and `StoreFault::NoMemory` are the store's, the latter also where memory to keep a block
    /// was refused. After a refusal nothing has changed, and what was acquired has been given back.
    pub fn exchange<S: BlockStore<Arc<Block<D, A>, A>, Hold<D, A>, StoreFault<D, A>>>(
        &mut self,
        store: &mut S,
        come: Vec<Arc<Block<D, A>, A>, A>,
        go: &[Cid],
    ) -> Result<(), StoreFault<D, A>>
        requires { IsStore D.digest_of S.BlockStore }
        ensures exchanged { OnOk result (self.new
            ≡ exchanged D.digest_of self.old (map arc_value come.items) go.now) }
        ensures no_other { OnOk result
            (HaveNoOther D.digest_of self.old.uses (map arc_value come.items)) }
        ensures clash_free { OnOk result (IsClashFree D.digest_of (map arc_value come.items)) }
        ensures unchanged { OnErr result (self.new ≡ self.old) }
        ensures fault { IfErr result (IsRefusalOfOne D.digest_of (map arc_value come.items)) }
        ensures fulls { S.fulls store.new ≡ fulls_after (S.fulls store.old) result }
        ensures entered { EntersKept D.digest_of S.BlockStore
            self.old self.new store.old store.new }
    {
        self.blocks.gain(store, self.me, &come)?;
        self.blocks.lose(store, go);
        Ok(())
    }
}

/// Tests of each of some blocks that no other one has its CID, of those in front and of those that are kept: a collision shows
/// two.
fn test_alone<'a, D: Digest, A: Allocator + Clone>(
    kept: &UseMap<D, A>,
    front: &mut BlockMap<'a, D, A>,
    come: &[Arc<Block<D, A>, A>],
) -> Result<(), StoreFault<D, A>>
    requires { AreNamed D.digest_of kept.now }
    ensures alone { OnOk result (AreAlone D.digest_of (first_of D.digest_of front.old.blocks)
        (counted kept.now) (map arc_value come.now)) }
    ensures fault { IfErr result (IsRefusalOfOne D.digest_of (map arc_value come.now)) }
    ensures not_full { IfErr result IsNotFull }
    ensures gives { first_of D.digest_of front.new.blocks
        ≡ first_of D.digest_of front.old.blocks }
{
    for block in come {
        test_first(front, block)?;
        kept.test_other(block)?;
    }
    Ok(())
}

/// Tests that the first of some blocks with the CID of a block, where there is one, is the same: a collision shows the two.
fn test_first<'a, D: Digest, A: Allocator + Clone>(
    blocks: &mut BlockMap<'a, D, A>,
    block: &Arc<Block<D, A>, A>,
) -> Result<(), StoreFault<D, A>>
    ensures same { OnOk result (IsGivenSame D.digest_of
        (first_of D.digest_of blocks.old.blocks) (arc_value block.now)) }
    ensures fault { IfErr result (IsRefusalOf D.digest_of (arc_value block.now)) }
    ensures not_full { IfErr result IsNotFull }
    ensures gives { first_of D.digest_of blocks.new.blocks
        ≡ first_of D.digest_of blocks.old.blocks }
{
    let Some(first) = blocks.get(&block.cid()) else {
        return Ok(());
    };
    if first.bytes() != block.bytes() {
        return Err(collision(block, first));
    }
    Ok(())
}
