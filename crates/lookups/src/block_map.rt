//! Blocks in memory as a source.

ghost use Rattle.std.specs.Prelude.{◌≡◌, ◌-◌, ◌^◌, min, IfOk};

use crate::source::Source;
use block::Block;
use cid::{Cid, Digest};
use counts::Count;
use std::alloc::{AllocError, Allocator, Global};
use std::collections::BTreeMap;
use std::marker::Model;
use std::sync::Arc;

/// Blocks in memory by their CIDs, with a count of the reads. Of blocks with one CID it gives the first.
///
/// What it gives is lent by the blocks, and may outlive the map but not them:
///
/// ```compile_fail
/// let lent = {
///     let blocks = build::<Sha256, 2, _, _>(alloc, &pairs)?.blocks;
///     let mut map = BlockMap::new(alloc, &blocks)?;
///     map.get(&root)
/// };
/// // error[borrow-e0597]: `blocks` does not live long enough
/// ```
///
/// A contract sees it as the blocks, and how often one was asked for.
#[derive(Drop)]
pub struct BlockMap<'a, D: Digest, A: Allocator = Global> {
    blocks: &'a [Arc<Block<D, A>, A>],
    places: BTreeMap<Cid, usize, A>,
    reads: u64,
    asked: Count,
}

impl<'a, D: Digest, A: Allocator> Model for BlockMap<'a, D, A> {
    ghost use Rattle.std.specs.Prelude.{ℕ, List};
    ghost use Rattle.std.specs.declared.sync.Arc.{Arc};
    ghost use Rattle.lookups.specs.Maps.{Lending, IsMap};

    ghost Value = { Lending (Arc (List ℕ) A) };

    ghost view = { λ m. record { blocks = m.blocks.now; asked = m.asked.times } };

    ghost invariant = { λ m. IsMap D.digest_of m.blocks.now m.places m.reads m.asked.times };
}

impl<'a, D: Digest, A: Allocator + Clone> BlockMap<'a, D, A> {
    /// A source of these blocks that wasn't asked for any so far, or `AllocError` where memory was refused.
    pub fn new(
        alloc: A,
        blocks: &'a [Arc<Block<D, A>, A>],
    ) -> Result<BlockMap<'a, D, A>, AllocError>
        ensures { IfOk result (λ map. map ≡ record { blocks = blocks.now; asked = 0 }) }
    {
        let mut places = BTreeMap::new(alloc);
        let mut remaining = blocks.len();
        while remaining > 0 {
            remaining -= 1;
            places.insert(blocks[remaining].cid(), remaining)?;
        }
        Ok(BlockMap {
            blocks,
            places,
            reads: 0,
            asked: Count::never(),
        })
    }
}

impl<'a, D: Digest, A: Allocator> BlockMap<'a, D, A> {
    /// How often it was asked for a block, or the greatest number of 64 bits where it was more often.
    pub fn reads(&self) -> u64
        ensures { result ≡ min self.now.asked (2 ^ 64 - 1) }
    {
        self.reads
    }
}

impl<'a, D: Digest, A: Allocator> Source<&'a Arc<Block<D, A>, A>> for BlockMap<'a, D, A> {
    ghost use Rattle.lookups.specs.Maps.{first_of};

    ghost gives = { λ m. first_of D.digest_of m.blocks };

    ghost reads = { λ m. m.asked };

    fn get(&mut self, cid: &Cid) -> Option<&'a Arc<Block<D, A>, A>> {
        self.reads = self.reads.saturating_add(1);
        self.asked = self.asked.once_more();
        let place = *self.places.get(cid)?;
        self.blocks.get(place)
    }
}
