//! Blocks in front of the kept ones, as a source.

use crate::lender::Lender;
use block::Block;
use cid::{Cid, Digest};
use counts::Count;
use lookups::{BlockMap, Source};
use std::alloc::{Allocator, Global};
use std::sync::Arc;

/// Some blocks in front of those that a core keeps, as a source: what it will keep once they have come, and what it keeps now.
#[derive(Drop)]
pub struct LenderWith<'a, D: Digest, A: Allocator = Global> {
    pub(crate) come: BlockMap<'a, D, A>,
    pub(crate) kept: Lender<'a, D, A>,
    pub(crate) asked: Count,
}

impl<'a, D: Digest, A: Allocator> Source<&'a Arc<Block<D, A>, A>> for LenderWith<'a, D, A> {
    ghost use Rattle.lookups.specs.Maps.{first_of};
    ghost use Rattle.kept.specs.Uses.{lent};
    ghost use Rattle.kept.specs.Fronts.{in_front};

    ghost gives = { λ s. in_front (first_of D.digest_of s.come.blocks) (lent s.kept.blocks.now) };

    ghost reads = { λ s. s.asked.times };

    fn get(&mut self, cid: &Cid) -> Option<&'a Arc<Block<D, A>, A>> {
        self.asked = self.asked.once_more();
        match self.come.get(cid) {
            Some(block) => Some(block),
            None => self.kept.get(cid),
        }
    }
}
