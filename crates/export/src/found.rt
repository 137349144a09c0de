//! Blocks as an export finds them.

ghost use Rattle.export.specs.Founds.{found_in, seen_found};

use block::Block;
use cid::{Cid, Digest};
use kept::Lender;
use lookups::{Given, Source};
use std::alloc::Allocator;
use std::sync::Arc;

/// What a source lends, with a mark where it may stand more than once in what is exported.
#[derive(Drop)]
pub(crate) struct Found<T> {
    pub(crate) lent: T,
    pub(crate) may_repeat: bool,
}

impl<'a, T> Given for Found<&'a T> {
    type Seen = Found<T>;

    ghost seen = { seen_found };
}

/// The blocks of a repository as an export finds them: a block that has one use alone stands once. The look-up of a block
/// tells its uses too.
impl<'a, D: Digest, A: Allocator> Source<Found<&'a Arc<Block<D, A>, A>>> for Lender<'a, D, A> {
    ghost gives = { λ s. found_in s.blocks.now };

    ghost reads = { λ s. s.asked.times };

    #[inline(always)]
    fn get(&mut self, cid: &Cid) -> Option<Found<&'a Arc<Block<D, A>, A>>> {
        let (lent, uses) = self.get_counted(cid)?;
        Some(Found {
            lent,
            may_repeat: uses > 1,
        })
    }
}
