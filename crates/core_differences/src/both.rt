//! The blocks of two repositories as one source.

ghost use Rattle.std.specs.Prelude.{◌≡◌, option_map};
ghost use Rattle.core_differences.specs.Lent.{own_in};

use block::Block;
use cid::{Cid, Digest};
use counts::Count;
use kept::Lender;
use lookups::Source;
use std::alloc::Allocator;
use std::sync::Arc;

/// The blocks that two cores lend, as one source: of those with one CID the first core's.
///
/// It gives a block that is used and has the CID that is asked for, as all have that a core lends: so that nothing need be known
/// of a lender but what it says of the core's blocks.
#[derive(Drop)]
pub(crate) struct BothCores<'a, D: Digest, A: Allocator> {
    first: Lender<'a, D, A>,
    second: Lender<'a, D, A>,
    asked: Count,
}

impl<'a, D: Digest, A: Allocator> BothCores<'a, D, A> {
    /// Of two lenders, that wasn't asked for any block so far.
    pub(crate) fn new(first: Lender<'a, D, A>, second: Lender<'a, D, A>) -> BothCores<'a, D, A>
        ensures first { result.first ≡ first.entry }
        ensures second { result.second ≡ second.entry }
    {
        BothCores {
            first,
            second,
            asked: Count::never(),
        }
    }
}

impl<'a, D: Digest, A: Allocator> Source<&'a Arc<Block<D, A>, A>> for BothCores<'a, D, A> {
    ghost use Rattle.core_differences.specs.Lent.{lent_by};

    ghost gives = { λ both. lent_by D.digest_of both.first.blocks.now both.second.blocks.now };

    ghost reads = { λ both. both.asked.times };

    fn get(&mut self, cid: &Cid) -> Option<&'a Arc<Block<D, A>, A>> {
        self.asked = self.asked.once_more();
        match own_block(&mut self.first, cid) {
            Some(block) => Some(block),
            None => own_block(&mut self.second, cid),
        }
    }
}

/// The block of this CID that a core lends, which is used and has the CID.
fn own_block<'a, D: Digest, A: Allocator>(
    lender: &mut Lender<'a, D, A>,
    cid: &Cid,
) -> Option<&'a Arc<Block<D, A>, A>>
    ensures own { option_map (λ block. block.now) result
        ≡ own_in D.digest_of lender.old.blocks.now cid.now }
    ensures same { lender.new.blocks.now ≡ lender.old.blocks.now }
{
    let (block, uses) = lender.get_counted(cid)?;
    if uses == 0 {
        return None;
    }
    if block.cid() == *cid {
        Some(block)
    } else {
        None
    }
}
