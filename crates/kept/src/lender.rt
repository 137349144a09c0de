//! The kept blocks as a source.

ghost use Rattle.std.specs.Prelude.{◌≡◌, suc, option_map, IfSome};
ghost use Rattle.kept.specs.Uses.{at, lent, uses_of};

use crate::use_map::UseMap;
use block::Block;
use cid::{Cid, Digest};
use counts::Count;
use lookups::Source;
use std::alloc::{Allocator, Global};
use std::sync::Arc;

/// The blocks that a core keeps, as a source.
#[derive(Drop)]
pub struct Lender<'a, D: Digest, A: Allocator = Global> {
    pub(crate) blocks: &'a UseMap<D, A>,
    pub(crate) asked: Count,
}

impl<'a, D: Digest, A: Allocator> Lender<'a, D, A> {
    /// The block with this CID, as `get` gives it, with how often it is used: one look-up for both.
    pub fn get_counted(&mut self, cid: &Cid) -> Option<(&'a Arc<Block<D, A>, A>, u64)>
        ensures found { option_map (λ found. found.0.now) result
            ≡ lent self.old.blocks.now cid.now }
        ensures uses { IfSome result
            (λ found. found.1 ≡ uses_of (at self.old.blocks.now cid.now)) }
        ensures same { self.new.blocks.now ≡ self.old.blocks.now }
        ensures counted { self.new.asked.times ≡ suc self.old.asked.times }
    {
        self.asked = self.asked.once_more();
        let held = self.blocks.get(cid)?;
        Some((held.hold.block(), held.uses))
    }
}

impl<'a, D: Digest, A: Allocator> Source<&'a Arc<Block<D, A>, A>> for Lender<'a, D, A> {
    ghost gives = { λ s. lent s.blocks.now };

    ghost reads = { λ s. s.asked.times };

    fn get(&mut self, cid: &Cid) -> Option<&'a Arc<Block<D, A>, A>> {
        self.asked = self.asked.once_more();
        Some(self.blocks.get(cid)?.hold.block())
    }
}
