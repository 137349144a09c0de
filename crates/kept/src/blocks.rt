//! The kept blocks one by one.

ghost use Rattle.std.specs.Arc.{arc_value};
ghost use Rattle.std.specs.Iterator.{YieldsFirstBy, item_count};
ghost use Rattle.kept.specs.Uses.{used_blocks};

use crate::kept_use::Use;
use block::Block;
use cid::{Cid, Digest};
use std::alloc::{Allocator, Global};
use std::collections::hash_map::Iter;
use std::sync::Arc;

/// The blocks that are kept: those that are left.
#[derive(Drop)]
pub struct Blocks<'a, D: Digest, A: Allocator = Global> {
    pub(crate) entries: Iter<'a, Cid, Use<D, A>>,
}

impl<'a, D: Digest, A: Allocator> Iterator for Blocks<'a, D, A> {
    type Item = &'a Arc<Block<D, A>, A>;

    ghost next_gives = { YieldsFirstBy (λ b. arc_value b.now) (λ left. used_blocks left.entries) };

    ghost remaining = { item_count (λ left. used_blocks left.entries) };

    fn next(&mut self) -> Option<&'a Arc<Block<D, A>, A>> {
        let (_, held) = self.entries.next()?;
        Some(held.hold.block())
    }
}
