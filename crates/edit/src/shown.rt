//! What shows a block.

ghost use Rattle.std.specs.Prelude.{◌≡◌, ℕ, List};
ghost use Rattle.std.specs.Arc.{arc_value};

use crate::edge::ReadNode;
use block::Block;
use cid::Digest;
use std::alloc::Allocator;
use std::sync::Arc;

/// What shows a block: a node that was read, or a block itself.
pub(crate) trait Shown<D: Digest, A: Allocator> {
    /// The bytes of the block.
    ghost bytes: { Self → List ℕ };

    /// The block.
    fn shown(&self) -> &Arc<Block<D, A>, A>
        ensures { arc_value result.now ≡ bytes self.now };
}

impl<'a, D: Digest, A: Allocator> Shown<D, A> for ReadNode<'a, D, A> {
    ghost bytes = { arc_value };

    fn shown(&self) -> &Arc<Block<D, A>, A> {
        self.block()
    }
}

impl<D: Digest, A: Allocator> Shown<D, A> for Arc<Block<D, A>, A> {
    ghost bytes = { arc_value };

    fn shown(&self) -> &Arc<Block<D, A>, A> {
        self
    }
}
