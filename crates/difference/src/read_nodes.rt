//! Blocks that were read.

ghost use Rattle.std.specs.Prelude.{◌≡◌};
ghost use Rattle.std.specs.Arc.{arc_value};
ghost use Rattle.lookups.specs.Nodes.{IsNodeOf};
ghost use Rattle.rows.specs.Drafts.{shape_in};

use block::Block;
use cid::Digest;
use std::alloc::{Allocator, Global};
use std::marker::Model;
use std::sync::Arc;

/// A block that a source lent, and that was found to be a node. A contract sees it as the block.
#[derive(Drop)]
pub(crate) struct ReadNode<'a, D: Digest, A: Allocator = Global> {
    block: &'a Arc<Block<D, A>, A>,
}

impl<'a, D: Digest, A: Allocator> Model for ReadNode<'a, D, A> {
    ghost use Rattle.std.specs.Prelude.{ℕ, List};
    ghost use Rattle.std.specs.Arc.{arc_value};
    ghost use Rattle.std.specs.declared.sync.Arc.{Arc};
    ghost use Rattle.lookups.specs.Nodes.{IsNodeOf};
    ghost use Rattle.rows.specs.Drafts.{shape_in};

    ghost Value = { Arc (List ℕ) A };

    ghost view = { λ n. n.block.now };

    ghost invariant = { λ n. IsNodeOf (arc_value n.block.now) (shape_in (arc_value n.block.now)) };
}

impl<'a, D: Digest, A: Allocator> ReadNode<'a, D, A> {
    /// A block that was read as a node.
    pub(crate) fn of(block: &'a Arc<Block<D, A>, A>) -> ReadNode<'a, D, A>
        requires { IsNodeOf (arc_value block.now) (shape_in (arc_value block.now)) }
        ensures { result ≡ block.now }
    {
        ReadNode { block }
    }

    /// The block.
    pub(crate) fn block(&self) -> &'a Arc<Block<D, A>, A>
        ensures same { result.now ≡ self.now }
        ensures node { IsNodeOf (arc_value self.now) (shape_in (arc_value self.now)) }
    {
        self.block
    }
}
