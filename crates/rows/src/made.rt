//! The nodes that an edit makes.

ghost use Rattle.std.specs.Prelude.{◌≡◌, ◌∷◌, ◌++◌, [], OnOk};
ghost use Rattle.std.specs.Arc.{arc_value};
ghost use Rattle.edit_laws.specs.Lawful.{HasKeys};
ghost use Rattle.rows.specs.Drafts.{AreSpelled, HaveKeys, IsSpelled, shape_in};

use block::Block;
use cid::Digest;
use std::alloc::{AllocError, Allocator, Global};
use std::clone::Clone;
use std::marker::Model;
use std::sync::Arc;

/// The blocks that an edit makes, in the order in which they are made. Each is a node, with keys of 1 to 1,024 bytes that
/// ascend: only a [`Draft`](crate::Draft) comes to them.
///
/// A contract sees it as the list of the blocks.
#[derive(Drop)]
pub struct Made<D: Digest, A: Allocator = Global> {
    blocks: Vec<Arc<Block<D, A>, A>, A>,
}

impl<D: Digest, A: Allocator> Model for Made<D, A> {
    ghost use Rattle.std.specs.Prelude.{ℕ, List};
    ghost use Rattle.std.specs.declared.sync.Arc.{Arc};
    ghost use Rattle.std.specs.declared.vec.Vec.{Vec};
    ghost use Rattle.rows.specs.Drafts.{AreNodes};

    ghost Value = { Vec (Arc (List ℕ) A) A };

    ghost view = { λ m. m.blocks };

    ghost invariant = { λ m. AreNodes m.blocks.items };
}

impl<D: Digest, A: Allocator> Made<D, A> {
    /// None so far. It takes no memory yet.
    pub fn new(alloc: A) -> Made<D, A>
        ensures { result.items ≡ [] }
    {
        Made {
            blocks: Vec::new(alloc),
        }
    }

    /// Adds the block of a node as the last.
    pub(crate) fn push(&mut self, node: Arc<Block<D, A>, A>) -> Result<(), AllocError>
        requires spelled { IsSpelled (arc_value node) }
        requires keys { HasKeys (shape_in (arc_value node)) }
        ensures { OnOk result (self.new.items ≡ self.old.items ++ node ∷ []) }
    {
        Ok(self.blocks.push(node)?)
    }

    /// Each node has keys of 1 to 1,024 bytes that ascend. This is a statement for proofs alone: it does nothing.
    pub fn have_keys(&self)
        ensures { HaveKeys self.now.items }
    {
        let _ = &self.blocks;
    }

    /// The blocks alone.
    pub fn into_blocks(self) -> Vec<Arc<Block<D, A>, A>, A>
        ensures same { result ≡ self }
        ensures nodes { AreSpelled self.items }
    {
        let Made { blocks } = self;
        blocks
    }
}

impl<D: Digest, A: Allocator + Clone> Made<D, A> {
    /// An allocator for what is made.
    pub(crate) fn alloc(&self) -> Result<A, AllocError> {
        self.blocks.allocator().clone()
    }
}
