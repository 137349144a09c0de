//! A tree and its pairs, which batches change together.

ghost use Rattle.std.specs.Prelude.{◌≤◌};

use crate::fixtures::{Blocks, Pairs, applied, are_of, blocks_after, tree_of};
use crate::plain::{change_pairs, most_reads};
use cid::{Cid, Digest};
use edit::{BatchEdit, Change};
use std::alloc::Global;

/// The pairs that some batches left, and the root and the blocks that they left.
#[derive(Drop)]
pub(crate) struct History<D: Digest> {
    pub(crate) pairs: Pairs,
    pub(crate) root: Cid,
    pub(crate) blocks: Blocks<D>,
}

/// The history of no batches, over the tree of these pairs.
pub(crate) fn begin<D: Digest, const B: u8>(alloc: Global, pairs: Pairs) -> Option<History<D>>
    requires least { 1 ≤ B }
    requires most { B ≤ 8 }
{
    let tree = tree_of::<D, B>(alloc, &pairs)?;
    Some(History {
        pairs,
        root: tree.root,
        blocks: tree.blocks,
    })
}

impl<D: Digest> History<D> {
    /// Whether the root and the blocks are those of the tree from scratch of the pairs.
    fn is_of_its_pairs<const B: u8>(&self, alloc: Global) -> bool
        requires least { 1 ≤ B }
        requires most { B ≤ 8 }
    {
        match tree_of::<D, B>(alloc, &self.pairs) {
            Some(tree) => are_of(alloc, self.root, &self.blocks, &tree),
            None => false,
        }
    }

    /// Takes what a batch leaves, and answers whether it drops only blocks that were there, and adds only others.
    fn take(&mut self, alloc: Global, edit: &BatchEdit<D>) -> bool {
        let Some(blocks) = blocks_after(alloc, &self.blocks, edit) else {
            return false;
        };
        self.root = edit.root;
        self.blocks = blocks;
        true
    }

    /// Does a batch to the tree, and answers whether the keys had these values before in it, and no more nodes were read.
    fn change_tree<const B: u8>(
        &mut self,
        alloc: Global,
        changes: &[Change<'_>],
        previous: &[Option<Cid>],
        most: u64,
    ) -> bool
        requires least { 1 ≤ B }
        requires most { B ≤ 8 }
    {
        let (answer, reads) = applied::<D, B>(alloc, &self.blocks, self.root, changes);
        match answer {
            Ok(edit) => {
                reads <= most && edit.previous.as_slice() == previous && self.take(alloc, &edit)
            }
            Err(_) => false,
        }
    }

    /// Does a batch to the pairs and to the tree, and answers whether it left the tree from scratch of the pairs, found the
    /// values before, and read no more than it may.
    pub(crate) fn batch<const B: u8>(&mut self, alloc: Global, changes: &[Change<'_>]) -> bool
        requires least { 1 ≤ B }
        requires most { B ≤ 8 }
    {
        let most = most_reads::<D, B>(&self.pairs, changes);
        match change_pairs(alloc, &mut self.pairs, changes) {
            Ok(previous) => {
                self.change_tree::<B>(alloc, changes, &previous, most)
                    && self.is_of_its_pairs::<B>(alloc)
            }
            Err(_) => false,
        }
    }
}
