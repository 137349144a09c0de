//! Trees from scratch under a digest whose layers are the keys' last digits.

ghost use Rattle.std.specs.Prelude.{◌≤◌};

use crate::fixtures::{three_pairs, tree_of};
use block::Block;
use cid::digests::Toy;
use std::alloc::Global;
use std::sync::Arc;

/// The bytes of some blocks, in all.
fn bytes_of(blocks: &[Arc<Block<Toy>>]) -> usize {
    let mut bytes = 0usize;
    for block in blocks {
        bytes = bytes.saturating_add(block.bytes().len());
    }
    bytes
}

/// Whether the tree of the three pairs has so many nodes, and so many bytes in all, with `B` zero bits a layer.
fn has_size<const B: u8>(alloc: Global, nodes: usize, bytes: usize) -> bool
    requires least { 1 ≤ B }
    requires most { B ≤ 8 }
{
    match tree_of::<Toy, B, _>(alloc, &three_pairs()) {
        Some(tree) => tree.blocks.len() == nodes && bytes_of(&tree.blocks) == bytes,
        None => false,
    }
}

#[test]
fn tree_of_five_nodes(rt: HostRuntime) {
    let few = has_size::<1>(rt.alloc(), 9, 554) && has_size::<2>(rt.alloc(), 5, 366);
    assert!(rt; few && has_size::<4>(rt.alloc(), 3, 272) && has_size::<8>(rt.alloc(), 1, 174));
}
