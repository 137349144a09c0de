//! A tree that is made layer by layer, from the lowest up.

ghost use Rattle.std.specs.Prelude.{◌≡◌, true, map, length, IfOk};
ghost use Rattle.std.specs.Arc.{arc_value};
ghost use Rattle.spec.specs.Layer.{layer as layer_of};
ghost use Rattle.spec.specs.NodeFormat.{is_ascending};
ghost use Rattle.scratch.specs.Cut.{raised};
ghost use Rattle.scratch.specs.Level.{cut_with, IsLevel};
ghost use Rattle.scratch.specs.Rows.{pair_of};

use crate::merging::{Blocks, merge};
use crate::nodes::write_layer;
use crate::rows::Row;
use crate::unread::Unread;
use block::Block;
use cid::Digest;
use std::alloc::{AllocError, Allocator};

/// A tree cut at a layer: all nodes below it, in the order of the export, and the rows of this layer and above. So many
/// of the nodes as `first` says stand before the first row, and each row says how many stand between it and the next.
#[derive(Drop)]
pub struct Level<'a, D: Digest, A: Allocator> {
    pub first: usize,
    pub rows: Vec<Row<'a>, A>,
    pub nodes: Blocks<D, A>,
}

/// The cut at the next layer: the nodes of this layer are written, hashed together, and each put before those under it.
pub fn raise<'a, D: Digest, const B: u8, A: Allocator + Clone>(
    level: Level<'a, D, A>,
    layer: u16,
) -> Result<Level<'a, D, A>, AllocError>
    requires level { IsLevel (layer_of D.digest_of B) level.first level.rows.items
        (length level.nodes.items) }
    requires ascending { is_ascending (map pair_of level.rows.items) ≡ true }
    ensures level { IfOk result (λ higher. IsLevel (layer_of D.digest_of B) higher.first
        higher.rows.items (length higher.nodes.items)) }
    ensures cut { IfOk result (λ higher.
        cut_with higher.first higher.rows.items (map arc_value higher.nodes.items)
        ≡ raised D.digest_of (layer_of D.digest_of B) layer (cut_with level.entry.first
        level.entry.rows.items (map arc_value level.entry.nodes.items))) }
{
    let alloc = level.nodes.allocator().clone()?;
    let unread = Unread::<D, B, A>::new(level.first, &level.rows, &level.nodes);
    let written = write_layer(alloc, unread, layer)?;
    let tops = Block::of_each(written.nodes)?;
    let nodes = merge(written.first, &written.rows, tops, level.nodes)?;
    Ok(Level {
        first: written.first,
        rows: written.rows,
        nodes,
    })
}
