//! The nodes of one layer, written over those below it.

ghost use Rattle.std.specs.Prelude.{◌≡◌, ◌++◌, true, map, take, length, IfOk, OnOk};
ghost use Rattle.spec.specs.Layer.{layer as layer_of};
ghost use Rattle.spec.specs.NodeFormat.{is_ascending};
ghost use Rattle.scratch.specs.Cut.{counted, node_next, pairs_of_rows, part_next_of};
ghost use Rattle.scratch.specs.Cut.{raised, rows_beyond, rows_raised, tops_of};
ghost use Rattle.scratch.specs.Level.{pair_and_count};
ghost use Rattle.scratch.specs.Rows.{AreLayered};

use crate::rows::Row;
use crate::unread::Unread;
use cid::Digest;
use node::NodeWriter;
use std::alloc::{AllocError, Allocator};

/// The bytes of the nodes of one layer, and the rows above it, each with how many nodes the part after it has now.
#[derive(Drop)]
pub struct Written<'a, A: Allocator> {
    pub first: usize,
    pub rows: Vec<Row<'a>, A>,
    pub nodes: Vec<Vec<u8, A>, A>,
}

/// Writes the nodes of this layer, in the order of their keys, over the parts below it.
pub fn write_layer<'a, D: Digest, const B: u8, A: Allocator + Clone>(
    alloc: A,
    mut unread: Unread<'_, 'a, D, B, A>,
    layer: u16,
) -> Result<Written<'a, A>, AllocError>
    requires { is_ascending (pairs_of_rows unread.rows) ≡ true }
    ensures first { IfOk result (λ written. written.first
        ≡ length (part_next_of D.digest_of (layer_of D.digest_of B) layer unread.entry)) }
    ensures rows { IfOk result (λ written. map pair_and_count written.rows.items
        ≡ counted (rows_raised D.digest_of (layer_of D.digest_of B) layer unread.entry.rows)) }
    ensures layered { IfOk result (λ written.
        AreLayered (layer_of D.digest_of B) written.rows.items) }
    ensures nodes { IfOk result (λ written. map (λ bytes. bytes.items) written.nodes.items
        ≡ tops_of (raised D.digest_of (layer_of D.digest_of B) layer unread.entry)) }
{
    let mut nodes = Vec::new(alloc.clone()?);
    let mut rows = Vec::new(alloc.clone()?);
    let mut writer = NodeWriter::begin(alloc, None)?;
    let first = write_part(&mut writer, &mut nodes, &mut unread, layer)?;
    while let Some(row) = unread.next() {
        let nodes_after = write_part(&mut writer, &mut nodes, &mut unread, layer)?;
        rows.push(Row { nodes_after, ..row })?;
    }
    Ok(Written { first, rows, nodes })
}

/// Takes the next rows of this layer and adds their node, over the part before them and the parts after each of them. The
/// answer is how many nodes it has with those under it: none, where there is neither such a row nor a part before it.
fn write_part<D: Digest, const B: u8, A: Allocator + Clone>(
    writer: &mut NodeWriter<A>,
    nodes: &mut Vec<Vec<u8, A>, A>,
    unread: &mut Unread<'_, '_, D, B, A>,
    layer: u16,
) -> Result<usize, AllocError>
    requires { is_ascending (pairs_of_rows unread.old.rows) ≡ true }
    ensures count { IfOk result (λ count. count
        ≡ length (part_next_of D.digest_of (layer_of D.digest_of B) layer unread.old)) }
    ensures nodes { OnOk result (map (λ bytes. bytes.items) nodes.new.items
        ≡ map (λ bytes. bytes.items) nodes.old.items
        ++ take 1 (part_next_of D.digest_of (layer_of D.digest_of B) layer unread.old)) }
    ensures unread { OnOk result (unread.new.rows
        ≡ rows_beyond (layer_of D.digest_of B) layer unread.old.rows) }
{
    if !unread.is_node_next(layer) {
        return Ok(0);
    }
    let before = unread.node_count();
    let node = write_node(writer, unread, layer)?;
    nodes.push(node)?;
    Ok(before - unread.later_count() + 1)
}

/// Takes the next rows of this layer and writes their node, in the room of the node before.
fn write_node<D: Digest, const B: u8, A: Allocator + Clone>(
    writer: &mut NodeWriter<A>,
    unread: &mut Unread<'_, '_, D, B, A>,
    layer: u16,
) -> Result<Vec<u8, A>, AllocError>
    requires { is_ascending (pairs_of_rows unread.old.rows) ≡ true }
    ensures bytes { IfOk result (λ bytes. bytes.items
        ≡ node_next D.digest_of (layer_of D.digest_of B) layer unread.old.first unread.old.rows) }
    ensures unread { OnOk result (unread.new.rows
        ≡ rows_beyond (layer_of D.digest_of B) layer unread.old.rows) }
{
    let left = unread.link();
    writer.begin_again(left);
    while let Some(row) = unread.next_of(layer) {
        let tree = unread.link();
        writer.entry(row.key, row.value, tree)?;
    }
    Ok(writer.bytes()?)
}
