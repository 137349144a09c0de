//! The nodes of a layer, put in the order of the export with those below it.

ghost use Rattle.std.specs.Prelude.{◌≡◌, ◌∷◌, ◌++◌, map, take, drop, IfOk, OnOk};
ghost use Rattle.std.specs.Arc.{arc_value};
ghost use Rattle.std.specs.Vec.Iter.{into_iter_items};
ghost use Rattle.scratch.specs.Level.{part_from, parts_from, tops_left, under_left};

use crate::rows::Row;
use block::Block;
use cid::Digest;
use std::alloc::{AllocError, Allocator};
use std::sync::Arc;
use std::vec::IntoIter;

/// Nodes of a tree, in the order of the export.
pub type Blocks<D, A> = Vec<Arc<Block<D, A>, A>, A>;

/// The parts with these numbers of nodes: the top of each, followed by those under it.
pub fn merge<D: Digest, A: Allocator + Clone>(
    first: usize,
    rows: &[Row<'_>],
    tops: Vec<Block<D, A>, A>,
    under: Blocks<D, A>,
) -> Result<Blocks<D, A>, AllocError>
    ensures { IfOk result (λ nodes. map arc_value nodes.items
        ≡ parts_from (first ∷ map (λ r. r.nodes_after) rows.now) tops.items
        (map arc_value under.items)) }
{
    let alloc = under.allocator().clone()?;
    let mut nodes = Vec::with_capacity(alloc, tops.len().saturating_add(under.len()))?;
    let mut tops = tops.into_iter();
    let mut under = under.into_iter();
    push_part(&mut nodes, &mut tops, &mut under, first)?;
    for row in rows {
        push_part(&mut nodes, &mut tops, &mut under, row.nodes_after)?;
    }
    Ok(nodes)
}

/// Adds the next part of so many nodes.
fn push_part<D: Digest, A: Allocator + Clone>(
    nodes: &mut Blocks<D, A>,
    tops: &mut IntoIter<Block<D, A>, A>,
    under: &mut IntoIter<Arc<Block<D, A>, A>, A>,
    count: usize,
) -> Result<(), AllocError>
    ensures nodes { OnOk result (map arc_value nodes.new.items ≡ map arc_value nodes.old.items
        ++ part_from count (into_iter_items tops.old) (map arc_value (into_iter_items under.old))) }
    ensures tops { OnOk result (into_iter_items tops.new
        ≡ tops_left count (into_iter_items tops.old)) }
    ensures under { OnOk result (map arc_value (into_iter_items under.new)
        ≡ under_left count (map arc_value (into_iter_items under.old))) }
{
    if count == 0 {
        return Ok(());
    }
    push_top(nodes, tops)?;
    push_under(nodes, under, count - 1)
}

/// Adds the next top.
fn push_top<D: Digest, A: Allocator + Clone>(
    nodes: &mut Blocks<D, A>,
    tops: &mut IntoIter<Block<D, A>, A>,
) -> Result<(), AllocError>
    ensures nodes { OnOk result (map arc_value nodes.new.items
        ≡ map arc_value nodes.old.items ++ take 1 (into_iter_items tops.old)) }
    ensures tops { OnOk result (into_iter_items tops.new ≡ drop 1 (into_iter_items tops.old)) }
{
    let alloc = nodes.allocator().clone()?;
    let Some(top) = tops.next() else {
        return Ok(());
    };
    nodes.push(Arc::new(alloc, top)?)?;
    Ok(())
}

/// Adds the next nodes, so many.
fn push_under<D: Digest, A: Allocator + Clone>(
    nodes: &mut Blocks<D, A>,
    under: &mut IntoIter<Arc<Block<D, A>, A>, A>,
    count: usize,
) -> Result<(), AllocError>
    ensures nodes { OnOk result (map arc_value nodes.new.items
        ≡ map arc_value nodes.old.items ++ take count (map arc_value (into_iter_items under.old))) }
    ensures under { OnOk result (map arc_value (into_iter_items under.new)
        ≡ drop count (map arc_value (into_iter_items under.old))) }
{
    for _ in 0..count {
        let Some(node) = under.next() else {
            return Ok(());
        };
        nodes.push(node)?;
    }
    Ok(())
}
