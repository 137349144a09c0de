//! What a source lacks of two trees, plainly: by the nodes of both with their layers, and lists of blocks.

use crate::fixtures::{Known, Trees, key_at};
use crate::plain::has;
use block::Block;
use cid::digests::Toy;
use cid::{Cid, layer};
use node::NodeView;
use scratch::Built;
use std::alloc::{AllocError, Global};
use std::sync::Arc;

type Lent<'a> = &'a [Arc<Block<Toy>>];

/// A node of a tree, and its layer.
#[derive(Clone, Copy)]
struct Placed {
    cid: Cid,
    layer: u16,
}

/// The links of a node come to a list, in order, as nodes of a layer.
fn push_links(nodes: &mut Vec<Placed>, view: &NodeView<'_>, layer: u16) -> Result<(), AllocError> {
    if let Some(link) = view.left() {
        let cid = link.to_cid();
        nodes.push(Placed { cid, layer })?;
    }
    for entry in view.entries() {
        if let Some(link) = entry.tree {
            let cid = link.to_cid();
            nodes.push(Placed { cid, layer })?;
        }
    }
    Ok(())
}

/// The nodes just below one come to a list, in order.
fn push_below(nodes: &mut Vec<Placed>, blocks: Lent<'_>, above: Placed) -> Result<(), AllocError> {
    for block in blocks {
        if block.cid() == above.cid {
            let Some(view) = block.node() else {
                return Ok(());
            };
            return push_links(nodes, &view, above.layer.saturating_sub(1));
        }
    }
    Ok(())
}

/// The layer of the root of the old tree of these keys, or of the new one.
fn top_of(all: &[Known], is_old: bool) -> u16 {
    let mut top = 0;
    for known in all {
        let number = if is_old { known.before } else { known.after };
        if number > 0 {
            top = top.max(layer::<Toy, 2>(key_at(known.place)));
        }
    }
    top
}

/// The nodes of a tree whose root is of a layer, from the top down, those of a layer in order.
fn nodes_of(alloc: Global, tree: &Built<Toy>, top: u16) -> Result<Vec<Placed>, AllocError> {
    let mut nodes = Vec::new(alloc);
    nodes.push(Placed {
        cid: tree.root,
        layer: top,
    })?;
    for place in 0..300usize {
        if place >= nodes.len() {
            return Ok(nodes);
        }
        let above = nodes[place];
        push_below(&mut nodes, &tree.blocks, above)?;
    }
    Ok(nodes)
}

/// The nodes of two trees.
#[derive(Drop)]
pub(crate) struct Layered {
    old: Vec<Placed>,
    new: Vec<Placed>,
    top: u16,
}

impl Layered {
    /// The nodes of the trees of these keys.
    pub(crate) fn of(
        alloc: Global,
        all: &[Known],
        trees: &Trees<Toy>,
    ) -> Result<Layered, AllocError> {
        let old_top = top_of(all, true);
        let new_top = top_of(all, false);
        Ok(Layered {
            old: nodes_of(alloc, &trees.old, old_top)?,
            new: nodes_of(alloc, &trees.new, new_top)?,
            top: old_top.max(new_top),
        })
    }

    /// How many layers the higher tree has.
    pub(crate) fn layers(&self) -> usize {
        usize::from(self.top) + 1
    }

    /// What a source with these blocks lacks of the first layer that isn't all there: the roots, or the nodes of one layer that
    /// just one tree has, the old one's first.
    pub(crate) fn lacked(
        &self,
        alloc: Global,
        trees: &Trees<Toy>,
        had: Lent<'_>,
    ) -> Result<Vec<Cid>, AllocError> {
        let mut lacked = Vec::new(alloc);
        push_lacked(&mut lacked, had, trees.old.root)?;
        push_lacked(&mut lacked, had, trees.new.root)?;
        for down in 0..=self.top {
            if !lacked.is_empty() {
                return Ok(lacked);
            }
            let layer = self.top.saturating_sub(down);
            push_layer(&mut lacked, &self.old, layer, &trees.new.blocks, had)?;
            push_layer(&mut lacked, &self.new, layer, &trees.old.blocks, had)?;
        }
        Ok(lacked)
    }
}

/// A CID comes to a list, if no such block is had.
fn push_lacked(lacked: &mut Vec<Cid>, had: Lent<'_>, cid: Cid) -> Result<(), AllocError> {
    if !has(had, cid) {
        lacked.push(cid)?;
    }
    Ok(())
}

/// The nodes of a tree of one layer come to a list, in order, if the other tree has no such node, and it isn't had.
fn push_layer(
    lacked: &mut Vec<Cid>,
    nodes: &[Placed],
    layer: u16,
    others: Lent<'_>,
    had: Lent<'_>,
) -> Result<(), AllocError> {
    for node in nodes {
        if node.layer == layer && !has(others, node.cid) {
            push_lacked(lacked, had, node.cid)?;
        }
    }
    Ok(())
}
