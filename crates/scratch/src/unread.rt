//! A level of a tree that is taken from the front.

ghost use Rattle.std.specs.Prelude.{◌≡◌, ◌∷◌, ◌<◌, ◌^◌, [], false, length, IfNone, IfSome};
ghost use Rattle.spec.specs.Layer.{layer as layer_of};
ghost use Rattle.scratch.specs.Cut.{is_node_next, is_row_at, link_to, nodes_after, nodes_of};
ghost use Rattle.scratch.specs.Rows.{pair_of};

use crate::rows::Row;
use block::Block;
use cid::{Cid, Digest};
use std::alloc::Allocator;
use std::marker::Model;
use std::sync::Arc;

/// What is still to be taken of a level: the nodes of a part, and rows, each with the part after it.
///
/// A contract sees it as a cut.
#[derive(Drop)]
pub struct Unread<'l, 'a, D: Digest, const B: u8, A: Allocator> {
    first: usize,
    rows: &'l [Row<'a>],
    nodes: &'l [Arc<Block<D, A>, A>],
}

impl<'l, 'a, D: Digest, const B: u8, A: Allocator> Model for Unread<'l, 'a, D, B, A> {
    ghost use Rattle.std.specs.Prelude.{map, length};
    ghost use Rattle.std.specs.Arc.{arc_value};
    ghost use Rattle.spec.specs.Layer.{layer as layer_of};
    ghost use Rattle.scratch.specs.Cut.{Cut};
    ghost use Rattle.scratch.specs.Level.{cut_with, IsLevel};

    ghost Value = { Cut };

    ghost view = { λ u. cut_with u.first u.rows.now (map arc_value u.nodes.now) };

    ghost invariant = { λ u. IsLevel (layer_of D.digest_of B) u.first u.rows.now
        (length u.nodes.now) };
}

impl<'l, 'a, D: Digest, const B: u8, A: Allocator> Unread<'l, 'a, D, B, A> {
    ghost use Rattle.std.specs.Prelude.{map, length};
    ghost use Rattle.std.specs.Arc.{arc_value};
    ghost use Rattle.scratch.specs.Level.{cut_with, IsLevel};

    /// All of these rows and nodes.
    pub fn new(
        first: usize,
        rows: &'l [Row<'a>],
        nodes: &'l [Arc<Block<D, A>, A>],
    ) -> Unread<'l, 'a, D, B, A>
        requires { IsLevel (layer_of D.digest_of B) first rows.now (length nodes.now) }
        ensures { result ≡ cut_with first rows.now (map arc_value nodes.now) }
    {
        Unread { first, rows, nodes }
    }

    /// The link to the part before the next row.
    pub fn link(&self) -> Option<Cid>
        ensures { result ≡ link_to D.digest_of self.now.first }
    {
        if self.first == 0 {
            return None;
        }
        Some(self.nodes.first()?.cid())
    }

    /// Whether the next row is of this layer.
    fn is_at(&self, layer: u16) -> bool
        ensures { result ≡ is_row_at (layer_of D.digest_of B) layer self.now.rows }
    {
        match self.rows.first() {
            Some(row) => row.layer == layer,
            None => false,
        }
    }

    /// Whether there is a node of this layer next: a part below it, or a row of it.
    pub fn is_node_next(&self, layer: u16) -> bool
        ensures { result
            ≡ is_node_next (layer_of D.digest_of B) layer self.now.first self.now.rows }
    {
        self.first != 0 || self.is_at(layer)
    }

    /// Takes the next row, and so the part before it.
    pub fn next(&mut self) -> Option<Row<'a>>
        ensures none { IfNone result (self.old.rows ≡ []) }
        ensures some { IfSome result (λ row. self.old.rows
            ≡ (pair_of row, self.new.first) ∷ self.new.rows) }
        ensures layer { IfSome result (λ row. row.layer ≡ layer_of D.digest_of B row.key.now) }
    {
        let rows = self.rows;
        let row = *rows.first()?;
        self.nodes = &self.nodes[self.first..];
        self.first = row.nodes_after;
        self.rows = &rows[1..];
        Some(row)
    }

    /// Takes the next row, if it is of this layer.
    pub fn next_of(&mut self, layer: u16) -> Option<Row<'a>>
        ensures none { IfNone result
            (is_row_at (layer_of D.digest_of B) layer self.old.rows ≡ false) }
        ensures left { IfNone result (self.new ≡ self.old) }
        ensures some { IfSome result (λ row. self.old.rows
            ≡ (pair_of row, self.new.first) ∷ self.new.rows) }
        ensures layer { IfSome result (λ row. layer_of D.digest_of B row.key.now ≡ layer) }
    {
        if !self.is_at(layer) {
            return None;
        }
        self.next()
    }

    /// How many nodes are left.
    pub fn node_count(&self) -> usize
        ensures count { result ≡ length (nodes_of self.now) }
        ensures few { result < 2 ^ 63 }
    {
        self.nodes.len()
    }

    /// How many nodes are left after the next row.
    pub fn later_count(&self) -> usize
        ensures { result ≡ length (nodes_after self.now.rows) }
    {
        self.nodes.len() - self.first
    }
}
