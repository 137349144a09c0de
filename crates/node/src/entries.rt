//! The entries of a node, one after the other.

use crate::entry::EntryView;
use crate::tested::tested_entry;
use std::marker::Model;

/// The entries of a node from the front, each lent by the node's block.
///
/// A contract sees it as the entries that are left, each as its bytes show it.
#[derive(Debug, Drop)]
pub struct Entries<'a> {
    pub(crate) left: u64,
    pub(crate) bytes: &'a [u8],
}

impl<'a> Model for Entries<'a> {
    ghost use Rattle.std.specs.Prelude.{List, IsOk};
    ghost use Rattle.node.specs.Rows.{Row, rows_at, rows_shown};

    ghost Value = { List Row };

    ghost view = { λ s. rows_shown s.left s.bytes.now };

    ghost invariant = { λ s. IsOk (rows_at s.left s.bytes.now) };
}

impl<'a> Iterator for Entries<'a> {
    ghost use Rattle.std.specs.Iterator.{YieldsFirstBy, item_count};
    ghost use Rattle.node.specs.Views.{row_of};

    type Item = EntryView<'a>;

    ghost next_gives = { YieldsFirstBy row_of (λ s. s) };

    ghost remaining = { item_count (λ s. s) };

    fn next(&mut self) -> Option<EntryView<'a>> {
        if self.left == 0 {
            return None;
        }
        let (entry, rest) = tested_entry(self.bytes);
        self.left -= 1;
        self.bytes = rest;
        Some(entry)
    }
}
