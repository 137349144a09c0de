//! Gaps of a node, each by where it stands in the node's bytes.

ghost use Rattle.std.specs.Prelude.{◌≡◌, ◌≤◌, ◌+◌, ◌∷◌, true, length, option_map, IfNone, IfSome};
ghost use Rattle.spec.specs.NodeFormat.{is_node};
ghost use Rattle.cid.specs.CidRef.{bytes_of};
ghost use Rattle.node.specs.Gaps.{bytes_behind, rows_behind};
ghost use Rattle.node.specs.Search.{gap_at};
ghost use Rattle.node.specs.Views.{row_of};

use crate::entry::EntryView;
use crate::tested::tested_entry;
use crate::view::NodeView;
use cid::CidRef;
use std::marker::Model;

/// A gap of a node: before its entries, or behind one of them. It knows where it stands in the node's bytes, so that what stands
/// behind it is copied without being read again.
///
/// A contract sees it as the node and the number of entries before the gap.
#[derive(Debug, Drop)]
pub struct Gap<'a> {
    node: NodeView<'a>,
    passed: u64,
    link: Option<CidRef<'a>>,
    rest: &'a [u8],
}

impl<'a> Model for Gap<'a> {
    ghost use Rattle.std.specs.Prelude.{option_map};
    ghost use Rattle.cid.specs.CidRef.{bytes_of};
    ghost use Rattle.node.specs.Gaps.{GapIn, IsGap};

    ghost Value = { GapIn };

    ghost view = { λ g. record { node = g.node; passed = g.passed } };

    ghost invariant = { λ g. IsGap g.node g.passed (option_map bytes_of g.link) g.rest.now };
}

impl<'a> Gap<'a> {
    /// The gap before all entries of a node.
    pub fn first(node: &NodeView<'a>) -> Gap<'a>
        ensures { result ≡ record { node = node.now; passed = 0 } }
    {
        Gap {
            node: node.again(),
            passed: 0,
            link: node.left(),
            rest: node.bytes(),
        }
    }

    /// The same gap once more: only what is lent is copied.
    pub fn again(&self) -> Gap<'a>
        ensures { result ≡ self.now }
    {
        Gap {
            node: self.node.again(),
            passed: self.passed,
            link: self.link,
            rest: self.rest,
        }
    }

    /// How many entries stand before the gap.
    pub fn passed(&self) -> u64
        ensures passed { result ≡ self.now.passed }
        ensures within { result ≤ length self.now.node.entries }
    {
        self.passed
    }

    /// The link in the gap.
    pub fn link(&self) -> Option<CidRef<'a>>
        ensures { option_map bytes_of result
            ≡ gap_at self.now.passed self.now.node.left self.now.node.entries }
    {
        self.link
    }

    /// The bytes behind the gap.
    pub(crate) fn rest(&self) -> &'a [u8]
        ensures spelled { result.now ≡ bytes_behind self.now.passed self.now.node }
        ensures grammar { is_node self.now.node.left self.now.node.entries ≡ true }
    {
        let _ = self.node.bytes();
        self.rest
    }

    /// Goes on to the gap behind the next entry, and answers that entry; `None` where there is none, and then nothing changes.
    pub fn next(&mut self) -> Option<EntryView<'a>>
        ensures entry { IfSome result (λ entry. rows_behind self.old.passed self.old.node
            ≡ row_of entry ∷ rows_behind self.new.passed self.new.node) }
        ensures passed { IfSome result (λ _. self.new
            ≡ record { node = self.old.node; passed = self.old.passed + 1 }) }
        ensures none { IfNone result (self.old.passed ≡ length self.old.node.entries) }
        ensures unchanged { IfNone result (self.new ≡ self.old) }
    {
        if self.passed == self.node.entry_count() {
            return None;
        }
        let _ = self.node.bytes();
        let (entry, rest) = tested_entry(self.rest);
        self.passed += 1;
        self.link = entry.tree;
        self.rest = rest;
        Some(entry)
    }
}
