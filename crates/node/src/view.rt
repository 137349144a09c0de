//! Nodes as their blocks show them.

ghost use Rattle.std.specs.Prelude.{◌≡◌, ◌∷◌, ◌++◌, [], true, length, option_map, IsOk, Ok};
ghost use Rattle.spec.specs.Reading.{Gives};
ghost use Rattle.spec.specs.NodeFormat.{are_keys_after, entries_bytes, is_node, link_or_null, read_node};
ghost use Rattle.spec.specs.Proof.{place};
ghost use Rattle.cid.specs.CidRef.{bytes_of};
ghost use Rattle.node.specs.Fault.{node_fault_of};
ghost use Rattle.node.specs.Rows.{rows};
ghost use Rattle.node.specs.Search.{gap_before};
ghost use Rattle.node.specs.Views.{place_of, row_of, row_with, IsRowWith};

use crate::entries::Entries;
use crate::entry::EntryView;
use crate::fault::NodeFault;
use crate::parts::{NodeParts, node};
use crate::place::{Place, place_in_gap};
use crate::search::compare_after;
use crate::tested::tested_node;
use cid::CidRef;
use std::cmp::Ordering;
use std::marker::Model;

/// A node as its block shows it (AT Protocol repository v3, MST node data format). Nothing is copied: all of its parts
/// are lent by the block.
///
/// A contract sees it as the left link and the entries with their whole keys.
#[derive(Debug, Drop)]
pub struct NodeView<'a> {
    left: Option<CidRef<'a>>,
    count: u64,
    first: &'a [u8],
}

impl<'a> Model for NodeView<'a> {
    ghost use Rattle.std.specs.Prelude.{option_map};
    ghost use Rattle.cid.specs.CidRef.{bytes_of};
    ghost use Rattle.node.specs.Contents.{Contents, entries_shown, IsRead};

    ghost Value = { Contents };

    ghost view = { λ v. record {
      left = option_map bytes_of v.left;
      entries = entries_shown v.count v.first.now;
    } };

    ghost invariant = { λ v. IsRead (option_map bytes_of v.left) v.count v.first.now };
}

impl<'a> NodeView<'a> {
    /// The node of a block. All of the bytes are read, from the front, and the first fault is answered: `NotNode` where
    /// they depart from the grammar, and of an entry that was read whole `BadPrefix` where it keeps more than the key
    /// before has, else `KeyLength`, else `BadPrefix` where it keeps less than it could, else `KeyOrder`. This takes no
    /// memory and copies nothing.
    pub fn parse(bytes: &'a [u8]) -> Result<NodeView<'a>, NodeFault>
        ensures { Gives (λ view. (view.left, view.entries)) node_fault_of result
            (read_node bytes.now) }
    {
        let _ = node(bytes)?;
        Ok(NodeView::of_tested(bytes))
    }

    /// The node of a block that is known to be one, as its bytes were tested by `parse` before or written as a node's. It
    /// reads a few bytes at both ends and tests nothing, so a look-up over tested blocks takes half the time.
    pub fn of_tested(bytes: &'a [u8]) -> NodeView<'a>
        requires { IsOk (read_node bytes.now) }
        ensures { read_node bytes.now ≡ Ok (result.left, result.entries) }
    {
        let NodeParts { left, count, first } = tested_node(bytes);
        NodeView { left, count, first }
    }

    /// The same node once more: only what is lent is copied.
    pub fn again(&self) -> NodeView<'a>
        ensures { result ≡ self.now }
    {
        NodeView {
            left: self.left,
            count: self.count,
            first: self.first,
        }
    }

    /// The link of the subtree before all keys of the node.
    pub fn left(&self) -> Option<CidRef<'a>>
        ensures { option_map bytes_of result ≡ self.now.left }
    {
        self.left
    }

    /// How many entries it has.
    pub fn entry_count(&self) -> u64
        ensures { result ≡ length self.now.entries }
    {
        self.count
    }

    /// The entries from the front.
    pub fn entries(&self) -> Entries<'a>
        ensures rows { result ≡ rows [] self.now.entries }
        ensures ascending { are_keys_after [] self.now.entries ≡ true }
    {
        Entries {
            left: self.count,
            bytes: self.first,
        }
    }

    /// The bytes of its entries, and the left link behind them.
    pub(crate) fn bytes(&self) -> &'a [u8]
        ensures spelled { result.now ≡ entries_bytes [] self.now.entries
            ++ (0x61 ∷ 0x6c ∷ link_or_null self.now.left) }
        ensures grammar { is_node self.now.left self.now.entries ≡ true }
    {
        self.first
    }

    /// Where a key stands. No key is put together: an entry's suffix decides, or what it keeps of the key before.
    pub fn find(&self, key: &[u8]) -> Place<'a>
        ensures place { place_of key.now result ≡ place key.now self.now.left self.now.entries }
        ensures row { IsRowWith key.now self.now.entries result }
    {
        let sought = self.seek(key);
        match sought.entry {
            Some(entry) => Place::Here(entry),
            None => place_in_gap(sought.gap),
        }
    }

    /// The gap before the first entry that isn't below a key, and that entry, where it is the key's.
    fn seek(&self, key: &[u8]) -> Sought<'a>
        ensures gap { option_map bytes_of result.gap
            ≡ gap_before key.now self.now.left self.now.entries }
        ensures row { option_map row_of result.entry ≡ row_with key.now [] self.now.entries }
    {
        let mut gap = self.left;
        let mut same = 0;
        for entry in self.entries() {
            let (order, common) = compare_after(same, key, &entry);
            match order {
                Ordering::Less => {
                    gap = entry.tree;
                    same = common;
                }
                Ordering::Equal => {
                    let entry = Some(entry);
                    return Sought { gap, entry };
                }
                Ordering::Greater => {
                    let entry = None;
                    return Sought { gap, entry };
                }
            }
        }
        let entry = None;
        Sought { gap, entry }
    }
}

/// What is found where a key is sought: the link before its place, and its entry, where there is one.
#[derive(Drop)]
struct Sought<'a> {
    gap: Option<CidRef<'a>>,
    entry: Option<EntryView<'a>>,
}
