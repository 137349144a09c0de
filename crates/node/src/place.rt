//! Where a key stands in a node.

ghost use Rattle.std.specs.Prelude.{◌≡◌, ℕ, List, option_map};
ghost use Rattle.cid.specs.CidRef.{bytes_of};
ghost use Rattle.spec.specs.Proof.{gap_of};
ghost use Rattle.spec.specs.NodeFormat.{Entry};
ghost use Rattle.node.specs.Views.{place_of, IsRowWith};

use crate::entry::EntryView;
use cid::CidRef;

/// Where a key stands in a node.
#[derive(Clone, Copy, Debug)]
pub enum Place<'a> {
    /// At this entry, whose key it is.
    Here(EntryView<'a>),
    /// In a gap that has this link: the subtree of the keys there.
    Below(CidRef<'a>),
    /// In a gap without a subtree.
    Gap,
}

/// A gap with or without a link.
pub(crate) fn place_in_gap(link: Option<CidRef<'_>>) -> Place<'_>
    ensures place { (key : List ℕ) → place_of key result ≡ gap_of (option_map bytes_of link.entry) }
    ensures row { (key : List ℕ) (es : List Entry) → IsRowWith key es result }
{
    match link {
        Some(cid) => Place::Below(cid),
        None => Place::Gap,
    }
}
