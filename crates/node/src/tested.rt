//! The parts of a node that was read before: they are right, so that nothing is tested again.

ghost use Rattle.std.specs.Prelude.{◌≡◌, IfOk, IsOk, Ok, option_map};
ghost use Rattle.spec.specs.NodeFormat.{argument_of, link_at, link_or_null_at, read_node};
ghost use Rattle.cid.specs.CidRef.{bytes_of};
ghost use Rattle.node.specs.Contents.{entries_shown, IsRead};
ghost use Rattle.node.specs.Rows.{row_at};
ghost use Rattle.node.specs.Views.{row_of};

use crate::decode::{BEFORE_OWN_CID, argument};
use crate::entry::EntryView;
use crate::parts::NodeParts;
use cid::CidRef;
use dagcbor::Major;

/// A head of this major type: its argument, and the bytes after it.
fn tested_argument(major: u8, bytes: &[u8]) -> (u64, &[u8])
    requires { IsOk (argument_of major bytes.now) }
    ensures { argument_of major bytes.now ≡ Ok (result.0, result.1.now) }
{
    let Ok(tested) = argument(major, bytes) else {
        unreachable!()
    };
    tested
}

/// A link, and the bytes after it.
fn tested_link(bytes: &[u8]) -> (CidRef<'_>, &[u8])
    requires { IsOk (link_at bytes.now) }
    ensures { link_at bytes.now ≡ Ok (bytes_of result.0, result.1.now) }
{
    let (cid, rest) = bytes[BEFORE_OWN_CID.len()..].split_at(36);
    match CidRef::from_bytes(cid) {
        Some(cid) => (cid, rest),
        None => unreachable!(),
    }
}

/// A link or null, and the bytes after it.
fn tested_link_or_null(bytes: &[u8]) -> (Option<CidRef<'_>>, &[u8])
    requires { IsOk (link_or_null_at bytes.now) }
    ensures { link_or_null_at bytes.now ≡ Ok (option_map bytes_of result.0, result.1.now) }
{
    match bytes {
        [0xf6, rest @ ..] => (None, rest),
        _ => {
            let (cid, rest) = tested_link(bytes);
            (Some(cid), rest)
        }
    }
}

/// An entry, and the bytes after it.
#[tactic(auto, unfolding(crate::specs::Rows::row_at))]
pub(crate) fn tested_entry(bytes: &[u8]) -> (EntryView<'_>, &[u8])
    requires { IsOk (row_at bytes.now) }
    ensures { row_at bytes.now ≡ Ok (row_of result.0, result.1.now) }
{
    let (length, rest) = tested_argument(Major::ByteString as u8, &bytes[3..]);
    let (suffix, rest) = rest.split_at(length as usize);
    let (prefix, rest) = tested_argument(Major::UnsignedInteger as u8, &rest[2..]);
    let (tree, rest) = tested_link_or_null(&rest[2..]);
    let (value, rest) = tested_link(&rest[2..]);
    let entry = EntryView {
        prefix: prefix as usize,
        suffix,
        value,
        tree,
    };
    (entry, rest)
}

/// How many bytes the field of a left link has, its name with them: where it is no null, it is the last of the node.
const LEFT_LINK: usize = 43;

/// The left link of a node. It stands at the end: the last bytes are its field's, or those of a null. In a node with an
/// entry and a null the byte where a link's field would begin is the second one of the last record's link.
fn tested_left(bytes: &[u8]) -> Option<CidRef<'_>>
    requires { IsOk (read_node bytes.now) }
    ensures { IfOk (read_node bytes.now) (λ node. option_map bytes_of result ≡ node.0) }
{
    if bytes.len() < LEFT_LINK {
        return None;
    }
    let start = bytes.len() - LEFT_LINK;
    if bytes[start] != b'a' {
        return None;
    }
    let (link, _) = tested_link(&bytes[start + 2..]);
    Some(link)
}

/// The parts of a node.
pub(crate) fn tested_node(bytes: &[u8]) -> NodeParts<'_>
    requires { IsOk (read_node bytes.now) }
    ensures node { read_node bytes.now
        ≡ Ok (option_map bytes_of result.left, entries_shown result.count result.first.now) }
    ensures read { IsRead (option_map bytes_of result.left) result.count result.first.now }
{
    let (count, first) = tested_argument(Major::Array as u8, &bytes[3..]);
    let left = tested_left(bytes);
    NodeParts { left, count, first }
}
