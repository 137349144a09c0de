//! The parts of a node read from the front of some bytes, each with the bytes after it (AT Protocol repository v3,
//! MST node data format).

ghost use Rattle.std.specs.Prelude.{option_map};
ghost use Rattle.spec.specs.Reading.{Gives, front};
ghost use Rattle.spec.specs.NodeFormat.{literal, argument_of, link_at, link_or_null_at, NotNode as not_node};
ghost use Rattle.cid.specs.CidRef.{bytes_of};
ghost use Rattle.node.specs.Fault.{node_fault_of};
ghost use Rattle.node.specs.Rows.{row_at};
ghost use Rattle.node.specs.Views.{row_of};

use crate::entry::EntryView;
use crate::fault::NodeFault;
use cid::CidRef;
use dagcbor::{BEFORE_CID, Cursor, LINK_HEAD, Major};

/// Takes these very bytes from the front and gives those after them. `NodeFault::NotNode` where others stand there.
pub fn literal<'a>(expected: &[u8], bytes: &'a [u8]) -> Result<&'a [u8], NodeFault>
    ensures { Gives (λ rest. rest.now) node_fault_of result (literal expected.now bytes.now) }
{
    bytes.strip_prefix(expected).ok_or(NodeFault::NotNode)
}

/// A head of this major type: its argument.
#[inline(always)]
pub(crate) fn argument(major: u8, bytes: &[u8]) -> Result<(u64, &[u8]), NodeFault>
    ensures { Gives (λ x. (x.0, x.1.now)) node_fault_of result (argument_of major bytes.now) }
{
    let mut cursor = Cursor::new(bytes);
    match cursor.head() {
        Ok((kind, n)) if kind == major => Ok((n, cursor.rest())),
        _ => Err(NodeFault::NotNode),
    }
}

/// The next `n` bytes.
pub(crate) fn front(n: u64, bytes: &[u8]) -> Result<(&[u8], &[u8]), NodeFault>
    ensures { Gives (λ x. (x.0.now, x.1.now)) node_fault_of result (front not_node n bytes.now) }
{
    let mut reader = Cursor::new(bytes);
    match reader.take(n) {
        Ok(taken) => Ok((taken, reader.rest())),
        Err(_) => Err(NodeFault::NotNode),
    }
}

/// What stands before the CID in a link: the head of the tag, the head of a byte string of 37 bytes, and the byte that
/// belongs to no CID.
pub(crate) const BEFORE_OWN_CID: [u8; 5] = [LINK_HEAD[0], LINK_HEAD[1], 0x58, 37, BEFORE_CID];

/// A link of this host's form and the bytes after it. `NodeFault::NotNode` where there is none.
pub fn link(bytes: &[u8]) -> Result<(CidRef<'_>, &[u8]), NodeFault>
    ensures { Gives (λ x. (bytes_of x.0, x.1.now)) node_fault_of result (link_at bytes.now) }
{
    let rest = literal(&BEFORE_OWN_CID, bytes)?;
    if rest.len() < 36 {
        return Err(NodeFault::NotNode);
    }
    let (cid, rest) = rest.split_at(36);
    match CidRef::from_bytes(cid) {
        Some(cid) => Ok((cid, rest)),
        None => Err(NodeFault::NotNode),
    }
}

/// A link of this host's form, or null, and the bytes after it. `NodeFault::NotNode` where there is neither.
pub fn link_or_null(bytes: &[u8]) -> Result<(Option<CidRef<'_>>, &[u8]), NodeFault>
    ensures { Gives (λ x. (option_map bytes_of x.0, x.1.now)) node_fault_of result
        (link_or_null_at bytes.now) }
{
    match bytes {
        [0xf6, rest @ ..] => Ok((None, rest)),
        _ => {
            let (cid, rest) = link(bytes)?;
            Ok((Some(cid), rest))
        }
    }
}

/// An entry, without the tests against the key before. Two loops call it, as nodes are read with room for few parts of
/// a key or for many; so it and `argument` are inlined by an attribute. By calls, a node takes a third more instructions.
#[tactic(auto, unfolding(crate::specs::Rows::row_at))]
#[inline(always)]
pub(crate) fn entry(bytes: &[u8]) -> Result<(EntryView<'_>, &[u8]), NodeFault>
    ensures { Gives (λ x. (row_of x.0, x.1.now)) node_fault_of result (row_at bytes.now) }
{
    let rest = literal(&[0xa4, b'a', b'k'], bytes)?;
    let (length, rest) = argument(Major::ByteString as u8, rest)?;
    let (suffix, rest) = front(length, rest)?;
    let rest = literal(b"ap", rest)?;
    let (prefix, rest) = argument(Major::UnsignedInteger as u8, rest)?;
    if prefix >= 1 << 63 {
        return Err(NodeFault::NotNode);
    }
    let rest = literal(b"at", rest)?;
    let (tree, rest) = link_or_null(rest)?;
    let rest = literal(b"av", rest)?;
    let (value, rest) = link(rest)?;
    let entry = EntryView {
        prefix: prefix as usize,
        suffix,
        value,
        tree,
    };
    Ok((entry, rest))
}
