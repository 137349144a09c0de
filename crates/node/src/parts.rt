//! The parts of a node's bytes, all of which are read and tested.

ghost use Rattle.std.specs.Prelude.{◌≡◌, ◌≤◌, [], option_map, IfOk, IfErr, IfSome, OnOk, IsOk, IsSome, Ok};
ghost use Rattle.spec.specs.Reading.{Gives, Fails, IsBytes};
ghost use Rattle.spec.specs.NodeFormat.{entries_at};
ghost use Rattle.cid.specs.CidRef.{bytes_of};
ghost use Rattle.node.specs.Fault.{node_fault_of};
ghost use Rattle.node.specs.Rows.{after_entries, shown_node};
ghost use Rattle.node.specs.Contents.{entries_shown};

use crate::common::LONGEST_KEY;
use crate::decode::{argument, entry, link_or_null, literal};
use crate::fault::NodeFault;
use crate::key_before::KeyBefore;
use cid::CidRef;
use dagcbor::Major;

/// The left link of a node, the number of its entries, and the bytes from the first entry on.
#[derive(Drop)]
pub(crate) struct NodeParts<'a> {
    pub(crate) left: Option<CidRef<'a>>,
    pub(crate) count: u64,
    pub(crate) first: &'a [u8],
}

/// The parts of a node.
#[tactic(auto, unfolding(crate::specs::Rows::shown_node))]
pub(crate) fn node(bytes: &[u8]) -> Result<NodeParts<'_>, NodeFault>
    ensures read { Gives (λ x. (option_map bytes_of x.left, entries_shown x.count x.first.now))
        node_fault_of result (shown_node bytes.now) }
    ensures all { IfOk result (λ x. IsOk (entries_at x.count [] x.first.now)) }
    ensures fits { IfOk result (λ x. IsBytes x.first.now) }
{
    let rest = literal(&[0xa2, b'a', b'e'], bytes)?;
    let (count, first) = argument(Major::Array as u8, rest)?;
    let rest = after_entries(count, first)?;
    let rest = literal(b"al", rest)?;
    let (left, rest) = link_or_null(rest)?;
    if !rest.is_empty() {
        return Err(NodeFault::NotNode);
    }
    Ok(NodeParts { left, count, first })
}

/// How many parts the keys of most nodes have at most.
const USUAL_ROOM: usize = 8;

/// The bytes after so many entries, each of which is tested against the one before. Where a key has more parts than
/// most, all is read again, with room for as many as a key can have.
fn after_entries(count: u64, bytes: &[u8]) -> Result<&[u8], NodeFault>
    ensures read { Gives (λ rest. rest.now) node_fault_of result
        (after_entries count [] bytes.now) }
    ensures all { OnOk result (IsOk (entries_at count [] bytes.now)) }
    ensures fits { OnOk result (IsBytes bytes.now) }
{
    match after_entries_within::<USUAL_ROOM>(count, bytes)? {
        Some(rest) => Ok(rest),
        None => after_entries_of_many_parts(count, bytes),
    }
}

/// The bytes after so many entries. It is not inlined, so that the stack of most readings is without its room.
#[inline(never)]
fn after_entries_of_many_parts(count: u64, bytes: &[u8]) -> Result<&[u8], NodeFault>
    ensures read { Gives (λ rest. rest.now) node_fault_of result
        (after_entries count [] bytes.now) }
    ensures all { OnOk result (IsOk (entries_at count [] bytes.now)) }
    ensures fits { OnOk result (IsBytes bytes.now) }
{
    match after_entries_within::<LONGEST_KEY>(count, bytes)? {
        Some(rest) => Ok(rest),
        None => unreachable!(),
    }
}

/// The bytes after so many entries; none where a key has more parts than there is room for.
fn after_entries_within<const ROOM: usize>(
    count: u64,
    bytes: &[u8],
) -> Result<Option<&[u8]>, NodeFault>
    requires { ROOM ≤ 1024 }
    ensures fault { IfErr result (λ fault. Fails (node_fault_of fault)
        (after_entries count [] bytes.now)) }
    ensures read { IfOk result (λ rest. IfSome rest
        (λ x. after_entries count [] bytes.now ≡ Ok x.now)) }
    ensures room { ROOM ≡ 1024 → IfOk result (λ rest. IsSome rest) }
{
    let mut before = KeyBefore::<ROOM>::none();
    let mut rest = bytes;
    let mut left = count;
    while left > 0 {
        let (entry, after) = entry(rest)?;
        if !before.next(entry.prefix, entry.suffix)? {
            return Ok(None);
        }
        rest = after;
        left -= 1;
    }
    Ok(Some(rest))
}
