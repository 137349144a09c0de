//! The parts of a node's bytes (AT Protocol repository v3, MST node data format). Where memory is refused, what
//! stood in the bytes before stays at their front.

ghost use Rattle.std.specs.Prelude.{◌≡◌, ◌+◌, ◌∷◌, ◌++◌, length, true, OnOk, option_map};
ghost use Rattle.spec.specs.Cid.{link};
ghost use Rattle.spec.specs.Head.{head};
ghost use Rattle.spec.specs.NodeFormat.{link_or_null, is_own_cid_or_none};
ghost use Rattle.cid.specs.CidRef.{bytes_of};
ghost use Rattle.node.specs.Bytes.{Extends, entry_text};

use cid::{Cid, CidRef};
use dagcbor::{BEFORE_CID, LINK_HEAD, Major, push_head};
use std::alloc::{AllocError, Allocator};

/// The head of an entry and that of its suffix: `k`.
fn push_suffix_head<A: Allocator>(out: &mut Vec<u8, A>, len: usize) -> Result<(), AllocError>
    ensures ok { OnOk result (out.new.items ≡ out.old.items
        ++ (0xa4 ∷ 0x61 ∷ 0x6b ∷ head 2 len)) }
    ensures kept { Extends out.old.items out.new.items }
{
    if len < 24 {
        return out.extend_from_slice(&[0xa4, b'a', b'k', 0x40 + len as u8]);
    }
    out.extend_from_slice(&[0xa4, b'a', b'k'])?;
    push_head(out, Major::ByteString as u8, len as u64)
}

/// How much an entry keeps of the key before: `p`.
fn push_prefix<A: Allocator>(out: &mut Vec<u8, A>, prefix: usize) -> Result<(), AllocError>
    ensures ok { OnOk result (out.new.items ≡ out.old.items
        ++ (0x61 ∷ 0x70 ∷ head 0 prefix)) }
    ensures kept { Extends out.old.items out.new.items }
{
    if prefix < 24 {
        return out.extend_from_slice(&[b'a', b'p', prefix as u8]);
    }
    if prefix < 0x100 {
        return out.extend_from_slice(&[b'a', b'p', 24, prefix as u8]);
    }
    out.extend_from_slice(&[b'a', b'p'])?;
    push_head(out, Major::UnsignedInteger as u8, prefix as u64)
}

/// The head of an entry, its suffix and how much of the key before it keeps: `k` and `p`.
pub(crate) fn push_key<A: Allocator>(
    out: &mut Vec<u8, A>,
    prefix: usize,
    suffix: &[u8],
) -> Result<(), AllocError>
    ensures ok { OnOk result (out.new.items ≡ out.old.items
        ++ ((0xa4 ∷ 0x61 ∷ 0x6b ∷ head 2 (length suffix.now)) ++ suffix.now
        ++ (0x61 ∷ 0x70 ∷ head 0 prefix))) }
    ensures kept { Extends out.old.items out.new.items }
{
    push_suffix_head(out, suffix.len())?;
    out.extend_from_slice(suffix)?;
    push_prefix(out, prefix)
}

/// A field of one letter that holds a link or null.
pub(crate) fn push_link<A: Allocator>(
    out: &mut Vec<u8, A>,
    name: u8,
    link: Option<CidRef<'_>>,
) -> Result<(), AllocError>
    ensures ok { OnOk result (out.new.items ≡ out.old.items
        ++ (0x61 ∷ name ∷ link_or_null (option_map bytes_of link.entry))) }
    ensures kept { Extends out.old.items out.new.items }
{
    match link {
        None => out.extend_from_slice(&[b'a', name, 0xf6]),
        Some(cid) => {
            out.extend_from_slice(&[b'a', name, LINK_HEAD[0], LINK_HEAD[1], 0x58, 37, BEFORE_CID])?;
            out.extend_from_slice(cid.as_bytes())
        }
    }
}

/// How many bytes the field of a record's link has, its name with them: the last one of each entry.
pub(crate) const VALUE_FIELD: usize = 43;

/// How many bytes the field of a link or null has, its name of one letter with them.
pub(crate) fn field_len(link: Option<CidRef<'_>>) -> usize
    ensures { result ≡ 2 + length (link_or_null (option_map bytes_of link.entry)) }
{
    match link {
        Some(_) => VALUE_FIELD,
        None => 3,
    }
}

/// A link as it is lent.
pub(crate) fn lend(link: &Option<Cid>) -> Option<CidRef<'_>>
    ensures value { option_map bytes_of result ≡ link.now }
    ensures own { is_own_cid_or_none link.now ≡ true }
{
    match link {
        None => None,
        Some(cid) => Some(CidRef::from(cid)),
    }
}

/// The links of an entry: `t`, the subtree after it, and `v`, its value. Most entries have no subtree.
fn push_links<A: Allocator>(
    out: &mut Vec<u8, A>,
    tree: Option<CidRef<'_>>,
    value: CidRef<'_>,
) -> Result<(), AllocError>
    ensures ok { OnOk result (out.new.items ≡ out.old.items
        ++ ((0x61 ∷ 0x74 ∷ link_or_null (option_map bytes_of tree.entry))
        ++ (0x61 ∷ 0x76 ∷ link (bytes_of value.entry)))) }
    ensures kept { Extends out.old.items out.new.items }
{
    if tree.is_some() {
        push_link(out, b't', tree)?;
        return push_link(out, b'v', Some(value));
    }
    out.extend_from_slice(&[
        b'a',
        b't',
        0xf6,
        b'a',
        b'v',
        LINK_HEAD[0],
        LINK_HEAD[1],
        0x58,
        37,
        BEFORE_CID,
    ])?;
    out.extend_from_slice(value.as_bytes())
}

/// How many bytes an entry has at most beside its suffix.
const FIELDS: usize = 109;

/// An entry: what its key has beyond the first `prefix` bytes of the key before, its subtree and its value.
pub(crate) fn push_entry<A: Allocator>(
    out: &mut Vec<u8, A>,
    prefix: usize,
    suffix: &[u8],
    value: CidRef<'_>,
    tree: Option<CidRef<'_>>,
) -> Result<(), AllocError>
    ensures ok { OnOk result (out.new.items ≡ out.old.items
        ++ entry_text prefix suffix.now (bytes_of value.entry) (option_map bytes_of tree.entry)) }
    ensures kept { Extends out.old.items out.new.items }
{
    out.reserve(suffix.len().saturating_add(FIELDS))?;
    push_key(out, prefix, suffix)?;
    push_links(out, tree, value)
}
