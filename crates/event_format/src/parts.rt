//! Values without others inside and fields that hold them, put in DAG-CBOR at the end of bytes.

ghost use Rattle.std.specs.Prelude.{◌≡◌, ◌++◌, OnOk, false, option_map};
ghost use Rattle.spec.specs.DagCbor.{Boolean, Bytes, Link, Null, string, spelling};
ghost use Rattle.cid.specs.CidRef.{bytes_of};
ghost use Rattle.event_laws.specs.Ops.{link_or_null, text_or_null};

use cid::{Cid, CidRef};
use dagcbor::{BEFORE_CID, LINK_HEAD, Major, push_head};
use std::alloc::{AllocError, Allocator};

/// Puts a text, which is also what a key is.
pub(crate) fn push_text<A: Allocator>(out: &mut Vec<u8, A>, text: &[u8]) -> Result<(), AllocError>
    ensures { OnOk result (out.new.items ≡ out.old.items ++ string 3 text.now) }
{
    push_head(out, Major::TextString as u8, text.len() as u64)?;
    out.extend_from_slice(text)
}

/// Puts null.
fn push_null<A: Allocator>(out: &mut Vec<u8, A>) -> Result<(), AllocError>
    ensures { OnOk result (out.new.items ≡ out.old.items ++ spelling Null) }
{
    out.extend_from_slice(b"\xf6")
}

/// Puts a byte string.
fn push_bytes<A: Allocator>(out: &mut Vec<u8, A>, bytes: &[u8]) -> Result<(), AllocError>
    ensures { OnOk result (out.new.items ≡ out.old.items ++ spelling (Bytes bytes.now)) }
{
    push_head(out, Major::ByteString as u8, bytes.len() as u64)?;
    out.extend_from_slice(bytes)
}

/// Puts a link to the CID of these bytes.
fn push_link_to<A: Allocator>(out: &mut Vec<u8, A>, cid: &[u8]) -> Result<(), AllocError>
    ensures { OnOk result (out.new.items ≡ out.old.items ++ spelling (Link cid.now)) }
{
    out.extend_from_slice(&LINK_HEAD)?;
    push_head(out, Major::ByteString as u8, cid.len() as u64 + 1)?;
    out.push(BEFORE_CID)?;
    out.extend_from_slice(cid)
}

/// Puts a link.
fn push_link<A: Allocator>(out: &mut Vec<u8, A>, cid: CidRef<'_>) -> Result<(), AllocError>
    ensures { OnOk result (out.new.items ≡ out.old.items ++ spelling (Link (bytes_of cid.entry))) }
{
    push_link_to(out, cid.as_bytes())
}

/// Puts a link, or null where there is none.
fn push_link_or_null<A: Allocator>(
    out: &mut Vec<u8, A>,
    cid: &Option<Cid>,
) -> Result<(), AllocError>
    ensures { OnOk result (out.new.items ≡ out.old.items ++ spelling (link_or_null cid.now)) }
{
    match cid {
        Some(cid) => push_link_to(out, cid.as_bytes()),
        None => push_null(out),
    }
}

/// Puts a text, or null where there is none.
fn push_text_or_null<A: Allocator>(
    out: &mut Vec<u8, A>,
    text: Option<&[u8]>,
) -> Result<(), AllocError>
    ensures { OnOk result (out.new.items ≡ out.old.items
        ++ spelling (text_or_null (option_map (λ t. t.now) text.entry))) }
{
    match text {
        Some(text) => push_text(out, text),
        None => push_null(out),
    }
}

// ---- fields

/// Puts a field that holds a text.
pub(crate) fn push_text_field<A: Allocator>(
    out: &mut Vec<u8, A>,
    name: &[u8],
    text: &[u8],
) -> Result<(), AllocError>
    ensures { OnOk result (out.new.items ≡ out.old.items
        ++ (string 3 name.now ++ string 3 text.now)) }
{
    push_text(out, name)?;
    push_text(out, text)
}

/// Puts a field that holds a text, or null where there is none.
pub(crate) fn push_text_or_null_field<A: Allocator>(
    out: &mut Vec<u8, A>,
    name: &[u8],
    text: Option<&[u8]>,
) -> Result<(), AllocError>
    ensures { OnOk result (out.new.items ≡ out.old.items
        ++ (string 3 name.now ++ spelling (text_or_null (option_map (λ t. t.now) text.entry)))) }
{
    push_text(out, name)?;
    push_text_or_null(out, text)
}

/// Puts a field that holds a byte string.
pub(crate) fn push_bytes_field<A: Allocator>(
    out: &mut Vec<u8, A>,
    name: &[u8],
    bytes: &[u8],
) -> Result<(), AllocError>
    ensures { OnOk result (out.new.items ≡ out.old.items
        ++ (string 3 name.now ++ spelling (Bytes bytes.now))) }
{
    push_text(out, name)?;
    push_bytes(out, bytes)
}

/// Puts a field that holds false.
pub(crate) fn push_false_field<A: Allocator>(
    out: &mut Vec<u8, A>,
    name: &[u8],
) -> Result<(), AllocError>
    ensures { OnOk result (out.new.items ≡ out.old.items
        ++ (string 3 name.now ++ spelling (Boolean false))) }
{
    push_text(out, name)?;
    out.extend_from_slice(b"\xf4")
}

/// Puts a field that holds a link.
pub(crate) fn push_link_field<A: Allocator>(
    out: &mut Vec<u8, A>,
    name: &[u8],
    cid: CidRef<'_>,
) -> Result<(), AllocError>
    ensures { OnOk result (out.new.items ≡ out.old.items
        ++ (string 3 name.now ++ spelling (Link (bytes_of cid.entry)))) }
{
    push_text(out, name)?;
    push_link(out, cid)
}

/// Puts a field that holds a link, or null where there is none.
pub(crate) fn push_link_or_null_field<A: Allocator>(
    out: &mut Vec<u8, A>,
    name: &[u8],
    cid: &Option<Cid>,
) -> Result<(), AllocError>
    ensures { OnOk result (out.new.items ≡ out.old.items
        ++ (string 3 name.now ++ spelling (link_or_null cid.now))) }
{
    push_text(out, name)?;
    push_link_or_null(out, cid)
}
