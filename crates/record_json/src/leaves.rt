//! Values without others inside, put in DAG-CBOR at the end of bytes.

ghost use Rattle.std.specs.Prelude.{◌≡◌, ◌++◌, OnOk};
ghost use Rattle.spec.specs.DagCbor.{Null, Boolean, Integer, Bytes, Link, string, spelling};

use dagcbor::{BEFORE_CID, LINK_HEAD, Major, push_head};
use std::alloc::{AllocError, Allocator};

pub(crate) fn push_null<A: Allocator>(out: &mut Vec<u8, A>) -> Result<(), AllocError>
    ensures { OnOk result (out.new.items ≡ out.old.items ++ spelling Null) }
{
    out.push(0xf6)?;
    Ok(())
}

pub(crate) fn push_boolean<A: Allocator>(out: &mut Vec<u8, A>, b: bool) -> Result<(), AllocError>
    ensures { OnOk result (out.new.items ≡ out.old.items ++ spelling (Boolean b)) }
{
    out.push(if b { 0xf5 } else { 0xf4 })?;
    Ok(())
}

pub(crate) fn push_integer<A: Allocator>(out: &mut Vec<u8, A>, z: i64) -> Result<(), AllocError>
    ensures { OnOk result (out.new.items ≡ out.old.items ++ spelling (Integer z)) }
{
    if z >= 0 {
        push_head(out, Major::UnsignedInteger as u8, z as u64)
    } else {
        push_head(out, Major::NegativeInteger as u8, (-1 - z) as u64)
    }
}

/// Puts a text, which is also what a key is.
pub(crate) fn push_text<A: Allocator>(out: &mut Vec<u8, A>, text: &str) -> Result<(), AllocError>
    ensures { OnOk result (out.new.items ≡ out.old.items ++ string 3 text.now) }
{
    push_head(out, Major::TextString as u8, text.len() as u64)?;
    out.extend_from_slice(text.as_bytes())
}

pub(crate) fn push_bytes<A: Allocator>(out: &mut Vec<u8, A>, bytes: &[u8]) -> Result<(), AllocError>
    ensures { OnOk result (out.new.items ≡ out.old.items ++ spelling (Bytes bytes.now)) }
{
    push_head(out, Major::ByteString as u8, bytes.len() as u64)?;
    out.extend_from_slice(bytes)
}

pub(crate) fn push_link<A: Allocator>(out: &mut Vec<u8, A>, cid: &[u8]) -> Result<(), AllocError>
    ensures { OnOk result (out.new.items ≡ out.old.items ++ spelling (Link cid.now)) }
{
    out.extend_from_slice(&LINK_HEAD)?;
    push_head(out, Major::ByteString as u8, cid.len() as u64 + 1)?;
    out.push(BEFORE_CID)?;
    out.extend_from_slice(cid)
}
