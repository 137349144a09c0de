//! The header and the sections of a CAR file (CARv1).

ghost use Rattle.std.specs.Prelude.{◌≡◌, ◌++◌, OnOk};
ghost use Rattle.spec.specs.Car.{header, sized};
ghost use Rattle.spec.specs.Varint.{varint};

use cid::Cid;
use std::alloc::{AllocError, Allocator};

/// The bytes of the header before the CID of the root: its length, and a map with `roots`, a list of one link.
const BEFORE_ROOT: &[u8] = b"\x3a\xa2\x65roots\x81\xd8\x2a\x58\x25\x00";

/// The bytes after it: `version` 1.
const AFTER_ROOT: &[u8] = b"\x67version\x01";

/// Puts the header of a file with this root at the end. `AllocError` comes where memory was refused.
pub fn push_header<A: Allocator>(out: &mut Vec<u8, A>, root: &Cid) -> Result<(), AllocError>
    ensures { OnOk result (out.new.items ≡ out.old.items ++ header root.now) }
{
    out.extend_from_slice(BEFORE_ROOT)?;
    out.extend_from_slice(root.as_bytes())?;
    out.extend_from_slice(AFTER_ROOT)
}

/// Puts the section of a block with this CID at the end: the length of what follows, the CID, and the bytes of the block.
/// `AllocError` comes where memory was refused.
pub fn push_section<A: Allocator>(
    out: &mut Vec<u8, A>,
    cid: &Cid,
    block: &[u8],
) -> Result<(), AllocError>
    ensures { OnOk result (out.new.items ≡ out.old.items ++ sized (cid.now ++ block.now)) }
{
    push_number(out, 36 + block.len() as u64)?;
    out.extend_from_slice(cid.as_bytes())?;
    out.extend_from_slice(block)
}

/// Puts a number at the end, the low seven bits first (multiformats, unsigned-varint).
fn push_number<A: Allocator>(out: &mut Vec<u8, A>, number: u64) -> Result<(), AllocError>
    ensures { OnOk result (out.new.items ≡ out.old.items ++ varint number) }
{
    let mut left = number;
    while left >= 128 {
        out.push((left % 128) as u8 + 128)?;
        left /= 128;
    }
    out.push(left as u8)?;
    Ok(())
}
