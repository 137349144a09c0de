//! The header and the sections of a CAR (CARv1).

ghost use Rattle.std.specs.Prelude.{◌≡◌, ◌+◌, length, IfOk};
ghost use Rattle.spec.specs.Car.{header, section};
ghost use Rattle.export.specs.Outs.{Fails, Takes};

use crate::out::{Failed, Out};
use crate::varint::varint;
use crate::whole::write_three;
use block::Block;
use cid::{Cid, Digest};
use std::alloc::Allocator;

/// The bytes of the header before the CID of the root: its length, and a map with `roots`, a list of one link.
const BEFORE_ROOT: &[u8] = b"\x3a\xa2\x65roots\x81\xd8\x2a\x58\x25\x00";

/// The bytes after it: `version` 1.
const AFTER_ROOT: &[u8] = b"\x67version\x01";

/// How many bytes a header has.
const HEADER: u64 = 59;

/// Writes the header of a CAR with this root, and answers how many bytes that are.
pub(crate) fn write_header<W: Out>(out: &mut W, root: &Cid) -> Result<u64, Failed>
    ensures taken { Takes (W.taken out.old) (W.taken out.new) result (header root.now) }
    ensures failures { Fails (W.failures out.old) (W.failures out.new) result }
    ensures length { IfOk result (λ count. count ≡ length (header root.now)) }
{
    let cid = root.as_bytes();
    write_three(out, BEFORE_ROOT, cid, AFTER_ROOT)?;
    Ok(HEADER)
}

/// Writes the section of a block, and answers how many bytes that are.
#[inline(always)]
pub(crate) fn write_section<D: Digest, A: Allocator, W: Out>(
    out: &mut W,
    block: &Block<D, A>,
) -> Result<u64, Failed>
    ensures taken { Takes (W.taken out.old) (W.taken out.new) result
        (section D.digest_of block.now) }
    ensures failures { Fails (W.failures out.old) (W.failures out.new) result }
    ensures length { IfOk result (λ count. count ≡ length (section D.digest_of block.now)) }
{
    let bytes = block.bytes();
    let cid = block.cid();
    let identifier = cid.as_bytes();
    let size = size_behind(bytes);
    let (length, count) = varint(size);
    write_three(out, &length[..count], identifier, bytes)?;
    Ok(count as u64 + size)
}

/// How many bytes of a section stand behind its length: the CID and the block's bytes.
fn size_behind(bytes: &[u8]) -> u64
    ensures { result ≡ 36 + length bytes.now }
{
    36 + bytes.len() as u64
}
