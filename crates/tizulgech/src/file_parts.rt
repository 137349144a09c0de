//! The parts of a file (CARv1) with any root and any blocks.

ghost use Rattle.std.specs.Prelude.{◌≡◌, ◌++◌, IfOk};
ghost use Rattle.spec.specs.Car.{header, sized};
ghost use Rattle.buffers.specs.Answers.{IsKept};
ghost use Rattle.buffers.specs.Framing.{cid_at};
ghost use Rattle.tizulgech.specs.Signing.{IsMadeOf};

use crate::codes::{BAD, NO_MEMORY};
use buffers::{cid_in, hand};
use car_writing::{push_header, push_section};
use cid::Cid;
use std::alloc::{AllocError, Global};

/// The header of a file with this root: 0; 251; 252 for a root that is no CID; 255.
#[unsafe(no_mangle)]
pub extern "C" fn tizulgech_file_head(
    alloc: Global,
    root: &[u8],
    out: &mut [u8],
    size: &mut usize,
) -> u8
    ensures answer { IsMadeOf result header (cid_at root.now) out.old out.new size.new }
    ensures kept { IsKept result out.old out.new size.old size.new }
{
    let Some(root) = cid_in(root) else {
        return BAD;
    };
    match head_bytes(alloc, &root) {
        Ok(bytes) => hand(&bytes, out, size),
        Err(_) => NO_MEMORY,
    }
}

/// The header's bytes.
fn head_bytes(alloc: Global, root: &Cid) -> Result<Vec<u8>, AllocError>
    ensures { IfOk result (λ bytes. bytes.items ≡ header root.now) }
{
    let mut bytes = Vec::new(alloc);
    push_header(&mut bytes, root)?;
    Ok(bytes)
}

/// The section of a block with this CID: the length of what follows (LEB128), the CID and the block. 0; 251; 252 for a CID
/// that is none; 255. Nothing is hashed.
#[unsafe(no_mangle)]
pub extern "C" fn tizulgech_file_section(
    alloc: Global,
    cid: &[u8],
    block: &[u8],
    out: &mut [u8],
    size: &mut usize,
) -> u8
    ensures answer { IsMadeOf result (λ c. sized (c ++ block.now)) (cid_at cid.now)
        out.old out.new size.new }
    ensures kept { IsKept result out.old out.new size.old size.new }
{
    let Some(cid) = cid_in(cid) else {
        return BAD;
    };
    match section_bytes(alloc, &cid, block) {
        Ok(bytes) => hand(&bytes, out, size),
        Err(_) => NO_MEMORY,
    }
}

/// The section's bytes.
fn section_bytes(alloc: Global, cid: &Cid, block: &[u8]) -> Result<Vec<u8>, AllocError>
    ensures { IfOk result (λ bytes. bytes.items ≡ sized (cid.now ++ block.now)) }
{
    let mut bytes = Vec::new(alloc);
    push_section(&mut bytes, cid, block)?;
    Ok(bytes)
}
