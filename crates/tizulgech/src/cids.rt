//! The CIDs of many blocks at once.

ghost use Rattle.std.specs.Prelude.{◌≡◌, ◌*◌, ◌<◌, ◌++◌, map, nat_eq, false, IfOk, OnOk};
ghost use Rattle.sha2.specs.Sha256.{sha256};
ghost use Rattle.spec.specs.Cid.{cid as cid_of, prefix};
ghost use Rattle.buffers.specs.Answers.{cids_bytes, IsHanded, IsKept};
ghost use Rattle.buffers.specs.Framing.{cut};
ghost use Rattle.tizulgech.specs.Known.{AreCids};

use crate::codes::{BAD, NO_MEMORY};
use buffers::{SMALL, hand, slices};
use cid::{Cid, Digest, Sha256};
use std::alloc::{AllocError, Global};

/// The CIDs of blocks, 36 bytes each, in their order: 0; 251 where `out` has not the room of `size` bytes, and then nothing is
/// hashed; 252 for what is no list; 255 for want of memory. Several blocks are hashed side by side.
#[unsafe(no_mangle)]
pub extern "C" fn tizulgech_cids(
    alloc: Global,
    blocks: &[u8],
    ends: &[usize],
    out: &mut [u8],
    size: &mut usize,
) -> u8
    ensures answer { nat_eq result 255 ≡ false
        → AreCids result (cut 0 ends.now blocks.now) out.old out.new size.new }
    ensures kept { IsKept result out.old out.new size.old size.new }
{
    let Ok(blocks) = slices(alloc, blocks, ends) else {
        return NO_MEMORY;
    };
    let Some(blocks) = blocks else {
        return BAD;
    };
    cids_told(alloc, &blocks, out, size)
}

/// The same of a list of blocks.
fn cids_told(alloc: Global, blocks: &[&[u8]], out: &mut [u8], size: &mut usize) -> u8
    ensures answer { nat_eq result 255 ≡ false → IsHanded result
        (cids_bytes (map (cid_of sha256) (map (λ block. block.now) blocks.now)))
        out.old out.new size.new }
    ensures kept { IsKept result out.old out.new size.old size.new }
{
    let Some(wanted) = blocks.len().checked_mul(36) else {
        return NO_MEMORY;
    };
    if wanted > out.len() {
        *size = wanted;
        return SMALL;
    }
    match cids_of(alloc, blocks) {
        Ok(bytes) => hand(&bytes, out, size),
        Err(_) => NO_MEMORY,
    }
}

/// The CIDs of blocks, one after another.
fn cids_of(alloc: Global, blocks: &[&[u8]]) -> Result<Vec<u8>, AllocError>
    ensures { IfOk result (λ bytes. bytes.items
        ≡ cids_bytes (map (cid_of sha256) (map (λ block. block.now) blocks.now))) }
{
    let digests = Sha256::digest_each(alloc, blocks)?;
    let mut bytes = Vec::new(alloc);
    push_digests(&mut bytes, &digests)?;
    Ok(bytes)
}

/// Puts the CIDs of blocks with these digests at the end.
#[tactic(auto, using(buffers::proofs::Behind::seen_next))]
fn push_digests(bytes: &mut Vec<u8>, digests: &[[u8; 32]]) -> Result<(), AllocError>
    ensures { OnOk result (bytes.new.items
        ≡ bytes.old.items ++ cids_bytes (map (λ digest. prefix ++ digest) digests.now)) }
{
    for digest in digests {
        bytes.extend_from_slice(Cid::of_digest(digest).as_bytes())?;
    }
    Ok(())
}
