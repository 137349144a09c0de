//! Stamps and commits, with no state.

ghost use Rattle.std.specs.Prelude.{◌≡◌, Some, option_map, IfOk};
ghost use Rattle.spec.specs.Commits.{commit_bytes as commit_bytes_of};
ghost use Rattle.spec.specs.Stamps.{is_did as is_did_of, is_tid as is_tid_of, stamp_test};
ghost use Rattle.batches.specs.Values.{stamp_of};
ghost use Rattle.buffers.specs.Framing.{cid_at};
ghost use Rattle.tizulgech.specs.Numbers.{last_rev, stamp_answer, IsCommitted};
ghost use Rattle.buffers.specs.Answers.{IsKept};

use crate::codes::{BAD, NO_MEMORY};
use batches::{Stamp, commit_bytes, is_did, is_tid};
use buffers::{DONE, cid_in, hand};
use cid::Cid;
use std::alloc::{AllocError, Global};

/// Whether these bytes are a DID that a stamp may have.
#[unsafe(no_mangle)]
pub extern "C" fn tizulgech_is_did(did: &[u8]) -> bool
    ensures { result ≡ is_did_of did.now }
{
    is_did(did)
}

/// Whether these bytes are a revision that a stamp may have.
#[unsafe(no_mangle)]
pub extern "C" fn tizulgech_is_tid(rev: &[u8]) -> bool
    ensures { result ≡ is_tid_of rev.now }
{
    is_tid(rev)
}

/// 0 where a stamp passes its test after the revision of the batch before, of which no bytes say that there was none; 27 for
/// its DID, 28 for its revision, 29 for a revision that isn't after the one before.
#[unsafe(no_mangle)]
pub extern "C" fn tizulgech_stamp_fault(before: &[u8], did: &[u8], rev: &[u8]) -> u8
    ensures { result ≡ stamp_answer
        (stamp_test (last_rev before.now) (record { did = did.now; rev = rev.now })) }
{
    if !is_did(did) {
        return 27;
    }
    if !is_tid(rev) {
        return 28;
    }
    if !before.is_empty() && !before.cmp(rev).is_lt() {
        return 29;
    }
    DONE
}

/// A revision, where these aren't no bytes.
pub(crate) fn some_rev(rev: &[u8]) -> Option<&[u8]>
    ensures { option_map (λ rev. rev.now) result ≡ last_rev rev.now }
{
    if rev.is_empty() {
        return None;
    }
    Some(rev)
}

/// The stamp of these bytes.
pub(crate) fn stamp_of_bytes(alloc: Global, did: &[u8], rev: &[u8]) -> Result<Stamp, AllocError>
    ensures { IfOk result (λ stamp. stamp_of stamp ≡ record { did = did.now; rev = rev.now }) }
{
    let did = Vec::from_slice(alloc, did)?;
    let rev = Vec::from_slice(alloc, rev)?;
    Ok(Stamp { did, rev })
}

/// The bytes of the unsigned commit of a stamp, which isn't tested, over the root of a tree: what a host signs.
#[unsafe(no_mangle)]
pub extern "C" fn tizulgech_commit_bytes(
    alloc: Global,
    did: &[u8],
    rev: &[u8],
    root: &[u8],
    out: &mut [u8],
    size: &mut usize,
) -> u8
    ensures answer { IsCommitted result (record { did = did.now; rev = rev.now }) (cid_at root.now)
        out.old out.new size.new }
    ensures kept { IsKept result out.old out.new size.old size.new }
{
    let Some(root) = cid_in(root) else {
        return BAD;
    };
    match commit_of_bytes(alloc, did, rev, root) {
        Ok(bytes) => hand(&bytes, out, size),
        Err(_) => NO_MEMORY,
    }
}

/// The same where there is memory.
fn commit_of_bytes(alloc: Global, did: &[u8], rev: &[u8], root: Cid) -> Result<Vec<u8>, AllocError>
    ensures { IfOk result (λ bytes. bytes.items
        ≡ commit_bytes_of (record { did = did.now; rev = rev.now }) root) }
{
    let stamp = stamp_of_bytes(alloc, did, rev)?;
    commit_bytes(alloc, &stamp, root)
}
