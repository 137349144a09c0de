//! Unsigned commits.

ghost use Rattle.std.specs.Prelude.{◌≡◌, IfOk};
ghost use Rattle.spec.specs.Commits.{commit_bytes};
ghost use Rattle.batches.specs.Values.{stamp_of};

use crate::stamp::Stamp;
use cid::{Cid, CidRef};
use signed_commits::SignedCommit;
use std::alloc::{AllocError, Allocator};

/// The bytes of the unsigned commit of a stamp and the root of a tree (AT Protocol repository v3, commit objects: without
/// the field sig, and with no commit before).
pub fn commit_bytes<A: Allocator>(
    alloc: A,
    stamp: &Stamp<A>,
    root: Cid,
) -> Result<Vec<u8, A>, AllocError>
    ensures { IfOk result (λ bytes. bytes.items ≡ commit_bytes (stamp_of stamp.now) root) }
{
    unsigned(alloc, stamp, &root)
}

/// The bytes of the commit without a signature.
fn unsigned<'c, A: Allocator>(
    alloc: A,
    stamp: &'c Stamp<A>,
    root: &'c Cid,
) -> Result<Vec<u8, A>, AllocError>
    ensures { IfOk result (λ bytes. bytes.items ≡ commit_bytes (stamp_of stamp.now) root.now) }
{
    let commit = SignedCommit {
        did: &stamp.did,
        rev: &stamp.rev,
        sig: b"",
        root: CidRef::from(root),
        prev: None,
    };
    let bytes = commit.unsigned_bytes(alloc)?;
    Ok(bytes)
}
