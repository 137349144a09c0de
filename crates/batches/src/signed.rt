//! Signed commits.

ghost use Rattle.std.specs.Prelude.{◌≡◌, IfOk};
ghost use Rattle.spec.specs.SignedCommits.{signed_bytes};
ghost use Rattle.export_laws.specs.SignedCars.{signed_commit};
ghost use Rattle.batches.specs.Values.{stamp_of};

use crate::stamp::Stamp;
use block::Block;
use cid::{Cid, CidRef, Digest};
use signed_commits::SignedCommit;
use std::alloc::{AllocError, Allocator};

/// The block of the commit of a stamp over a root, with this signature. It names no commit before it.
pub fn signed_block<'c, D: Digest, A: Allocator>(
    alloc: A,
    stamp: &'c Stamp<A>,
    root: &'c Cid,
    signature: &'c [u8],
) -> Result<Block<D, A>, AllocError>
    ensures { IfOk result (λ block. block
        ≡ signed_bytes (signed_commit (stamp_of stamp.now) root.now signature.now)) }
{
    let commit = SignedCommit {
        did: &stamp.did,
        rev: &stamp.rev,
        sig: signature,
        root: CidRef::from(root),
        prev: None,
    };
    let bytes = commit.signed_bytes(alloc)?;
    Ok(Block::of(bytes))
}
