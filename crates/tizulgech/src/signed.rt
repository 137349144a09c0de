//! Signed commits over any root, written and read.

ghost use Rattle.std.specs.Prelude.{◌≡◌, ◌++◌, option_map, IfOk, OnOk};
ghost use Rattle.spec.specs.SignedCommits.{read_commit as read_commit_of, signed_bytes as signed_bytes_of};
ghost use Rattle.export_laws.specs.SignedCars.{signed_commit};
ghost use Rattle.cid.specs.CidRef.{bytes_of};
ghost use Rattle.signed_commits.specs.Views.{commit_of};
ghost use Rattle.buffers.specs.Answers.{value_bytes, IsKept};
ghost use Rattle.buffers.specs.Framing.{cid_at};
ghost use Rattle.tizulgech.specs.Numbers.{IsHandedOr255};
ghost use Rattle.tizulgech.specs.Signing.{commit_code, commit_spelt, IsCommitRead, IsCommitTold, IsMadeOf};

use crate::codes::{BAD, NO_MEMORY};
use buffers::{cid_in, hand, push_part, push_value};
use cid::{Cid, CidRef};
use signed_commits::{CommitFault, SignedCommit, read_commit};
use std::alloc::{AllocError, Global};

/// The DID of a commit isn't one.
const COMMIT_DID: u8 = 101;
/// The revision of a commit isn't a timestamp identifier.
const COMMIT_REV: u8 = 102;

/// The bytes of the signed commit of a stamp, which isn't tested, over the root of a tree (AT Protocol repository v3, commit
/// objects): the block that a repository's file begins with and a message names. 0; 251; 252 for a root that is no CID; 255.
#[unsafe(no_mangle)]
pub extern "C" fn tizulgech_signed_commit(
    alloc: Global,
    did: &[u8],
    rev: &[u8],
    root: &[u8],
    sig: &[u8],
    out: &mut [u8],
    size: &mut usize,
) -> u8
    ensures answer { IsMadeOf result (λ c. signed_bytes_of
        (signed_commit (record { did = did.now; rev = rev.now }) c sig.now)) (cid_at root.now)
        out.old out.new size.new }
    ensures kept { IsKept result out.old out.new size.old size.new }
{
    let Some(root) = cid_in(root) else {
        return BAD;
    };
    match signed_bytes(alloc, did, rev, &root, sig) {
        Ok(bytes) => hand(&bytes, out, size),
        Err(_) => NO_MEMORY,
    }
}

/// The bytes of a signed commit.
fn signed_bytes<'c>(
    alloc: Global,
    did: &'c [u8],
    rev: &'c [u8],
    root: &'c Cid,
    sig: &'c [u8],
) -> Result<Vec<u8>, AllocError>
    ensures { IfOk result (λ bytes. bytes.items ≡ signed_bytes_of
        (signed_commit (record { did = did.now; rev = rev.now }) root.now sig.now)) }
{
    let commit = SignedCommit {
        did,
        rev,
        sig,
        root: CidRef::from(root),
        prev: None,
    };
    commit.signed_bytes(alloc)
}

/// What the signed commit of these bytes says: 0 and whose repository it is, the revision, the root, the commit before or
/// zeros, the signature and the bytes that were signed; 100 where the bytes are none, 101 for its DID, 102 for its revision;
/// 251; 255. Nothing tests the signature.
#[unsafe(no_mangle)]
#[tactic(auto, using(crate::proofs::CommitNumbers::commit_told))]
pub extern "C" fn tizulgech_read_commit(
    alloc: Global,
    bytes: &[u8],
    out: &mut [u8],
    size: &mut usize,
) -> u8
    ensures answer { IsCommitRead result (read_commit_of bytes.now) out.old out.new size.new }
    ensures kept { IsKept result out.old out.new size.old size.new }
{
    let read = read_commit(bytes);
    tell_commit(alloc, &read, out, size)
}

/// What a commit that is read is told.
fn tell_commit(
    alloc: Global,
    read: &Result<SignedCommit<'_>, CommitFault>,
    out: &mut [u8],
    size: &mut usize,
) -> u8
    ensures told { IsCommitTold result read.now out.old out.new size.new }
    ensures kept { IsKept result out.old out.new size.old size.new }
{
    match read {
        Ok(commit) => commit_handed(alloc, commit, out, size),
        Err(fault) => code_of_commit(*fault),
    }
}

/// The number of a fault of a commit.
pub(crate) fn code_of_commit(fault: CommitFault) -> u8
    ensures { result ≡ commit_code fault }
{
    match fault {
        CommitFault::NotACommit => 100,
        CommitFault::BadDid => COMMIT_DID,
        CommitFault::BadRev => COMMIT_REV,
    }
}

/// A commit, handed out.
fn commit_handed(alloc: Global, commit: &SignedCommit<'_>, out: &mut [u8], size: &mut usize) -> u8
    ensures handed { IsHandedOr255 result (commit_spelt (commit_of commit.now))
        out.old out.new size.new }
    ensures kept { IsKept result out.old out.new size.old size.new }
{
    match spell_commit(alloc, commit) {
        Ok(bytes) => hand(&bytes, out, size),
        Err(_) => NO_MEMORY,
    }
}

/// A commit, spelt.
fn spell_commit(alloc: Global, commit: &SignedCommit<'_>) -> Result<Vec<u8>, AllocError>
    ensures { IfOk result (λ bytes. bytes.items ≡ commit_spelt (commit_of commit.now)) }
{
    let mut bytes = Vec::new(alloc);
    push_commit(alloc, &mut bytes, commit)?;
    Ok(bytes)
}

/// Puts a commit at the end, spelt.
pub(crate) fn push_commit(
    alloc: Global,
    out: &mut Vec<u8>,
    commit: &SignedCommit<'_>,
) -> Result<(), AllocError>
    ensures { OnOk result
        (out.new.items ≡ out.old.items ++ commit_spelt (commit_of commit.now)) }
{
    let unsigned = commit.unsigned_bytes(alloc)?;
    push_part(out, commit.did)?;
    push_part(out, commit.rev)?;
    out.extend_from_slice(commit.root.as_bytes())?;
    push_link(out, commit.prev)?;
    push_part(out, commit.sig)?;
    push_part(out, &unsigned)
}

/// Puts a CID that is lent at the end, or 36 zeros where there is none.
fn push_link(out: &mut Vec<u8>, link: Option<CidRef<'_>>) -> Result<(), AllocError>
    ensures { OnOk result (out.new.items
        ≡ out.old.items ++ value_bytes (option_map bytes_of link.entry)) }
{
    match link {
        Some(cid) => out.extend_from_slice(cid.as_bytes()),
        None => push_value(out, None),
    }
}
