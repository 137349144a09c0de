//! A signed commit where it lies.

ghost use Rattle.spec.specs.Reading.{Gives};
ghost use Rattle.spec.specs.SignedCommits.{commit_at, read_commit};
ghost use Rattle.signed_commits.specs.Views.{commit_of, commit_fault_of};

use crate::fault::CommitFault;
use crate::parts::{link, link_or_null, literal, string};
use cid::CidRef;
use record_rules::{is_did, is_tid};

/// A signed commit, whose parts are lent (AT Protocol repository v3, commit objects).
#[derive(Clone, Copy, Debug)]
pub struct SignedCommit<'a> {
    /// Whose repository it is.
    pub did: &'a [u8],
    /// The revision.
    pub rev: &'a [u8],
    /// The signature, whatever it is.
    pub sig: &'a [u8],
    /// The root of the tree: the field data.
    pub root: CidRef<'a>,
    /// The commit before, where one is named.
    pub prev: Option<CidRef<'a>>,
}

/// The commit that all of the bytes spell. The shape is tested first, then the DID, and then the revision.
#[tactic(auto, unfolding(spec::specs::SignedCommits::read_commit))]
pub fn read_commit(bytes: &[u8]) -> Result<SignedCommit<'_>, CommitFault>
    ensures { Gives commit_of commit_fault_of result (read_commit bytes.now) }
{
    let commit = commit(bytes)?;
    if !is_did(commit.did) {
        return Err(CommitFault::BadDid);
    }
    if !is_tid(commit.rev) {
        return Err(CommitFault::BadRev);
    }
    Ok(commit)
}

/// The commit that all of the bytes spell in shape.
#[tactic(auto, unfolding(spec::specs::SignedCommits::commit_at))]
fn commit(bytes: &[u8]) -> Result<SignedCommit<'_>, CommitFault>
    ensures { Gives commit_of commit_fault_of result (commit_at bytes.now) }
{
    let rest = literal(b"\xa6\x63did", bytes)?;
    let (did, rest) = string(3, rest)?;
    let rest = literal(b"\x63rev", rest)?;
    let (rev, rest) = string(3, rest)?;
    let rest = literal(b"\x63sig", rest)?;
    let (sig, rest) = string(2, rest)?;
    let rest = literal(b"\x64data", rest)?;
    let (root, rest) = link(rest)?;
    let rest = literal(b"\x64prev", rest)?;
    let (prev, rest) = link_or_null(rest)?;
    if rest != b"\x67version\x03".as_slice() {
        return Err(CommitFault::NotACommit);
    }
    Ok(SignedCommit {
        did,
        rev,
        sig,
        root,
        prev,
    })
}
