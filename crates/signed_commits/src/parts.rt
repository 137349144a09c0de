//! The parts of a commit read from the front of some bytes, each with the bytes after it.

ghost use Rattle.std.specs.Prelude.{◌<◌, option_map};
ghost use Rattle.spec.specs.Reading.{Gives};
ghost use Rattle.spec.specs.SignedCommits.{literal, string_at, link_at, link_or_null_at};
ghost use Rattle.cid.specs.CidRef.{bytes_of};
ghost use Rattle.signed_commits.specs.Views.{commit_fault_of};

use crate::fault::CommitFault;
use cid::CidRef;
use dagcbor::Cursor;

/// These very bytes.
pub(crate) fn literal<'a>(these: &[u8], bytes: &'a [u8]) -> Result<&'a [u8], CommitFault>
    ensures { Gives (λ rest. rest.now) commit_fault_of result (literal these.now bytes.now) }
{
    match node::literal(these, bytes) {
        Ok(rest) => Ok(rest),
        Err(_) => Err(CommitFault::NotACommit),
    }
}

/// A byte string or a text, by its major type.
pub(crate) fn string(major: u8, bytes: &[u8]) -> Result<(&[u8], &[u8]), CommitFault>
    ensures { Gives (λ x. (x.0.now, x.1.now)) commit_fault_of result (string_at major bytes.now) }
{
    let mut cursor = Cursor::new(bytes);
    match cursor.head() {
        Ok((kind, n)) if kind == major => match cursor.take(n) {
            Ok(taken) => Ok((taken, cursor.rest())),
            Err(_) => Err(CommitFault::NotACommit),
        },
        _ => Err(CommitFault::NotACommit),
    }
}

/// A link.
pub(crate) fn link(bytes: &[u8]) -> Result<(CidRef<'_>, &[u8]), CommitFault>
    ensures { Gives (λ x. (bytes_of x.0, x.1.now)) commit_fault_of result (link_at bytes.now) }
{
    match node::link(bytes) {
        Ok(found) => Ok(found),
        Err(_) => Err(CommitFault::NotACommit),
    }
}

/// A link or null.
pub(crate) fn link_or_null(bytes: &[u8]) -> Result<(Option<CidRef<'_>>, &[u8]), CommitFault>
    ensures { Gives (λ x. (option_map bytes_of x.0, x.1.now)) commit_fault_of result
        (link_or_null_at bytes.now) }
{
    match node::link_or_null(bytes) {
        Ok(found) => Ok(found),
        Err(_) => Err(CommitFault::NotACommit),
    }
}
