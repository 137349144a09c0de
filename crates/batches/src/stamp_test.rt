//! Which stamps are taken.

ghost use Rattle.std.specs.Prelude.{◌≡◌, Some, None, Ok, OnOk, IfErr, option_map};
ghost use Rattle.spec.specs.Stamps.{is_next_rev, stamp_test};
ghost use Rattle.batches.specs.Values.{stamp_of};
ghost use Rattle.batches.specs.Tests.{stamp_fault, IsNamed};

use crate::fault::RepoFault;
use crate::stamp::Stamp;
use cid::Digest;
use record_rules::{is_did, is_tid};
use std::alloc::Allocator;

/// Tests a stamp after a repository's last revision: its DID (`RepoFault::BadDid`), its revision by itself
/// (`RepoFault::BadRev`), and then its order (`RepoFault::RevOrder`).
pub fn test_stamp<D: Digest, A: Allocator>(
    last: Option<&[u8]>,
    stamp: &Stamp<A>,
) -> Result<(), RepoFault<D, A>>
    ensures passed { OnOk result (stamp_test (option_map (λ rev. rev.now) last.entry)
        (stamp_of stamp.now) ≡ Ok tt) }
    ensures fault { IfErr result (λ fault. IsNamed
        (stamp_test (option_map (λ rev. rev.now) last.entry) (stamp_of stamp.now))
        (stamp_fault fault)) }
{
    if !is_did(&stamp.did) {
        return Err(RepoFault::BadDid);
    }
    if !is_tid(&stamp.rev) {
        return Err(RepoFault::BadRev);
    }
    if !is_next_rev(last, &stamp.rev) {
        return Err(RepoFault::RevOrder);
    }
    Ok(())
}

/// Whether a revision is after the last one, bytewise; any is after none.
fn is_next_rev(last: Option<&[u8]>, rev: &[u8]) -> bool
    ensures { result ≡ is_next_rev (option_map (λ last. last.now) last.entry) rev.now }
{
    match last {
        Some(last) => last.cmp(rev).is_lt(),
        None => true,
    }
}
