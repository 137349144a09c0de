//! Proofs of changes that are undone.

ghost use Rattle.std.specs.Prelude.{◌≡◌, ◌≤◌, Err, IfErr, IfOk, OnOk, true};
ghost use Rattle.spec.specs.States.{state_root};
ghost use Rattle.key_changes.specs.Keyed.{are_changes as are_changes_of};
ghost use Rattle.change_laws.specs.Told.{undone as undone_of};
ghost use Rattle.change_proofs.specs.Provings.{IsProofOf, ShowsChanges};
ghost use Rattle.host.specs.Seeing.{wanted_of};
ghost use Rattle.host_exports.specs.ChangeProofs.{IsInversionFrom, IsNoInversionIn, IsProveInversionFault};
ghost use Rattle.host_exports.specs.declared.fault.ProveInversionFault.TheVariants as inversions;

use crate::fault::ProveInversionFault;
use block::Block;
use change_proofs::KeyChange;
use cid::{Cid, Digest};
use host::Host;
use repo::Core;
use std::alloc::Allocator;
use std::sync::{Arc, Wait};

/// The nodes of the tree of a repository with the root `after` that undoing some changes reads, which led to it, as
/// `change_proofs::prove_inversion` makes them.
///
/// They show the changes to who knows that the root after is that of some pairs; for who goes on from root to root
/// [`prove_change`](crate::prove_change) is there.
///
/// `ProveInversionFault::NoSuchRepository` says that there is no such repository, and `ProveInversionFault::OtherRoot` that it
/// has another root than the one after, as where a later batch came first. `ProveInversionFault::OtherValue` has the place of
/// the first change whose key has another value in the tree with the root after than the one told after it, so that the changes
/// are told wrong. `ProveInversionFault::NoMemory` comes where memory was refused. It waits for the repository's lock, which it
/// shares with readers. `change_proofs::are_key_changes` is the test of what it takes.
pub fn prove_inversion<D: Digest, const B: u8, A: Allocator + Copy, R: Wait>(
    rt: &R,
    alloc: A,
    host: &Host<D, B, A>,
    repo: usize,
    after: Cid,
    changes: &[KeyChange<'_>],
) -> Result<Vec<Arc<Block<D, A>, A>, A>, ProveInversionFault>
    requires least_bits { 1 ≤ B }
    requires changes { are_changes_of (undone_of changes.now) ≡ true }
    ensures proof { IfOk result (λ nodes. IsInversionFrom D.digest_of B
        (wanted_of host.now repo 0) after changes.now nodes.items) }
    ensures fault { IfErr result
        (IsProveInversionFault D.digest_of B host.now repo after changes.now) }
    ensures missing { host.now.repos ≤ repo → result ≡ Err inversions.NoSuchRepository }
{
    if repo >= host.repos() {
        return Err(ProveInversionFault::NoSuchRepository);
    }
    host.fits_in_memory();
    inversion_from(alloc, &host.read(rt, repo, 0), after, changes)
}

/// The same of a core.
fn inversion_from<D: Digest, const B: u8, A: Allocator + Clone>(
    alloc: A,
    core: &Core<D, B, A>,
    after: Cid,
    changes: &[KeyChange<'_>],
) -> Result<Vec<Arc<Block<D, A>, A>, A>, ProveInversionFault>
    requires least_bits { 1 ≤ B }
    requires changes { are_changes_of (undone_of changes.now) ≡ true }
    ensures root { OnOk result (state_root D.digest_of B core.now ≡ after) }
    ensures proof { IfOk result
        (λ nodes. IsProofOf D.digest_of B core.now changes.now nodes.items) }
    ensures shows { IfOk result
        (λ nodes. ShowsChanges D.digest_of B core.now changes.now nodes.items) }
    ensures fault { IfErr result (IsNoInversionIn D.digest_of B core.now after changes.now) }
{
    if core.root() != after {
        return Err(ProveInversionFault::OtherRoot);
    }
    match change_proofs::prove_inversion(alloc, core, changes) {
        Ok(nodes) => Ok(nodes),
        Err(fault) => Err(ProveInversionFault::from(fault)),
    }
}
