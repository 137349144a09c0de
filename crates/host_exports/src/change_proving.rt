//! Proofs of steps.

ghost use Rattle.std.specs.Prelude.{◌≡◌, ◌≤◌, Err, IfErr, IfOk, OnOk, map, true};
ghost use Rattle.std.specs.Arc.{arc_value};
ghost use Rattle.spec.specs.Blocks.{pairs};
ghost use Rattle.spec.specs.States.{records, state_root};
ghost use Rattle.key_changes.specs.Keyed.{are_changes as are_changes_of};
ghost use Rattle.change_proofs.specs.StepProvings.{IsStepOf};
ghost use Rattle.host.specs.Seeing.{wanted_of};
ghost use Rattle.host_exports.specs.ChangeProofs.{IsStepFrom, IsNoStepIn, IsProveChangeFault};
ghost use Rattle.host_exports.specs.declared.fault.ProveChangeFault.TheVariants as steps;

use crate::fault::ProveChangeFault;
use change_proofs::ChangeProof;
use cid::{Cid, Digest};
use edit::Change;
use host::Host;
use repo::Core;
use std::alloc::Allocator;
use std::sync::Wait;

/// What some changes make of a repository with the root `before`, and the nodes of its tree that show it, as
/// `change_proofs::prove_change` makes them: to be asked before a batch is applied that makes these changes. The repository
/// stays as it is.
///
/// Who knows the root before, and is given the proof's root after, changes and nodes, gets `Ok` from
/// `change_proofs::verify_change`. Another writer's batch may still come before the own one, which then leads to another root
/// than the proof's.
///
/// `ProveChangeFault::NoSuchRepository` says that there is no such repository, `ProveChangeFault::OtherRoot` that it has
/// another root than the one before, as where a batch came between, and `ProveChangeFault::NoMemory` comes where memory was
/// refused. It waits for the repository's lock, which it shares with readers. `edit::are_changes` is the test of what it takes.
pub fn prove_change<'k, D: Digest, const B: u8, A: Allocator + Copy, R: Wait>(
    rt: &R,
    alloc: A,
    host: &Host<D, B, A>,
    repo: usize,
    before: Cid,
    changes: &[Change<'k>],
) -> Result<ChangeProof<'k, D, A>, ProveChangeFault>
    requires least_bits { 1 ≤ B }
    requires changes { are_changes_of changes.now ≡ true }
    ensures proof { IfOk result (λ proof. IsStepFrom D.digest_of B (wanted_of host.now repo 0)
        before changes.now proof.after proof.changes.items (map arc_value proof.nodes.items)) }
    ensures fault { IfErr result (IsProveChangeFault D.digest_of B host.now repo before) }
    ensures missing { host.now.repos ≤ repo → result ≡ Err steps.NoSuchRepository }
{
    if repo >= host.repos() {
        return Err(ProveChangeFault::NoSuchRepository);
    }
    host.fits_in_memory();
    step_from(alloc, &host.read(rt, repo, 0), before, changes)
}

/// The same of a core.
fn step_from<'k, D: Digest, const B: u8, A: Allocator + Clone>(
    alloc: A,
    core: &Core<D, B, A>,
    before: Cid,
    changes: &[Change<'k>],
) -> Result<ChangeProof<'k, D, A>, ProveChangeFault>
    requires least_bits { 1 ≤ B }
    requires changes { are_changes_of changes.now ≡ true }
    ensures root { OnOk result (state_root D.digest_of B core.now ≡ before) }
    ensures proof { IfOk result (λ proof. IsStepOf D.digest_of B changes.now
        (pairs D.digest_of (records core.now)) proof.after proof.changes.items
        (map arc_value proof.nodes.items)) }
    ensures fault { IfErr result (IsNoStepIn D.digest_of B core.now before) }
{
    if core.root() != before {
        return Err(ProveChangeFault::OtherRoot);
    }
    match change_proofs::prove_change(alloc, core, changes) {
        Ok(proof) => Ok(proof),
        Err(_) => Err(ProveChangeFault::NoMemory),
    }
}
