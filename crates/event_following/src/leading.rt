//! Where operations lead.

ghost use Rattle.std.specs.Prelude.{◌≡◌, ◌≤◌, ◌==◌, true, IfOk};
ghost use Rattle.std.specs.Str.{bytes_eq};
ghost use Rattle.spec.specs.Blocks.{pairs, root as root_of};
ghost use Rattle.spec.specs.States.{records};
ghost use Rattle.cid.specs.CidRef.{bytes_of};
ghost use Rattle.key_changes.specs.Keyed.{are_changes};
ghost use Rattle.batch_laws.specs.Batch.{changed};
ghost use Rattle.change_laws.specs.Told.{undone};
ghost use Rattle.step_laws.specs.Turned.{done as done_of};

use change_proofs::prove_change;
use cid::{Cid, Digest};
use key_changes::{Change, KeyChange};
use repo::Core;
use signed_commits::SignedCommit;
use std::alloc::{AllocError, Allocator};

/// The changes done, in their order.
fn done<'k, A: Allocator>(
    alloc: A,
    changes: &[KeyChange<'k>],
) -> Result<Vec<Change<'k>, A>, AllocError>
    ensures { IfOk result (λ done. done.items ≡ done_of changes.now) }
{
    let mut done = Vec::with_capacity(alloc, changes.len())?;
    for change in changes {
        done.push(one_done(change))?;
    }
    Ok(done)
}

/// A change done.
fn one_done<'k>(change: &KeyChange<'k>) -> Change<'k>
    ensures { result ≡ (change.now.key, change.now.after) }
{
    Change {
        key: change.key,
        value: change.after,
    }
}

/// Whether changes lead from a repository's tree to that with this root. The repository stays as it is.
pub(crate) fn lead_to<D: Digest, const B: u8, A: Allocator + Copy>(
    alloc: A,
    core: &Core<D, B, A>,
    changes: &[KeyChange<'_>],
    root: &Cid,
) -> Result<bool, AllocError>
    requires least { 1 ≤ B }
    requires changes { are_changes (undone changes.now) ≡ true }
    ensures { IfOk result (λ leads. leads ≡ bytes_eq (root_of D.digest_of B
        (changed (done_of changes.now) (pairs D.digest_of (records core.now)))) root.now) }
{
    let done = done(alloc, changes)?;
    let proof = prove_change::<D, B, A>(alloc, core, &done)?;
    Ok(proof.after == *root)
}

/// The root that a commit names.
pub(crate) fn root_named(commit: &SignedCommit<'_>) -> Cid
    ensures { result ≡ bytes_of commit.now.root }
{
    commit.root.to_cid()
}
