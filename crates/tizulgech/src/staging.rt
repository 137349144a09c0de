//! Writes that wait for a stamp, and the batch that they become.

ghost use Rattle.std.specs.Prelude.{◌≡◌, true, Some, None, is_some, length, nat_eq, false, IfSome, IfOk, IfErr, OnOk, OnErr};
ghost use Rattle.sha2.specs.Sha256.{sha256};
ghost use Rattle.spec.specs.States.{state_test};
ghost use Rattle.repo.specs.Refusals.{IsApplied};
ghost use Rattle.owned_repo.specs.Owning.{staged, cleared, applied};
ghost use Rattle.tizulgech.specs.Numbers.{IsApplyAnswer, batch_code as batch_told, write_at, fault_number, IsStaged, IsTested};
ghost use Rattle.tizulgech.specs.Causes.{HasCause};

use crate::codes::{BAD, CLOSED, NO_MEMORY, code_of_fault, write_of_kind};
use crate::stamps::stamp_of_bytes;
use batches::RepoFault;
use buffers::DONE;
use cid::Sha256;
use owned_repo::{OwnedRepo, Repository};
use repo::Applied;
use std::alloc::{AllocError, Global};

/// One more write waits for a stamp: a put, a create, an update or a delete by its kind, 0 to 3. A delete's record is passed over.
#[unsafe(no_mangle)]
pub extern "C" fn tizulgech_stage(
    alloc: Global,
    repository: &mut Repository,
    kind: u8,
    key: &[u8],
    bytes: &[u8],
) -> u8
    ensures staged { IfSome repository.old.handle.repo (λ o.
        IfSome repository.new.handle.repo (λ n. nat_eq result 255 ≡ false
        → IsStaged result (write_at kind key.now bytes.now) o n)) }
    ensures unchanged { ¬ (result ≡ 0) → repository.new.handle.repo ≡ repository.old.handle.repo }
    ensures same_open { is_some repository.new.handle.repo ≡ is_some repository.old.handle.repo }
    ensures closed { repository.old.handle.repo ≡ None → result ≡ 250 }
{
    let Some(mut repo) = repository.taken(alloc) else {
        return CLOSED;
    };
    let code = stage_told(alloc, &mut repo, kind, key, bytes);
    *repository = Repository::opened(repo);
    code
}

/// The same of a repository.
#[tactic(auto, using(crate::proofs::Staged::one_more, crate::proofs::Staged::no_write))]
fn stage_told(alloc: Global, repo: &mut OwnedRepo, kind: u8, key: &[u8], bytes: &[u8]) -> u8
    ensures staged { nat_eq result 255 ≡ false
        → IsStaged result (write_at kind key.now bytes.now) repo.old repo.new }
    ensures unchanged { ¬ (result ≡ 0) → repo.new ≡ repo.old }
{
    match write_of_kind(alloc, kind, key, bytes) {
        Ok(Some(write)) => match repo.stage(write) {
            Ok(()) => DONE,
            Err(_) => NO_MEMORY,
        },
        Ok(None) => BAD,
        Err(_) => NO_MEMORY,
    }
}

/// No write waits any more.
#[unsafe(no_mangle)]
pub extern "C" fn tizulgech_clear(alloc: Global, repository: &mut Repository) -> u8
    ensures cleared { IfSome repository.old.handle.repo
        (λ o. repository.new.handle.repo ≡ Some (cleared o)) }
    ensures done { is_some repository.old.handle.repo ≡ true → result ≡ 0 }
    ensures closed { repository.old.handle.repo ≡ None → result ≡ 250 }
    ensures same_open { is_some repository.new.handle.repo ≡ is_some repository.old.handle.repo }
{
    let Some(mut waiting) = repository.taken(alloc) else {
        return CLOSED;
    };
    waiting.clear(alloc);
    *repository = Repository::opened(waiting);
    DONE
}

/// Makes the waiting writes one batch under a stamp, and accepts it or none of it. On 0 the roots after it and before it and
/// the CID of its commit are told; on a fault of a write `place` is its place. None waits afterwards.
#[unsafe(no_mangle)]
pub extern "C" fn tizulgech_apply(
    alloc: Global,
    repository: &mut Repository,
    did: &[u8],
    rev: &[u8],
    place: &mut usize,
    root: &mut [u8],
    previous: &mut [u8],
    commit: &mut [u8],
) -> u8
    requires root { length root.old ≡ 36 }
    requires previous { length previous.old ≡ 36 }
    requires commit { length commit.old ≡ 36 }
    ensures answer { IfSome repository.old.handle.repo (λ o.
        IfSome repository.new.handle.repo (λ n.
        IsApplyAnswer o (record { did = did.now; rev = rev.now }) n
        result place.new root.new previous.new commit.new)) }
    ensures same_open { is_some repository.new.handle.repo ≡ is_some repository.old.handle.repo }
    ensures closed { repository.old.handle.repo ≡ None → result ≡ 250 }
    ensures root { ¬ (result ≡ 0) → root.new ≡ root.old }
    ensures previous { ¬ (result ≡ 0) → previous.new ≡ previous.old }
    ensures commit { ¬ (result ≡ 0) → commit.new ≡ commit.old }
    ensures place { repository.old.handle.repo ≡ None → place.new ≡ place.old }
    ensures cause { HasCause result }
{
    let Some(mut repo) = repository.taken(alloc) else {
        return CLOSED;
    };
    let code = apply_told(alloc, &mut repo, did, rev, place, root, previous, commit);
    *repository = Repository::opened(repo);
    code
}

/// The same of a repository.
fn apply_told(
    alloc: Global,
    repo: &mut OwnedRepo,
    did: &[u8],
    rev: &[u8],
    place: &mut usize,
    root: &mut [u8],
    previous: &mut [u8],
    commit: &mut [u8],
) -> u8
    requires root { length root.old ≡ 36 }
    requires previous { length previous.old ≡ 36 }
    requires commit { length commit.old ≡ 36 }
    ensures answer { IsApplyAnswer repo.old (record { did = did.now; rev = rev.now }) repo.new
        result place.new root.new previous.new commit.new }
    ensures root { ¬ (result ≡ 0) → root.new ≡ root.old }
    ensures previous { ¬ (result ≡ 0) → previous.new ≡ previous.old }
    ensures commit { ¬ (result ≡ 0) → commit.new ≡ commit.old }
    ensures cause { HasCause result }
{
    *place = 0;
    match apply_copied(alloc, repo, did, rev) {
        Ok(Ok(applied)) => {
            root.copy_from_slice(applied.root.as_bytes());
            previous.copy_from_slice(applied.previous.as_bytes());
            commit.copy_from_slice(applied.commit.as_bytes());
            DONE
        }
        Ok(Err((at, fault))) => {
            *place = at;
            code_of_fault(&fault)
        }
        Err(_) => NO_MEMORY,
    }
}

/// The batch under the stamp of these bytes.
#[tactic(auto, using(crate::proofs::Told::batch_told, crate::proofs::Causes::batch_cause))]
fn apply_copied(
    alloc: Global,
    repo: &mut OwnedRepo,
    did: &[u8],
    rev: &[u8],
) -> Result<Result<Applied, (usize, RepoFault<Sha256>)>, AllocError>
    ensures accepted { IfOk result (λ answer. OnOk answer
        (repo.new ≡ applied repo.old (record { did = did.now; rev = rev.now }))) }
    ensures applied { IfOk result (λ answer. IfOk answer
        (IsApplied sha256 2 repo.old.state repo.new.state)) }
    ensures refused { IfOk result (λ answer. OnErr answer (repo.new ≡ cleared repo.old)) }
    ensures no_memory { OnErr result (repo.new ≡ cleared repo.old) }
    ensures tested { IfOk result (λ answer. IsTested (batch_told answer)
        (state_test repo.old.state (record { did = did.now; rev = rev.now }) repo.old.pending)) }
    ensures cause { IfOk result (λ answer. IfErr answer (λ e. HasCause (fault_number e.1))) }
{
    match stamp_of_bytes(alloc, did, rev) {
        Ok(stamp) => Ok(repo.apply(alloc, &stamp)),
        Err(refused) => {
            repo.clear(alloc);
            Err(refused)
        }
    }
}
