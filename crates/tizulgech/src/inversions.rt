//! What shows changes that are undone, as the event stream does it.

ghost use Rattle.std.specs.Prelude.{◌≡◌, true, false, nat_eq, IfOk, IfErr, IfSome};
ghost use Rattle.sha2.specs.Sha256.{sha256};
ghost use Rattle.key_changes.specs.Keyed.{are_changes as are_changes_of};
ghost use Rattle.change_laws.specs.Told.{undone as undone_of};
ghost use Rattle.change_proofs.specs.Provings.{IsUntrue};
ghost use Rattle.buffers.specs.Answers.{IsKept};
ghost use Rattle.tizulgech.specs.Changing.{told_in};
ghost use Rattle.tizulgech.specs.Inverting.{IsSpelt, IsProvenOf, IsProven};
ghost use Rattle.tizulgech.specs.Handles.{OnlyReads};

use crate::codes::{BAD, CLOSED, NO_MEMORY};
use crate::proving::spell_blocks;
use crate::told_changes::{OTHER_VALUE, told_at};
use buffers::hand;
use change_proofs::{KeyChange, ProvingFault, prove_inversion};
use owned_repo::{OwnedRepo, Repository};
use std::alloc::Global;

/// The nodes of the repository's tree as it is that undoing some changes reads, which led to it: each once, each with its
/// length in eight bytes, the lowest first, in front.
///
/// The changes are given as `tizulgech_verify_inversion` takes them, and who has these nodes and both roots gets 0 from it, if
/// each key had before the changes what is told; of that this tree knows nothing. 33 where a key has another value now than
/// what is told after its change, whose place is then in `place`; 250; 251; 252 for arguments that are none; 255 for want of
/// memory.
#[unsafe(no_mangle)]
pub extern "C" fn tizulgech_prove_inversion(
    alloc: Global,
    repository: &mut Repository,
    keys: &[u8],
    key_ends: &[usize],
    befores: &[u8],
    afters: &[u8],
    place: &mut usize,
    out: &mut [u8],
    size: &mut usize,
) -> u8
    ensures proof { IfSome repository.old.handle.repo (λ o. nat_eq result 255 ≡ false
        → IsProven result place.new out.old out.new size.new o.state
        (told_in keys.now key_ends.now befores.now afters.now)) }
    ensures read { OnlyReads result repository.old.handle.repo repository.new.handle.repo }
    ensures place { ¬ (result ≡ 33) → place.new ≡ place.old }
    ensures kept { IsKept result out.old out.new size.old size.new }
{
    let Some(repo) = repository.taken(alloc) else {
        return CLOSED;
    };
    let code = proven_in(
        alloc, &repo, keys, key_ends, befores, afters, place, out, size,
    );
    *repository = Repository::opened(repo);
    code
}

/// The same of a repository.
fn proven_in(
    alloc: Global,
    repo: &OwnedRepo,
    keys: &[u8],
    key_ends: &[usize],
    befores: &[u8],
    afters: &[u8],
    place: &mut usize,
    out: &mut [u8],
    size: &mut usize,
) -> u8
    ensures proof { nat_eq result 255 ≡ false → IsProven result place.new out.old out.new size.new
        repo.now.state (told_in keys.now key_ends.now befores.now afters.now) }
    ensures place { ¬ (result ≡ 33) → place.new ≡ place.old }
    ensures kept { IsKept result out.old out.new size.old size.new }
{
    let Ok(changes) = told_at(alloc, keys, key_ends, befores, afters) else {
        return NO_MEMORY;
    };
    let Some(changes) = changes else {
        return BAD;
    };
    proven_told(alloc, repo, &changes, place, out, size)
}

/// The same of changes that a proof takes.
fn proven_told(
    alloc: Global,
    repo: &OwnedRepo,
    changes: &[KeyChange<'_>],
    place: &mut usize,
    out: &mut [u8],
    size: &mut usize,
) -> u8
    requires { are_changes_of (undone_of changes.now) ≡ true }
    ensures proof { nat_eq result 255 ≡ false → IsProvenOf result place.new out.old out.new size.new
        repo.now.state changes.now }
    ensures place { ¬ (result ≡ 33) → place.new ≡ place.old }
    ensures kept { IsKept result out.old out.new size.old size.new }
{
    match proven_bytes(alloc, repo, changes) {
        Ok(bytes) => hand(&bytes, out, size),
        Err(ProvingFault::OtherValue(at)) => {
            *place = at;
            OTHER_VALUE
        }
        Err(ProvingFault::NoMemory) => NO_MEMORY,
    }
}

/// The nodes, spelt.
fn proven_bytes(
    alloc: Global,
    repo: &OwnedRepo,
    changes: &[KeyChange<'_>],
) -> Result<Vec<u8>, ProvingFault>
    requires { are_changes_of (undone_of changes.now) ≡ true }
    ensures proof { IfOk result (λ bytes. IsSpelt repo.now.state changes.now bytes.items) }
    ensures fault { IfErr result (IsUntrue sha256 repo.now.state changes.now) }
{
    let nodes = prove_inversion(alloc, repo.core(), changes)?;
    match spell_blocks(alloc, &nodes) {
        Ok(bytes) => Ok(bytes),
        Err(_) => Err(ProvingFault::NoMemory),
    }
}
