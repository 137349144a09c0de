//! What changes make of a repository's tree, and what shows it.

ghost use Rattle.std.specs.Prelude.{◌≡◌, ◌++◌, map, true, false, nat_eq, IfOk, IfSome, OnOk};
ghost use Rattle.std.specs.Arc.{arc_value};
ghost use Rattle.key_changes.specs.Keyed.{are_changes as are_changes_of};
ghost use Rattle.buffers.specs.Answers.{IsKept};
ghost use Rattle.tizulgech.specs.Changing.{befores_bytes, proof_bytes as proof_bytes_of, IsStepProven, IsStepProvenOf, IsStepSpelt};
ghost use Rattle.tizulgech.specs.Trees.{changes_in};
ghost use Rattle.tizulgech.specs.Handles.{OnlyReads};

use crate::codes::{BAD, CLOSED, NO_MEMORY};
use crate::edits::changes_at;
use crate::proving::push_blocks;
use buffers::{hand, push_value};
use change_proofs::{ChangeProof, KeyChange, prove_change};
use cid::Sha256;
use edit::Change;
use owned_repo::{OwnedRepo, Repository};
use std::alloc::{AllocError, Global};

/// What some changes make of the repository's tree as it is, and the nodes that show it: to be asked before they are applied.
///
/// They are given as `tizulgech_tree_apply` takes them: a key gets the value of 36 bytes at its place among `values`, or goes
/// where these are zeros. The answer is the root after, the value that each key has now, 36 bytes each and zeros for none, and
/// the nodes of the tree that doing the changes reads: each once, each with its length in eight bytes, the lowest first, in
/// front. Who has these nodes and both roots gets 0 from `tizulgech_verify_change`. Writes that wait are not of the tree. 250;
/// 251; 252 for arguments that are none; 255 for want of memory.
#[unsafe(no_mangle)]
pub extern "C" fn tizulgech_prove_change(
    alloc: Global,
    repository: &mut Repository,
    keys: &[u8],
    key_ends: &[usize],
    values: &[u8],
    out: &mut [u8],
    size: &mut usize,
) -> u8
    ensures proof { IfSome repository.old.handle.repo (λ o. nat_eq result 255 ≡ false
        → IsStepProven result out.old out.new size.new o.state
        (changes_in keys.now key_ends.now values.now)) }
    ensures read { OnlyReads result repository.old.handle.repo repository.new.handle.repo }
    ensures kept { IsKept result out.old out.new size.old size.new }
{
    let Some(repo) = repository.taken(alloc) else {
        return CLOSED;
    };
    let code = proven_in(alloc, &repo, keys, key_ends, values, out, size);
    *repository = Repository::opened(repo);
    code
}

/// The same of a repository.
fn proven_in(
    alloc: Global,
    repo: &OwnedRepo,
    keys: &[u8],
    key_ends: &[usize],
    values: &[u8],
    out: &mut [u8],
    size: &mut usize,
) -> u8
    ensures proof { nat_eq result 255 ≡ false → IsStepProven result out.old out.new size.new
        repo.now.state (changes_in keys.now key_ends.now values.now) }
    ensures kept { IsKept result out.old out.new size.old size.new }
{
    let Ok(changes) = changes_at(alloc, keys, key_ends, values) else {
        return NO_MEMORY;
    };
    let Some(changes) = changes else {
        return BAD;
    };
    proven_of(alloc, repo, &changes, out, size)
}

/// The same of changes that a batch takes.
fn proven_of(
    alloc: Global,
    repo: &OwnedRepo,
    changes: &[Change<'_>],
    out: &mut [u8],
    size: &mut usize,
) -> u8
    requires { are_changes_of changes.now ≡ true }
    ensures proof { nat_eq result 255 ≡ false → IsStepProvenOf result out.old out.new size.new
        repo.now.state changes.now }
    ensures kept { IsKept result out.old out.new size.old size.new }
{
    match proof_bytes(alloc, repo, changes) {
        Ok(bytes) => hand(&bytes, out, size),
        Err(_) => NO_MEMORY,
    }
}

/// The proof, spelt.
fn proof_bytes(
    alloc: Global,
    repo: &OwnedRepo,
    changes: &[Change<'_>],
) -> Result<Vec<u8>, AllocError>
    requires { are_changes_of changes.now ≡ true }
    ensures { IfOk result (λ bytes. IsStepSpelt repo.now.state changes.now bytes.items) }
{
    let proof = prove_change(alloc, repo.core(), changes)?;
    spell_proof(alloc, &proof)
}

/// A proof, spelt.
pub(crate) fn spell_proof(
    alloc: Global,
    proof: &ChangeProof<'_, Sha256>,
) -> Result<Vec<u8>, AllocError>
    ensures { IfOk result (λ bytes. bytes.items ≡ proof_bytes_of proof.now.after
        proof.now.changes.items (map arc_value proof.now.nodes.items)) }
{
    let mut bytes = Vec::from_slice(alloc, proof.after.as_bytes())?;
    push_befores(&mut bytes, &proof.changes)?;
    push_blocks(&mut bytes, &proof.nodes)?;
    Ok(bytes)
}

/// Puts what each key had before its change at the end.
fn push_befores(bytes: &mut Vec<u8>, changes: &[KeyChange<'_>]) -> Result<(), AllocError>
    ensures { OnOk result (bytes.new.items ≡ bytes.old.items ++ befores_bytes changes.now) }
{
    for change in changes {
        push_value(bytes, change.before)?;
    }
    Ok(())
}
