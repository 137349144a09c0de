//! What a repository has: records, pairs, its root, its last commit, the number of its writes.

ghost use Rattle.std.specs.Prelude.{◌≡◌, true, None, is_some, length, IfSome, IfOk};
ghost use Rattle.sha2.specs.Sha256.{sha256};
ghost use Rattle.spec.specs.Blocks.{pairs};
ghost use Rattle.spec.specs.States.{state_root, state_commit};
ghost use Rattle.lookups.specs.Walks.{pairs_given};
ghost use Rattle.buffers.specs.Answers.{pairs_bytes, IsKept};
ghost use Rattle.repo.specs.Readings.{record_at, pairs_from};
ghost use Rattle.tizulgech.specs.Numbers.{IsCommit, IsHandedIf, IsHandedOr255};
ghost use Rattle.tizulgech.specs.Handles.{OnlyReads};

use crate::codes::{CLOSED, NO_MEMORY, NONE};
use buffers::{DONE, hand, push_pair};
use cid::Cid;
use owned_repo::{OwnedRepo, Repository};
use std::alloc::{AllocError, Global};

/// The record of a key.
#[unsafe(no_mangle)]
pub extern "C" fn tizulgech_get(
    alloc: Global,
    repository: &mut Repository,
    key: &[u8],
    out: &mut [u8],
    size: &mut usize,
) -> u8
    ensures record { IfSome repository.old.handle.repo
        (λ o. IsHandedIf result (record_at o.state key.now) out.old out.new size.new) }
    ensures read { OnlyReads result repository.old.handle.repo repository.new.handle.repo }
    ensures kept { IsKept result out.old out.new size.old size.new }
{
    let Some(repo) = repository.taken(alloc) else {
        return CLOSED;
    };
    let code = match repo.core().get(key) {
        Some(record) => hand(record.bytes(), out, size),
        None => NONE,
    };
    *repository = Repository::opened(repo);
    code
}

/// The first pairs of a key and its record's CID from a key on, `most` of them at most: for each the key's length in eight
/// bytes, the lowest first, the key, and 36 bytes.
#[unsafe(no_mangle)]
pub extern "C" fn tizulgech_list(
    alloc: Global,
    repository: &mut Repository,
    from: &[u8],
    most: usize,
    out: &mut [u8],
    size: &mut usize,
) -> u8
    ensures pairs { IfSome repository.old.handle.repo (λ o. IsHandedOr255 result
        (pairs_bytes (pairs_from sha256 o.state from.now most)) out.old out.new size.new) }
    ensures read { OnlyReads result repository.old.handle.repo repository.new.handle.repo }
    ensures kept { IsKept result out.old out.new size.old size.new }
{
    let Some(repo) = repository.taken(alloc) else {
        return CLOSED;
    };
    let code = list_told(alloc, &repo, from, most, out, size);
    *repository = Repository::opened(repo);
    code
}

/// The same of a repository.
fn list_told(
    alloc: Global,
    repo: &OwnedRepo,
    from: &[u8],
    most: usize,
    out: &mut [u8],
    size: &mut usize,
) -> u8
    ensures answer { IsHandedOr255 result (pairs_bytes
        (pairs_from sha256 repo.now.state from.now most))
        out.old out.new size.new }
    ensures kept { IsKept result out.old out.new size.old size.new }
{
    match list_bytes(alloc, repo, from, most) {
        Ok(bytes) => hand(&bytes, out, size),
        Err(_) => NO_MEMORY,
    }
}

/// The pairs, spelt.
fn list_bytes(
    alloc: Global,
    repo: &OwnedRepo,
    from: &[u8],
    most: usize,
) -> Result<Vec<u8>, AllocError>
    ensures { IfOk result (λ bytes. bytes.items
        ≡ pairs_bytes (pairs_from sha256 repo.now.state from.now most)) }
{
    let pairs = repo.core().list(alloc, from, most)?;
    spell_pairs(alloc, &pairs)
}

/// Pairs, spelt.
fn spell_pairs(alloc: Global, pairs: &[(Vec<u8>, Cid)]) -> Result<Vec<u8>, AllocError>
    ensures { IfOk result (λ bytes. bytes.items ≡ pairs_bytes (pairs_given pairs.now)) }
{
    let mut bytes = Vec::new(alloc);
    for (key, cid) in pairs {
        push_pair(&mut bytes, key, cid)?;
    }
    Ok(bytes)
}

/// The root of the tree.
#[unsafe(no_mangle)]
pub extern "C" fn tizulgech_root(alloc: Global, repository: &mut Repository, root: &mut [u8]) -> u8
    requires { length root.old ≡ 36 }
    ensures root { IfSome repository.old.handle.repo (λ o. root.new ≡ state_root sha256 2 o.state) }
    ensures done { is_some repository.old.handle.repo ≡ true → result ≡ 0 }
    ensures read { OnlyReads result repository.old.handle.repo repository.new.handle.repo }
    ensures kept { ¬ (result ≡ 0) → root.new ≡ root.old }
{
    let Some(repo) = repository.taken(alloc) else {
        return CLOSED;
    };
    write_root(&repo, root);
    *repository = Repository::opened(repo);
    DONE
}

/// The root of a repository, written.
fn write_root(repo: &OwnedRepo, root: &mut [u8])
    requires { length root.old ≡ 36 }
    ensures { root.new ≡ state_root sha256 2 repo.now.state }
{
    root.copy_from_slice(repo.core().root().as_bytes());
}

/// The CID of the last batch's commit: 24 before the first one.
#[unsafe(no_mangle)]
pub extern "C" fn tizulgech_commit(
    alloc: Global,
    repository: &mut Repository,
    commit: &mut [u8],
) -> u8
    requires { length commit.old ≡ 36 }
    ensures commit { IfSome repository.old.handle.repo
        (λ o. IsCommit result commit.new (state_commit sha256 2 o.state)) }
    ensures read { OnlyReads result repository.old.handle.repo repository.new.handle.repo }
    ensures kept { ¬ (result ≡ 0) → commit.new ≡ commit.old }
{
    let Some(repo) = repository.taken(alloc) else {
        return CLOSED;
    };
    let code = write_commit(&repo, commit);
    *repository = Repository::opened(repo);
    code
}

/// The commit of a repository, written.
fn write_commit(repo: &OwnedRepo, commit: &mut [u8]) -> u8
    requires { length commit.old ≡ 36 }
    ensures commit { IsCommit result commit.new (state_commit sha256 2 repo.now.state) }
    ensures kept { ¬ (result ≡ 0) → commit.new ≡ commit.old }
{
    match repo.core().commit() {
        Some(cid) => {
            commit.copy_from_slice(cid.as_bytes());
            DONE
        }
        None => NONE,
    }
}

/// How many writes are accepted.
#[unsafe(no_mangle)]
pub extern "C" fn tizulgech_number(
    alloc: Global,
    repository: &mut Repository,
    number: &mut u64,
) -> u8
    ensures number { IfSome repository.old.handle.repo
        (λ o. number.new ≡ length o.state.accepted) }
    ensures done { is_some repository.old.handle.repo ≡ true → result ≡ 0 }
    ensures read { OnlyReads result repository.old.handle.repo repository.new.handle.repo }
    ensures kept { ¬ (result ≡ 0) → number.new ≡ number.old }
{
    let Some(repo) = repository.taken(alloc) else {
        return CLOSED;
    };
    *number = repo.core().number();
    *repository = Repository::opened(repo);
    DONE
}
