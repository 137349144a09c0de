//! Lists in pages as large as the caller's room.

ghost use Rattle.std.specs.Prelude.{◌≡◌, ◌+◌, ◌||◌, length, nat_eq, nat_le, IfOk, IfSome};
ghost use Rattle.sha2.specs.Sha256.{sha256};
ghost use Rattle.lookups.specs.Walks.{pairs_given};
ghost use Rattle.repo.specs.Readings.{pairs_from};
ghost use Rattle.buffers.specs.Answers.{pair_bytes, pairs_bytes, IsKept};
ghost use Rattle.tizulgech.specs.Numbers.{IsHandedOr255};
ghost use Rattle.tizulgech.specs.Parting.{page_of};
ghost use Rattle.tizulgech.specs.Handles.{OnlyReads};

use crate::codes::{CLOSED, NO_MEMORY};
use buffers::{hand, push_pair};
use cid::Cid;
use owned_repo::{OwnedRepo, Repository};
use std::alloc::{AllocError, Global};

/// Of the first `most` pairs of a key and its record's CID, from a key on, as many as there is room for: for each the key's
/// length in eight bytes, the lowest first, the key, and 36 bytes. 0, and no bytes where there is no pair; 250; 251 where the
/// first pair alone has no room, and `size` is what it wants; 255.
#[unsafe(no_mangle)]
pub extern "C" fn tizulgech_entries(
    alloc: Global,
    repository: &mut Repository,
    from: &[u8],
    most: usize,
    out: &mut [u8],
    size: &mut usize,
) -> u8
    ensures page { IfSome repository.old.handle.repo (λ o. IsHandedOr255 result
        (pairs_bytes (page_of (length out.old) (pairs_from sha256 o.state from.now most)))
        out.old out.new size.new) }
    ensures read { OnlyReads result repository.old.handle.repo repository.new.handle.repo }
    ensures kept { IsKept result out.old out.new size.old size.new }
{
    let Some(repo) = repository.taken(alloc) else {
        return CLOSED;
    };
    let code = page_told(alloc, &repo, from, most, out, size);
    *repository = Repository::opened(repo);
    code
}

/// The same of a repository.
fn page_told(
    alloc: Global,
    repo: &OwnedRepo,
    from: &[u8],
    most: usize,
    out: &mut [u8],
    size: &mut usize,
) -> u8
    ensures answer { IsHandedOr255 result
        (pairs_bytes (page_of (length out.old) (pairs_from sha256 repo.now.state from.now most)))
        out.old out.new size.new }
    ensures kept { IsKept result out.old out.new size.old size.new }
{
    match page_bytes(alloc, repo, from, most, out.len()) {
        Ok(bytes) => hand(&bytes, out, size),
        Err(_) => NO_MEMORY,
    }
}

/// The page, spelt.
fn page_bytes(
    alloc: Global,
    repo: &OwnedRepo,
    from: &[u8],
    most: usize,
    room: usize,
) -> Result<Vec<u8>, AllocError>
    ensures { IfOk result (λ bytes. bytes.items
        ≡ pairs_bytes (page_of room (pairs_from sha256 repo.now.state from.now most))) }
{
    let pairs = repo.core().list(alloc, from, most)?;
    spell_page(alloc, &pairs, room)
}

/// As many of these pairs as there is room for, and the first in any case, spelt.
fn spell_page(alloc: Global, pairs: &[(Vec<u8>, Cid)], room: usize) -> Result<Vec<u8>, AllocError>
    ensures { IfOk result (λ bytes. bytes.items
        ≡ pairs_bytes (page_of room (pairs_given pairs.now))) }
{
    let mut bytes = Vec::new(alloc);
    for (key, cid) in pairs {
        if !goes_on(bytes.len(), room, key, cid) {
            return Ok(bytes);
        }
        push_pair(&mut bytes, key, cid)?;
    }
    Ok(bytes)
}

/// Whether a pair stands in a page behind so many bytes.
fn goes_on(used: usize, room: usize, key: &[u8], cid: &Cid) -> bool
    ensures { result ≡ (nat_eq used 0
        || nat_le (used + length (pair_bytes (key.now, cid.now))) room) }
{
    if used == 0 {
        return true;
    }
    let size = 8 + key.len() + cid.as_bytes().len();
    used <= room && size <= room - used
}
