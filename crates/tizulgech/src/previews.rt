//! What a batch will make of a repository, before it is accepted.

ghost use Rattle.std.specs.Prelude.{◌≡◌, None, IfOk, IfSome};
ghost use Rattle.batches.specs.Values.{stamp_of};
ghost use Rattle.buffers.specs.Answers.{IsKept};
ghost use Rattle.tizulgech.specs.Causes.{HasCause};
ghost use Rattle.tizulgech.specs.Handles.{OnlyReads};
ghost use Rattle.tizulgech.specs.Numbers.{IsHandedOr255};
ghost use Rattle.tizulgech.specs.SignedBatches.{prepared_spelt, IsPreviewed};

use crate::codes::{CLOSED, NO_MEMORY, code_of_fault};
use crate::messages::push_changes;
use crate::stamps::stamp_of_bytes;
use batches::Stamp;
use buffers::{hand, push_part};
use cid::Sha256;
use owned_repo::{OwnedRepo, Repository};
use repo::PreparedBatch;
use std::alloc::{AllocError, Global};

/// What the writes that wait make of the repository as one batch under a stamp: 0 and the roots before and after, the bytes of
/// its unsigned commit, which are signed, and what each key had and has; or the number of the first fault of the batch, with the
/// place of its write; 250; 251; 253; 255. All stays as it is, and the writes still wait.
#[unsafe(no_mangle)]
pub extern "C" fn tizulgech_preview(
    alloc: Global,
    repository: &mut Repository,
    did: &[u8],
    rev: &[u8],
    place: &mut usize,
    out: &mut [u8],
    size: &mut usize,
) -> u8
    ensures preview { IfSome repository.old.handle.repo (λ o. IsPreviewed result place.new o
        (record { did = did.now; rev = rev.now }) out.old out.new size.new) }
    ensures read { OnlyReads result repository.old.handle.repo repository.new.handle.repo }
    ensures place { repository.old.handle.repo ≡ None → place.new ≡ place.old }
    ensures kept { IsKept result out.old out.new size.old size.new }
    ensures cause { HasCause result }
{
    let Some(repo) = repository.taken(alloc) else {
        return CLOSED;
    };
    let code = preview_told(alloc, &repo, did, rev, place, out, size);
    *repository = Repository::opened(repo);
    code
}

/// The same of a repository.
fn preview_told(
    alloc: Global,
    repo: &OwnedRepo,
    did: &[u8],
    rev: &[u8],
    place: &mut usize,
    out: &mut [u8],
    size: &mut usize,
) -> u8
    ensures preview { IsPreviewed result place.new repo.now
        (record { did = did.now; rev = rev.now }) out.old out.new size.new }
    ensures kept { IsKept result out.old out.new size.old size.new }
    ensures cause { HasCause result }
{
    let Ok(stamp) = stamp_of_bytes(alloc, did, rev) else {
        return NO_MEMORY;
    };
    stamped_preview(alloc, repo, &stamp, place, out, size)
}

/// The same under a stamp.
#[tactic(auto, using(crate::proofs::Tested::refused_preview, crate::proofs::Tested::passed_preview, crate::proofs::Causes::handed_cause))]
fn stamped_preview(
    alloc: Global,
    repo: &OwnedRepo,
    stamp: &Stamp,
    place: &mut usize,
    out: &mut [u8],
    size: &mut usize,
) -> u8
    ensures preview { IsPreviewed result place.new repo.now (stamp_of stamp.now)
        out.old out.new size.new }
    ensures kept { IsKept result out.old out.new size.old size.new }
    ensures cause { HasCause result }
{
    *place = 0;
    match repo.prepare(alloc, stamp) {
        Ok(prepared) => preview_handed(alloc, &prepared, out, size),
        Err((at, fault)) => {
            *place = at;
            code_of_fault(&fault)
        }
    }
}

/// A batch that was prepared, handed out.
fn preview_handed(
    alloc: Global,
    prepared: &PreparedBatch<Sha256, 2>,
    out: &mut [u8],
    size: &mut usize,
) -> u8
    ensures handed { IsHandedOr255 result (prepared_spelt prepared.now)
        out.old out.new size.new }
    ensures kept { IsKept result out.old out.new size.old size.new }
{
    match spell_preview(alloc, prepared) {
        Ok(bytes) => hand(&bytes, out, size),
        Err(_) => NO_MEMORY,
    }
}

/// A batch that was prepared, spelt.
fn spell_preview(alloc: Global, prepared: &PreparedBatch<Sha256, 2>) -> Result<Vec<u8>, AllocError>
    ensures { IfOk result (λ bytes. bytes.items ≡ prepared_spelt prepared.now) }
{
    let changes = prepared.changes(alloc)?;
    let mut bytes = Vec::from_slice(alloc, prepared.previous().as_bytes())?;
    bytes.extend_from_slice(prepared.root().as_bytes())?;
    push_part(&mut bytes, prepared.commit_block().bytes())?;
    push_changes(&mut bytes, &changes)?;
    Ok(bytes)
}
