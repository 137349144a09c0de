//! The CAR file of a repository, whole or in parts.

ghost use Rattle.std.specs.Prelude.{◌≡◌, true, is_some, length, nat_eq, false, IfSome, IfOk};
ghost use Rattle.sha2.specs.Sha256.{sha256};
ghost use Rattle.spec.specs.States.{state_car};
ghost use Rattle.buffers.specs.Answers.{IsKept};
ghost use Rattle.export.specs.Exports.{car_length as car_length_of};
ghost use Rattle.export.specs.Windows.{part_of};
ghost use Rattle.tizulgech.specs.Numbers.{IsHandedOr255};
ghost use Rattle.tizulgech.specs.Handles.{OnlyReads};

use crate::codes::{CLOSED, NO_MEMORY};
use buffers::{DONE, hand};
use export::{ToMemory, car, car_length, car_part};
use owned_repo::{OwnedRepo, Repository};
use std::alloc::{AllocError, Global};

/// The CAR file (CARv1) of the repository.
#[unsafe(no_mangle)]
pub extern "C" fn tizulgech_car(
    alloc: Global,
    repository: &mut Repository,
    out: &mut [u8],
    size: &mut usize,
) -> u8
    ensures car { IfSome repository.old.handle.repo
        (λ o. IsHandedOr255 result (state_car sha256 2 o.state) out.old out.new size.new) }
    ensures read { OnlyReads result repository.old.handle.repo repository.new.handle.repo }
    ensures kept { IsKept result out.old out.new size.old size.new }
{
    let Some(repo) = repository.taken(alloc) else {
        return CLOSED;
    };
    let code = car_handed(alloc, &repo, out, size);
    *repository = Repository::opened(repo);
    code
}

/// The CAR file of a repository in the caller's room.
pub(crate) fn car_handed(alloc: Global, repo: &OwnedRepo, out: &mut [u8], size: &mut usize) -> u8
    ensures answer { IsHandedOr255 result (state_car sha256 2 repo.now.state)
        out.old out.new size.new }
    ensures kept { IsKept result out.old out.new size.old size.new }
{
    match car_bytes(alloc, repo) {
        Ok(file) => hand(&file, out, size),
        Err(_) => NO_MEMORY,
    }
}

/// The CAR file of a repository.
fn car_bytes(alloc: Global, repo: &OwnedRepo) -> Result<Vec<u8>, AllocError>
    ensures { IfOk result (λ file. file.items ≡ state_car sha256 2 repo.now.state) }
{
    let mut file = ToMemory::new(alloc);
    match car(alloc, repo.core(), &mut file) {
        Ok(_) => Ok(file.into_bytes()),
        Err(_) => Err(AllocError),
    }
}

/// How many bytes the CAR file of the repository has. None of them is made.
#[unsafe(no_mangle)]
pub extern "C" fn tizulgech_car_length(
    alloc: Global,
    repository: &mut Repository,
    length: &mut u64,
) -> u8
    ensures length { IfSome repository.old.handle.repo (λ o. nat_eq result 255 ≡ false
        → length.new ≡ car_length_of sha256 2 o.state) }
    ensures done { is_some repository.old.handle.repo ≡ true
        → nat_eq result 255 ≡ false → result ≡ 0 }
    ensures read { OnlyReads result repository.old.handle.repo repository.new.handle.repo }
    ensures kept { ¬ (result ≡ 0) → length.new ≡ length.old }
{
    let Some(repo) = repository.taken(alloc) else {
        return CLOSED;
    };
    let code = car_length_told(alloc, &repo, length);
    *repository = Repository::opened(repo);
    code
}

/// The same of a repository.
fn car_length_told(alloc: Global, repo: &OwnedRepo, length: &mut u64) -> u8
    ensures length { nat_eq result 255 ≡ false
        → length.new ≡ car_length_of sha256 2 repo.now.state }
    ensures done { nat_eq result 255 ≡ false → result ≡ 0 }
    ensures kept { ¬ (result ≡ 0) → length.new ≡ length.old }
{
    match car_length(alloc, repo.core()) {
        Ok(count) => {
            *length = count;
            DONE
        }
        Err(_) => NO_MEMORY,
    }
}

/// The bytes of the CAR file of the repository from a place on: as many as there is room for, or as there are. The parts behind
/// one another are the file.
#[unsafe(no_mangle)]
pub extern "C" fn tizulgech_car_part(
    alloc: Global,
    repository: &mut Repository,
    from: u64,
    out: &mut [u8],
    size: &mut usize,
) -> u8
    ensures part { IfSome repository.old.handle.repo (λ o. IsHandedOr255 result
        (part_of from (length out.old) (state_car sha256 2 o.state)) out.old out.new size.new) }
    ensures read { OnlyReads result repository.old.handle.repo repository.new.handle.repo }
    ensures kept { IsKept result out.old out.new size.old size.new }
{
    let Some(repo) = repository.taken(alloc) else {
        return CLOSED;
    };
    let code = car_part_told(alloc, &repo, from, out, size);
    *repository = Repository::opened(repo);
    code
}

/// The same of a repository.
fn car_part_told(alloc: Global, repo: &OwnedRepo, from: u64, out: &mut [u8], size: &mut usize) -> u8
    ensures answer { IsHandedOr255 result
        (part_of from (length out.old) (state_car sha256 2 repo.now.state))
        out.old out.new size.new }
    ensures kept { IsKept result out.old out.new size.old size.new }
{
    match car_part_bytes(alloc, repo, from, out.len()) {
        Ok(part) => hand(&part, out, size),
        Err(_) => NO_MEMORY,
    }
}

/// The bytes of a part.
fn car_part_bytes(
    alloc: Global,
    repo: &OwnedRepo,
    from: u64,
    room: usize,
) -> Result<Vec<u8>, AllocError>
    ensures { IfOk result (λ part. part.items
        ≡ part_of from room (state_car sha256 2 repo.now.state)) }
{
    car_part(alloc, repo.core(), from, room)
}
