//! A repository that begins with the records of a file.

ghost use Rattle.std.specs.Prelude.{◌≡◌, ◌<◌, ◌≤◌, true, false, length, Some, None, is_some};
ghost use Rattle.sha2.specs.Sha256.{sha256};
ghost use Rattle.checked_opening.specs.Opening.{state_of, IsOpenable};
ghost use Rattle.owned_repo.specs.Owning.{holding};
ghost use Rattle.repository_check.specs.Views.{records_of};
ghost use Rattle.tizulgech.specs.Causes.{HasCause};
ghost use Rattle.tizulgech.specs.Checked.{tells_record, IsNoExport};
ghost use Rattle.tizulgech.specs.Numbers.{is_other};
ghost use Rattle.tizulgech.specs.Opened.{is_of_file, opening_number, HasMany, IsOpenedOf};

use crate::checked_files::tell_check;
use crate::codes::{BAD, CLASH, FULL, NO_MEMORY, OPEN};
use batches::RepoFault;
use buffers::DONE;
use cid::Sha256;
use owned_repo::{OwnedRepo, Repository};
use repository_check::check;
use std::alloc::Global;

/// Opens a repository with the records of a CAR file, as `com.atproto.sync.getRepo` serves it, which may have `limit` writes:
/// its records are one batch of so many writes, under the DID and the revision of the file's commit, and its root is the one that
/// the commit names. Its own commit has no signature, and so another CID than the file's. A file without records gives a
/// repository without writes.
///
/// 0; 249 where one is open; 252 for a limit that isn't 1 to 1,048,576; the numbers of `tizulgech_check_car` where the file is no
/// export, of a record with its place; 25 where it has more records than the limit; 253; 254; 255.
#[unsafe(no_mangle)]
pub extern "C" fn tizulgech_open_car(
    alloc: Global,
    limit: usize,
    file: &[u8],
    repository: &mut Repository,
    place: &mut usize,
) -> u8
    ensures opened { result ≡ 0 → IsOpenedOf limit file.now repository.new.handle.repo }
    ensures unchanged { ¬ (result ≡ 0) → repository.new.handle.repo ≡ repository.old.handle.repo }
    ensures already { is_some repository.old.handle.repo ≡ true → result ≡ 249 }
    ensures below { repository.old.handle.repo ≡ None → limit < 1 → result ≡ 252 }
    ensures above { repository.old.handle.repo ≡ None → 1048576 < limit → result ≡ 252 }
    ensures many { result ≡ 25 → HasMany limit file.now }
    ensures fault { is_of_file result ≡ true → IsNoExport result place.new file.now }
    ensures other { repository.old.handle.repo ≡ None → 1 ≤ limit → limit ≤ 1048576
        → ¬ (result ≡ 0) → ¬ (result ≡ 25) → is_of_file result ≡ false → is_other result ≡ true }
    ensures place { tells_record result ≡ false → place.new ≡ place.old }
    ensures cause { HasCause result }
{
    if repository.is_open() {
        return OPEN;
    }
    if limit < 1 || limit > 1_048_576 {
        return BAD;
    }
    match check::<Sha256, 2, Global>(alloc, file) {
        Ok(found) => open_found(alloc, limit, &found, repository),
        Err(fault) => tell_check(fault, place),
    }
}

/// The same of a file that was checked.
fn open_found(
    alloc: Global,
    limit: usize,
    found: &repository_check::Repository<'_>,
    repository: &mut Repository,
) -> u8
    requires least { 1 ≤ limit }
    requires most { limit ≤ 1048576 }
    requires openable { IsOpenable sha256 2 found.now }
    ensures opened { result ≡ 0
        → repository.new.handle.repo ≡ Some (holding (state_of 0 limit found.now)) }
    ensures unchanged { ¬ (result ≡ 0) → repository.new.handle.repo ≡ repository.old.handle.repo }
    ensures many { result ≡ 25 → limit < length (records_of found.now) }
    ensures other { ¬ (result ≡ 0) → ¬ (result ≡ 25) → is_other result ≡ true }
    ensures no_file { is_of_file result ≡ false }
    ensures cause { HasCause result }
{
    match OwnedRepo::open_checked(alloc, limit, found) {
        Ok(repo) => match Box::new(alloc, repo) {
            Ok(boxed) => {
                *repository = Repository::opened(boxed);
                DONE
            }
            Err(_) => NO_MEMORY,
        },
        Err(fault) => code_of_opened(&fault),
    }
}

/// The number of a fault of such an opening.
fn code_of_opened(fault: &RepoFault<Sha256>) -> u8
    ensures number { result ≡ opening_number fault.now }
    ensures some { ¬ (result ≡ 0) }
    ensures other { ¬ (result ≡ 25) → is_other result ≡ true }
    ensures no_file { is_of_file result ≡ false }
{
    match fault {
        RepoFault::Collision(_) => CLASH,
        RepoFault::StoreFull => FULL,
        RepoFault::WritesFull => 25,
        _ => NO_MEMORY,
    }
}
