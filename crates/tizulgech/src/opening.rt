//! A repository that a host holds: how it is opened and let go.

ghost use Rattle.std.specs.Prelude.{◌≡◌, ◌<◌, ◌≤◌, true, Some, None, is_some};
ghost use Rattle.owned_repo.specs.Owning.{opened};
ghost use Rattle.tizulgech.specs.Numbers.{is_other};
ghost use Rattle.tizulgech.specs.Causes.{HasCause, limit_number};

use crate::codes::{BAD, CLASH, FULL, NO_MEMORY, OPEN};
use batches::RepoFault;
use buffers::DONE;
use cid::Sha256;
use owned_repo::{OwnedRepo, Repository};
use std::alloc::Global;

/// Opens a repository that may have `limit` writes: 249 where one is open, and else 252 for a limit that isn't 1 to 1,048,576.
#[unsafe(no_mangle)]
pub extern "C" fn tizulgech_open(alloc: Global, limit: usize, repository: &mut Repository) -> u8
    ensures opened { result ≡ 0 → repository.new.handle.repo ≡ Some (opened limit) }
    ensures unchanged { ¬ (result ≡ 0) → repository.new.handle.repo ≡ repository.old.handle.repo }
    ensures already { is_some repository.old.handle.repo ≡ true → result ≡ 249 }
    ensures below { repository.old.handle.repo ≡ None → limit < 1 → result ≡ 252 }
    ensures above { repository.old.handle.repo ≡ None → 1048576 < limit → result ≡ 252 }
    ensures within { repository.old.handle.repo ≡ None → 1 ≤ limit → limit ≤ 1048576
        → ¬ (result ≡ 0) → is_other result ≡ true }
    ensures cause { HasCause result }
{
    if repository.is_open() {
        return OPEN;
    }
    if limit < 1 || limit > 1_048_576 {
        return BAD;
    }
    match OwnedRepo::open(alloc, limit) {
        Ok(repo) => match Box::new(alloc, repo) {
            Ok(boxed) => {
                *repository = Repository::opened(boxed);
                DONE
            }
            Err(_) => NO_MEMORY,
        },
        Err(fault) => code_of_opening(&fault),
    }
}

/// The number of a fault for which no argument is to blame.
pub(crate) fn code_of_opening(fault: &RepoFault<Sha256>) -> u8
    ensures number { result ≡ limit_number fault.now }
    ensures other { is_other result ≡ true }
{
    match fault {
        RepoFault::Collision(_) => CLASH,
        RepoFault::StoreFull => FULL,
        _ => NO_MEMORY,
    }
}

/// Lets the repository go, if it is open. It can't fail.
#[unsafe(no_mangle)]
pub extern "C" fn tizulgech_close(alloc: Global, repository: &mut Repository)
    ensures { repository.new.handle.repo ≡ None }
{
    drop(repository.taken(alloc));
}
