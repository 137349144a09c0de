//! The revision that a repository has.

ghost use Rattle.std.specs.Prelude.{IfSome};
ghost use Rattle.spec.specs.Stamps.{last, rev_of};
ghost use Rattle.buffers.specs.Answers.{IsKept};
ghost use Rattle.tizulgech.specs.Handles.{OnlyReads};
ghost use Rattle.tizulgech.specs.Numbers.{IsHandedIf};

use crate::codes::{CLOSED, NONE};
use batches::last_stamp;
use buffers::hand;
use owned_repo::{OwnedRepo, Repository};
use std::alloc::Global;

/// The revision of the last batch: 0; 24 before the first one; 250; 251.
#[unsafe(no_mangle)]
pub extern "C" fn tizulgech_rev(
    alloc: Global,
    repository: &mut Repository,
    out: &mut [u8],
    size: &mut usize,
) -> u8
    ensures rev { IfSome repository.old.handle.repo
        (λ o. IsHandedIf result (rev_of (last o.state.stamps)) out.old out.new size.new) }
    ensures read { OnlyReads result repository.old.handle.repo repository.new.handle.repo }
    ensures kept { IsKept result out.old out.new size.old size.new }
{
    let Some(repo) = repository.taken(alloc) else {
        return CLOSED;
    };
    let code = rev_told(&repo, out, size);
    *repository = Repository::opened(repo);
    code
}

/// The same of a repository.
fn rev_told(repo: &OwnedRepo, out: &mut [u8], size: &mut usize) -> u8
    ensures rev { IsHandedIf result (rev_of (last repo.now.state.stamps)) out.old out.new size.new }
    ensures kept { IsKept result out.old out.new size.old size.new }
{
    match last_stamp(repo.core().stamps()) {
        Some(stamp) => hand(&stamp.rev, out, size),
        None => NONE,
    }
}
