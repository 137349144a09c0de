//! Changes undone.

ghost use Rattle.std.specs.Prelude.{◌≡◌, IfOk};
ghost use Rattle.change_laws.specs.Told.{undone as undone_of};

use key_changes::{Change, KeyChange};
use std::alloc::{AllocError, Allocator};

/// The changes undone, in their order.
pub(crate) fn undone<'k, A: Allocator>(
    alloc: A,
    changes: &[KeyChange<'k>],
) -> Result<Vec<Change<'k>, A>, AllocError>
    ensures { IfOk result (λ undone. undone.items ≡ undone_of changes.now) }
{
    let mut undone = Vec::with_capacity(alloc, changes.len())?;
    for change in changes {
        undone.push(change.undone())?;
    }
    Ok(undone)
}
