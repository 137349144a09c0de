//! Changes turned round.

ghost use Rattle.std.specs.Prelude.{◌≡◌, IfOk};
ghost use Rattle.step_laws.specs.Turned.{turned as turned_of};

use key_changes::KeyChange;
use std::alloc::{AllocError, Allocator};

/// What leads back, in the order of the changes.
pub(crate) fn turned<'k, A: Allocator>(
    alloc: A,
    changes: &[KeyChange<'k>],
) -> Result<Vec<KeyChange<'k>, A>, AllocError>
    ensures { IfOk result (λ back. back.items ≡ turned_of changes.now) }
{
    let mut back = Vec::with_capacity(alloc, changes.len())?;
    for change in changes {
        back.push(one_turned(change))?;
    }
    Ok(back)
}

/// What leads back from one change.
fn one_turned<'k>(change: &KeyChange<'k>) -> KeyChange<'k>
    ensures { result
        ≡ record { key = change.now.key; before = change.now.after; after = change.now.before } }
{
    KeyChange {
        key: change.key,
        before: change.after,
        after: change.before,
    }
}
