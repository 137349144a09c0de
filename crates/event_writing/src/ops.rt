//! The operations of a message.

ghost use Rattle.std.specs.Prelude.{◌≡◌, length, nat_le, true, IfOk};
ghost use Rattle.spec.specs.Reading.{Gives};
ghost use Rattle.key_changes.specs.Keyed.{are_changes};
ghost use Rattle.change_laws.specs.Told.{undone};
ghost use Rattle.event_times.specs.Limits.{most_ops};
ghost use Rattle.event_laws.specs.Ops.{is_op as is_op_of, ops_of as ops_in};
ghost use Rattle.event_writing_laws.specs.Telling.{path_test, paths_test, told_ops as ops_told};
ghost use Rattle.event_writing.specs.Views.{untold_fault_of};

use crate::fault::UntoldFault;
use event_format::{FormFault, action_of};
use event_times::limits::MOST_OPS;
use key_changes::KeyChange;
use record_rules::is_repository_key;
use std::alloc::{AllocError, Allocator};

/// Whether a change leaves another value than there was.
fn is_op(change: &KeyChange<'_>) -> bool
    ensures { result ≡ is_op_of change.now }
{
    action_of(&change.before, &change.after).is_some()
}

/// A change again.
fn again<'k>(change: &KeyChange<'k>) -> KeyChange<'k>
    ensures { result ≡ change.now }
{
    KeyChange {
        key: change.key,
        before: change.before,
        after: change.after,
    }
}

/// The changes that leave another value than there was.
fn ops_of<'k, A: Allocator>(
    alloc: A,
    changes: &[KeyChange<'k>],
) -> Result<Vec<KeyChange<'k>, A>, AllocError>
    ensures { IfOk result (λ ops. ops.items ≡ ops_in changes.now) }
{
    let mut ops = Vec::new(alloc);
    for change in changes {
        if is_op(change) {
            ops.push(again(change))?;
        }
    }
    Ok(ops)
}

/// Whether there are no more operations than a message may have.
fn are_few(ops: &[KeyChange<'_>]) -> bool
    ensures { result ≡ nat_le (length ops.now) most_ops }
{
    ops.len() <= MOST_OPS
}

/// Whether an operation changes the key of a record.
fn test_path(place: usize, op: &KeyChange<'_>) -> Result<(), UntoldFault>
    ensures { Gives (λ x. x) untold_fault_of result (path_test place op.now) }
{
    if is_repository_key(op.key) {
        Ok(())
    } else {
        Err(UntoldFault::Form(FormFault::BadOp(place)))
    }
}

/// Whether each operation does.
fn test_paths(ops: &[KeyChange<'_>]) -> Result<(), UntoldFault>
    ensures { Gives (λ x. x) untold_fault_of result (paths_test 0 ops.now) }
{
    for (place, op) in ops.iter().enumerate() {
        test_path(place, op)?;
    }
    Ok(())
}

/// The operations of changes, of which an update that leaves the record that there was is none.
#[tactic(auto, unfolding(event_writing_laws::specs::Telling::told_ops))]
pub(crate) fn told_ops<'k, A: Allocator>(
    alloc: A,
    changes: &[KeyChange<'k>],
) -> Result<Vec<KeyChange<'k>, A>, UntoldFault>
    requires { are_changes (undone changes.now) ≡ true }
    ensures told { Gives (λ ops. ops.items) untold_fault_of result (ops_told changes.now) }
    ensures changes { IfOk result (λ ops. are_changes (undone ops.items) ≡ true) }
{
    let ops = ops_of(alloc, changes)?;
    if !are_few(&ops) {
        return Err(UntoldFault::Form(FormFault::TooManyOps));
    }
    test_paths(&ops)?;
    Ok(ops)
}
