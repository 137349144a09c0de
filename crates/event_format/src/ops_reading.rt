//! The operations of a message.

ghost use Rattle.spec.specs.Reading.{Gives};
ghost use Rattle.dagcbor.specs.View.{view_items};
ghost use Rattle.event_laws.specs.Reading.{ops_in};
ghost use Rattle.event_format.specs.Views.{form_fault_of};

use crate::fault::FormFault;
use crate::ops::op_of;
use dagcbor::Value;
use key_changes::KeyChange;
use std::alloc::Allocator;

/// The operations of a list, or the place of the first item that is none.
pub(crate) fn ops_of<'a, A: Allocator + Copy>(
    alloc: A,
    items: &Vec<Value<'a, A>, A>,
) -> Result<Vec<KeyChange<'a>, A>, FormFault>
    ensures { Gives (λ ops. ops.items) form_fault_of result
        (ops_in 0 (view_items items.now.items)) }
{
    let mut ops = Vec::with_capacity(alloc, items.len())?;
    for item in items {
        let Some(op) = op_of(item) else {
            return Err(FormFault::BadOp(ops.len()));
        };
        ops.push(op)?;
    }
    Ok(ops)
}
