//! Whether the blocks of a message show its operations.

ghost use Rattle.std.specs.Prelude.{◌≡◌, ◌≤◌, [], option_map, true, IfErr};
ghost use Rattle.spec.specs.Reading.{Gives};
ghost use Rattle.spec.specs.CarReading.{are_named, blocks_of};
ghost use Rattle.key_changes.specs.Keyed.{are_changes};
ghost use Rattle.car_reader.specs.Views.{sections_of};
ghost use Rattle.change_laws.specs.Told.{undone};
ghost use Rattle.event_laws.specs.Verdict.{as_event_fault, ordered_ops};
ghost use Rattle.commit_events.specs.Views.{change_fault_of, event_fault_of, HasNoWant};
ghost use Rattle.commit_events.specs.Steps.{shown_by};

use crate::fault::EventFault;
use crate::known::known_blocks;
use crate::order::{Placed, changes_of, in_order, place_of};
use car_reader::Section;
use change_proofs::{ChangeFault, verify_inversion_blocks};
use cid::{Cid, Digest};
use key_changes::KeyChange;
use std::alloc::Allocator;

/// Tests that the operations undone lead from the root `after` back to the root `before`, as the blocks of some sections show.
/// No two operations have one key.
pub(crate) fn test_changes<D: Digest, const B: u8, A: Allocator + Copy>(
    alloc: A,
    before: Cid,
    after: Cid,
    sections: &[Section<'_>],
    ops: &[KeyChange<'_>],
) -> Result<(), EventFault>
    requires least { 1 ≤ B }
    requires changes { are_changes (undone (ordered_ops ops.now)) ≡ true }
    requires named { are_named D.digest_of (sections_of sections.now) ≡ true }
    ensures shown { Gives (λ x. x) event_fault_of result
        (shown_by D.digest_of B before after (blocks_of (sections_of sections.now)) ops.now) }
    ensures plain { IfErr result HasNoWant }
{
    let sorted = in_order(alloc, ops)?;
    let changes = changes_of(alloc, &sorted)?;
    let blocks = known_blocks::<D, A>(alloc, sections)?;
    match verify_inversion_blocks::<D, B, A>(alloc, before, after, &blocks, &changes) {
        Ok(()) => Ok(()),
        Err(fault) => Err(event_fault(fault, &sorted)),
    }
}

/// What is to be said of a message whose operations, in the order of their keys, aren't shown.
fn event_fault(fault: ChangeFault, sorted: &[Placed<'_>]) -> EventFault
    ensures fault { event_fault_of result
        ≡ option_map (as_event_fault sorted.now) (change_fault_of fault) }
    ensures plain { HasNoWant result }
{
    match fault {
        ChangeFault::NoMemory => EventFault::NoMemory,
        ChangeFault::OtherValue(place) => {
            EventFault::Change(ChangeFault::OtherValue(place_of(sorted, place)))
        }
        fault => EventFault::Change(fault),
    }
}
