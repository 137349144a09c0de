//! How a message that is true is spelt.

ghost use Rattle.std.specs.Prelude.{◌≡◌, ◌++◌, option_map, IfOk, OnOk};
ghost use Rattle.std.specs.List.{flat_map};
ghost use Rattle.car_reader.specs.Views.{sections_of};
ghost use Rattle.event_format.specs.Views.{event_of};
ghost use Rattle.commit_events.specs.Views.{checked_of};
ghost use Rattle.tizulgech.specs.Messages.{change_spelt, changes_spelt, checked_spelt, event_spelt, section_spelt, since_spelt};

use crate::signed::push_commit;
use buffers::{push_number, push_part, push_value};
use car_reader::Section;
use change_proofs::KeyChange;
use commit_events::CheckedCommit;
use event_format::Event;
use std::alloc::{AllocError, Global};

/// What was checked, spelt.
pub(crate) fn spell_checked(
    alloc: Global,
    checked: &CheckedCommit<'_, Global>,
) -> Result<Vec<u8>, AllocError>
    ensures { IfOk result (λ bytes. bytes.items ≡ checked_spelt (checked_of checked.now)) }
{
    let mut bytes = Vec::new(alloc);
    push_commit(alloc, &mut bytes, &checked.commit)?;
    push_event(&mut bytes, &checked.event)?;
    push_sections(&mut bytes, &checked.sections)?;
    Ok(bytes)
}

/// Puts what a message says beside its commit and its blocks at the end.
fn push_event(out: &mut Vec<u8>, event: &Event<'_, Global>) -> Result<(), AllocError>
    ensures { OnOk result (out.new.items ≡ out.old.items ++ event_spelt (event_of event.now)) }
{
    push_number(out, event.seq)?;
    out.extend_from_slice(event.commit.as_bytes())?;
    push_since(out, event.since)?;
    push_part(out, event.time)?;
    push_changes(out, &event.ops)
}

/// Puts the revision before at the end, or no bytes where there is none.
fn push_since(out: &mut Vec<u8>, since: Option<&[u8]>) -> Result<(), AllocError>
    ensures { OnOk result (out.new.items
        ≡ out.old.items ++ since_spelt (option_map (λ rev. rev.now) since.entry)) }
{
    match since {
        Some(rev) => push_part(out, rev),
        None => push_part(out, b""),
    }
}

/// Puts changes at the end, and in front of them how many they are.
pub(crate) fn push_changes(out: &mut Vec<u8>, changes: &[KeyChange<'_>]) -> Result<(), AllocError>
    ensures { OnOk result (out.new.items ≡ out.old.items ++ changes_spelt changes.now) }
{
    push_number(out, changes.len() as u64)?;
    push_each_change(out, changes)
}

/// Puts changes at the end.
#[tactic(auto, using(buffers::proofs::Behind::spelt_next))]
fn push_each_change(out: &mut Vec<u8>, changes: &[KeyChange<'_>]) -> Result<(), AllocError>
    ensures { OnOk result
        (out.new.items ≡ out.old.items ++ flat_map change_spelt changes.now) }
{
    for change in changes {
        push_change(out, change)?;
    }
    Ok(())
}

/// Puts a change at the end.
fn push_change(out: &mut Vec<u8>, change: &KeyChange<'_>) -> Result<(), AllocError>
    ensures { OnOk result (out.new.items ≡ out.old.items ++ change_spelt change.now) }
{
    push_part(out, change.key)?;
    push_value(out, change.before)?;
    push_value(out, change.after)
}

/// Puts sections at the end.
#[tactic(auto, using(buffers::proofs::Behind::seen_next))]
fn push_sections(out: &mut Vec<u8>, sections: &[Section<'_>]) -> Result<(), AllocError>
    ensures { OnOk result (out.new.items
        ≡ out.old.items ++ flat_map section_spelt (sections_of sections.now)) }
{
    for section in sections {
        out.extend_from_slice(section.cid.as_bytes())?;
        push_part(out, section.block)?;
    }
    Ok(())
}
