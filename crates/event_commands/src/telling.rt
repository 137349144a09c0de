//! What is told of a message that is true.
ghost use Rattle.std.specs.Prelude.{◌≡◌, ◌++◌, decimal, OnOk};
ghost use Rattle.std.specs.List.{flat_map};
ghost use Rattle.car_reader.specs.Views.{sections_of};
ghost use Rattle.signed_commits.specs.Views.{commit_of};
ghost use Rattle.commit_events.specs.Views.{checked_of};
ghost use Rattle.event_commands.specs.Texts.{action_words, message_lines, op_line, record_words, summary_line};

use car_reader::{Places, Section};
use cid::Cid;
use commit_events::CheckedCommit;
use event_format::action_of;
use itoa::Buffer;
use key_changes::KeyChange;
use record_forms::{Form, word_of_record};
use signed_commits::SignedCommit;
use std::alloc::{AllocError, Global};

/// Puts the lines of a message at the end: whose repository it is, the revision, the root after it and how many operations it
/// has; and with JSON each operation, as a line of a batch with its record.
pub(crate) fn push_message(
    alloc: Global,
    form: Form,
    text: &mut Vec<u8>,
    checked: &CheckedCommit<'_, Global>,
) -> Result<(), AllocError>
    ensures { OnOk result (text.new.items
        ≡ text.old.items ++ message_lines form (checked_of checked.now)) }
{
    push_summary(text, &checked.commit, checked.event.ops.len() as u64)?;
    match form {
        Form::Hex => Ok(()),
        Form::Json => push_ops(alloc, text, &checked.sections, &checked.event.ops),
    }
}

/// Puts the first line of a message at the end.
fn push_summary(text: &mut Vec<u8>, commit: &SignedCommit<'_>, count: u64) -> Result<(), AllocError>
    ensures { OnOk result (text.new.items
        ≡ text.old.items ++ summary_line (commit_of commit.now) count) }
{
    text.extend_from_slice(commit.did)?;
    text.push(b' ')?;
    text.extend_from_slice(commit.rev)?;
    text.push(b' ')?;
    text.extend_from_slice(&commit.root.to_cid().text())?;
    text.push(b' ')?;
    push_number(text, count)?;
    text.push(b'\n')?;
    Ok(())
}

/// Puts a number in decimal digits at the end.
fn push_number(text: &mut Vec<u8>, number: u64) -> Result<(), AllocError>
    ensures { OnOk result (text.new.items ≡ text.old.items ++ decimal number) }
{
    text.extend_from_slice(Buffer::new().format(number).as_bytes())
}

/// Puts the lines of operations at the end, whose records are among these sections.
fn push_ops(
    alloc: Global,
    text: &mut Vec<u8>,
    sections: &[Section<'_>],
    ops: &[KeyChange<'_>],
) -> Result<(), AllocError>
    ensures { OnOk result (text.new.items
        ≡ text.old.items ++ flat_map (op_line (sections_of sections.now)) ops.now) }
{
    let places = Places::new(alloc, sections)?;
    push_each(alloc, text, &places, ops)
}

/// Puts the lines of operations at the end, whose records are found there.
fn push_each(
    alloc: Global,
    text: &mut Vec<u8>,
    places: &Places<'_, '_, Global>,
    ops: &[KeyChange<'_>],
) -> Result<(), AllocError>
    ensures { OnOk result (text.new.items
        ≡ text.old.items ++ flat_map (op_line places.now) ops.now) }
{
    for op in ops {
        push_op(alloc, text, places, op)?;
    }
    Ok(())
}

/// Puts the line of an operation at the end.
fn push_op(
    alloc: Global,
    text: &mut Vec<u8>,
    places: &Places<'_, '_, Global>,
    op: &KeyChange<'_>,
) -> Result<(), AllocError>
    ensures { OnOk result (text.new.items ≡ text.old.items ++ op_line places.now op.now) }
{
    push_action(text, &op.before, &op.after)?;
    text.extend_from_slice(op.key)?;
    push_record(alloc, text, places, &op.after)?;
    text.push(b'\n')?;
    Ok(())
}

/// Puts what an operation is called, and a space, at the end.
fn push_action(
    text: &mut Vec<u8>,
    before: &Option<Cid>,
    after: &Option<Cid>,
) -> Result<(), AllocError>
    ensures { OnOk result (text.new.items ≡ text.old.items ++ action_words before.now after.now) }
{
    if let Some(action) = action_of(before, after) {
        text.extend_from_slice(action)?;
    }
    text.push(b' ')?;
    Ok(())
}

/// Puts a space and the record that an operation leaves at the end, as JSON, and in hexadecimal where it has none; and nothing
/// where it leaves no record.
fn push_record(
    alloc: Global,
    text: &mut Vec<u8>,
    places: &Places<'_, '_, Global>,
    after: &Option<Cid>,
) -> Result<(), AllocError>
    ensures { OnOk result (text.new.items ≡ text.old.items ++ record_words places.now after.now) }
{
    let Some(cid) = after else {
        return Ok(());
    };
    text.push(b' ')?;
    match places.find(cid) {
        Some(record) => text.extend_from_slice(&word_of_record(alloc, Form::Json, record)?),
        None => Ok(()),
    }
}
