//! The lines of the records.

ghost use Rattle.std.specs.Prelude.{map};
ghost use Rattle.std.specs.List.{flat_map};
ghost use Rattle.console.specs.Written.{Writes};
ghost use Rattle.repository_check.specs.Views.{keyed_record};
ghost use Rattle.export_commands.specs.Outcomes.{IsTold};
ghost use Rattle.export_commands.specs.Texts.{ended, json_or_nothing, unless_at, without_word};
ghost use Rattle.export_commands.specs.Views.{line_of, value_of};

use crate::command::Values;
use crate::fault::ExportFault;
use crate::forms::check_words;
use crate::lines::{write_ended, write_hex_ended, write_spaced};
use console::{CommandFault, WriteFault};
use record_forms::json_of_record;
use repository_check::Record;
use std::alloc::Allocator;
use std::io::Write;

/// Writes the line of each record, where each has the word that is asked for, and else tells of the first that hasn't.
pub(crate) fn write_listed<A: Allocator + Copy, W: Write>(
    values: Values,
    alloc: A,
    out: &mut W,
    records: &[Record<'_, A>],
) -> Result<(), CommandFault<ExportFault>>
    ensures { IsTold (unless_at (without_word values (map keyed_record records.now))
        (flat_map (line_of values) records.now))
        (W.contents out.old) (W.contents out.new) result }
{
    match check_words(values, alloc, records) {
        Ok(()) => Ok(write_records(values, alloc, out, records)?),
        Err(fault) => Err(CommandFault::NoText(fault)),
    }
}

/// Writes the line of each record.
fn write_records<A: Allocator + Copy, W: Write>(
    values: Values,
    alloc: A,
    out: &mut W,
    records: &[Record<'_, A>],
) -> Result<(), WriteFault>
    ensures { Writes (W.contents out.old) (W.contents out.new) result
        (flat_map (line_of values) records.now) }
{
    for entry in records {
        write_record(values, alloc, out, entry)?;
    }
    Ok(())
}

/// Writes the line of a record: its key, and the word that is asked for.
fn write_record<A: Allocator + Copy, W: Write>(
    values: Values,
    alloc: A,
    out: &mut W,
    entry: &Record<'_, A>,
) -> Result<(), WriteFault>
    ensures { Writes (W.contents out.old) (W.contents out.new) result (line_of values entry.now) }
{
    write_spaced(out, &entry.key)?;
    write_value(values, alloc, out, entry)
}

/// Writes what stands behind the key of a record, and the line's end.
fn write_value<A: Allocator + Copy, W: Write>(
    values: Values,
    alloc: A,
    out: &mut W,
    entry: &Record<'_, A>,
) -> Result<(), WriteFault>
    ensures { Writes (W.contents out.old) (W.contents out.new) result
        (ended (value_of values entry.now)) }
{
    match values {
        Values::Bytes => write_hex_ended(out, entry.bytes),
        Values::Json => write_json_ended(alloc, out, entry.bytes),
        Values::Cids => write_ended(out, &entry.cid.text()),
    }
}

/// Writes the JSON of a record as the last word of a line, and the line's end. That each record has JSON was tested before the
/// first line.
fn write_json_ended<A: Allocator + Copy, W: Write>(
    alloc: A,
    out: &mut W,
    bytes: &[u8],
) -> Result<(), WriteFault>
    ensures { Writes (W.contents out.old) (W.contents out.new) result
        (ended (json_or_nothing bytes.now)) }
{
    match json_of_record(alloc, bytes) {
        Ok(Some(text)) => write_ended(out, &text),
        Ok(None) => write_ended(out, b""),
        Err(_) => Err(WriteFault::NoMemory),
    }
}
