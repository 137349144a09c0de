//! Whether the records have the words that are asked for.

ghost use Rattle.std.specs.Prelude.{◌≡◌, map, IfOk};
ghost use Rattle.repository_check.specs.Views.{keyed_record};
ghost use Rattle.export_commands.specs.Outcomes.{IsTestOf};
ghost use Rattle.export_commands.specs.Texts.{formless, without_word};

use crate::command::Values;
use crate::fault::ExportFault;
use record_forms::has_json;
use repository_check::{CheckFault, Record};
use std::alloc::{AllocError, Allocator};

/// Tests that each record has the word that is asked for. Bytes and a CID each of them has.
///
/// `ExportFault::NoJsonForm` names the first that has no JSON; or memory was refused.
pub(crate) fn check_words<A: Allocator + Copy>(
    values: Values,
    alloc: A,
    records: &[Record<'_, A>],
) -> Result<(), ExportFault>
    ensures { IsTestOf (without_word values (map keyed_record records.now)) result }
{
    match values {
        Values::Json => check_forms(alloc, records),
        Values::Bytes | Values::Cids => Ok(()),
    }
}

/// Tests that each record has JSON.
fn check_forms<A: Allocator + Copy>(alloc: A, records: &[Record<'_, A>]) -> Result<(), ExportFault>
    ensures { IsTestOf (formless (map keyed_record records.now)) result }
{
    match first_formless(alloc, records) {
        Ok(None) => Ok(()),
        Ok(Some(place)) => Err(ExportFault::NoJsonForm(place as u64)),
        Err(_) => Err(ExportFault::Check(CheckFault::NoMemory)),
    }
}

/// The place of the first record that has no JSON.
fn first_formless<A: Allocator + Copy>(
    alloc: A,
    records: &[Record<'_, A>],
) -> Result<Option<usize>, AllocError>
    ensures { IfOk result (λ place. place ≡ formless (map keyed_record records.now)) }
{
    for place in 0..records.len() {
        if !has_json(alloc, records[place].bytes)? {
            return Ok(Some(place));
        }
    }
    Ok(None)
}
