//! The records that lines `KEY HEX` leave.
ghost use Rattle.std.specs.Prelude.{◌≡◌, [], ◌∷◌, ◌++◌, OnOk};
ghost use Rattle.spec.specs.Reading.{Gives};
ghost use Rattle.console.specs.Lines.{numbered_lines as numbered_lines_of};
ghost use Rattle.tree_command.specs.TreeText.{last_of_each_key};
ghost use Rattle.difference_commands.specs.Faults.{lines_fault_of};
ghost use Rattle.difference_commands.specs.RecordLines.{map_of_records as map_of, records_of_lines as records_of_lines_of};
ghost use Rattle.difference_commands.specs.Views.{keyed};

use crate::lines_fault::LinesFault;
use crate::record_line::record_of_line;
use console::numbered_lines;
use std::alloc::{AllocError, Allocator};
use tree_command::ListedKey;

/// Keys that are lent, each with its record.
pub(crate) type Records<'f, A> = Vec<(ListedKey<'f>, Vec<u8, A>), A>;

/// The records that the lines leave, in the order of their keys, or the first line that is faulty.
#[tactic(auto, unfolding(crate::specs::RecordLines::map_of_records))]
pub(crate) fn map_of_records<A: Allocator + Copy>(
    alloc: A,
    input: &[u8],
) -> Result<Records<'_, A>, LinesFault>
    ensures { Gives (λ records. keyed records.items) lines_fault_of result (map_of input.now) }
{
    let mut records = records_of_lines(alloc, input)?;
    keep_last_of_each_key(&mut records)?;
    Ok(records)
}

/// The records in the order of their lines, or the first line that is faulty.
fn records_of_lines<A: Allocator + Copy>(
    alloc: A,
    input: &[u8],
) -> Result<Records<'_, A>, LinesFault>
    ensures { Gives (λ records. keyed records.items) lines_fault_of result
        (records_of_lines_of (numbered_lines_of input.now)) }
{
    let mut records = Vec::new(alloc);
    for (number, line) in numbered_lines(input) {
        match record_of_line(alloc, line) {
            Ok(record) => push_record(&mut records, record)?,
            Err(fault) => return Err(LinesFault::Line { number, fault }),
        }
    }
    Ok(records)
}

/// Adds the record of a key that is lent.
fn push_record<'f, A: Allocator>(
    records: &mut Records<'f, A>,
    record: (&'f [u8], Vec<u8, A>),
) -> Result<(), AllocError>
    ensures { OnOk result (keyed records.new.items
        ≡ keyed records.old.items ++ (record.entry.0.now, record.entry.1.items) ∷ []) }
{
    records.push((ListedKey::new(record.0), record.1))?;
    Ok(())
}

/// Sorts the records by key, and keeps of those with one key the last. At `Err` they may stand in another order.
fn keep_last_of_each_key<A: Allocator>(records: &mut Records<'_, A>) -> Result<(), AllocError>
    ensures { OnOk result (keyed records.new.items ≡ last_of_each_key (keyed records.old.items)) }
{
    records.reverse();
    records.sort_by(|a, b| a.0.cmp(&b.0))?;
    records.dedup_by(|later, kept| later.0 == kept.0);
    Ok(())
}
