//! The records of a message.

ghost use Rattle.std.specs.Prelude.{◌≡◌, length, nat_le};
ghost use Rattle.spec.specs.Reading.{Gives};
ghost use Rattle.spec.specs.Writes.{record_test};
ghost use Rattle.event_times.specs.Limits.{most_record_bytes};
ghost use Rattle.event_laws.specs.Verdict.{after_test, of_record, records_test};
ghost use Rattle.event_blocks.specs.Views.{blocks_fault_of};

use crate::fault::BlocksFault;
use car_reader::Places;
use cid::Cid;
use event_times::limits::MOST_RECORD_BYTES;
use key_changes::KeyChange;
use record_rules::test_record;
use std::alloc::Allocator;

/// Whether a record is no longer than a message may have it.
fn is_short(block: &[u8]) -> bool
    ensures { result ≡ nat_le (length block.now) most_record_bytes }
{
    block.len() <= MOST_RECORD_BYTES
}

/// Whether a block is a record.
fn test_block(place: usize, block: &[u8]) -> Result<(), BlocksFault>
    ensures { Gives (λ x. x) blocks_fault_of result (of_record place (record_test block.now)) }
{
    match test_record(block) {
        Ok(()) => Ok(()),
        Err(fault) => Err(BlocksFault::BadRecord(place, fault)),
    }
}

/// Whether the record that an operation leaves, if it leaves one, is there and is one that isn't too long.
fn test_after<A: Allocator>(
    places: &Places<'_, '_, A>,
    place: usize,
    after: &Option<Cid>,
) -> Result<(), BlocksFault>
    ensures { Gives (λ x. x) blocks_fault_of result (after_test places.now place after.now) }
{
    let Some(cid) = after else {
        return Ok(());
    };
    let Some(block) = places.find(cid) else {
        return Err(BlocksFault::RecordMissing(place));
    };
    if !is_short(block) {
        return Err(BlocksFault::RecordSize(place));
    }
    test_block(place, block)
}

/// What an operation leaves.
fn after_of<'c>(op: &'c KeyChange<'_>) -> &'c Option<Cid>
    ensures { result.now ≡ op.now.after }
{
    &op.after
}

/// Tests that the record that each operation leaves is among the blocks, is one, and isn't too long. `BlocksFault::RecordMissing`,
/// `RecordSize` or `BadRecord` with the first place where it isn't so. Takes no memory.
pub fn test_records<A: Allocator>(
    places: &Places<'_, '_, A>,
    ops: &[KeyChange<'_>],
) -> Result<(), BlocksFault>
    ensures { Gives (λ x. x) blocks_fault_of result (records_test places.now 0 ops.now) }
{
    for (place, op) in ops.iter().enumerate() {
        test_after(places, place, after_of(op))?;
    }
    Ok(())
}
