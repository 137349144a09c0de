//! The records of a file.

ghost use Rattle.std.specs.Prelude.{◌≡◌, IfOk, map, option_map, length};
ghost use Rattle.spec.specs.Reading.{Gives};
ghost use Rattle.spec.specs.Exports.{OfRecord, OfTest, at_place, keyed, record_for, records_from};
ghost use Rattle.record_rules.specs.Faults.{record_fault_of};
ghost use Rattle.repository_check.specs.Views.{check_fault_of, lent, keyed_record, pair_of};
ghost use Rattle.repository_check.specs.Views.{pairs_of};

use crate::fault::{CheckFault, RecordFault};
use crate::repository::Record;
use crate::walking::Pairs;
use car_reader::Places;
use cid::Cid;
use record_rules::{is_repository_key, test_record};
use std::alloc::{AllocError, Allocator};

/// The bytes of the record of each pair, or the first record that isn't taken.
pub(crate) fn records_in<'f, A: Allocator + Copy>(
    alloc: A,
    places: &Places<'_, 'f, A>,
    pairs: &[(Vec<u8, A>, Cid)],
) -> Result<Vec<&'f [u8], A>, CheckFault>
    ensures { Gives (λ records. lent records.items) check_fault_of result
        (records_from places.now 0 (pairs_of pairs.now)) }
{
    let mut records = Vec::with_capacity(alloc, pairs.len())?;
    for (place, (key, cid)) in pairs.iter().enumerate() {
        let record = record_at(places, place as u64, key, cid)?;
        records.push(record)?;
    }
    Ok(records)
}

/// The bytes of the record of the pair at this place.
fn record_at<'f, A: Allocator>(
    places: &Places<'_, 'f, A>,
    place: u64,
    key: &[u8],
    cid: &Cid,
) -> Result<&'f [u8], CheckFault>
    ensures { Gives (λ bytes. bytes.now) check_fault_of result
        (at_place place (record_for places.now (key.now, cid.now))) }
{
    if !is_repository_key(key) {
        return Err(CheckFault::Record(place, RecordFault::BadKey));
    }
    let Some(record) = places.find(cid) else {
        return Err(CheckFault::Record(place, RecordFault::NoRecord));
    };
    match test_record(record) {
        Ok(()) => Ok(record),
        Err(fault) => Err(fault_at(place, fault)),
    }
}

/// The fault of the record at this place.
fn fault_at(place: u64, fault: record_rules::RecordFault) -> CheckFault
    ensures { check_fault_of result
        ≡ option_map (λ f. OfRecord place (OfTest f)) (record_fault_of fault) }
{
    match fault {
        record_rules::RecordFault::RecordSize => {
            CheckFault::Record(place, RecordFault::RecordSize)
        }
        record_rules::RecordFault::BadRecord(fault) => {
            CheckFault::Record(place, RecordFault::BadRecord(fault))
        }
        record_rules::RecordFault::NotAMap => CheckFault::Record(place, RecordFault::NotAMap),
    }
}

/// Each pair with its record's bytes.
pub(crate) fn with_records<'f, A: Allocator + Copy>(
    alloc: A,
    pairs: Pairs<A>,
    records: Vec<&'f [u8], A>,
) -> Result<Vec<Record<'f, A>, A>, AllocError>
    requires { length pairs.items ≡ length records.items }
    ensures keyed { IfOk result (λ all. map keyed_record all.items
        ≡ keyed (pairs_of pairs.items) (lent records.entry.items)) }
    ensures pairs { IfOk result (λ all. map pair_of all.items ≡ pairs_of pairs.items) }
{
    let mut all = Vec::with_capacity(alloc, pairs.len())?;
    for ((key, cid), bytes) in pairs.into_iter().zip(records) {
        all.push(Record { key, cid, bytes })?;
    }
    Ok(all)
}
