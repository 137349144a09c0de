//! The batch of some changes.

ghost use Rattle.std.specs.Prelude.{◌≡◌, Ok, Some, map, option_map, IfOk, IfErr};
ghost use Rattle.batches.specs.Values.{write_of, writes_of};
ghost use Rattle.difference_taking.specs.Refusals.{IsMissing};
ghost use Rattle.difference_taking.specs.Writing.{ArePlaces, batch_of as batch_of_changes, write_for as write_for_change};
ghost use Rattle.spec.specs.Writes as writes;

use crate::fault::TakingFault;
use crate::records::{places_of, record_at};
use batches::Write;
use cid::{Cid, Digest};
use key_changes::KeyChange;
use std::alloc::{AllocError, Allocator};
use std::collections::BTreeMap;
use std::convert::AsSlice;

/// A write for each change: a put of the first record that has the CID after it, or a delete. The records are copied.
///
/// `TakingFault::RecordMissing` has the place of the first change whose record isn't given, and `TakingFault::NoMemory` comes
/// where memory was refused.
pub(crate) fn batch_of<D: Digest, A: Allocator + Copy, K: AsSlice<u8>>(
    alloc: A,
    changes: &[KeyChange<'_>],
    records: &[K],
) -> Result<Vec<Write<A>, A>, TakingFault<D, A>>
    ensures batch { IfOk result (λ batch. batch_of_changes D.digest_of
        (map K.items records.now) changes.now ≡ Ok (writes_of batch.items)) }
    ensures fault { IfErr result
        (IsMissing D.digest_of (map K.items records.now) changes.now) }
{
    let places = places_of::<D, A, K>(alloc, records)?;
    let mut batch = Vec::with_capacity(alloc, changes.len())?;
    for (place, change) in changes.iter().enumerate() {
        match write_for::<D, A, K>(alloc, &places, records, change)? {
            Some(write) => batch.push(write)?,
            None => return Err(TakingFault::RecordMissing(place)),
        }
    }
    Ok(batch)
}

/// The write of a change, or `None` where its record isn't given.
fn write_for<D: Digest, A: Allocator + Copy, K: AsSlice<u8>>(
    alloc: A,
    places: &BTreeMap<Cid, usize, A>,
    records: &[K],
    change: &KeyChange<'_>,
) -> Result<Option<Write<A>>, AllocError>
    requires { ArePlaces D.digest_of (map K.items records.now) places.now }
    ensures { IfOk result (λ made. option_map write_of made
        ≡ write_for_change D.digest_of (map K.items records.now) change.now) }
{
    let Some(cid) = change.after else {
        return Ok(Some(delete_of(alloc, change.key)?));
    };
    match record_at::<D, A, K>(places, records, &cid) {
        Some(record) => Ok(Some(put_of(alloc, change.key, record)?)),
        None => Ok(None),
    }
}

/// A delete of this key.
fn delete_of<A: Allocator + Copy>(alloc: A, key: &[u8]) -> Result<Write<A>, AllocError>
    ensures { IfOk result (λ write. write_of write ≡ writes.Delete key.now) }
{
    Ok(Write::Delete(Vec::from_slice(alloc, key)?))
}

/// A put of this record under this key.
fn put_of<A: Allocator + Copy>(alloc: A, key: &[u8], record: &[u8]) -> Result<Write<A>, AllocError>
    ensures { IfOk result (λ write. write_of write ≡ writes.Put key.now record.now) }
{
    let key = Vec::from_slice(alloc, key)?;
    let bytes = Vec::from_slice(alloc, record)?;
    Ok(Write::Put(key, bytes))
}
