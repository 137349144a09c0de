//! Records by their CIDs.

ghost use Rattle.std.specs.Prelude.{◌≡◌, map, option_map, IfOk};
ghost use Rattle.spec.specs.Blocks.{block_at};
ghost use Rattle.difference_taking.specs.Writing.{ArePlaces};

use cid::{Cid, Digest};
use std::alloc::{AllocError, Allocator};
use std::clone::Clone;
use std::collections::BTreeMap;
use std::convert::AsSlice;

/// The place of the first record of each CID. All records are hashed, each once, several side by side where the digest can do
/// that.
pub(crate) fn places_of<D: Digest, A: Allocator + Clone, K: AsSlice<u8>>(
    alloc: A,
    records: &[K],
) -> Result<BTreeMap<Cid, usize, A>, AllocError>
    ensures { IfOk result (λ places. ArePlaces D.digest_of (map K.items records.now) places) }
{
    let digests = D::digest_each(alloc.clone()?, records)?;
    let mut places = BTreeMap::new(alloc);
    let mut remaining = digests.len();
    while remaining > 0 {
        remaining -= 1;
        places.insert(Cid::of_digest(&digests[remaining]), remaining)?;
    }
    Ok(places)
}

/// The first record with this CID, by the places of the records.
pub(crate) fn record_at<'r, D: Digest, A: Allocator, K: AsSlice<u8>>(
    places: &BTreeMap<Cid, usize, A>,
    records: &'r [K],
    cid: &Cid,
) -> Option<&'r [u8]>
    requires { ArePlaces D.digest_of (map K.items records.now) places.now }
    ensures { option_map (λ bytes. bytes.now) result
        ≡ block_at D.digest_of cid.now (map K.items records.now) }
{
    let place = *places.get(cid)?;
    match records.get(place) {
        Some(record) => Some(record.as_slice()),
        None => None,
    }
}
