//! The blocks of a proof, found by their CIDs.

ghost use Rattle.std.specs.Prelude.{◌≡◌, ◌<◌, [], length, map, option_map, slice_index_or};
ghost use Rattle.spec.specs.Cid.{cid as cid_of};
ghost use Rattle.export.specs.GivenBlocks.{first_with, AreHashed};

use crate::hashed::Hashed;
use cid::{Cid, Digest};
use std::convert::AsSlice;

/// The first of the blocks with this CID. A block's CID is kept once it is known, if those before it are and there is
/// room: so of a proof of at most 32 blocks in the order of the path each is hashed once.
pub(crate) fn find<'a, D: Digest, K: AsSlice<u8>>(
    blocks: &'a [K],
    hashed: &mut Hashed,
    cid: &Cid,
) -> Option<&'a [u8]>
    requires { AreHashed D.digest_of (map K.items blocks.now) hashed.now }
    ensures found { option_map (λ b. b.now) result
        ≡ first_with D.digest_of cid.now (map K.items blocks.now) }
    ensures hashed { AreHashed D.digest_of (map K.items blocks.now) hashed.new }
{
    let mut place = 0;
    while place < blocks.len() {
        if cid_at::<D, K>(blocks, hashed, place) == *cid {
            return Some(blocks[place].as_slice());
        }
        place += 1;
    }
    None
}

/// The CID of the block at a place.
fn cid_at<D: Digest, K: AsSlice<u8>>(blocks: &[K], hashed: &mut Hashed, place: usize) -> Cid
    requires hashed { AreHashed D.digest_of (map K.items blocks.now) hashed.now }
    requires within { place < length blocks.now }
    ensures value { result ≡ cid_of D.digest_of (slice_index_or (map K.items blocks.now) place []) }
    ensures hashed { AreHashed D.digest_of (map K.items blocks.now) hashed.new }
{
    if let Some(cid) = hashed.get(place) {
        return cid;
    }
    let cid = Cid::of::<D>(blocks[place].as_slice());
    if place == hashed.count() {
        hashed.push(cid);
    }
    cid
}
