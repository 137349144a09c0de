//! What a proof shows among many blocks.

ghost use Rattle.std.specs.Prelude.{◌≡◌, ◌<◌, ◌≤◌, ◌++◌, [], length, map, option_map, slice_index_or, IfOk};
ghost use Rattle.spec.specs.Cid.{cid as cid_of, prefix};
ghost use Rattle.spec.specs.Proof.{verified_within};
ghost use Rattle.spec.specs.Reading.{Gives};
ghost use Rattle.node.specs.Views.{place_of};
ghost use Rattle.export.specs.Faults.{proof_fault_of};
ghost use Rattle.export.specs.GivenBlocks.{first_with, place_below};
ghost use Rattle.export.specs.Shown.{IsAnswer};

use crate::proof_fault::ProofFault;
use cid::{Cid, Digest};
use lookups::layers;
use node::{NodeView, Place, is_key};
use std::alloc::{AllocError, Allocator};
use std::convert::AsSlice;

/// The same as [`verify`](crate::verify) among many blocks, as those of strangers, in any order: each block is hashed once, several
/// side by side, before any is looked up, and its CID is kept. So it takes hardly longer than the hashing, wherever the path
/// stands; `AllocError` says that memory was refused.
pub fn verify_among<D: Digest, const B: u8, K: AsSlice<u8>, A: Allocator + Clone>(
    alloc: A,
    root: &Cid,
    blocks: &[K],
    key: &[u8],
) -> Result<Result<Option<Cid>, ProofFault>, AllocError>
    requires { 1 ≤ B }
    ensures { IfOk result
        (IsAnswer D.digest_of B root.now (map K.items blocks.now) key.now) }
{
    if !is_key(key) {
        return Ok(Err(ProofFault::KeyLength));
    }
    let cids = cids_of::<D, K, A>(alloc, blocks)?;
    Ok(value_among::<D, K>(blocks, &cids, *root, key, layers::<B>()))
}

/// The CIDs of the blocks, in their order.
fn cids_of<D: Digest, K: AsSlice<u8>, A: Allocator + Clone>(
    alloc: A,
    blocks: &[K],
) -> Result<Vec<Cid, A>, AllocError>
    ensures { IfOk result (λ cids.
        cids.items ≡ map (cid_of D.digest_of) (map K.items blocks.now)) }
{
    let digests = D::digest_each(alloc.clone()?, blocks)?;
    named(alloc, &digests)
}

/// The CIDs with these digests.
fn named<A: Allocator>(alloc: A, digests: &[[u8; 32]]) -> Result<Vec<Cid, A>, AllocError>
    ensures { IfOk result (λ cids. cids.items ≡ map (λ digest. prefix ++ digest) digests.now) }
{
    let mut cids = Vec::with_capacity(alloc, digests.len())?;
    for digest in digests {
        cids.push(Cid::of_digest(digest))?;
    }
    Ok(cids)
}

/// What the node with this CID and those below it have under the key, over so many nodes at most. Beside the blocks stand their
/// CIDs.
fn value_among<D: Digest, K: AsSlice<u8>>(
    blocks: &[K],
    cids: &[Cid],
    top: Cid,
    key: &[u8],
    most: u16,
) -> Result<Option<Cid>, ProofFault>
    requires { cids.now ≡ map (cid_of D.digest_of) (map K.items blocks.now) }
    ensures { Gives (λ value. value) proof_fault_of result
        (verified_within most D.digest_of (map K.items blocks.now) key.now top) }
{
    let mut cid = top;
    let mut left = most;
    while left > 0 {
        left -= 1;
        match place_among::<D, K>(blocks, cids, &cid, key) {
            Ok(Place::Here(entry)) => return Ok(Some(entry.value.to_cid())),
            Ok(Place::Below(next)) => cid = next.to_cid(),
            Ok(Place::Gap) => return Ok(None),
            Err(fault) => return Err(fault),
        }
    }
    Err(ProofFault::TooDeep)
}

/// Where the key stands in the node with this CID.
fn place_among<'a, D: Digest, K: AsSlice<u8>>(
    blocks: &'a [K],
    cids: &[Cid],
    cid: &Cid,
    key: &[u8],
) -> Result<Place<'a>, ProofFault>
    requires { cids.now ≡ map (cid_of D.digest_of) (map K.items blocks.now) }
    ensures { Gives (place_of key.now) proof_fault_of result
        (place_below D.digest_of (map K.items blocks.now) key.now cid.now) }
{
    let Some(block) = find_among::<D, K>(blocks, cids, cid) else {
        return Err(ProofFault::BlockMissing);
    };
    match NodeView::parse(block) {
        Ok(node) => Ok(node.find(key)),
        Err(fault) => Err(ProofFault::BadNode(fault)),
    }
}

/// The first of the blocks with this CID.
fn find_among<'a, D: Digest, K: AsSlice<u8>>(
    blocks: &'a [K],
    cids: &[Cid],
    cid: &Cid,
) -> Option<&'a [u8]>
    requires { cids.now ≡ map (cid_of D.digest_of) (map K.items blocks.now) }
    ensures { option_map (λ b. b.now) result
        ≡ first_with D.digest_of cid.now (map K.items blocks.now) }
{
    let mut place = 0;
    while place < blocks.len() {
        if cid_among::<D, K>(blocks, cids, place) == *cid {
            return Some(blocks[place].as_slice());
        }
        place += 1;
    }
    None
}

/// The CID of the block at a place.
fn cid_among<D: Digest, K: AsSlice<u8>>(blocks: &[K], cids: &[Cid], place: usize) -> Cid
    requires named { cids.now ≡ map (cid_of D.digest_of) (map K.items blocks.now) }
    requires within { place < length blocks.now }
    ensures { result ≡ cid_of D.digest_of (slice_index_or (map K.items blocks.now) place []) }
{
    let _ = blocks;
    cids[place]
}
