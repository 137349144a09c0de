//! CIDs beside a list of byte strings.

ghost use Rattle.std.specs.Prelude.{◌≡◌, take, drop, map, option_map, IfOk};
ghost use Rattle.buffers.specs.Framing.{cid_at, cid_or_none_at, with_values};

use cid::{Cid, CidRef};
use std::alloc::{AllocError, Global};

/// The CID of these bytes, or `None` where they are none.
pub fn cid_in(bytes: &[u8]) -> Option<Cid>
    ensures { result ≡ cid_at bytes.now }
{
    match CidRef::from_bytes(bytes) {
        Some(cid) => Some(cid.to_cid()),
        None => None,
    }
}

/// The CID of these bytes, none where they are 36 zeros, or `None` where they are neither.
pub fn value_in(bytes: &[u8]) -> Option<Option<Cid>>
    ensures { result ≡ cid_or_none_at bytes.now }
{
    if bytes == [0; 36].as_slice() {
        return Some(None);
    }
    match cid_in(bytes) {
        Some(cid) => Some(Some(cid)),
        None => None,
    }
}

/// The first 36 bytes, or all where they are fewer, and what comes after them.
pub fn next_value(bytes: &[u8]) -> (&[u8], &[u8])
    ensures value { result.0.now ≡ take 36 bytes.now }
    ensures rest { result.1.now ≡ drop 36 bytes.now }
{
    if bytes.len() < 36 {
        return (bytes, &[]);
    }
    bytes.split_at(36)
}

/// Each of the parts with its CID; or `None` where there are more or fewer CIDs, or one is none.
///
/// `AllocError` comes where memory was refused.
pub fn pairs(
    alloc: Global,
    parts: &[&[u8]],
    cids: &[u8],
) -> Result<Option<Vec<(Vec<u8>, Cid)>>, AllocError>
    ensures { IfOk result (λ pairs.
        option_map (λ pairs. map (λ pair. (pair.0.items, pair.1)) pairs.items) pairs
        ≡ with_values cid_at (map (λ part. part.now) parts.now) cids.now) }
{
    let mut pairs = Vec::new(alloc);
    let mut rest = cids;
    for part in parts {
        let (value, others) = next_value(rest);
        let Some(cid) = cid_in(value) else {
            return Ok(None);
        };
        let key = Vec::from_slice(alloc, part)?;
        pairs.push((key, cid))?;
        rest = others;
    }
    if !rest.is_empty() {
        return Ok(None);
    }
    Ok(Some(pairs))
}
