//! Trees from listings of keys and CIDs.

use crate::hashing::Hashed;
use crate::watch::Meter;
use block::Block;
use bstr::ByteSlice;
use cid::{Cid, Sha256};
use scratch::{build, is_ascending};
use std::alloc::{AllocError, Global};
use std::sync::Arc;
use std::time::CpuClock;

/// The pairs of the lines `KEY CID` of a listing, in the order of their keys; other lines are left out.
pub fn pairs(alloc: Global, listing: &[u8]) -> Result<Vec<(Vec<u8>, Cid)>, AllocError> {
    let mut pairs = Vec::new(alloc);
    for line in listing.lines() {
        if let Some((key, cid)) = pair(line) {
            push_pair(alloc, &mut pairs, key, cid)?;
        }
    }
    pairs.sort()?;
    Ok(pairs)
}

/// The pairs of two listings with an empty line between them.
pub fn two(
    alloc: Global,
    listings: &[u8],
) -> Result<(Vec<(Vec<u8>, Cid)>, Vec<(Vec<u8>, Cid)>), AllocError> {
    match listings.find(b"\n\n") {
        Some(end) => Ok((
            pairs(alloc, &listings[..end])?,
            pairs(alloc, &listings[end..])?,
        )),
        None => Ok((pairs(alloc, listings)?, Vec::new(alloc))),
    }
}

/// Adds a pair of a copy of this key.
pub fn push_pair(
    alloc: Global,
    pairs: &mut Vec<(Vec<u8>, Cid)>,
    key: &[u8],
    cid: Cid,
) -> Result<(), AllocError> {
    pairs.push((Vec::from_slice(alloc, key)?, cid))?;
    Ok(())
}

/// The pair of a line.
fn pair(line: &[u8]) -> Option<(&[u8], Cid)> {
    let space = line.rfind_byte(b' ')?;
    let cid = Cid::from_text(&line[space + 1..]).ok()?;
    Some((&line[..space], cid))
}

/// A tree that was built some times.
#[derive(Clone, Copy, Drop)]
pub struct Built {
    pub nodes: usize,
    /// Nanoseconds of processor time, of the quickest time.
    pub least: u128,
    /// The same of hashing its keys and nodes alone.
    pub hash: u128,
}

/// Builds the tree of these pairs so many times; `None` where they don't ascend, two nodes clash or memory is refused.
pub fn measure<R: CpuClock>(
    rt: &R,
    alloc: Global,
    pairs: &[(Vec<u8>, Cid)],
    rounds: u32,
) -> Option<Built> {
    if !is_ascending(pairs) {
        return None;
    }
    let mut measured = Built {
        nodes: 0,
        least: u128::MAX,
        hash: u128::MAX,
    };
    let hashed = hashed(alloc, pairs)?;
    for _ in 0..rounds {
        let meter = Meter::start(rt);
        let Ok(built) = build::<Sha256, 2, _, _>(alloc, pairs) else {
            return None;
        };
        measured.least = measured.least.min(meter.nanos(rt));
        measured.nodes = built.blocks.len();
        measured.hash = measured.hash.min(hashed.nanos(rt));
    }
    Some(measured)
}

/// What a build of the tree of these pairs hashes: its keys and its nodes.
fn hashed(alloc: Global, pairs: &[(Vec<u8>, Cid)]) -> Option<Hashed> {
    let mut hashed = Hashed::nothing(alloc);
    for (key, _) in pairs {
        hashed.push(alloc, key).ok()?;
    }
    hashed.push_all(&nodes(alloc, pairs)?).ok()?;
    Some(hashed)
}

/// The nodes of the tree of these pairs, or `None` where there is none or no memory for it.
pub fn nodes(alloc: Global, pairs: &[(Vec<u8>, Cid)]) -> Option<Vec<Arc<Block<Sha256>>>> {
    if !is_ascending(pairs) {
        return None;
    }
    match build::<Sha256, 2, _, _>(alloc, pairs) {
        Ok(built) => Some(built.blocks),
        Err(_) => None,
    }
}
