//! Look-ups over the blocks of one tree in memory.

use crate::watch::Meter;
use block::Block;
use cid::{Cid, Sha256};
use lookups::{BlockMap, get};
use std::alloc::Global;
use std::sync::Arc;
use std::time::CpuClock;

/// What look-ups found, and the nanoseconds of processor time of the quickest round of them.
#[derive(Clone, Copy, Drop)]
pub struct LookedUp {
    pub found: u64,
    /// How many blocks all rounds read.
    pub reads: u64,
    pub least: u128,
}

/// Looks up the pairs at these places, so many times, over the nodes of a tree, of which the root is the first. `None` where
/// there is none or no memory.
pub fn measure<R: CpuClock>(
    rt: &R,
    alloc: Global,
    blocks: &[Arc<Block<Sha256>>],
    pairs: &[(Vec<u8>, Cid)],
    places: &[usize],
    rounds: u32,
) -> Option<LookedUp> {
    let root = blocks.first()?.cid();
    let Ok(mut map) = BlockMap::new(alloc, blocks) else {
        return None;
    };
    let mut measured = LookedUp {
        found: 0,
        reads: 0,
        least: u128::MAX,
    };
    for _ in 0..rounds {
        let meter = Meter::start(rt);
        measured.found = count(&mut map, root, pairs, places);
        measured.least = measured.least.min(meter.nanos(rt));
    }
    measured.reads = map.reads() as u64;
    Some(measured)
}

/// Looks up the pairs at these places, and counts those that have their values. It is a call of its own, so that its instructions
/// can be counted.
#[inline(never)]
fn count(
    map: &mut BlockMap<'_, Sha256>,
    root: Cid,
    pairs: &[(Vec<u8>, Cid)],
    places: &[usize],
) -> u64 {
    let mut found = 0u64;
    for place in places {
        if let Some((key, value)) = pairs.get(*place)
            && get::<Sha256, 2, _, _>(map, root, key) == Some(*value)
        {
            found = found.saturating_add(1);
        }
    }
    found
}
