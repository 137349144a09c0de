//! Two trees compared, over the nodes of both in memory.

use crate::trees;
use crate::watch::Meter;
use cid::{Cid, Sha256};
use difference::difference;
use lookups::BlockMap;
use std::alloc::Global;
use std::time::CpuClock;

/// What two trees differ by, how many blocks were read for it, and the nanoseconds of processor time of the quickest round.
#[derive(Clone, Copy, Drop)]
pub struct Compared {
    pub changes: usize,
    pub come: usize,
    pub go: usize,
    pub reads: u64,
    pub least: u128,
}

/// Compares the trees of these pairs so many times. `None` where one can't be built or memory is refused.
pub fn measure<R: CpuClock>(
    rt: &R,
    alloc: Global,
    old: &[(Vec<u8>, Cid)],
    new: &[(Vec<u8>, Cid)],
    rounds: u32,
) -> Option<Compared> {
    let mut blocks = trees::nodes(alloc, old)?;
    let new_blocks = trees::nodes(alloc, new)?;
    let (old_root, new_root) = (blocks.first()?.cid(), new_blocks.first()?.cid());
    for block in new_blocks {
        if blocks.push(block).is_err() {
            return None;
        }
    }
    let Ok(mut map) = BlockMap::new(alloc, &blocks) else {
        return None;
    };
    compare(rt, alloc, &mut map, old_root, new_root, rounds)
}

/// Compares the trees with these roots so many times, and keeps what the last round came to.
fn compare<R: CpuClock>(
    rt: &R,
    alloc: Global,
    map: &mut BlockMap<'_, Sha256>,
    old: Cid,
    new: Cid,
    rounds: u32,
) -> Option<Compared> {
    let mut compared = Compared {
        changes: 0,
        come: 0,
        go: 0,
        reads: 0,
        least: u128::MAX,
    };
    for _ in 0..rounds {
        let before = map.reads();
        let meter = Meter::start(rt);
        let Ok(found) = difference::<Sha256, 2, _, _>(alloc, map, old, new) else {
            return None;
        };
        compared.least = compared.least.min(meter.nanos(rt));
        compared.reads = map.reads().saturating_sub(before);
        compared.changes = found.changes.len();
        compared.come = found.come.len();
        compared.go = found.go.len();
    }
    Some(compared)
}
