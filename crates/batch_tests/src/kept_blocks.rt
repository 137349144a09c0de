//! The blocks that a core keeps: uses that come and go, and those that are refused.

ghost use Rattle.std.specs.Prelude.{◌≤◌};

use block::Block;
use cid::digests::{Size, Toy};
use cid::{Cid, Digest};
use kept::Kept;
use lookups::Source;
use repo_fixtures::batch::{EMPTY, ONE, TWO};
use repo_fixtures::cores::counts;
use std::alloc::{AllocError, Global};
use std::sync::Arc;
use store::{LentShard, Shard, StoreFault, TableKey};

/// A block of these bytes.
fn block_of<D: Digest>(alloc: Global, bytes: &[u8]) -> Result<Arc<Block<D>>, AllocError> {
    Ok(Arc::new(alloc, Block::of(Vec::from_slice(alloc, bytes)?))?)
}

/// What is exchanged: the blocks of these bytes come, and then those of these go.
#[derive(Clone, Copy)]
struct Act {
    come: &'static [&'static [u8]],
    go: &'static [&'static [u8]],
}

/// What comes of it.
#[derive(Clone, Copy, PartialEq, Eq)]
enum End {
    Done,
    /// The given block is `TWO` and the held one `ONE`, under one CID.
    Clash,
    Full,
    Other,
}

/// What comes of an exchange.
fn end_of<D: Digest>(answer: Result<(), StoreFault<D>>) -> End {
    match answer {
        Ok(()) => End::Done,
        Err(StoreFault::Full) => End::Full,
        Err(StoreFault::Collision(pair))
            if pair.one().bytes() == TWO && pair.other().bytes() == ONE => { End::Clash }
        Err(_) => End::Other,
    }
}

/// How often a block is used, and how many cores hold it.
type Uses = (u64, u64);

/// An act, what comes of it, the uses of `ONE` and of `TWO` after it, and how many blocks are used.
type Row = (Act, End, Uses, Uses, u64);

/// A block that comes and goes, beside another one.
static USES: [Row; 9] = [
    (
        Act {
            come: &[ONE],
            go: &[],
        },
        End::Done,
        (1, 1),
        (0, 0),
        1,
    ),
    (
        Act {
            come: &[ONE],
            go: &[],
        },
        End::Done,
        (2, 1),
        (0, 0),
        1,
    ),
    (
        Act {
            come: &[TWO, TWO],
            go: &[ONE],
        },
        End::Done,
        (1, 1),
        (2, 1),
        2,
    ),
    (
        Act {
            come: &[],
            go: &[TWO, TWO],
        },
        End::Done,
        (1, 1),
        (0, 0),
        1,
    ),
    // a use that comes and goes
    (
        Act {
            come: &[ONE],
            go: &[ONE],
        },
        End::Done,
        (1, 1),
        (0, 0),
        1,
    ),
    (
        Act {
            come: &[TWO],
            go: &[TWO],
        },
        End::Done,
        (1, 1),
        (0, 0),
        1,
    ),
    // a block that isn't there
    (
        Act {
            come: &[],
            go: &[TWO],
        },
        End::Done,
        (1, 1),
        (0, 0),
        1,
    ),
    (
        Act {
            come: &[],
            go: &[ONE],
        },
        End::Done,
        (0, 0),
        (0, 0),
        0,
    ),
    (
        Act {
            come: &[],
            go: &[ONE],
        },
        End::Done,
        (0, 0),
        (0, 0),
        0,
    ),
];

/// The blocks that are used are listed.
static LISTED_BLOCKS: [Row; 2] = [
    (
        Act {
            come: &[TWO],
            go: &[],
        },
        End::Done,
        (0, 0),
        (1, 1),
        1,
    ),
    (
        Act {
            come: &[ONE, EMPTY],
            go: &[],
        },
        End::Done,
        (1, 1),
        (1, 1),
        3,
    ),
];

/// A block of the length of the one that is held has its CID under `Size`; a longer one finds the store full. What came before
/// it in the same exchange has gone again.
static WHAT_IS_REFUSED: [Row; 5] = [
    (
        Act {
            come: &[ONE],
            go: &[],
        },
        End::Done,
        (1, 1),
        (0, 0),
        1,
    ),
    (
        Act {
            come: &[TWO],
            go: &[],
        },
        End::Clash,
        (1, 1),
        (0, 0),
        1,
    ),
    (
        Act {
            come: &[EMPTY],
            go: &[],
        },
        End::Full,
        (1, 1),
        (0, 0),
        1,
    ),
    (
        Act {
            come: &[ONE, TWO],
            go: &[ONE],
        },
        End::Clash,
        (1, 1),
        (0, 0),
        1,
    ),
    (
        Act {
            come: &[ONE, EMPTY],
            go: &[ONE],
        },
        End::Full,
        (1, 1),
        (0, 0),
        1,
    ),
];

/// The blocks of these bytes.
fn blocks_of<D: Digest>(alloc: Global, list: &[&[u8]]) -> Result<Vec<Arc<Block<D>>>, AllocError> {
    let mut blocks = Vec::new(alloc);
    for bytes in list {
        blocks.push(block_of(alloc, bytes)?)?;
    }
    Ok(blocks)
}

/// Their CIDs.
fn cids_of<D: Digest>(alloc: Global, list: &[&[u8]]) -> Result<Vec<Cid>, AllocError> {
    let mut cids = Vec::new(alloc);
    for bytes in list {
        cids.push(Cid::of::<D>(bytes))?;
    }
    Ok(cids)
}

/// Does an act.
fn done<D: Digest>(alloc: Global, shard: &mut Shard<D>, kept: &mut Kept<D>, act: Act) -> End {
    let Ok(blocks) = blocks_of(alloc, act.come) else {
        return End::Other;
    };
    let Ok(cids) = cids_of::<D>(alloc, act.go) else {
        return End::Other;
    };
    end_of(kept.exchange(&mut LentShard::new(shard), blocks, &cids))
}

/// Whether there is a block where there is to be one, with these bytes.
fn is_block<D: Digest>(block: Option<&Arc<Block<D>>>, bytes: &[u8], there: bool) -> bool {
    match block {
        Some(block) => there && block.bytes() == bytes,
        None => !there,
    }
}

/// Whether the block of these bytes is used so, is found and lent where it is used at all, and is held by so many cores.
fn is_used<D: Digest>(shard: &Shard<D>, kept: &Kept<D>, bytes: &[u8], uses: Uses) -> bool {
    let cid = Cid::of::<D>(bytes);
    let (times, cores) = uses;
    kept.uses(&cid) == times
        && shard.count(&cid) == cores
        && is_block(kept.block(&cid), bytes, times > 0)
        && is_block(kept.lender().get(&cid), bytes, cores > 0)
        && match kept.lender().get_counted(&cid) {
            Some((lent, told)) => told == times && is_block(Some(lent), bytes, cores > 0),
            None => cores == 0,
        }
}

/// How often the list of blocks has one with this CID.
fn times_listed<D: Digest>(kept: &Kept<D>, cid: Cid) -> u64 {
    let mut times = 0u64;
    for block in kept.blocks() {
        if block.cid() == cid {
            times = times.saturating_add(1);
        }
    }
    times
}

/// Whether so many blocks are listed, each of them once, and each is used.
fn are_listed<D: Digest>(kept: &Kept<D>, wanted: u64) -> bool {
    let mut count = 0u64;
    for block in kept.blocks() {
        if times_listed(kept, block.cid()) != 1 || kept.uses(&block.cid()) == 0 {
            return false;
        }
        count = count.saturating_add(1);
    }
    count == wanted
}

/// Whether the acts end as the table says, where it tells the uses of these two blocks.
fn end_so<D: Digest>(
    alloc: Global,
    shard: &mut Shard<D>,
    kept: &mut Kept<D>,
    blocks: [&[u8]; 2],
    rows: &[Row],
) -> bool {
    for (next, end, ones, others, count) in rows {
        if done(alloc, shard, kept, *next) != *end
            || !is_used(shard, kept, blocks[0], *ones)
            || !is_used(shard, kept, blocks[1], *others)
            || !are_listed(kept, *count)
        {
            return false;
        }
    }
    kept.me() == 5
}

/// The same in a store with room for so many blocks, which has none in the end.
fn are_acts<D: Digest>(alloc: Global, room: usize, blocks: [&[u8]; 2], rows: &[Row]) -> bool
    requires least { 1 ≤ room }
    requires most { room ≤ 3 }
{
    let mut shard: Shard<D> = Shard::new(alloc, room, TableKey::known());
    let mut kept = Kept::open(alloc, 5);
    let is_right = end_so(alloc, &mut shard, &mut kept, blocks, rows);
    kept.end(&mut LentShard::new(&mut shard));
    is_right && counts(&shard) == (0, 0)
}

#[test]
fn uses_of_blocks(rt: HostRuntime) {
    assert!(rt; are_acts::<Toy>(rt.alloc(), 2, [ONE, TWO], &USES));
    assert!(rt; are_acts::<Toy>(rt.alloc(), 3, [ONE, TWO], &LISTED_BLOCKS));
    assert!(rt; are_acts::<Size>(rt.alloc(), 1, [ONE, EMPTY], &WHAT_IS_REFUSED));
}
