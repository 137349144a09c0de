//! Blocks with one CID and different bytes.

ghost use Rattle.std.specs.Prelude.{map, IfOk, MatchOption};
ghost use Rattle.std.specs.Arc.{arc_value};
ghost use Rattle.spec.specs.Blocks.{IsClashFree, IsClashIn};
ghost use Rattle.scratch.specs.Faults.{AreClashing};

use block::{Block, Collided};
use cid::{Cid, Digest};
use std::alloc::{AllocError, Allocator};
use std::collections::HashMap;
use std::hash::{BuildHasherDefault, FoldHasher};
use std::sync::Arc;

/// The place of a block by its CID. The hashes have a fixed seed: a map lives for one call, and who picks keys so that
/// CIDs meet in it slows down no other build than that of these very keys.
type Places<A> = HashMap<Cid, usize, BuildHasherDefault<FoldHasher>, A>;

/// The places of two blocks that clash, or `None` where no two do. One pass, by a map from each CID to a place.
pub fn find_clash<D: Digest, A: Allocator + Clone>(
    alloc: A,
    blocks: &[Arc<Block<D, A>, A>],
) -> Result<Option<(usize, usize)>, AllocError>
    ensures { IfOk result (λ found. MatchOption found
        (IsClashFree D.digest_of (map arc_value blocks.now))
        (λ places. AreClashing D.digest_of (map arc_value blocks.now) places.0 places.1)) }
{
    let mut seen: Places<A> = HashMap::with_capacity(alloc, blocks.len())?;
    for (place, block) in blocks.iter().enumerate() {
        let Some(earlier) = seen.insert(block.cid(), place)? else {
            continue;
        };
        if blocks[earlier].bytes() != block.bytes() {
            return Ok(Some((earlier, place)));
        }
    }
    Ok(None)
}

/// The two blocks at these places, which clash.
pub fn show_clash<D: Digest, A: Allocator>(
    blocks: &[Arc<Block<D, A>, A>],
    one: usize,
    other: usize,
) -> Result<Collided<D, A>, AllocError>
    requires { AreClashing D.digest_of (map arc_value blocks.now) one other }
    ensures { IfOk result (λ pair. IsClashIn D.digest_of (map arc_value blocks.now) pair) }
{
    Collided::of_shared(&blocks[one], &blocks[other])
}
