//! The list of counts.

ghost use Rattle.std.specs.Prelude.{◌≡◌, ℕ, List, map, IfOk, OnOk};
ghost use Rattle.std.specs.List.Sorted.{IsStrictlySortedBy};
ghost use Rattle.std.specs.Cmp.Lexicographic.{slice_cmp};
ghost use Rattle.std.specs.Ordering.{nat_cmp};
ghost use Rattle.closing.specs.Tally.{count};
ghost use Rattle.closing.specs.Counts.{count_in, counted, positive};

use cid::{Cid, Digest};
use std::alloc::{AllocError, Allocator};
use std::collections::BTreeMap;
use store::{SHARDS, Shard, shard_number};

/// The count of a CID, by the table of its shard.
pub(crate) fn count_in_shard<D: Digest, A: Allocator>(
    tables: &[Shard<D, A>; SHARDS],
    cid: &Cid,
) -> u64
    ensures { result ≡ count tables.now cid.now }
{
    tables[shard_number(cid)].count(cid)
}

/// Puts the counts of a shard's table to the others.
fn add_counts<D: Digest, A: Allocator + Clone>(
    all: &mut BTreeMap<Cid, u64, A>,
    shard: usize,
    table: &Shard<D, A>,
) -> Result<(), AllocError>
    ensures { OnOk result ((cid : List ℕ) → count_in all.new.entries cid
        ≡ counted all.old.entries shard table.now cid) }
{
    for (cid, _) in table.entries() {
        if shard_number(&cid) != shard {
            continue;
        }
        let count = table.count(&cid);
        let Ok(_) = all.insert(cid, count) else {
            return Err(AllocError);
        };
    }
    Ok(())
}

/// Each CID with a count above 0, and its count.
pub(crate) fn all_counts<D: Digest, A: Allocator + Clone>(
    alloc: A,
    tables: &[Shard<D, A>; SHARDS],
) -> Result<BTreeMap<Cid, u64, A>, AllocError>
    ensures { IfOk result (λ m. (cid : List ℕ) → count_in m.entries cid
        ≡ positive (count tables.now cid)) }
{
    let mut all = BTreeMap::new(alloc);
    for (shard, table) in tables.iter().enumerate() {
        add_counts(&mut all, shard, table)?;
    }
    Ok(all)
}

/// The same as a list, in the order of the CIDs.
pub(crate) fn listed<A: Allocator>(
    alloc: A,
    all: BTreeMap<Cid, u64, A>,
) -> Result<Vec<(Cid, u64), A>, AllocError>
    ensures items { IfOk result (λ v. v.items ≡ all.entries) }
    ensures ascending { IfOk result (λ v. IsStrictlySortedBy (slice_cmp nat_cmp)
        (map (λ e. e.0) v.items)) }
{
    all.into_iter().collect(alloc)
}
