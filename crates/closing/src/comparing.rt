//! The comparison of cores with tables. It walks by reference and looks up, and takes no memory.

ghost use Rattle.std.specs.Prelude.{◌≡◌, ℕ, ◌<◌, true, MatchBool, OnOk, IfErr, length, All};
ghost use Rattle.std.specs.FinSet as set;
ghost use Rattle.closing.specs.Tally.{has, have, NumberedFrom, IsMisnumbered, IsMiscounted};
ghost use Rattle.closing.specs.Tally.{IsEntered, IsMissed, AreEntered, AreHad, AreWithout, AreAllHad, AllHave, IsWithout};
ghost use Rattle.closing.specs.Settling.{IsSettled, IsUneven};

use crate::mismatch::Mismatch;
use crate::seeing::all_long;
use cid::{Cid, Digest};
use ended::Ended;
use repo::Core;
use std::alloc::Allocator;
use store::{Cores, SHARDS, Shard, shard_number};

/// Compares cores with tables, and with what writers have seen: where they don't agree, it tells in what.
pub(crate) fn compare<D: Digest, const B: u8, A: Allocator>(
    cores: &[Core<D, B, A>],
    tables: &[Shard<D, A>; SHARDS],
    ended: &[Ended<A>],
) -> Result<(), Mismatch>
    requires { All (λ e. length e.seen ≡ length cores.now) ended.now }
    ensures settled { OnOk result (IsSettled D.digest_of B cores.now tables.now ended.now) }
    ensures uneven { IfErr result (IsUneven D.digest_of B cores.now tables.now ended.now) }
{
    if !are_numbered(cores) {
        return Err(Mismatch::Numbers);
    }
    if !all_entered(cores, tables) {
        return Err(Mismatch::Counts);
    }
    if !all_had(cores, tables) {
        return Err(Mismatch::Counts);
    }
    if !all_long(cores, ended) {
        return Err(Mismatch::Lists);
    }
    Ok(())
}

/// Whether each core's number is its place.
fn are_numbered<D: Digest, const B: u8, A: Allocator>(cores: &[Core<D, B, A>]) -> bool
    ensures { MatchBool result (NumberedFrom 0 cores.now) (IsMisnumbered cores.now) }
{
    for (place, core) in cores.iter().enumerate() {
        if core.me() as usize != place {
            return false;
        }
    }
    true
}

/// Whether for each block of the core the core is entered in the table of the block's shard.
fn is_entered<D: Digest, const B: u8, A: Allocator>(
    core: &Core<D, B, A>,
    tables: &[Shard<D, A>; SHARDS],
) -> bool
    ensures { MatchBool result (IsEntered D.digest_of B core.now tables.now)
        (IsMissed D.digest_of B core.now tables.now) }
{
    for block in core.blocks() {
        let cid = block.cid();
        if !tables[shard_number(&cid)].has(&cid, core.me()) {
            return false;
        }
    }
    true
}

/// Whether each core is entered for each of its blocks.
fn all_entered<D: Digest, const B: u8, A: Allocator>(
    cores: &[Core<D, B, A>],
    tables: &[Shard<D, A>; SHARDS],
) -> bool
    ensures { MatchBool result (AreEntered D.digest_of B cores.now tables.now)
        (IsMiscounted D.digest_of B cores.now tables.now) }
{
    for core in cores {
        if !is_entered(core, tables) {
            return false;
        }
    }
    true
}

/// Whether the core of this number, which is its place, has a block with this CID.
fn has_number<D: Digest, const B: u8, A: Allocator>(
    cores: &[Core<D, B, A>],
    number: u32,
    cid: &Cid,
) -> bool
    requires { NumberedFrom 0 cores.now }
    ensures { result ≡ have D.digest_of B cores.now cid.now number }
{
    match cores.get(number as usize) {
        Some(core) => has_block(core, cid),
        None => false,
    }
}

/// Whether the core has a block with this CID.
fn has_block<D: Digest, const B: u8, A: Allocator>(core: &Core<D, B, A>, cid: &Cid) -> bool
    ensures { result ≡ has D.digest_of B core.now cid.now }
{
    core.block(cid).is_some()
}

/// Whether each core that is entered for this CID has a block with it.
fn all_have<D: Digest, const B: u8, A: Allocator>(
    cores: &[Core<D, B, A>],
    cid: &Cid,
    entered: &Cores,
) -> bool
    requires numbered { NumberedFrom 0 cores.now }
    requires small { (number : ℕ) → set.contains entered.now number ≡ true → number < 1024 }
    ensures { MatchBool result (AllHave D.digest_of B cores.now cid.now entered.now)
        (IsWithout D.digest_of B cores.now cid.now entered.now) }
{
    let mut from = 0;
    while let Some(number) = entered.next_from(from) {
        if !has_number(cores, number, cid) {
            return false;
        }
        from = number + 1;
    }
    true
}

/// Whether each core that this table has entered has the block. Only CIDs of this shard count.
fn are_had<D: Digest, const B: u8, A: Allocator>(
    cores: &[Core<D, B, A>],
    shard: usize,
    table: &Shard<D, A>,
) -> bool
    requires { NumberedFrom 0 cores.now }
    ensures { MatchBool result (AreHad D.digest_of B cores.now shard table.now)
        (AreWithout D.digest_of B cores.now shard table.now) }
{
    for (cid, entered) in table.entries() {
        if shard_number(&cid) == shard && !all_have(cores, &cid, &entered) {
            return false;
        }
    }
    true
}

/// Whether each core that is entered in these tables has the block.
fn all_had<D: Digest, const B: u8, A: Allocator>(
    cores: &[Core<D, B, A>],
    tables: &[Shard<D, A>; SHARDS],
) -> bool
    requires { NumberedFrom 0 cores.now }
    ensures { MatchBool result (AreAllHad D.digest_of B cores.now tables.now)
        (IsMiscounted D.digest_of B cores.now tables.now) }
{
    for (shard, table) in tables.iter().enumerate() {
        if !are_had(cores, shard, table) {
            return false;
        }
    }
    true
}
