//! What a call does to a core whose lock it has, and what it reads of it.

ghost use Rattle.std.specs.Prelude.{◌≡◌, Decides, IfOk, IfErr, OnErr, option_map};
ghost use Rattle.batches.specs.Values.{stamp_of, writes_of};
ghost use Rattle.lookups.specs.Walks.{pairs_given};
ghost use Rattle.store.specs.Stores.{IsStore};
ghost use Rattle.kept.specs.Entering.{Enters};
ghost use Rattle.repo.specs.Fulls.{fulls_after_batch};
ghost use Rattle.repo.specs.Readings.{has_block};
ghost use Rattle.repo.specs.Refusals.{IsRefusal};
ghost use Rattle.host.specs.Seeing.{IsSeen, IsTakenBy, IsRecordIn, ArePairsIn};

use batches::{RepoFault, Stamp, Write};
use block::Block;
use cid::{Cid, Digest};
use repo::{Applied, Core};
use std::alloc::{AllocError, Allocator};
use std::sync::Arc;
use store::{BlockStore, Hold, StoreFault};

/// Whether the core is of the repository of this number and this limit, and has at least `seen` accepted writes.
pub(crate) fn is_wanted<D: Digest, const B: u8, A: Allocator>(
    core: &Core<D, B, A>,
    repo: usize,
    limit: usize,
    seen: u64,
) -> bool
    ensures { Decides result
        (IsSeen (record { repo = repo; limit = limit; seen = seen }) core.now) }
{
    if core.me() as usize != repo {
        return false;
    }
    if core.limit() != limit {
        return false;
    }
    if core.number() < seen {
        return false;
    }
    true
}

/// Applies the batch. Where it is refused, the core is as before.
pub(crate) fn apply_at<
    D: Digest,
    const B: u8,
    A: Allocator + Copy,
    S: BlockStore<Arc<Block<D, A>, A>, Hold<D, A>, StoreFault<D, A>>,
>(
    alloc: A,
    store: &mut S,
    core: &mut Core<D, B, A>,
    stamp: &Stamp<A>,
    writes: &[Write<A>],
) -> Result<Applied, (usize, RepoFault<D, A>)>
    requires store { IsStore D.digest_of S.BlockStore }
    ensures accepted { IfOk result (IsTakenBy D.digest_of B core.old core.new
        (stamp_of stamp.now) (writes_of writes.now)) }
    ensures refused { IfErr result (IsRefusal D.digest_of B core.old
        (stamp_of stamp.now) (writes_of writes.now) (S.fulls store.old) (S.fulls store.new)) }
    ensures unchanged { OnErr result (core.new ≡ core.old) }
    ensures counted { S.fulls store.new ≡ fulls_after_batch (S.fulls store.old) result }
    ensures entered { Enters D.digest_of S.BlockStore core.old.me
        (has_block D.digest_of B core.old) (has_block D.digest_of B core.new)
        store.old store.new }
{
    match core.apply(alloc, store, stamp, writes) {
        Ok(applied) => Ok(applied),
        Err(refusal) => Err(refusal),
    }
}

/// The record of a key, with the number of accepted writes.
pub(crate) fn record_in<D: Digest, const B: u8, A: Allocator>(
    alloc: A,
    core: &Core<D, B, A>,
    key: &[u8],
) -> Result<(u64, Option<Vec<u8, A>>), AllocError>
    ensures { IfOk result
        (λ r. IsRecordIn core.now key.now r.0 (option_map (λ v. v.items) r.1)) }
{
    let number = core.number();
    match core.get(key) {
        None => Ok((number, None)),
        Some(block) => match Vec::from_slice(alloc, block.bytes()) {
            Ok(bytes) => Ok((number, Some(bytes))),
            Err(_) => Err(AllocError),
        },
    }
}

/// The first pairs from a key on, with the number of accepted writes.
pub(crate) fn pairs_in<D: Digest, const B: u8, A: Allocator + Copy>(
    alloc: A,
    core: &Core<D, B, A>,
    from: &[u8],
    limit: usize,
) -> Result<(u64, Vec<(Vec<u8, A>, Cid), A>), AllocError>
    ensures { IfOk result
        (λ r. ArePairsIn D.digest_of core.now from.now limit r.0 (pairs_given r.1.items)) }
{
    let number = core.number();
    match core.list(alloc, from, limit) {
        Ok(pairs) => Ok((number, pairs)),
        Err(refused) => Err(refused),
    }
}
