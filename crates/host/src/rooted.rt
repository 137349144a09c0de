//! A batch for a core of which a root is wanted, or none.

ghost use Rattle.std.specs.Prelude.{◌≡◌, Decides, IfOk, IfErr, OnErr, OnOk};
ghost use Rattle.batches.specs.Values.{stamp_of, writes_of};
ghost use Rattle.store.specs.Stores.{IsStore};
ghost use Rattle.kept.specs.Entering.{Enters};
ghost use Rattle.repo.specs.Readings.{has_block};
ghost use Rattle.host.specs.Rooting.{HasRoot, IsUntakenBy, fulls_after_call};
ghost use Rattle.host.specs.Seeing.{IsTakenBy};

use crate::fault::{ApplyFromFault, HostFault};
use crate::locked::apply_at;
use batches::{Stamp, Write};
use block::Block;
use cid::{Cid, Digest};
use repo::{Applied, Core};
use std::alloc::Allocator;
use std::sync::Arc;
use store::{BlockStore, Hold, StoreFault};

/// Whether the core has the root that is wanted of it, where one is.
fn has_root<D: Digest, const B: u8, A: Allocator>(core: &Core<D, B, A>, wanted: Option<Cid>) -> bool
    ensures { Decides result (HasRoot D.digest_of B wanted core.now) }
{
    match wanted {
        Some(root) => core.root() == root,
        None => true,
    }
}

/// Applies the batch where the core has the root that is wanted of it. Where it isn't applied, the core is as before.
pub(crate) fn apply_from_at<
    D: Digest,
    const B: u8,
    A: Allocator + Copy,
    S: BlockStore<Arc<Block<D, A>, A>, Hold<D, A>, StoreFault<D, A>>,
>(
    alloc: A,
    store: &mut S,
    core: &mut Core<D, B, A>,
    wanted: Option<Cid>,
    stamp: &Stamp<A>,
    writes: &[Write<A>],
) -> Result<Applied, ApplyFromFault<D, A>>
    requires store { IsStore D.digest_of S.BlockStore }
    ensures root { OnOk result (HasRoot D.digest_of B wanted core.old) }
    ensures accepted { IfOk result (IsTakenBy D.digest_of B core.old core.new
        (stamp_of stamp.now) (writes_of writes.now)) }
    ensures refused { IfErr result (IsUntakenBy D.digest_of B core.old wanted
        (stamp_of stamp.now) (writes_of writes.now) (S.fulls store.old) (S.fulls store.new)) }
    ensures unchanged { OnErr result (core.new ≡ core.old) }
    ensures counted { S.fulls store.new ≡ fulls_after_call (S.fulls store.old) result }
    ensures entered { Enters D.digest_of S.BlockStore core.old.me
        (has_block D.digest_of B core.old) (has_block D.digest_of B core.new)
        store.old store.new }
{
    if !has_root(core, wanted) {
        return Err(ApplyFromFault::OtherRoot);
    }
    match apply_at(alloc, store, core, stamp, writes) {
        Ok(applied) => Ok(applied),
        Err((place, fault)) => Err(ApplyFromFault::Host(HostFault::Refused(place, fault))),
    }
}
