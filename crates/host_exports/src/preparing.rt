//! Batches that are told before they are accepted.

ghost use Rattle.std.specs.Prelude.{◌≡◌, ◌≤◌, Err, IfErr, IfOk};
ghost use Rattle.batches.specs.Values.{stamp_of, writes_of};
ghost use Rattle.repo.specs.Prepared.{IsPassed, prepared_of};
ghost use Rattle.host.specs.Seeing.{wanted_of};
ghost use Rattle.host_exports.specs.Preparing.{IsPreparedFrom, IsUnpreparedIn, IsPrepareFault};
ghost use Rattle.host_exports.specs.declared.fault.PrepareFault.TheVariants as preparations;

use crate::fault::PrepareFault;
use batches::{Stamp, Write};
use cid::Digest;
use host::Host;
use repo::{Core, PreparedBatch};
use std::alloc::Allocator;
use std::sync::Wait;

/// What a batch will make of a repository, as `Core::prepare` tells it: the roots before and after it, the bytes of its commit,
/// the nodes that its edit reads and those that come, the records that it brings, and the keys that it changes. The repository
/// stays as it is.
///
/// So the commit is signed, and a message or a proof is made, before the batch is accepted. What is told shares its blocks with
/// the repository, and holds no lock. Another writer's batch may still come before the own one, which then makes something
/// else: `Writer::apply_from` with the root before, `PreparedBatch::previous`, refuses it there.
///
/// `PrepareFault::NoSuchRepository` says that there is no such repository. `PrepareFault::Refused` has the place and the fault
/// that `Core::prepare` answered: what a test refuses, a clash of two nodes, or want of memory. It waits for the repository's
/// lock, which it shares with readers, and holds it while the batch is tested and its blocks are made.
pub fn prepare<D: Digest, const B: u8, A: Allocator + Copy, R: Wait>(
    rt: &R,
    alloc: A,
    host: &Host<D, B, A>,
    repo: usize,
    stamp: &Stamp<A>,
    writes: &[Write<A>],
) -> Result<PreparedBatch<D, B, A>, PrepareFault<D, A>>
    ensures prepared { IfOk result (IsPreparedFrom (wanted_of host.now repo 0)
        (stamp_of stamp.now) (writes_of writes.now)) }
    ensures passed { IfOk result IsPassed }
    ensures fault { IfErr result (IsPrepareFault D.digest_of B host.now repo
        (stamp_of stamp.now) (writes_of writes.now)) }
    ensures missing { host.now.repos ≤ repo → result ≡ Err preparations.NoSuchRepository }
{
    if repo >= host.repos() {
        return Err(PrepareFault::NoSuchRepository);
    }
    host.fits_in_memory();
    prepared_in(alloc, &host.read(rt, repo, 0), stamp, writes)
}

/// The same of a core.
fn prepared_in<D: Digest, const B: u8, A: Allocator + Copy>(
    alloc: A,
    core: &Core<D, B, A>,
    stamp: &Stamp<A>,
    writes: &[Write<A>],
) -> Result<PreparedBatch<D, B, A>, PrepareFault<D, A>>
    ensures prepared { IfOk result (λ prepared. prepared
        ≡ prepared_of core.now (stamp_of stamp.now) (writes_of writes.now)) }
    ensures passed { IfOk result IsPassed }
    ensures fault { IfErr result (IsUnpreparedIn D.digest_of B core.now
        (stamp_of stamp.now) (writes_of writes.now)) }
{
    match core.prepare(alloc, stamp, writes) {
        Ok(prepared) => Ok(prepared),
        Err((place, fault)) => Err(PrepareFault::Refused(place, fault)),
    }
}
