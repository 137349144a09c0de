//! Calls that wait for a repository's lock.
//!
//! Each takes the lock of its repository, and lets it go when it has answered. No contract can say which lock was taken, nor
//! what stands behind it but a lawful core. So `read` and `write` pass over a core that isn't the wanted one: one of another
//! number, of another limit, or of fewer accepted writes than the caller has seen. They let its lock go and try again. What
//! the guard then gives is known, and what a call does under it is exact: it is what the core's own contract says.

ghost use Rattle.std.specs.Prelude.{◌≡◌, ◌<◌, IfOk, IfErr, option_map};
ghost use Rattle.std.specs.Sync.RwLock.{read_guard_value, write_guard_value};
ghost use Rattle.boxcar.specs.Table.{Shows};
ghost use Rattle.lookups.specs.Walks.{pairs_given};
ghost use Rattle.host.specs.Rooting.{IsTaken, IsUntaken};
ghost use Rattle.host.specs.Seeing.{IsSeen, IsFound, IsListed, wanted_of};
ghost use Rattle.host.specs.Versions.{IsVersion, IsOfState};

use crate::fault::ApplyFromFault;
use crate::host::Host;
use crate::locked::{is_wanted, pairs_in, record_in};
use crate::rooted::apply_from_at;
use crate::version::{Receipt, Version, version_in};
use batches::{Stamp, Write};
use cid::{Cid, Digest};
use fitting::element;
use repo::{Applied, Core};
use std::alloc::{AllocError, Allocator};
use std::sync::{RwLockReadGuard, RwLockWriteGuard, Wait};
use store::LockedShards;

impl<D: Digest, const B: u8, A: Allocator + Clone> Host<D, B, A> {
    /// The core of a repository, which must be one of the host's, under its read lock, once it has at least `seen` accepted
    /// writes.
    ///
    /// It waits for the lock, and shares it with other readers. Writers of this repository wait until the guard goes, and so
    /// do those that come to read there after one of these; nobody in another one. It takes no memory.
    pub fn read<R: Wait>(
        &self,
        rt: &R,
        repo: usize,
        seen: u64,
    ) -> RwLockReadGuard<'_, Core<D, B, A>>
        requires { repo < self.now.repos }
        ensures { IsSeen (wanted_of self.now repo seen) (read_guard_value result) }
    {
        let repository = element(&self.repositories, repo);
        for _ in rt.forever() {
            let core = repository.lock.read(rt);
            if is_wanted(&core, repo, self.limit, seen) {
                return core;
            }
        }
        unreachable!()
    }

    /// The same under the write lock, which is shared with nobody.
    fn write<R: Wait>(&self, rt: &R, repo: usize, seen: u64) -> RwLockWriteGuard<'_, Core<D, B, A>>
        requires { repo < self.now.repos }
        ensures { IsSeen (wanted_of self.now repo seen) (write_guard_value result) }
    {
        let repository = element(&self.repositories, repo);
        for _ in rt.forever() {
            let core = repository.lock.write(rt);
            if is_wanted(&core, repo, self.limit, seen) {
                return core;
            }
        }
        unreachable!()
    }
}

impl<D: Digest, const B: u8, A: Allocator + Copy> Host<D, B, A> {
    /// Applies the batch under the repository's write lock, once the core has at least `seen` accepted writes, and where it has
    /// the root that is wanted of it then.
    pub(crate) fn apply<R: Wait>(
        &self,
        rt: &R,
        alloc: A,
        repo: usize,
        seen: u64,
        root: Option<Cid>,
        stamp: &Stamp<A>,
        writes: &[Write<A>],
    ) -> Result<Applied, ApplyFromFault<D, A>>
        requires { repo < self.now.repos }
        ensures accepted { IfOk result
            (IsTaken D.digest_of B (wanted_of self.now repo seen) root stamp.now writes.now) }
        ensures refused { IfErr result
            (IsUntaken D.digest_of B (wanted_of self.now repo seen) root stamp.now writes.now) }
    {
        self.fits_in_memory();
        let mut core = self.write(rt, repo, seen);
        let mut store = LockedShards::new(rt, &self.shards);
        apply_from_at(alloc, &mut store, &mut core, root, stamp, writes)
    }

    /// The record of a key, with the number of accepted writes, under the repository's read lock, once the core has at least
    /// `seen` of them.
    pub(crate) fn record<R: Wait>(
        &self,
        rt: &R,
        alloc: A,
        repo: usize,
        seen: u64,
        key: &[u8],
    ) -> Result<(u64, Option<Vec<u8, A>>), AllocError>
        requires { repo < self.now.repos }
        ensures { IfOk result (λ r.
            IsFound (wanted_of self.now repo seen) key.now r.0 (option_map (λ v. v.items) r.1)) }
    {
        self.fits_in_memory();
        record_in(alloc, &self.read(rt, repo, seen), key)
    }

    /// The first pairs from a key on, with the number of accepted writes, under the repository's read lock, once the core has at
    /// least `seen` of them.
    pub(crate) fn pairs<R: Wait>(
        &self,
        rt: &R,
        alloc: A,
        repo: usize,
        seen: u64,
        from: &[u8],
        limit: usize,
    ) -> Result<(u64, Vec<(Vec<u8, A>, Cid), A>), AllocError>
        requires { repo < self.now.repos }
        ensures { IfOk result (λ r. IsListed D.digest_of (wanted_of self.now repo seen)
            from.now limit r.0 (pairs_given r.1.items)) }
    {
        self.fits_in_memory();
        pairs_in(alloc, &self.read(rt, repo, seen), from, limit)
    }

    /// The repository's version, under its read lock, once the core has at least `seen` accepted writes.
    pub(crate) fn version_from<R: Wait>(
        &self,
        rt: &R,
        alloc: A,
        repo: usize,
        seen: u64,
    ) -> Result<Version<A>, AllocError>
        requires { repo < self.now.repos }
        ensures lawful { IfOk result (IsVersion D.digest_of B) }
        ensures state { IfOk result (IsOfState D.digest_of B (wanted_of self.now repo seen)) }
    {
        self.fits_in_memory();
        version_in(alloc, &self.read(rt, repo, seen))
    }

    /// Publishes a version. It comes back where memory was refused.
    pub(crate) fn publish<R: Wait>(
        &self,
        rt: &R,
        version: Version<A>,
    ) -> Result<Receipt<D, B, A>, Version<A>>
        requires { IsVersion D.digest_of B version }
        ensures shown { IfOk result (Shows self.now.shelf) }
        ensures value { IfOk result (λ receipt. receipt.value ≡ version) }
        ensures back { IfErr result (λ back. back ≡ version) }
    {
        self.shelf.publish(rt, version)
    }
}
