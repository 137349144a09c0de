//! Published versions, which are read without a lock.

ghost use Rattle.std.specs.Prelude.{◌≡◌, IfOk, IfErr};
ghost use Rattle.boxcar.specs.Table.{Shows};
ghost use Rattle.batches.specs.Values.{shared_writes};
ghost use Rattle.host.specs.Versions.{IsVersion, IsVersionIn};

use batches::Write;
use boxcar::tag::Tag;
use boxcar::{Keeps, Pushed};
use cid::{Cid, Digest};
use repo::Core;
use std::alloc::{AllocError, Allocator, Global};
use std::marker::{Model, PhantomData};
use std::sync::{Arc, Wait};

/// What a repository was at some moment.
#[derive(Drop)]
pub struct Version<A: Allocator = Global> {
    /// The repository's number.
    pub repo: u32,
    /// How many writes were accepted.
    pub number: u64,
    /// The root of its tree.
    pub root: Cid,
    /// The accepted writes, the oldest first.
    pub writes: Vec<Arc<Write<A>, A>, A>,
}

/// The rule that each published version keeps.
pub struct Lawful<D: Digest, const B: u8> {
    digest: PhantomData<D>,
}

impl<D: Digest, const B: u8, A: Allocator> Keeps<Version<A>> for Lawful<D, B> {
    ghost use Rattle.host.specs.Versions.{IsVersion};

    ghost holds = { λ tag index version. IsVersion D.digest_of B version };
}

/// The versions that were published.
#[derive(Drop)]
pub(crate) struct Shelf<D: Digest, const B: u8, A: Allocator> {
    versions: boxcar::Vec<Version<A>, A, Lawful<D, B>>,
}

impl<D: Digest, const B: u8, A: Allocator> Model for Shelf<D, B, A> {
    ghost use Rattle.boxcar.specs.Table.{Shelves, shelves_coded};

    ghost Value = { Shelves };

    ghost coded = { shelves_coded };

    ghost view = { λ s. s.versions };
}

/// What shows a published version.
///
/// A contract sees the version, and where it stands.
#[derive(Drop)]
pub struct Receipt<D: Digest, const B: u8, A: Allocator = Global> {
    pushed: Pushed<Version<A>, A, Lawful<D, B>>,
}

impl<D: Digest, const B: u8, A: Allocator> Model for Receipt<D, B, A> {
    ghost use Rattle.boxcar.specs.Table.{Where};
    ghost use Rattle.host.specs.declared.version.Version.{Version};
    ghost use Rattle.host.specs.Versions.{IsVersion};

    ghost Value = { Where (Version A) };

    ghost view = { λ r. r.pushed };

    ghost invariant = { λ r. IsVersion D.digest_of B r.pushed.value };
}

impl<D: Digest, const B: u8, A: Allocator + Clone> Shelf<D, B, A> {
    /// No versions so far.
    pub(crate) fn open(alloc: A) -> Result<Shelf<D, B, A>, AllocError> {
        let versions = boxcar::Vec::with_rule(alloc, Tag::empty())?;
        Ok(Shelf { versions })
    }

    /// Publishes a version. It comes back where memory was refused.
    pub(crate) fn publish<R: Wait>(
        &self,
        rt: &R,
        version: Version<A>,
    ) -> Result<Receipt<D, B, A>, Version<A>>
        requires { IsVersion D.digest_of B version }
        ensures shown { IfOk result (Shows self.now) }
        ensures value { IfOk result (λ receipt. receipt.value ≡ version) }
        ensures back { IfErr result (λ back. back ≡ version) }
    {
        let pushed = self.versions.push_shown(rt, version)?;
        Ok(Receipt { pushed })
    }
}

impl<D: Digest, const B: u8, A: Allocator> Shelf<D, B, A> {
    /// The version of a receipt.
    pub(crate) fn version<'a>(&'a self, receipt: &Receipt<D, B, A>) -> &'a Version<A>
        requires { Shows self.now receipt.now }
        ensures value { result.now ≡ receipt.now.value }
        ensures lawful { IsVersion D.digest_of B result.now }
    {
        self.versions.value(&receipt.pushed)
    }
}

/// The core's version.
pub(crate) fn version_in<D: Digest, const B: u8, A: Allocator>(
    alloc: A,
    core: &Core<D, B, A>,
) -> Result<Version<A>, AllocError>
    ensures { IfOk result (IsVersionIn D.digest_of B core.now) }
{
    match shared(alloc, core.accepted()) {
        Ok(writes) => Ok(Version {
            repo: core.me(),
            number: core.number(),
            root: core.root(),
            writes,
        }),
        Err(refused) => Err(refused),
    }
}

/// The same writes, shared once more.
fn shared<A: Allocator>(
    alloc: A,
    accepted: &[Arc<Write<A>, A>],
) -> Result<Vec<Arc<Write<A>, A>, A>, AllocError>
    ensures { IfOk result (λ v. shared_writes v.items ≡ shared_writes accepted.now) }
{
    let mut writes = Vec::with_capacity(alloc, accepted.len())?;
    for write in accepted {
        let write = Arc::try_clone(write)?;
        writes.push_reserved(write);
    }
    Ok(writes)
}
