//! An empty repository, and the one batch.

ghost use Rattle.std.specs.Prelude.{◌≡◌, ◌≤◌, ◌<◌, length, Err, IfOk, IfErr, OnOk, OnErr};
ghost use Rattle.spec.specs.States.{records, state_root};
ghost use Rattle.store.specs.Stores.{IsStore};
ghost use Rattle.batches.specs.Values.{stamp_of, writes_of};
ghost use Rattle.batches.specs.declared.fault.RepoFault.TheVariants as faults;
ghost use Rattle.kept.specs.Entering.{Enters, no_block};
ghost use Rattle.repo.specs.Fulls.{fulls_after_step};
ghost use Rattle.repo.specs.Readings.{has_block};
ghost use Rattle.repository_check.specs.Views.{records_of};
ghost use Rattle.checked_opening.specs.Opening.{IsOpenable, Passes, after_one, root_in, state_of};
ghost use Rattle.checked_opening.specs.Refusals.{IsBatchRefusal, IsRefusal};

use crate::batch::{creates_of, stamp_for};
use batches::{RepoFault, Stamp, Write};
use block::Block;
use cid::Digest;
use repo::Core;
use repository_check::Repository;
use std::alloc::{Allocator, Global};
use std::sync::Arc;
use store::{BlockStore, Hold, StoreFault};

/// A repository with the records of a file that was checked, which may have `limit` writes, under its own number in the
/// store.
///
/// The records are created by one batch, in the order of their keys, under the DID and the revision of the file's commit; they
/// count as so many writes. A file without records gives the repository without writes, which has no stamp. The root of the
/// tree is the one that the file's commit names. The core's own commit isn't the file's: it has no signature.
///
/// `RepoFault::WritesFull` comes, before anything is done, where the file has more records than `limit`. `RepoFault::Collision`
/// shows two blocks that clash, `RepoFault::StoreFull` says that the store answered so, and `RepoFault::NoMemory` comes where
/// memory was refused: the records are copied. There is no other fault. After a refusal no block is held.
pub fn open_checked<D: Digest, const B: u8, S: BlockStore<Arc<Block<D>>, Hold<D>, StoreFault<D>>>(
    alloc: Global,
    store: &mut S,
    me: u32,
    limit: usize,
    repository: &Repository<'_>,
) -> Result<Core<D, B>, RepoFault<D>>
    requires least_bits { 1 ≤ B }
    requires most_bits { B ≤ 8 }
    requires small { me < 1024 }
    requires least { 1 ≤ limit }
    requires most { limit ≤ 1048576 }
    requires store { IsStore D.digest_of S.BlockStore }

    // It is what a check answers.
    requires openable { IsOpenable D.digest_of B repository.now }

    // What is opened: one batch after the beginning.
    ensures opened { IfOk result (λ core. core ≡ state_of me limit repository.now) }

    // Its records are the file's, and its root is the one that the file's commit names.
    ensures records { IfOk result (λ core. records core ≡ records_of repository.now) }
    ensures root { IfOk result (λ core.
        state_root D.digest_of B core ≡ root_in repository.now) }

    // Too many records are told at once.
    ensures full { limit < length (records_of repository.now) → result ≡ Err faults.WritesFull }

    // A refusal is right.
    ensures fault { IfErr result (IsRefusal D.digest_of B me limit repository.now
        (S.fulls store.old) (S.fulls store.new)) }
    ensures counted { S.fulls store.new ≡ fulls_after_step (S.fulls store.old) result }

    // In the store the blocks of what is opened are held, or none.
    ensures entered { IfOk result (λ core. Enters D.digest_of S.BlockStore me
        no_block (has_block D.digest_of B core) store.old store.new) }
    ensures left { OnErr result (Enters D.digest_of S.BlockStore me
        no_block no_block store.old store.new) }
{
    if repository.records.len() > limit {
        return Err(RepoFault::WritesFull);
    }
    let writes = creates_of(alloc, &repository.records)?;
    let stamp = stamp_for(alloc, &repository.commit)?;
    let mut core = Core::open(alloc, store, me, limit)?;
    match apply_some(alloc, store, &mut core, &stamp, &writes) {
        Ok(()) => Ok(core),
        Err(fault) => {
            core.end(store);
            Err(fault)
        }
    }
}

/// Applies the batch of these writes, if there are any.
fn apply_some<
    D: Digest,
    const B: u8,
    A: Allocator + Copy,
    S: BlockStore<Arc<Block<D, A>, A>, Hold<D, A>, StoreFault<D, A>>,
>(
    alloc: A,
    store: &mut S,
    core: &mut Core<D, B, A>,
    stamp: &Stamp<A>,
    writes: &[Write<A>],
) -> Result<(), RepoFault<D, A>>
    requires store { IsStore D.digest_of S.BlockStore }
    requires passes { Passes core.old (stamp_of stamp.now) (writes_of writes.now) }
    ensures after { OnOk result (core.new
        ≡ after_one core.old (stamp_of stamp.now) (writes_of writes.now)) }
    ensures unchanged { OnErr result (core.new ≡ core.old) }
    ensures fault { IfErr result (IsBatchRefusal D.digest_of B
        core.old (stamp_of stamp.now) (writes_of writes.now)
        (S.fulls store.old) (S.fulls store.new)) }
    ensures counted { S.fulls store.new ≡ fulls_after_step (S.fulls store.old) result }
    ensures entered { Enters D.digest_of S.BlockStore core.old.me
        (has_block D.digest_of B core.old) (has_block D.digest_of B core.new)
        store.old store.new }
{
    if writes.is_empty() {
        return Ok(());
    }
    match core.apply(alloc, store, stamp, writes) {
        Ok(_) => Ok(()),
        Err((_, fault)) => Err(fault),
    }
}
