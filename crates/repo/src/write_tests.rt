//! The writes of a batch are tested, before a block of it is made.

ghost use Rattle.std.specs.Prelude.{◌≡◌, ◌≤◌, true, Ok, OnOk, IfOk, IfErr};
ghost use Rattle.std.specs.Arc.{arc_value};
ghost use Rattle.spec.specs.Writes.{batch_test, key_of};
ghost use Rattle.batch_laws.specs.Batch.{with_change};
ghost use Rattle.batch_laws.specs.Collecting.{change_of, collected};
ghost use Rattle.kept.specs.Trees.{OfTree, IsReadOnce};
ghost use Rattle.batches.specs.Tests.{write_fault, IsTestFault};
ghost use Rattle.batches.specs.Values.{shared_writes, write_of};
ghost use Rattle.repo.specs.Tested.{changes_in, is_named, is_there, test_after};
ghost use Rattle.repo.specs.Tested.{HaveSameTest, IsFailedWrite, IsUnread, OnOldTree};

use crate::changes::Collected;
use batches::{RepoFault, Write, test_write};
use cid::{Cid, Digest};
use counts::Count;
use kept::{Kept, value_at};
use std::alloc::Allocator;
use std::sync::Arc;

/// Tests all writes of a batch, where there is room for so many, over the tree with this root: what they change, or the
/// place of the first one that fails, and why.
///
/// Whether a key is there comes from the writes before, else from one look-up.
pub(crate) fn test_writes<'w, D: Digest, const B: u8, A: Allocator + Copy>(
    kept: &Kept<D, A>,
    alloc: A,
    room: usize,
    root: Cid,
    writes: &'w [Arc<Write<A>, A>],
) -> Result<Collected<'w, A>, (usize, RepoFault<D, A>)>
    requires { 1 ≤ B }
    ensures passed { OnOldTree D.digest_of B room root kept.now.uses (λ s. OnOk result
        (batch_test s.limit s.accepted (shared_writes writes.now) ≡ Ok tt)) }
    ensures changes { IfOk result (λ all. changes_in all ≡ collected (shared_writes writes.now)) }
    ensures fault { OnOldTree D.digest_of B room root kept.now.uses (λ s. IfErr result
        (IsFailedWrite s (shared_writes writes.now))) }
{
    let mut changes = Collected::new(alloc);
    for (place, write) in writes.iter().enumerate() {
        match take_write::<D, B, A>(kept, place < room, root, &mut changes, write) {
            Ok(_) => {}
            Err(fault) => return Err((place, fault)),
        }
    }
    Ok(changes)
}

/// Tests one write after those whose changes these are, and puts its change to them. It answers how many blocks were read.
fn take_write<'w, D: Digest, const B: u8, A: Allocator + Copy>(
    kept: &Kept<D, A>,
    room: bool,
    root: Cid,
    changes: &mut Collected<'w, A>,
    write: &'w Arc<Write<A>, A>,
) -> Result<Count, RepoFault<D, A>>
    requires { 1 ≤ B }
    ensures passed { OfTree D.digest_of B kept.now.uses root (λ es. OnOk result
        (test_after room (changes_in changes.old) es (write_of (arc_value write.now)) ≡ Ok tt)) }
    ensures changed { OnOk result (changes_in changes.new
        ≡ with_change (change_of (write_of (arc_value write.now))) (changes_in changes.old)) }
    ensures fault { OfTree D.digest_of B kept.now.uses root (λ es. IfErr result (IsTestFault
        write_fault (test_after room (changes_in changes.old) es
        (write_of (arc_value write.now))))) }
    ensures reads { IfOk result (IsReadOnce D.digest_of B kept.now.uses root) }
    ensures unread { IfOk result (IsUnread (changes_in changes.old)
        (write_of (arc_value write.now))) }
{
    match test_next::<D, B, A>(kept, room, root, changes, write) {
        Ok(looked) => {
            changes.collect(write)?;
            Ok(looked)
        }
        Err(fault) => Err(fault),
    }
}

/// Tests one write after those whose changes these are: whether there is room, and then the write itself. It answers how
/// many blocks were read.
fn test_next<D: Digest, const B: u8, A: Allocator + Copy>(
    kept: &Kept<D, A>,
    room: bool,
    root: Cid,
    changes: &Collected<'_, A>,
    write: &Write<A>,
) -> Result<Count, RepoFault<D, A>>
    requires { 1 ≤ B }
    ensures passed { OfTree D.digest_of B kept.now.uses root (λ es. OnOk result
        (test_after room (changes_in changes.now) es (write_of write.now) ≡ Ok tt)) }
    ensures fault { OfTree D.digest_of B kept.now.uses root (λ es. IfErr result (IsTestFault
        write_fault (test_after room (changes_in changes.now) es (write_of write.now)))) }
    ensures reads { IfOk result (IsReadOnce D.digest_of B kept.now.uses root) }
    ensures unread { IfOk result (IsUnread (changes_in changes.now) (write_of write.now)) }
{
    if !room {
        return Err(RepoFault::WritesFull);
    }
    let found = there_next::<D, B, A>(kept, root, changes, write);
    let (there, looked) = found;
    match test_write(there, write) {
        Ok(()) => Ok(looked),
        Err(fault) => Err(fault),
    }
}

/// Whether the key of a write is there after those whose changes these are, and how many blocks were read to know it. A put
/// is taken whether it is or not, so it isn't looked up for one.
fn there_next<D: Digest, const B: u8, A: Allocator + Copy>(
    kept: &Kept<D, A>,
    root: Cid,
    changes: &Collected<'_, A>,
    write: &Write<A>,
) -> (bool, Count)
    requires { 1 ≤ B }
    ensures there { OfTree D.digest_of B kept.now.uses root (λ es. HaveSameTest result.0
        (is_there (changes_in changes.now) es (key_of (write_of write.now))) (write_of write.now)) }
    ensures reads { IsReadOnce D.digest_of B kept.now.uses root result.1 }
    ensures unread { IsUnread (changes_in changes.now) (write_of write.now) result.1 }
{
    match write {
        Write::Put(_, _) => (false, Count::never()),
        Write::Create(key, _) | Write::Update(key, _) | Write::Delete(key) => {
            there_after::<D, B, A>(kept, root, changes, key)
        }
    }
}

/// Whether a key is there after some changes, and how many blocks were read to know it: none where they name the key.
fn there_after<D: Digest, const B: u8, A: Allocator + Copy>(
    kept: &Kept<D, A>,
    root: Cid,
    changes: &Collected<'_, A>,
    key: &[u8],
) -> (bool, Count)
    requires { 1 ≤ B }
    ensures there { OfTree D.digest_of B kept.now.uses root (λ es.
        result.0 ≡ is_there (changes_in changes.now) es key.now) }
    ensures reads { IsReadOnce D.digest_of B kept.now.uses root result.1 }
    ensures unread { is_named (changes_in changes.now) key.now ≡ true → result.1.times ≡ 0 }
{
    match changes.there(key) {
        Some(there) => (there, Count::never()),
        None => {
            let found = value_at::<D, B, A>(kept, root, key);
            let (value, looked) = found;
            (value.is_some(), looked)
        }
    }
}
