//! What the writes of a batch change, by key.

ghost use Rattle.std.specs.Prelude.{◌≡◌, ◌++◌, ℕ, List, [], Some, map as each, option_map, is_some, IfOk, OnOk};
ghost use Rattle.std.specs.Arc.{arc_value};
ghost use Rattle.std.specs.List.{cons_option};
ghost use Rattle.std.specs.Slice.Iter.{iter_rest};
ghost use Rattle.spec.specs.Cid.{cid as cid_of};
ghost use Rattle.batch_laws.specs.Batch.{at_key, with_change};
ghost use Rattle.batch_laws.specs.Collecting.{change_of, collected as collected_of, with_cids};
ghost use Rattle.batch_laws.specs.Uses.{records_come};
ghost use Rattle.batches.specs.Values.{shared_writes, write_of};
ghost use Rattle.block.specs.Bytes.{shared_record};
ghost use Rattle.repo.specs.Prepared.{key_told, keys_with};
ghost use Rattle.repo.specs.Tested.{changes_in};

use batches::Write;
use block::Block;
use cid::{Cid, Digest};
use edit::Change;
use key_changes::KeyChange;
use std::alloc::{AllocError, Allocator};
use std::collections::BTreeMap;
use std::slice::Iter;
use std::sync::Arc;

/// What some shared writes change: the last of them for each key that they name, by key.
#[derive(Drop)]
pub(crate) struct Collected<'w, A: Allocator> {
    writes: BTreeMap<&'w [u8], &'w Arc<Write<A>, A>, A>,
}

impl<'w, A: Allocator + Copy> Collected<'w, A> {
    /// Before the first write.
    pub(crate) fn new(alloc: A) -> Collected<'w, A>
        ensures { changes_in result ≡ [] }
    {
        Collected {
            writes: BTreeMap::new(alloc),
        }
    }

    /// Whether there is a record under a key after the writes, or `None` where none of them names it.
    pub(crate) fn there(&self, key: &[u8]) -> Option<bool>
        ensures { result ≡ option_map is_some (at_key key.now (changes_in self.now)) }
    {
        match self.writes.get(key) {
            Some(write) => Some(write.record().is_some()),
            None => None,
        }
    }

    /// One more write, which decides for its key.
    pub(crate) fn collect(&mut self, write: &'w Arc<Write<A>, A>) -> Result<(), AllocError>
        ensures { OnOk result (changes_in self.new
            ≡ with_change (change_of (write_of (arc_value write.now))) (changes_in self.old)) }
    {
        self.writes.insert(write.key(), write)?;
        Ok(())
    }

    /// Those of the writes that leave a record, in the order of their keys.
    pub(crate) fn with_records(&self, alloc: A) -> Result<Vec<Arc<Write<A>, A>, A>, AllocError>
        ensures { IfOk result (λ writes. each shared_record writes.items
            ≡ each Some (records_come (changes_in self.now))) }
    {
        let mut writes = Vec::new(alloc);
        for (_, write) in &self.writes {
            push_with_record(&mut writes, write)?;
        }
        Ok(writes)
    }

    /// The changes as an edit takes them, with the CIDs of the blocks of their records.
    pub(crate) fn for_edit<D: Digest>(
        &self,
        alloc: A,
        blocks: &[Arc<Block<D, A>, A>],
    ) -> Result<Vec<Change<'w>, A>, AllocError>
        requires { each arc_value blocks.now ≡ records_come (changes_in self.now) }
        ensures { IfOk result (λ changes.
            changes.items ≡ with_cids D.digest_of (changes_in self.now)) }
    {
        let mut changes = Vec::new(alloc);
        let mut left = blocks.iter();
        for (key, write) in &self.writes {
            let value = next_cid(&mut left, write);
            changes.push(Change { key: *key, value })?;
        }
        Ok(changes)
    }
}

/// A write comes behind others, where it leaves a record.
fn push_with_record<A: Allocator>(
    writes: &mut Vec<Arc<Write<A>, A>, A>,
    write: &Arc<Write<A>, A>,
) -> Result<(), AllocError>
    ensures { OnOk result (each shared_record writes.new.items
        ≡ each shared_record writes.old.items
        ++ each Some (cons_option (shared_record write.now) [])) }
{
    if write.record().is_some() {
        let one = Arc::try_clone(write)?;
        writes.push(one)?;
    }
    Ok(())
}

/// The CID of the next block, where a write leaves a record.
fn next_cid<D: Digest, A: Allocator>(
    left: &mut Iter<'_, Arc<Block<D, A>, A>>,
    write: &Arc<Write<A>, A>,
) -> Option<Cid>
    ensures cid { (come : List (List ℕ))
        → each arc_value (iter_rest left.old) ≡ cons_option (shared_record write.now) come
        → result ≡ option_map (cid_of D.digest_of) (shared_record write.now) }
    ensures left { (come : List (List ℕ))
        → each arc_value (iter_rest left.old) ≡ cons_option (shared_record write.now) come
        → each arc_value (iter_rest left.new) ≡ come }
{
    if write.record().is_none() {
        return None;
    }
    Some(left.next()?.cid())
}

/// What these writes change.
pub(crate) fn collect_all<'w, A: Allocator + Copy>(
    alloc: A,
    writes: &'w [Arc<Write<A>, A>],
) -> Result<Collected<'w, A>, AllocError>
    ensures { IfOk result (λ all. changes_in all ≡ collected_of (shared_writes writes.now)) }
{
    let mut changes = Collected::new(alloc);
    for write in writes {
        changes.collect(write)?;
    }
    Ok(changes)
}

/// Changes with the values that their keys had before.
pub(crate) fn told_changes<'k, A: Allocator>(
    alloc: A,
    changes: &[Change<'k>],
    before: &[Option<Cid>],
) -> Result<Vec<KeyChange<'k>, A>, AllocError>
    ensures { IfOk result (λ told. told.items ≡ keys_with changes.now before.now) }
{
    let mut told = Vec::with_capacity(alloc, changes.len())?;
    for (change, value) in changes.iter().zip(before.iter()) {
        told.push(told_change(change, *value))?;
    }
    Ok(told)
}

/// A change with the value that its key had before.
fn told_change<'k>(change: &Change<'k>, before: Option<Cid>) -> KeyChange<'k>
    ensures { result ≡ key_told change.now before }
{
    KeyChange {
        key: change.key,
        before,
        after: change.value,
    }
}
