ghost use Rattle.std.specs.Prelude.{◌≡◌, ◌<◌, ◌≤◌, None, IfOk, IfErr, OnOk, OnErr};
ghost use Rattle.std.specs.Arc.{arc_value};
ghost use Rattle.std.specs.FinSet as set;
ghost use Rattle.spec.specs.Cid.{cid as cid_of};
ghost use Rattle.store.specs.Table.{empty_table, entered, entry_at, left, HasNoOther, cores_at, IsListing, IsLawful};
ghost use Rattle.store.specs.Holds.{IsHoldOf};
ghost use Rattle.store.specs.Faults.{IsRefusal, IsRefusalOfNew};

use crate::cores::Cores;
use crate::fault::StoreFault;
use crate::table_key::TableKey;
use block::Block;
use cid::{Cid, Digest};
use slab::Slab;
use std::alloc::{Allocator, Global};
use std::collections::HashMap;
use std::marker::Model;
use std::sync::Arc;

mod entries;
mod entry;
mod hold;

pub use entries::Entries;
use entry::{Entry, make_room};
pub use hold::Hold;

/// Blocks by their CIDs, each with the cores that hold it, at most `limit` of them.
///
/// An entry has the number of its one core, as nearly each, or the key of the set of its cores in the slab. Room for a set is
/// reserved with each entry that comes, so a core that comes to a held block wants no memory. A set of one ends.
///
/// A contract sees it as a finite map from CIDs to bytes and sets of cores, beside its limit and the key under which the
/// table hashes CIDs. Each entry stands under the CID of its bytes and has at least one core: this is a rule of this
/// repository, no standard has it.
#[derive(Drop)]
pub struct Shard<D: Digest, A: Allocator = Global> {
    sets: Slab<Cores, A>,
    table: HashMap<Cid, Entry<D, A>, TableKey, A>,
    limit: usize,
}

impl<D: Digest, A: Allocator> Model for Shard<D, A> {
    ghost use Rattle.std.specs.HashMap.{hasher_of};
    ghost use Rattle.store.specs.Table.{Table, table_code, table_view};
    ghost use Rattle.store.specs.Places.{held_in, IsSound};

    ghost Value = { Table };

    ghost coded = { table_code };

    ghost view = { λ s. table_view (held_in s.sets.slots s.table.entries) s.limit
        (hasher_of s.table) };

    ghost invariant = { λ s. IsSound D.digest_of s.table.entries s.sets s.limit };
}

impl<D: Digest, A: Allocator + Copy> Shard<D, A> {
    /// An empty shard that may have `limit` blocks, 1 to 1,048,576, under this key. It takes no memory yet.
    pub fn new(alloc: A, limit: usize, key: TableKey) -> Shard<D, A>
        requires least { 1 ≤ limit }
        requires most { limit ≤ 1048576 }
        ensures { result ≡ empty_table limit key }
    {
        let sets = Slab::new(alloc);
        let table = HashMap::with_hasher(alloc, key);
        Shard { sets, table, limit }
    }
}

impl<D: Digest, A: Allocator> Shard<D, A> {
    /// How many blocks it may have.
    pub fn limit(&self) -> usize
        ensures { result ≡ self.now.limit }
    {
        self.limit
    }

    /// The key under which its table hashes CIDs.
    pub fn key(&self) -> TableKey
        ensures { result ≡ self.now.key }
    {
        *self.table.hasher()
    }

    /// Takes the hold's core out of the entry under the hold's CID, and the entry out with its last core.
    ///
    /// A core that isn't there changes nothing. It takes no memory and can't fail.
    pub fn release(&mut self, hold: Hold<D, A>)
        ensures { self.new ≡ left self.old (cid_of D.digest_of (arc_value hold.0)) hold.1 }
    {
        let Hold { block, core } = hold;
        let cid = block.cid();
        if let Some(entry) = self.table.get_mut(&cid) {
            if entry.leave(&mut self.sets, core) {
                self.table.remove(&cid);
            }
        }
    }

    /// Each entry's CID with the cores that hold its block, once, in no order that is known. It takes no memory.
    pub fn entries(&self) -> Entries<'_, D, A>
        ensures entries { IsListing self.now result }
        ensures lawful { IsLawful D.digest_of self.now }
    {
        Entries {
            entries: self.table.iter(),
            sets: &self.sets,
        }
    }

    /// Whether the core holds the block of this CID.
    pub fn has(&self, cid: &Cid, core: u32) -> bool
        ensures { result ≡ set.contains (cores_at self.now cid.now) core }
    {
        let Some(entry) = self.table.get(cid) else {
            return false;
        };
        entry.cores(&self.sets).has(core)
    }

    /// How many cores hold the block of this CID: 0 where there is none.
    pub fn count(&self, cid: &Cid) -> u64
        ensures count { result ≡ set.len (cores_at self.now cid.now) }
        ensures lawful { IsLawful D.digest_of self.now }
    {
        match self.table.get(cid) {
            Some(entry) => entry.cores(&self.sets).len(),
            None => 0,
        }
    }
}

impl<D: Digest, A: Allocator + Clone> Shard<D, A> {
    /// Enters the core, a number below 1,024, among those that hold the block, and gives the hold.
    ///
    /// A block that is held already needs no memory, whatever core is entered. Otherwise the block gets an entry.
    /// `StoreFault::Collision` shows the given and the held block where other bytes are held under the CID,
    /// `StoreFault::Full` comes only where the block is new and there are `limit` blocks, and `StoreFault::NoMemory`
    /// where memory was refused. After a refusal nothing has changed.
    pub fn acquire(
        &mut self,
        core: u32,
        block: Arc<Block<D, A>, A>,
    ) -> Result<Hold<D, A>, StoreFault<D, A>>
        requires { core < 1024 }
        ensures hold { IfOk result (IsHoldOf (arc_value block) core) }
        ensures same_bytes { OnOk result
            (HasNoOther self.old (cid_of D.digest_of (arc_value block)) (arc_value block)) }
        ensures entered { OnOk result (self.new
            ≡ entered self.old (cid_of D.digest_of (arc_value block)) (arc_value block) core) }
        ensures unchanged { OnErr result (self.new ≡ self.old) }
        ensures fault { IfErr result (IsRefusal D.digest_of self.old (arc_value block)) }
    {
        let cid = block.cid();
        match self.table.get_mut(&cid) {
            Some(entry) => entry.enter(&mut self.sets, core, block),
            None => self.add(cid, core, block),
        }
    }

    // Enters a block that isn't there yet, with its first core.
    fn add(
        &mut self,
        cid: Cid,
        core: u32,
        block: Arc<Block<D, A>, A>,
    ) -> Result<Hold<D, A>, StoreFault<D, A>>
        requires small { core < 1024 }
        requires cid { cid ≡ cid_of D.digest_of (arc_value block) }
        requires new { entry_at self.old cid ≡ None }
        ensures hold { IfOk result (IsHoldOf (arc_value block) core) }
        ensures entered { OnOk result (self.new ≡ entered self.old cid (arc_value block) core) }
        ensures unchanged { OnErr result (self.new ≡ self.old) }
        ensures fault { IfErr result (IsRefusalOfNew self.old) }
    {
        let entries = self.table.len();
        if entries >= self.limit {
            return Err(StoreFault::Full);
        }
        let held = Arc::try_clone(&block)?;
        make_room(&mut self.sets, entries)?;
        self.table.insert(cid, Entry::new(core, held))?;
        Ok(Hold { block, core })
    }
}
