//! A repository that takes made batches.

use crate::edits::Change;
use crate::plans::{Plan, stamp};
use batches::{Stamp, Write};
use cid::Sha256;
use repo::Core;
use std::alloc::{AllocError, Global};
use std::sync::Wait;
use store::LockedShards;

/// A batch with its stamp.
#[derive(Drop)]
pub struct Batch {
    pub stamp: Stamp,
    pub writes: Vec<Write>,
}

impl Batch {
    /// The batch with this number, of a change at each of these places.
    pub fn new(
        alloc: Global,
        plan: &Plan,
        change: Change,
        places: &[usize],
        number: u64,
    ) -> Result<Batch, AllocError> {
        let stamp = stamp(alloc, number)?;
        let writes = plan.writes(alloc, change, places)?;
        Ok(Batch { stamp, writes })
    }
}

/// A repository with its store and the number of its last batch. Whoever opened it ends it.
#[derive(Drop)]
pub struct Desk<'a, 's, R: Wait> {
    pub core: &'a mut Core<Sha256, 2>,
    pub store: &'a mut LockedShards<'s, R, Sha256>,
    pub last: u64,
}

impl<'a, 's, R: Wait> Desk<'a, 's, R> {
    /// The next batches of a change at each of these places, so many writes a batch.
    pub fn batches(
        &mut self,
        alloc: Global,
        plan: &Plan,
        change: Change,
        places: &[usize],
        size: usize,
    ) -> Result<Vec<Batch>, AllocError> {
        let mut batches = Vec::new(alloc);
        for some in places.chunks(size.max(1)) {
            self.last = self.last.saturating_add(1);
            batches.push(Batch::new(alloc, plan, change, some, self.last)?)?;
        }
        Ok(batches)
    }

    /// Applies batches up to one that is refused, and says whether there is none.
    pub fn apply_all(&mut self, alloc: Global, batches: &[Batch]) -> bool {
        for batch in batches {
            if self
                .core
                .apply(alloc, self.store, &batch.stamp, &batch.writes)
                .is_err()
            {
                return false;
            }
        }
        true
    }

    /// Makes a change at each of these places, a hundred a batch, and says whether all batches were accepted.
    pub fn change_all(
        &mut self,
        alloc: Global,
        plan: &Plan,
        change: Change,
        places: &[usize],
    ) -> bool {
        for some in places.chunks(100) {
            match self.batches(alloc, plan, change, some, 100) {
                Ok(batches) => {
                    if !self.apply_all(alloc, &batches) {
                        return false;
                    }
                }
                Err(_) => return false,
            }
        }
        true
    }

    /// Makes the repository of a plan by one batch, in the order of the keys, and says whether it was accepted. So its blocks lie
    /// in memory as those of a tree that is built from a sorted list.
    pub fn fill_in_order(&mut self, alloc: Global, plan: &Plan) -> bool {
        match self.batch_in_order(alloc, plan) {
            Ok(batches) => self.apply_all(alloc, &batches),
            Err(_) => false,
        }
    }

    /// One batch of puts of the keys that are there at first, in their order.
    fn batch_in_order(&mut self, alloc: Global, plan: &Plan) -> Result<Vec<Batch>, AllocError> {
        let mut places = Vec::from_slice(alloc, &plan.places.first)?;
        places.sort()?;
        self.batches(alloc, plan, Change::Put, &places, places.len())
    }

    /// Makes the repository of a plan, and says whether all was accepted.
    pub fn fill(&mut self, alloc: Global, plan: &Plan) -> bool {
        self.change_all(alloc, plan, Change::Put, &plan.places.first)
            && self.change_all(alloc, plan, Change::Delete, &plan.places.gone)
    }
}
