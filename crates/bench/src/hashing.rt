//! What a job hashes, so that this can be hashed alone.

use crate::watch::Meter;
use block::Block;
use cid::{Cid, Sha256};
use std::alloc::{AllocError, Global};
use std::sync::Arc;
use std::time::CpuClock;

/// What a job hashes, each with its digest.
#[derive(Drop)]
pub struct Hashed {
    blocks: Vec<Arc<Block<Sha256>>>,
}

impl Hashed {
    /// Nothing so far.
    pub fn nothing(alloc: Global) -> Hashed {
        Hashed {
            blocks: Vec::new(alloc),
        }
    }

    /// Adds a copy of these bytes.
    pub fn push(&mut self, alloc: Global, bytes: &[u8]) -> Result<(), AllocError> {
        let bytes = Vec::from_slice(alloc, bytes)?;
        self.blocks.push(Arc::new(alloc, Block::of(bytes))?)?;
        Ok(())
    }

    /// Adds the bytes of these blocks.
    pub fn push_all(&mut self, blocks: &[Arc<Block<Sha256>>]) -> Result<(), AllocError> {
        for block in blocks {
            self.blocks.push(Arc::try_clone(block)?)?;
        }
        Ok(())
    }

    /// How many nanoseconds it takes to hash all of this, one after the other, or the greatest number of them where one has
    /// another digest.
    pub fn nanos<R: CpuClock>(&self, rt: &R) -> u128 {
        let meter = Meter::start(rt);
        let are_hashed = are_hashed(&self.blocks);
        let nanos = meter.nanos(rt);
        if are_hashed { nanos } else { u128::MAX }
    }
}

/// Whether these blocks have the CIDs of their bytes.
pub fn are_hashed(blocks: &[Arc<Block<Sha256>>]) -> bool {
    for block in blocks {
        if Cid::of::<Sha256>(block.bytes()) != block.cid() {
            return false;
        }
    }
    true
}
