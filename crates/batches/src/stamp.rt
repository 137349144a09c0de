ghost use Rattle.std.specs.Prelude.{◌≡◌, IfOk};
ghost use Rattle.batches.specs.Values.{stamp_of};

use std::alloc::{AllocError, Allocator, Global};

/// What a batch is stamped with, for its commit (AT Protocol repository v3, commit objects: the fields did and rev).
#[derive(Drop)]
pub struct Stamp<A: Allocator = Global> {
    /// Whose repository it is: a DID (W3C DID Core, DID syntax) of at most 2,048 bytes. `is_did` is the test.
    pub did: Vec<u8, A>,
    /// The revision: a timestamp identifier (AT Protocol, TID), bytewise greater than that of the batch before. `is_tid`
    /// is the test.
    pub rev: Vec<u8, A>,
}

impl<A: Allocator + Copy> Stamp<A> {
    /// A copy to keep.
    pub fn copied(&self, alloc: A) -> Result<Stamp<A>, AllocError>
        ensures { IfOk result (λ stamp. stamp_of stamp ≡ stamp_of self.now) }
    {
        Ok(Stamp {
            did: Vec::from_slice(alloc, &self.did)?,
            rev: Vec::from_slice(alloc, &self.rev)?,
        })
    }
}
