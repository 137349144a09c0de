//! A CAR file in the making.

ghost use Rattle.std.specs.Prelude.{◌≡◌, [], length, IfOk, OnOk};
ghost use Rattle.spec.specs.Car.{header};
ghost use Rattle.spec.specs.Cid.{cid as cid_of};
ghost use Rattle.car_writing.specs.Once.{IsPut};

use crate::sections::{push_header, push_section};
use cid::{Cid, Digest};
use std::alloc::{AllocError, Allocator};
use std::collections::HashSet;
use std::hash::{BuildHasherDefault, FoldHasher};
use std::marker::Model;

/// A CAR file in the making: its header, and behind it a section for each block that was put whose CID came first.
///
/// A contract sees it as the bytes so far and the CIDs of the blocks that were put, in no order that is known. After a fault
/// nothing is known of it.
#[derive(Drop)]
pub struct CarWriter<A: Allocator> {
    bytes: Vec<u8, A>,
    cids: HashSet<Cid, BuildHasherDefault<FoldHasher>, A>,
}

impl<A: Allocator> Model for CarWriter<A> {
    ghost use Rattle.std.specs.HashSet.{keys};
    ghost use Rattle.car_writing.specs.Once.{Written};

    ghost Value = { Written };

    ghost view = { λ w. record { bytes = w.bytes.items; cids = keys w.cids } };
}

impl<A: Allocator + Clone> CarWriter<A> {
    /// A file with this root and no blocks. `AllocError` comes where memory was refused.
    pub fn new(alloc: A, root: &Cid) -> Result<CarWriter<A>, AllocError>
        ensures bytes { IfOk result (λ w. w.bytes ≡ header root.now) }
        ensures cids { IfOk result (λ w. w.cids ≡ []) }
    {
        let mut bytes = Vec::new(alloc.clone()?);
        push_header(&mut bytes, root)?;
        Ok(CarWriter {
            bytes,
            cids: HashSet::new(alloc),
        })
    }

    /// Puts the section of a block at the end, unless one with its CID was put. `AllocError` comes where memory was refused.
    pub fn push<D: Digest>(&mut self, cid: &Cid, block: &[u8]) -> Result<(), AllocError>
        requires { cid.now ≡ cid_of D.digest_of block.now }
        ensures { OnOk result (IsPut D.digest_of block.now self.old self.new) }
    {
        if self.cids.insert(*cid)? {
            push_section(&mut self.bytes, cid, block)?;
        }
        Ok(())
    }
}

impl<A: Allocator> CarWriter<A> {
    /// How many bytes there are so far.
    pub fn len(&self) -> usize
        ensures { result ≡ length self.now.bytes }
    {
        self.bytes.len()
    }

    /// The bytes.
    pub fn into_bytes(self) -> Vec<u8, A>
        ensures { result.items ≡ self.bytes }
    {
        self.bytes
    }
}
