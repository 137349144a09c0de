//! Batches by their bytes.

use batches::{Stamp, Write};
use std::alloc::{AllocError, Allocator};

/// The DAG-CBOR bytes of the node without entries and without a left link, which are also those of a record.
pub const EMPTY_NODE: &[u8] = b"\xa2\x61e\x80\x61l\xf6";

/// The DAG-CBOR bytes of the empty map.
pub const EMPTY: &[u8] = b"\xa0";

/// The DAG-CBOR bytes of the map of "a" to 1.
pub const ONE: &[u8] = b"\xa1\x61a\x01";

/// The DAG-CBOR bytes of the map of "a" to 2.
pub const TWO: &[u8] = b"\xa1\x61a\x02";

/// A write as tables give it.
#[derive(Clone, Copy)]
pub enum Step<'a> {
    Put(&'a [u8], &'a [u8]),
    Create(&'a [u8], &'a [u8]),
    Update(&'a [u8], &'a [u8]),
    Delete(&'a [u8]),
}

impl<'a> Step<'a> {
    /// The key, and the record where there is one, else no bytes.
    fn parts(self) -> (&'a [u8], &'a [u8]) {
        match self {
            Step::Put(key, record) | Step::Create(key, record) | Step::Update(key, record) => {
                (key, record)
            }
            Step::Delete(key) => (key, b""),
        }
    }
}

/// The write of a step.
pub fn write_of<A: Allocator + Copy>(alloc: A, step: Step<'_>) -> Result<Write<A>, AllocError> {
    let (key, record) = step.parts();
    let key = Vec::from_slice(alloc, key)?;
    let record = Vec::from_slice(alloc, record)?;
    Ok(match step {
        Step::Put(_, _) => Write::Put(key, record),
        Step::Create(_, _) => Write::Create(key, record),
        Step::Update(_, _) => Write::Update(key, record),
        Step::Delete(_) => Write::Delete(key),
    })
}

/// The writes of some steps.
pub fn writes_of<A: Allocator + Copy>(
    alloc: A,
    steps: &[Step<'_>],
) -> Result<Vec<Write<A>, A>, AllocError> {
    let mut writes = Vec::new(alloc);
    for step in steps {
        writes.push(write_of(alloc, *step)?)?;
    }
    Ok(writes)
}

/// A stamp of these bytes.
pub fn stamp_of<A: Allocator + Copy>(
    alloc: A,
    did: &[u8],
    rev: &[u8],
) -> Result<Stamp<A>, AllocError> {
    let did = Vec::from_slice(alloc, did)?;
    let rev = Vec::from_slice(alloc, rev)?;
    Ok(Stamp { did, rev })
}

/// A batch.
#[derive(Drop)]
pub struct Batch<A: Allocator> {
    pub stamp: Stamp<A>,
    pub writes: Vec<Write<A>, A>,
}

/// The batch of these steps with a stamp of these bytes.
pub fn stamped<A: Allocator + Copy>(
    alloc: A,
    did: &[u8],
    rev: &[u8],
    steps: &[Step<'_>],
) -> Result<Batch<A>, AllocError> {
    let stamp = stamp_of(alloc, did, rev)?;
    let writes = writes_of(alloc, steps)?;
    Ok(Batch { stamp, writes })
}

/// The DID of every batch, where a test gives none of its own.
pub const DID: &[u8] = b"did:web:localhost";

/// The timestamp identifier that comes so many after the first one.
pub fn rev_after(turns: u16) -> [u8; 13] {
    let digits = b"234567abcdefghijklmnopqrstuvwxyz";
    let mut rev = [b'2'; 13];
    rev[12] = digits[usize::from(turns % 32)];
    rev[11] = digits[usize::from(turns / 32 % 32)];
    rev
}

/// The batch of these steps with the timestamp identifier that comes so many after the first one.
pub fn batch_at<A: Allocator + Copy>(
    alloc: A,
    turn: u16,
    steps: &[Step<'_>],
) -> Result<Batch<A>, AllocError> {
    stamped(alloc, DID, &rev_after(turn), steps)
}
