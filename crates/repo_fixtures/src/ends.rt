//! How batches end.

use crate::batch::{ONE, TWO};
use batches::RepoFault;
use block::Collided;
use cid::Digest;
use dagcbor::CborFault;
use repo::Applied;
use std::alloc::Allocator;

/// Why a batch was refused.
#[derive(Clone, Copy, PartialEq, Eq)]
pub enum Why {
    BadKey,
    BadRecord(CborFault),
    NotAMap,
    RecordSize,
    KeyExists,
    NoSuchKey,
    WritesFull,
    /// The given block is `TWO` and the held one `ONE`, under one CID.
    CollisionOfRecords,
    /// Other two blocks of different bytes under one CID.
    Collision,
    /// The two blocks that are shown have different CIDs, or the same bytes.
    NoCollision,
    StoreFull,
    NoMemory,
    EmptyBatch,
    BadDid,
    BadRev,
    RevOrder,
}

/// Which two blocks clash.
fn clash_of<D: Digest, A: Allocator>(pair: &Collided<D, A>) -> Why {
    let (one, other) = (pair.one(), pair.other());
    if one.cid() != other.cid() || one.bytes() == other.bytes() {
        Why::NoCollision
    } else if one.bytes() == TWO && other.bytes() == ONE {
        Why::CollisionOfRecords
    } else {
        Why::Collision
    }
}

/// The name of a fault.
pub fn why_of<D: Digest, A: Allocator>(fault: &RepoFault<D, A>) -> Why {
    match fault {
        RepoFault::BadKey => Why::BadKey,
        RepoFault::BadRecord(fault) => Why::BadRecord(*fault),
        RepoFault::NotAMap => Why::NotAMap,
        RepoFault::RecordSize => Why::RecordSize,
        RepoFault::KeyExists => Why::KeyExists,
        RepoFault::NoSuchKey => Why::NoSuchKey,
        RepoFault::WritesFull => Why::WritesFull,
        RepoFault::Collision(pair) => clash_of(pair),
        RepoFault::StoreFull => Why::StoreFull,
        RepoFault::NoMemory => Why::NoMemory,
        RepoFault::EmptyBatch => Why::EmptyBatch,
        RepoFault::BadDid => Why::BadDid,
        RepoFault::BadRev => Why::BadRev,
        RepoFault::RevOrder => Why::RevOrder,
    }
}

/// How a batch ended.
#[derive(Clone, Copy, PartialEq, Eq)]
pub enum Ended {
    /// Then so many writes are accepted in all.
    Accepted(u64),
    Refused(usize, Why),
    /// There was no memory for the batch itself.
    Unmade,
}

/// How a batch ended that was answered so.
pub fn end_of<D: Digest, A: Allocator>(answer: Result<Applied, (usize, RepoFault<D, A>)>) -> Ended {
    match answer {
        Ok(applied) => Ended::Accepted(applied.number),
        Err((place, fault)) => Ended::Refused(place, why_of(&fault)),
    }
}
