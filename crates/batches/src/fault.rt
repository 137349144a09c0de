//! Why a batch was refused.

ghost use Rattle.std.specs.Prelude.{◌≡◌};
ghost use Rattle.batches.specs.declared.fault.RepoFault.TheVariants as faults;

use block::Collided;
use cid::Digest;
use dagcbor::CborFault;
use record_rules::RecordFault;
use std::alloc::{AllocError, AllocFailed, Allocator, Global};
use store::StoreFault;
use thiserror::Error;

/// Why a batch was refused. Nothing has changed then.
///
/// The tests come first, in the order of `Core::apply`; `Collision`, `StoreFull` and `NoMemory` come where blocks are made
/// and held, and `NoMemory` wherever memory was refused.
#[derive(Drop, Error)]
#[derive_where(Debug)]
pub enum RepoFault<D: Digest, A: Allocator = Global> {
    /// The key isn't a collection, a slash and a record key (AT Protocol repository v3, paths).
    #[error("the key is not that of a record")]
    BadKey,

    /// The record isn't DAG-CBOR: the first fault in it.
    #[error("the record is not DAG-CBOR")]
    BadRecord(CborFault),

    /// The record is DAG-CBOR, but no map (AT Protocol data model).
    #[error("the record is not a map")]
    NotAMap,

    /// The record has more than 1,048,576 bytes.
    #[error("the record is too long")]
    RecordSize,

    /// A create of a key that is there.
    #[error("the key is there already")]
    KeyExists,

    /// An update or a delete of a key that isn't there.
    #[error("there is no such key")]
    NoSuchKey,

    /// There are as many accepted writes as the repository may have.
    #[error("the repository takes no more writes")]
    WritesFull,

    /// Two blocks have one CID and different bytes, of which at least one is a block of the repository after the writes
    /// up to the refused one.
    #[error("two different blocks have one CID")]
    Collision(Collided<D, A>),

    /// The store has no room for a block that no core holds.
    #[error("the store is full")]
    StoreFull,

    /// Memory was refused.
    #[error("out of memory")]
    NoMemory,

    /// The batch has no write.
    #[error("the batch is empty")]
    EmptyBatch,

    /// The stamp's DID isn't one (W3C DID Core, DID syntax), or has more than 2,048 bytes.
    #[error("the DID is not one")]
    BadDid,

    /// The stamp's revision isn't a timestamp identifier (AT Protocol, TID).
    #[error("the revision is not a timestamp identifier")]
    BadRev,

    /// The stamp's revision isn't bytewise greater than that of the batch before.
    #[error("the revision is not after the last one")]
    RevOrder,
}

impl<D: Digest, A: Allocator> From<AllocError> for RepoFault<D, A> {
    ghost from_gives = { λ _ fault. fault ≡ faults.NoMemory };

    fn from(_: AllocError) -> RepoFault<D, A> {
        RepoFault::NoMemory
    }
}

impl<D: Digest, A: Allocator, T: Drop> From<AllocFailed<T>> for RepoFault<D, A> {
    ghost from_gives = { λ _ fault. fault ≡ faults.NoMemory };

    fn from(_: AllocFailed<T>) -> RepoFault<D, A> {
        RepoFault::NoMemory
    }
}

impl<D: Digest, A: Allocator> From<StoreFault<D, A>> for RepoFault<D, A> {
    ghost use Rattle.batches.specs.Tests.{of_store};

    ghost from_gives = { λ store fault. fault ≡ of_store store };

    fn from(fault: StoreFault<D, A>) -> RepoFault<D, A> {
        match fault {
            StoreFault::Collision(pair) => RepoFault::Collision(pair),
            StoreFault::Full => RepoFault::StoreFull,
            StoreFault::NoMemory => RepoFault::NoMemory,
        }
    }
}

impl<D: Digest, A: Allocator> From<RecordFault> for RepoFault<D, A> {
    ghost use Rattle.batches.specs.Tests.{of_record};

    ghost from_gives = { λ refused fault. fault ≡ of_record refused };

    fn from(fault: RecordFault) -> RepoFault<D, A> {
        match fault {
            RecordFault::RecordSize => RepoFault::RecordSize,
            RecordFault::BadRecord(fault) => RepoFault::BadRecord(fault),
            RecordFault::NotAMap => RepoFault::NotAMap,
        }
    }
}
