//! Why a difference isn't taken.

ghost use Rattle.std.specs.Prelude.{◌≡◌};
ghost use Rattle.difference_taking.specs.declared.fault.TakingFault.TheVariants as takings;

use batches::RepoFault;
use cid::Digest;
use std::alloc::{AllocError, AllocFailed, Allocator, Global};
use thiserror::Error;

/// Why a repository doesn't take a difference. Nothing has changed then. A place is that of a change, from 0.
///
/// The tests come in this order: a record for each change, the values before, and then the batch.
#[derive(Drop, Error)]
#[derive_where(Debug)]
pub enum TakingFault<D: Digest, A: Allocator = Global> {
    /// No record is given that has the CID after the change at this place: the first such change. Who gets the record
    /// elsewhere calls again.
    #[error("the record of change {0} is missing")]
    RecordMissing(usize),

    /// The key of the change at this place has another value in the repository than the one told before it: the first such
    /// change. The difference is from another repository than this one, or from an older state of it.
    #[error("the key of change {0} has another value")]
    OtherValue(usize),

    /// The batch is refused at the write of the change at this place, as `Core::apply` tells it, but for a want of memory.
    #[error("the batch is refused at change {0}: {1}")]
    Refused(usize, RepoFault<D, A>),

    /// Memory was refused, for the batch or by it. This says nothing of the difference.
    #[error("out of memory")]
    NoMemory,
}

impl<D: Digest, A: Allocator> From<AllocError> for TakingFault<D, A> {
    ghost from_gives = { λ _ fault. fault ≡ takings.NoMemory };

    fn from(_: AllocError) -> TakingFault<D, A> {
        TakingFault::NoMemory
    }
}

impl<D: Digest, A: Allocator, T: Drop> From<AllocFailed<T>> for TakingFault<D, A> {
    ghost from_gives = { λ _ fault. fault ≡ takings.NoMemory };

    fn from(_: AllocFailed<T>) -> TakingFault<D, A> {
        TakingFault::NoMemory
    }
}
