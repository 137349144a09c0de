//! Why a batch isn't told.

ghost use Rattle.std.specs.Prelude.{◌≡◌};
ghost use Rattle.event_writing.specs.declared.fault.UntoldFault.TheVariants as errors;

use event_format::FormFault;
use std::alloc::{AllocError, AllocFailed};
use thiserror::Error;

/// Why a batch isn't told: the first of these, in this order, but for `Form`, whose tests stand where its faults say. A place is
/// that of an operation in the message, from 0: of the changes that change something, in the order of their keys.
#[derive(Clone, Copy, PartialEq, Eq, Debug, Error)]
pub enum UntoldFault {
    /// The repository has no batch.
    #[error("the repository has no batch")]
    NoBatch,
    /// The message's number has more than 63 bits.
    #[error("the number is none of the stream")]
    BadSeq,
    /// The message would have no lawful form. The revision before is none (`BadSince`), or the batch's isn't after it
    /// (`RevOrder`); the time is none (`BadTime`); more than 200 keys change (`TooManyOps`); a key that changes is no record's
    /// (`BadOp`); and last of all, the commit, the nodes and the records have more than 2,000,000 bytes (`BlocksSize`).
    #[error("the message would have no lawful form")]
    Form(FormFault),
    /// The key of the operation at this place has another value now than the one that is told after it.
    #[error("the key of operation {0} has another value")]
    OtherValue(usize),
    /// The record of the operation at this place has more than 1,000,000 bytes.
    #[error("the record of operation {0} is too long")]
    RecordSize(usize),
    /// Memory was refused. This says nothing of the batch.
    #[error("out of memory")]
    NoMemory,
}

impl From<AllocError> for UntoldFault {
    ghost from_gives = { λ _ e. e ≡ errors.NoMemory };

    fn from(_refused: AllocError) -> UntoldFault {
        UntoldFault::NoMemory
    }
}

impl<T: Drop> From<AllocFailed<T>> for UntoldFault {
    ghost from_gives = { λ _ e. e ≡ errors.NoMemory };

    fn from(_refused: AllocFailed<T>) -> UntoldFault {
        UntoldFault::NoMemory
    }
}
