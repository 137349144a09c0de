//! Why the blocks of a message aren't what it tells of.

ghost use Rattle.std.specs.Prelude.{◌≡◌};
ghost use Rattle.event_blocks.specs.declared.fault.BlocksFault.TheVariants as errors;

use car_reader::CarFault;
use record_rules::RecordFault;
use signed_commits::CommitFault;
use std::alloc::{AllocError, AllocFailed};
use thiserror::Error;

/// Why the blocks of a message aren't what it tells of. A place is that of an operation in the message, from 0.
#[derive(Clone, Copy, PartialEq, Eq, Debug, Error)]
pub enum BlocksFault {
    /// They are no CAR file.
    #[error("the blocks are no CAR file")]
    Car(CarFault),
    /// The root of the CAR file isn't the commit.
    #[error("the root of the blocks is not the commit")]
    NotTheRoot,
    /// A block has another CID than its section states.
    #[error("a block has another CID")]
    Misnamed,
    /// The commit isn't among the blocks.
    #[error("the commit is not among the blocks")]
    CommitMissing,
    /// The commit's block is no signed commit.
    #[error("the commit is none")]
    Commit(CommitFault),
    /// The commit is of another repository.
    #[error("the commit is of another repository")]
    OtherDid,
    /// The commit has another revision.
    #[error("the commit has another revision")]
    OtherRev,
    /// The record of the operation at this place isn't among the blocks.
    #[error("the record of operation {0} is missing")]
    RecordMissing(usize),
    /// It has more bytes than a message may have it.
    #[error("the record of operation {0} is too long")]
    RecordSize(usize),
    /// It is none: the first fault in it.
    #[error("the record of operation {0} is none")]
    BadRecord(usize, RecordFault),
    /// Memory was refused. This says nothing of the message.
    #[error("out of memory")]
    NoMemory,
}

impl From<AllocError> for BlocksFault {
    ghost from_gives = { λ _ e. e ≡ errors.NoMemory };

    fn from(_refused: AllocError) -> BlocksFault {
        BlocksFault::NoMemory
    }
}

impl<T: Drop> From<AllocFailed<T>> for BlocksFault {
    ghost from_gives = { λ _ e. e ≡ errors.NoMemory };

    fn from(_refused: AllocFailed<T>) -> BlocksFault {
        BlocksFault::NoMemory
    }
}
