//! Why a file is no export.

ghost use Rattle.std.specs.Prelude.{◌≡◌};
ghost use Rattle.repository_check.specs.declared.fault.CheckFault.TheVariants as faults;

use car_reader::CarFault;
use dagcbor::CborFault;
use signed_commits::CommitFault;
use std::alloc::{AllocError, AllocFailed};
use thiserror::Error;

/// Why a record isn't taken. The tests come in the order of these names.
#[derive(Clone, Copy, Debug, PartialEq, Eq, Error)]
pub enum RecordFault {
    /// The key isn't a collection, a slash and a record key (AT Protocol repository v3, paths).
    #[error("the key is not that of a record")]
    BadKey,
    /// The file doesn't have the record.
    #[error("the record is not in the file")]
    NoRecord,
    /// The record has more than 1,048,576 bytes.
    #[error("the record is too long")]
    RecordSize,
    /// The record isn't DAG-CBOR: the first fault in it.
    #[error("the record is not DAG-CBOR: {0}")]
    BadRecord(CborFault),
    /// The record is DAG-CBOR, but no map (AT Protocol data model).
    #[error("the record is not a map")]
    NotAMap,
}

/// Why a file is no export of a repository. The tests come in the order of these names, so that a file has one fault;
/// `NoMemory` comes wherever memory was refused, and says nothing of the file. The names and their order are this
/// repository's own.
#[derive(Clone, Copy, Debug, PartialEq, Eq, Error)]
pub enum CheckFault {
    /// The file isn't a CAR.
    #[error("{0}")]
    Car(CarFault),
    /// A section's CID isn't that of its block.
    #[error("the CID of a section is not that of its block")]
    Misnamed,
    /// The file doesn't have the block that its header names.
    #[error("the root is not in the file")]
    NoCommit,
    /// The root isn't a signed commit.
    #[error("{0}")]
    Commit(CommitFault),
    /// The blocks from the commit's root on aren't, all of them, the nodes of the tree of any pairs.
    #[error("the file does not have a whole tree under its commit")]
    NotTheTree,
    /// The first record that isn't taken, by its place among the pairs, of which the first has the place 0.
    #[error("record {0}: {1}")]
    Record(u64, RecordFault),
    /// Memory was refused.
    #[error("out of memory")]
    NoMemory,
}

impl From<AllocError> for CheckFault {
    ghost from_gives = { λ _ e. e ≡ faults.NoMemory };

    fn from(_refused: AllocError) -> CheckFault {
        CheckFault::NoMemory
    }
}

impl<T: Drop> From<AllocFailed<T>> for CheckFault {
    ghost from_gives = { λ _ e. e ≡ faults.NoMemory };

    fn from(_refused: AllocFailed<T>) -> CheckFault {
        CheckFault::NoMemory
    }
}
