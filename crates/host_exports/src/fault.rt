//! Why there is no CAR, no proof, or no batch that is told.

use batches::RepoFault;
use change_proofs::ProvingFault;
use cid::Digest;
use export::ExportFault;
use std::alloc::{Allocator, Global};
use thiserror::Error;

/// Why there is no CAR of a host's repository.
#[derive(Clone, Copy, Debug, PartialEq, Eq, Error)]
pub enum CarFault {
    /// There is no repository of this number. Nothing was written.
    #[error("there is no such repository")]
    NoSuchRepository,
    /// The CAR wasn't written, or not all of it.
    #[error("{0}")]
    Export(ExportFault),
}

/// Why there is no proof of a key in a host's repository.
#[derive(Clone, Copy, Debug, PartialEq, Eq, Error)]
pub enum ProveFault {
    /// There is no repository of this number.
    #[error("there is no such repository")]
    NoSuchRepository,
    /// Memory was refused.
    #[error("out of memory")]
    NoMemory,
}

/// Why there is no proof of what some changes make of a host's repository.
#[derive(Clone, Copy, Debug, PartialEq, Eq, Error)]
pub enum ProveChangeFault {
    /// There is no repository of this number.
    #[error("there is no such repository")]
    NoSuchRepository,
    /// The repository has another root than the one before.
    #[error("the repository has another root")]
    OtherRoot,
    /// Memory was refused.
    #[error("out of memory")]
    NoMemory,
}

/// Why there is no proof of some changes that are undone of a host's repository.
#[derive(Clone, Copy, Debug, PartialEq, Eq, Error)]
pub enum ProveInversionFault {
    /// There is no repository of this number.
    #[error("there is no such repository")]
    NoSuchRepository,
    /// The repository has another root than the one after.
    #[error("the repository has another root")]
    OtherRoot,
    /// The key of the change at this place has another value in the repository than the one told after it.
    #[error("the key of change {0} has another value")]
    OtherValue(usize),
    /// Memory was refused.
    #[error("out of memory")]
    NoMemory,
}

/// Why a batch for a host's repository isn't told before it is accepted.
#[derive(Drop, Error)]
#[derive_where(Debug)]
pub enum PrepareFault<D: Digest, A: Allocator = Global> {
    /// There is no repository of this number.
    #[error("there is no such repository")]
    NoSuchRepository,
    /// The batch is refused: the place of the refused write, from 0, and the fault.
    #[error("the batch is refused at write {0}")]
    Refused(usize, RepoFault<D, A>),
}

impl From<ProvingFault> for ProveInversionFault {
    ghost use Rattle.std.specs.Prelude.{◌≡◌};
    ghost use Rattle.host_exports.specs.ChangeProofs.{of_proving};

    ghost from_gives = { λ given fault. fault ≡ of_proving given };

    fn from(fault: ProvingFault) -> ProveInversionFault {
        match fault {
            ProvingFault::OtherValue(place) => ProveInversionFault::OtherValue(place),
            ProvingFault::NoMemory => ProveInversionFault::NoMemory,
        }
    }
}
