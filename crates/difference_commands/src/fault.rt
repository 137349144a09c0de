//! Why nothing is told of two files.
ghost use Rattle.std.specs.Prelude.{◌≡◌};
ghost use Rattle.difference_commands.specs.Faults.{of_trees, status_of};
ghost use Rattle.difference_commands.specs.declared.fault.ChangesFault.TheVariants as faults;

use crate::file_fault::FileFault;
use crate::trees::TreesFault;
use console::{FAULTY, NO_MEMORY, ReadFault};
use std::alloc::AllocError;
use thiserror::Error;

/// Why nothing is told of two files. Nothing was written. Standard error shows these names, which are this repository's own.
#[derive(Clone, Copy, PartialEq, Eq, Debug, Error)]
pub enum ChangesFault {
    /// The old file, which is judged first.
    #[error("old: {0}")]
    Old(FileFault),
    /// The new one.
    #[error("new: {0}")]
    New(FileFault),
    /// The old file can't be read.
    #[error("old: {0}")]
    OldUnread(ReadFault),
    /// The new one can't be.
    #[error("new: {0}")]
    NewUnread(ReadFault),
    /// Two different nodes of both trees have one CID.
    #[error("Clash")]
    Clash,
    /// Memory was refused.
    #[error("no memory")]
    NoMemory,
}

impl ChangesFault {
    /// The exit status that says so.
    pub fn status(self) -> u8
        ensures { result ≡ status_of self }
    {
        match self {
            ChangesFault::Old(fault) | ChangesFault::New(fault) => fault.status(),
            ChangesFault::OldUnread(fault) | ChangesFault::NewUnread(fault) => fault.status(),
            ChangesFault::Clash => FAULTY,
            ChangesFault::NoMemory => NO_MEMORY,
        }
    }
}

impl From<AllocError> for ChangesFault {
    ghost from_gives = { λ _ fault. fault ≡ faults.NoMemory };

    fn from(_refused: AllocError) -> ChangesFault {
        ChangesFault::NoMemory
    }
}

impl From<TreesFault> for ChangesFault {
    ghost from_gives = { λ fault e. e ≡ of_trees fault };

    fn from(fault: TreesFault) -> ChangesFault {
        match fault {
            TreesFault::Clash => ChangesFault::Clash,
            TreesFault::NoMemory => ChangesFault::NoMemory,
        }
    }
}
