//! Why a file doesn't say what a repository has.
ghost use Rattle.std.specs.Prelude.{◌≡◌};
ghost use Rattle.difference_commands.specs.Faults.{file_status};

use crate::lines_fault::LinesFault;
use console::FAULTY;
use export_commands::ExportFault;
use thiserror::Error;
use tree_command::TreeFault;

/// Why a file doesn't say what a repository has. Standard error shows these names, which are this repository's own.
#[derive(Clone, Copy, PartialEq, Eq, Debug, Error)]
pub enum FileFault {
    /// A CAR file is no export of a repository: its first fault, or a want of memory.
    #[error("{0}")]
    Export(ExportFault),
    /// Of lines `KEY CID` the first faulty one, or a want of memory.
    #[error("{0}")]
    Listing(TreeFault),
    /// Of lines `KEY HEX` the first faulty one, or a want of memory.
    #[error("{0}")]
    Records(LinesFault),
    /// Records are to be told, and lines `KEY CID` have none.
    #[error("NoRecords")]
    NoRecords,
}

impl FileFault {
    /// The exit status that says so.
    pub fn status(self) -> u8
        ensures { result ≡ file_status self }
    {
        match self {
            FileFault::Export(fault) => fault.status(),
            FileFault::Listing(fault) => fault.status(),
            FileFault::Records(fault) => fault.status(),
            FileFault::NoRecords => FAULTY,
        }
    }
}
