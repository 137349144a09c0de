//! Why nothing is told of a file.

ghost use Rattle.std.specs.Prelude.{◌≡◌, Some, is_none};
ghost use Rattle.repository_check.specs.Views.{check_fault_of};
ghost use Rattle.export_commands.specs.Faults.{of_read, status_of};
ghost use Rattle.export_commands.specs.Names.{fault_text};

use crate::names::CheckName;
use car_reader::CarFault;
use console::{Decimal, FAULTY, IO_FAILED, NO_MEMORY, ReadFault};
use dagcbor::CborFault;
use repository_check::{CheckFault, RecordFault};
use std::error::Error;
use std::fmt;

/// Why nothing is told of a file. Nothing was written. Standard error shows the names, which are this repository's own.
#[derive(Clone, Copy, PartialEq, Eq, Debug)]
pub enum ExportFault {
    /// The file is no export, or memory was refused.
    Check(CheckFault),
    /// It is one, and JSON was asked for: the record at this place has none. Places count from 0, in the order of the keys.
    NoJsonForm(u64),
    /// The file can't be read.
    ReadFailed,
}

impl ExportFault {
    /// The exit status that says so.
    pub fn status(self) -> u8
        ensures { result ≡ status_of self }
    {
        match self {
            ExportFault::Check(fault) if is_want_of_memory(&fault) => NO_MEMORY,
            ExportFault::Check(_) | ExportFault::NoJsonForm(_) => FAULTY,
            ExportFault::ReadFailed => IO_FAILED,
        }
    }
}

/// Whether a fault says nothing of the file, as memory was refused.
fn is_want_of_memory(fault: &CheckFault) -> bool
    ensures { result ≡ is_none (check_fault_of fault.now) }
{
    match fault {
        CheckFault::Car(CarFault::NoMemory) => true,
        CheckFault::Record(_, RecordFault::BadRecord(CborFault::NoMemory)) => true,
        CheckFault::NoMemory => true,
        _ => false,
    }
}

/// Writes the fault's name.
impl fmt::Display for ExportFault {
    ghost output = { λ fault. Some (fault_text fault) };

    fn fmt<W: fmt::Write>(&self, f: &mut fmt::Formatter<W>) -> fmt::Result {
        match self {
            ExportFault::Check(fault) => CheckName(fault).fmt(f),
            ExportFault::NoJsonForm(place) => {
                let place = Decimal(*place);
                write!(f, "record {place}: NoJsonForm")
            }
            ExportFault::ReadFailed => f.write_str("read failed"),
        }
    }
}

impl Error for ExportFault {}

impl From<ReadFault> for ExportFault {
    ghost from_gives = { λ f e. e ≡ of_read f };

    fn from(fault: ReadFault) -> ExportFault {
        match fault {
            ReadFault::NoMemory => ExportFault::Check(CheckFault::NoMemory),
            ReadFault::Failed => ExportFault::ReadFailed,
        }
    }
}
