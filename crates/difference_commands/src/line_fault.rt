//! What is wrong with a line `KEY HEX`.
ghost use Rattle.std.specs.Prelude.{◌≡◌, is_none};
ghost use Rattle.difference_commands.specs.Faults.{line_fault_of, line_status};
ghost use Rattle.difference_commands.specs.declared.line_fault.LineFault.TheVariants as faults;

use console::{FAULTY, NO_MEMORY};
use dagcbor::CborFault;
use record_rules::{RecordFault, bad_record_name};
use std::alloc::AllocError;
use std::error::Error;
use std::fmt;

/// What is wrong with a line `KEY HEX`. Standard error shows the names that `car` has for it, which are this repository's own.
#[derive(Clone, Copy, PartialEq, Eq, Debug)]
pub enum LineFault {
    /// There is no key before the first space, or no bytes in hexadecimal behind it.
    BadLine,
    /// The key isn't a collection, a slash and a record key (AT Protocol repository v3, paths).
    BadKey,
    /// The bytes are no record.
    Record(RecordFault),
    /// Memory was refused, which says nothing of the line.
    NoMemory,
}

impl LineFault {
    /// The exit status that says so.
    pub fn status(self) -> u8
        ensures { result ≡ line_status (line_fault_of self) }
    {
        if is_want_of_memory(&self) {
            NO_MEMORY
        } else {
            FAULTY
        }
    }
}

/// Whether a fault says nothing of the line, as memory was refused.
fn is_want_of_memory(fault: &LineFault) -> bool
    ensures { result ≡ is_none (line_fault_of fault.now) }
{
    match fault {
        LineFault::NoMemory | LineFault::Record(RecordFault::BadRecord(CborFault::NoMemory)) =>
            true,
        _ => false,
    }
}

/// Writes the fault's name.
impl fmt::Display for LineFault {
    fn fmt<W: fmt::Write>(&self, f: &mut fmt::Formatter<W>) -> fmt::Result {
        match self {
            LineFault::BadLine => f.write_str("BadLine"),
            LineFault::BadKey => f.write_str("BadKey"),
            LineFault::Record(RecordFault::RecordSize) => f.write_str("RecordSize"),
            LineFault::Record(RecordFault::BadRecord(fault)) => f.write_str(bad_record_name(fault)),
            LineFault::Record(RecordFault::NotAMap) => f.write_str("NotAMap"),
            LineFault::NoMemory => f.write_str("no memory"),
        }
    }
}

impl Error for LineFault {}

impl From<AllocError> for LineFault {
    ghost from_gives = { λ _ fault. fault ≡ faults.NoMemory };

    fn from(_refused: AllocError) -> LineFault {
        LineFault::NoMemory
    }
}
