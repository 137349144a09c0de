//! Why a file was not saved.
ghost use Rattle.std.specs.Prelude.{◌≡◌, Some};
ghost use Rattle.console.specs.Saving.{save_fault_text, save_status};
ghost use Rattle.console.specs.declared.save_fault.SaveFault.TheVariants as errors;

use crate::files::OpenFault;
use crate::writing::WriteFault;
use std::error::Error;
use std::fmt;

/// Why a file doesn't hold what was to be saved in it.
#[derive(Clone, Copy, PartialEq, Eq, Debug)]
pub enum SaveFault {
    /// It can't be made, or not be opened to be written to.
    Unopened(OpenFault),
    /// It can't be written. It holds a beginning of what was to be saved.
    Unwritten(WriteFault),
}

impl SaveFault {
    /// The exit status that says so.
    pub fn status(self) -> u8
        ensures { result ≡ save_status self }
    {
        match self {
            SaveFault::Unopened(fault) => fault.status(),
            SaveFault::Unwritten(fault) => fault.status(),
        }
    }
}

impl From<OpenFault> for SaveFault {
    ghost from_gives = { λ fault e. e ≡ errors.Unopened fault };

    fn from(fault: OpenFault) -> SaveFault {
        SaveFault::Unopened(fault)
    }
}

impl From<WriteFault> for SaveFault {
    ghost from_gives = { λ fault e. e ≡ errors.Unwritten fault };

    fn from(fault: WriteFault) -> SaveFault {
        SaveFault::Unwritten(fault)
    }
}

impl fmt::Display for SaveFault {
    ghost output = { λ fault. Some (save_fault_text fault) };

    fn fmt<W: fmt::Write>(&self, f: &mut fmt::Formatter<W>) -> fmt::Result {
        match self {
            SaveFault::Unopened(fault) => fault.fmt(f),
            SaveFault::Unwritten(fault) => fault.fmt(f),
        }
    }
}

impl Error for SaveFault {}
