//! Why there is no report.
ghost use Rattle.std.specs.Prelude.{◌≡◌, ◌≤◌};
ghost use Rattle.run_command.specs.Faults.{of_read, of_script, status_of};
ghost use Rattle.run_command.specs.declared.fault.RunFault.TheVariants as errors;

use crate::script::ScriptFault;
use console::{Decimal, FAULTY, IO_FAILED, NO_MEMORY, ReadFault};
use std::alloc::AllocError;
use thiserror::Error;

/// Why there is no report. Nothing was written. Standard error shows these names, which are this repository's own.
#[derive(Clone, Copy, PartialEq, Eq, Debug, Error)]
pub enum RunFault {
    /// The DID isn't one (W3C DID Core, DID syntax), or has more than 2,048 bytes. Nothing was read.
    #[error("BadDid")]
    BadDid,
    /// The line of this number, from 1, is the first that is no line of a script. Empty lines count. Nothing was done.
    #[error("line {line}: BadScript", line = Decimal(*.0 as u64))]
    BadScript(usize),
    /// The host didn't close.
    #[error("Uneven")]
    Uneven,
    /// An allocation was refused.
    #[error("no memory")]
    NoMemory,
    /// The input can't be read, or no random numbers can be had.
    #[error("read failed")]
    ReadFailed,
}

impl RunFault {
    /// The exit status that says so.
    pub fn status(&self) -> u8
        ensures status { result ≡ status_of self.now }
        ensures failed { 1 ≤ result }
    {
        match self {
            RunFault::BadDid | RunFault::BadScript(_) | RunFault::Uneven => FAULTY,
            RunFault::NoMemory => NO_MEMORY,
            RunFault::ReadFailed => IO_FAILED,
        }
    }
}

impl From<AllocError> for RunFault {
    ghost from_gives = { λ _ e. e ≡ errors.NoMemory };

    fn from(_refused: AllocError) -> RunFault {
        RunFault::NoMemory
    }
}

impl From<ReadFault> for RunFault {
    ghost from_gives = { λ f e. e ≡ of_read f };

    fn from(fault: ReadFault) -> RunFault {
        match fault {
            ReadFault::NoMemory => RunFault::NoMemory,
            ReadFault::Failed => RunFault::ReadFailed,
        }
    }
}

impl From<ScriptFault> for RunFault {
    ghost from_gives = { λ f e. e ≡ of_script f };

    fn from(fault: ScriptFault) -> RunFault {
        match fault {
            ScriptFault::BadScript(number) => RunFault::BadScript(number),
            ScriptFault::NoMemory => RunFault::NoMemory,
        }
    }
}
