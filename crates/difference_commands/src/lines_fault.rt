//! Why lines `KEY HEX` leave no records.
ghost use Rattle.std.specs.Prelude.{◌≡◌};
ghost use Rattle.difference_commands.specs.Faults.{lines_status};
ghost use Rattle.difference_commands.specs.declared.lines_fault.LinesFault.TheVariants as faults;

use crate::line_fault::LineFault;
use console::{Decimal, NO_MEMORY};
use std::alloc::AllocError;
use thiserror::Error;

/// Why lines `KEY HEX` leave no records. Standard error shows these names, which are this repository's own.
#[derive(Clone, Copy, PartialEq, Eq, Debug, Error)]
pub enum LinesFault {
    /// This is the first faulty line.
    #[error("line {line}: {fault}", line = Decimal(*.number))]
    Line {
        /// The line's number, from 1. Empty lines count.
        number: u64,
        /// What is wrong with it.
        fault: LineFault,
    },
    /// Memory was refused.
    #[error("no memory")]
    NoMemory,
}

impl LinesFault {
    /// The exit status that says so.
    pub fn status(self) -> u8
        ensures { result ≡ lines_status self }
    {
        match self {
            LinesFault::Line { fault, .. } => fault.status(),
            LinesFault::NoMemory => NO_MEMORY,
        }
    }
}

impl From<AllocError> for LinesFault {
    ghost from_gives = { λ _ fault. fault ≡ faults.NoMemory };

    fn from(_refused: AllocError) -> LinesFault {
        LinesFault::NoMemory
    }
}
