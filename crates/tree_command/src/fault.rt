//! Why there is no listing of a tree.
ghost use Rattle.std.specs.Prelude.{◌≡◌};
ghost use Rattle.tree_command.specs.declared.fault.TreeFault.TheVariants as errors;
ghost use Rattle.tree_command.specs.Fault.{of_read, status_of};

use console::{Decimal, FAULTY, IO_FAILED, NO_MEMORY, ReadFault};
use std::alloc::AllocError;
use thiserror::Error;

/// What is wrong with a line `KEY CID`. Standard error shows these names, which are this repository's own.
#[derive(Clone, Copy, PartialEq, Eq, Debug, Error)]
pub enum LineFault {
    /// There is no space.
    #[error("BadLine")]
    BadLine,
    /// The key, which is all before the last space, isn't one that is taken (`Keys`).
    #[error("BadKey")]
    BadKey,
    /// What follows the last space isn't the text of a CID of a block of this host.
    #[error("BadCid")]
    BadCid,
}

/// Why there is no listing of a tree. Standard error shows these names, which are this repository's own.
#[derive(Clone, Copy, PartialEq, Eq, Debug, Error)]
pub enum TreeFault {
    /// This line of the input is the first faulty one.
    #[error("line {line}: {fault}", line = Decimal(*.number))]
    Line {
        /// The line's number, from 1. Empty lines count.
        number: u64,
        /// What is wrong with it.
        fault: LineFault,
    },
    /// Two different nodes of the tree have one CID.
    #[error("Clash")]
    Clash,
    /// An allocation was refused.
    #[error("no memory")]
    NoMemory,
    /// The input can't be read.
    #[error("read failed")]
    ReadFailed,
}

impl TreeFault {
    /// The exit status that says so.
    pub fn status(self) -> u8
        ensures { result ≡ status_of self }
    {
        match self {
            TreeFault::Line { .. } | TreeFault::Clash => FAULTY,
            TreeFault::NoMemory => NO_MEMORY,
            TreeFault::ReadFailed => IO_FAILED,
        }
    }
}

impl From<AllocError> for TreeFault {
    ghost from_gives = { λ _ e. e ≡ errors.NoMemory };

    fn from(_refused: AllocError) -> TreeFault {
        TreeFault::NoMemory
    }
}

impl From<ReadFault> for TreeFault {
    ghost from_gives = { λ f e. e ≡ of_read f };

    fn from(fault: ReadFault) -> TreeFault {
        match fault {
            ReadFault::NoMemory => TreeFault::NoMemory,
            ReadFault::Failed => TreeFault::ReadFailed,
        }
    }
}
