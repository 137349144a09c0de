//! Why a message isn't taken.

ghost use Rattle.std.specs.Prelude.{◌≡◌};
ghost use Rattle.commit_events.specs.declared.fault.EventFault.TheVariants as errors;

use change_proofs::ChangeFault;
use event_blocks::BlocksFault;
use event_format::FormFault;
use std::alloc::{AllocError, AllocFailed};
use thiserror::Error;

/// Why a message isn't taken: the first of these, in this order. A place is that of an operation in the message, from 0. Want
/// of memory is always `NoMemory`, and never within another fault.
#[derive(Clone, Copy, PartialEq, Eq, Debug, Error)]
pub enum EventFault {
    /// It is no message: the first fault of its form.
    #[error("no message of a commit")]
    Form(FormFault),
    /// The operation at this place has the path of one before it.
    #[error("operation {0} has the path of another")]
    DoubledPath(usize),
    /// The repository had another root before, as where a message between is missing.
    #[error("the repository had another root before")]
    OtherPrevious,
    /// Its blocks aren't what it tells of: the first fault in them.
    #[error("the blocks are not what the message tells of")]
    Blocks(BlocksFault),
    /// The operations undone on its blocks don't lead to the root before. `OtherValue` has the place of an operation in the
    /// message: of those at fault the one with the first path.
    #[error("the blocks do not show the operations")]
    Change(ChangeFault),
    /// Memory was refused. This says nothing of the message.
    #[error("out of memory")]
    NoMemory,
}

impl From<AllocError> for EventFault {
    ghost from_gives = { λ _ e. e ≡ errors.NoMemory };

    fn from(_refused: AllocError) -> EventFault {
        EventFault::NoMemory
    }
}

impl<T: Drop> From<AllocFailed<T>> for EventFault {
    ghost from_gives = { λ _ e. e ≡ errors.NoMemory };

    fn from(_refused: AllocFailed<T>) -> EventFault {
        EventFault::NoMemory
    }
}
