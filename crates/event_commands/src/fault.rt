//! Why a command writes no text.
ghost use Rattle.std.specs.Prelude.{◌≡◌, ◌≤◌, Some};
ghost use Rattle.event_commands.specs.declared.fault.MessageFault.TheVariants as errors;
ghost use Rattle.event_commands.specs.Faults.{of_read, status_of};
ghost use Rattle.event_commands.specs.Names.{fault_text};
ghost use Rattle.repository_commands.specs.declared.fault.TextFault.TheVariants as texts;

use crate::names::{EventName, UntoldName};
use cid::Digest;
use commit_events::EventFault;
use console::{Decimal, FAULTY, NO_MEMORY, ReadFault};
use event_writing::UntoldFault;
use repository_commands::TextFault;
use std::alloc::AllocError;
use std::error::Error;
use std::fmt;

/// Why there is no text. Nothing was written. Standard error shows these names, which are this repository's own.
#[derive(Drop)]
#[derive_where(Debug)]
pub enum MessageFault<D: Digest> {
    /// What the commands on a repository tell too: a word that is none, a line of the input, memory, or a device.
    Text(TextFault<D>),
    /// No message tells of the batch.
    Untold(UntoldFault),
    /// A message isn't true.
    Message {
        /// Its number in the input, from 1.
        number: u64,
        /// Why it isn't taken.
        fault: EventFault,
    },
}

impl<D: Digest> MessageFault<D> {
    /// The exit status that says so.
    pub fn status(&self) -> u8
        ensures status { result ≡ status_of self.now }
        ensures failed { 1 ≤ result }
    {
        match self {
            MessageFault::Text(fault) => fault.status(),
            MessageFault::Untold(UntoldFault::NoMemory) => NO_MEMORY,
            MessageFault::Message {
                fault: EventFault::NoMemory,
                ..
            } => NO_MEMORY,
            _ => FAULTY,
        }
    }
}

/// Writes the fault's name, and where it is one of a message the number of that before it. A fault inside it stands in
/// parentheses.
impl<D: Digest> fmt::Display for MessageFault<D> {
    ghost output = { λ fault. Some (fault_text fault) };

    fn fmt<W: fmt::Write>(&self, f: &mut fmt::Formatter<W>) -> fmt::Result {
        match self {
            MessageFault::Text(fault) => fault.fmt(f),
            MessageFault::Untold(fault) => UntoldName(fault).fmt(f),
            MessageFault::Message { number, fault } => {
                let number = Decimal(*number);
                let name = EventName(fault);
                write!(f, "message {number}: {name}")
            }
        }
    }
}

impl<D: Digest> Error for MessageFault<D> {}

impl<D: Digest> From<AllocError> for MessageFault<D> {
    ghost from_gives = { λ _ e. e ≡ errors.Text texts.NoMemory };

    fn from(_refused: AllocError) -> MessageFault<D> {
        MessageFault::Text(TextFault::NoMemory)
    }
}

impl<D: Digest> From<ReadFault> for MessageFault<D> {
    ghost from_gives = { λ f e. e ≡ of_read f };

    fn from(fault: ReadFault) -> MessageFault<D> {
        match fault {
            ReadFault::NoMemory => MessageFault::Text(TextFault::NoMemory),
            ReadFault::Failed => MessageFault::Text(TextFault::ReadFailed),
        }
    }
}
