//! Why a command wrote no text, or not all of it.
ghost use Rattle.std.specs.Prelude.{◌≡◌};
ghost use Rattle.console.specs.Faults.{IsWritten, shown};
ghost use Rattle.console.specs.declared.fault.CommandFault.TheVariants as errors;

use crate::writing::{WriteFault, write_whole};
use std::alloc::Allocator;
use std::error::Error;
use std::fmt;
use std::io::Write;

/// Why there is no text of a command, or not all of it.
#[derive(Clone, Copy, PartialEq, Eq, Debug, Drop)]
pub enum CommandFault<F> {
    /// There is none, for this reason. Nothing was written.
    NoText(F),
    /// It can't be written. A beginning of it may have been.
    Unwritten(WriteFault),
}

impl<F> From<WriteFault> for CommandFault<F> {
    ghost from_gives = { λ fault e. e ≡ errors.Unwritten fault };

    fn from(fault: WriteFault) -> CommandFault<F> {
        CommandFault::Unwritten(fault)
    }
}

impl<F: fmt::Display> fmt::Display for CommandFault<F> {
    ghost output = { shown F.output };

    fn fmt<W: fmt::Write>(&self, f: &mut fmt::Formatter<W>) -> fmt::Result {
        match self {
            CommandFault::NoText(fault) => fault.fmt(f),
            CommandFault::Unwritten(fault) => fault.fmt(f),
        }
    }
}

impl<F: Error> Error for CommandFault<F> {}

/// Writes the text that was made, if one was.
pub fn write_made<F, A: Allocator, W: Write>(
    made: Result<Vec<u8, A>, F>,
    out: &mut W,
) -> Result<(), CommandFault<F>>
    ensures { IsWritten (λ bytes. bytes.items) made
        (W.contents out.old) (W.contents out.new) result }
{
    match made {
        Ok(text) => Ok(write_whole(out, &text)?),
        Err(fault) => Err(CommandFault::NoText(fault)),
    }
}
