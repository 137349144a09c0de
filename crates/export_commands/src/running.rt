//! The run of a command on an export, to the exit status.

ghost use Rattle.std.specs.Prelude.{◌≡◌};
ghost use Rattle.export_commands.specs.Faults.{command_status};
ghost use Rattle.export_commands.specs.Outcomes.{IsStatusOf};

use crate::command::ExportCommand;
use crate::fault::ExportFault;
use crate::text::export_text;
use cid::Digest;
use console::{CommandFault, done, tell};
use std::alloc::Global;
use std::io::{Read, Write};

/// Tells what the command tells of the file, or says on standard error why not, and answers the exit status.
///
/// At 0 the text of the repository that the file is the export of was written; at 1 it is the export of none, whose first
/// fault is told, or of one of which a record has no JSON where that is asked for, and nothing was written. At 3 memory was
/// refused, and at 4 reading or writing failed.
pub fn run<D: Digest, R: Read, W: Write, X: Write>(
    command: ExportCommand,
    alloc: Global,
    input: &mut R,
    out: &mut W,
    err: &mut X,
) -> u8
    ensures status { IsStatusOf D.digest_of command (R.remaining input.old)
        (W.contents out.old) (W.contents out.new) result }
    ensures quiet { result ≡ 0 → err.new ≡ err.old }
{
    match export_text::<D, Global, R, W>(command, alloc, input, out) {
        Ok(()) => done(out, err),
        Err(fault) => failed(&fault, err),
    }
}

/// Tells a fault, and answers its status.
fn failed<X: Write>(fault: &CommandFault<ExportFault>, err: &mut X) -> u8
    ensures { result ≡ command_status fault.now }
{
    tell(fault, err);
    match fault {
        CommandFault::NoText(fault) => fault.status(),
        CommandFault::Unwritten(fault) => fault.status(),
    }
}
