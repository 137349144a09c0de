//! The run of the command, to the exit status.
ghost use Rattle.std.specs.Prelude.{◌≡◌, false};
ghost use Rattle.spec.specs.Stamps.{is_did};
ghost use Rattle.run_command.specs.Faults.{end_status};
ghost use Rattle.run_command.specs.Outcomes.{IsStatusAfter, IsStatusOf};

use crate::fault::RunFault;
use crate::text::run_text;
use crate::words::RunCommand;
use cid::Digest;
use console::{CommandFault, done, tell};
use std::alloc::Global;
use std::io::{Read, Write};
use std::random::RandomSource;
use std::sync::Wait;
use std::thread::Threads;

/// Does the command, or says on standard error why not, and answers the exit status.
///
/// At 0 the report was written. At 1 the DID or a line is faulty, or the host didn't close, and nothing was written. At 3
/// memory was refused, and at 4 reading or writing failed, or no random numbers could be had.
pub fn run<
    D: Digest + Send + Sync,
    T: Threads + Wait + RandomSource + Sync,
    R: Read,
    W: Write,
    X: Write,
>(command: RunCommand<'_>, rt: &T, alloc: Global, input: &mut R, out: &mut W, err: &mut X) -> u8
    ensures status { IsStatusOf D D.digest_of command.entry.settings command.entry.did.now
        (R.remaining input.old) (W.contents out.old) (W.contents out.new) result }

    // A faulty DID is told before the input is read.
    ensures unread { is_did command.entry.did.now ≡ false → input.new ≡ input.old }
    ensures quiet { result ≡ 0 → err.new ≡ err.old }
{
    let RunCommand { settings, did } = command;
    let ended = run_text::<D, T, R, W>(rt, alloc, &settings, did.as_bytes(), input, out);
    status_of(ended, out, err)
}

/// The exit status of a run that ended so: what was written reaches the writer's end, and a fault is told on standard
/// error.
fn status_of<W: Write, X: Write>(
    ended: Result<(), CommandFault<RunFault>>,
    out: &mut W,
    err: &mut X,
) -> u8
    ensures status { IsStatusAfter ended (W.contents out.old) (W.contents out.new) result }
    ensures quiet { result ≡ 0 → err.new ≡ err.old }
{
    match ended {
        Ok(()) => done(out, err),
        Err(fault) => failed(&fault, err),
    }
}

/// Tells a fault, and answers its status.
fn failed<X: Write>(fault: &CommandFault<RunFault>, err: &mut X) -> u8
    ensures { result ≡ end_status fault.now }
{
    tell(fault, err);
    match fault {
        CommandFault::NoText(fault) => fault.status(),
        CommandFault::Unwritten(fault) => fault.status(),
    }
}
