//! The run of a command on messages, to the exit status.
ghost use Rattle.std.specs.Prelude.{◌≡◌, ◌⊎◌, List, ℕ, Option, IfErr, OnOk};
ghost use Rattle.event_commands.specs.Commands.{reasons_of, texts_of, HasFaultyWord};
ghost use Rattle.event_commands.specs.Faults.{command_status, EndsEarly};
ghost use Rattle.event_commands.specs.Outcomes.{HasReason, IsFaulty, IsOutcome, IsStatusOf, Texts};

use crate::checking::check_event_text;
use crate::command::EventCommand;
use crate::fault::MessageFault;
use crate::writing::event_text;
use cid::Digest;
use console::{CommandFault, DONE, IO_FAILED, done, tell};
use std::alloc::Global;
use std::io::{Read, Write};

/// Does the command, or says on standard error why not, and answers the exit status.
///
/// At 0 the text of the input was written, and at 1, where a word, a line, a batch or a message is at fault, nothing. At 3
/// memory was refused, and at 4 reading or writing failed.
pub fn run<D: Digest, R: Read, W: Write, X: Write>(
    command: EventCommand<'_>,
    alloc: Global,
    input: &mut R,
    out: &mut W,
    err: &mut X,
) -> u8
    ensures status { IsStatusOf (texts_of D.digest_of command.entry) (R.remaining input.old)
        (W.contents out.old) (W.contents out.new) result }

    // Where there is a fault of a word, of the input, or of what comes of it, or a line is refused.
    ensures faulty { result ≡ 1 → IsFaulty {D = D} (texts_of D.digest_of command.entry)
        (reasons_of D.digest_of command.entry) (R.remaining input.old) }

    // A faulty word is told, before the input is read, and nothing is told where all went well.
    ensures told { HasFaultyWord command.entry → (result ≡ 1) ⊎ (result ≡ 3) }
    ensures unread { HasFaultyWord command.entry → input.new ≡ input.old }
    ensures quiet { result ≡ 0 → err.new ≡ err.old }
{
    let ended = write_text::<D, R, W>(command, alloc, input, out);
    status_of(ended, out, err)
}

/// Writes the text of the command.
fn write_text<D: Digest, R: Read, W: Write>(
    command: EventCommand<'_>,
    alloc: Global,
    input: &mut R,
    out: &mut W,
) -> Result<(), CommandFault<MessageFault<D>>>
    ensures outcome { IsOutcome (texts_of D.digest_of command.entry) (R.remaining input.old)
        (W.contents out.old) (W.contents out.new) result }
    ensures reason { HasReason (reasons_of D.digest_of command.entry)
        (R.remaining input.old) result }
    ensures told { HasFaultyWord command.entry → EndsEarly result }
    ensures unread { HasFaultyWord command.entry → input.new ≡ input.old }
{
    match command {
        EventCommand::Write {
            subject,
            words,
            form,
        } => { event_text(alloc, subject, form, &words, input, out) }
        EventCommand::Check { previous, form } => {
            check_event_text(alloc, form, previous.as_bytes(), input, out)
        }
    }
}

/// The exit status of a command that ended so: what was written reaches the writer's end, and a fault is told on standard
/// error.
fn status_of<D: Digest, W: Write, X: Write>(
    ended: Result<(), CommandFault<MessageFault<D>>>,
    out: &mut W,
    err: &mut X,
) -> u8
    ensures told { IfErr ended (λ e. result ≡ command_status e) }
    ensures done { OnOk ended ((result ≡ DONE) ⊎ (result ≡ IO_FAILED)) }
    ensures quiet { result ≡ DONE → err.new ≡ err.old }
    ensures status { (text : Texts) (input old : Option (List ℕ))
        → IsOutcome text input old (W.contents out.old) ended
        → IsStatusOf text input old (W.contents out.new) result }
{
    match ended {
        Ok(()) => done(out, err),
        Err(fault) => {
            tell(&fault, err);
            match fault {
                CommandFault::NoText(fault) => fault.status(),
                CommandFault::Unwritten(fault) => fault.status(),
            }
        }
    }
}
