//! The run of a command on a change, to the exit status.
ghost use Rattle.std.specs.Prelude.{◌≡◌, ◌⊎◌};
ghost use Rattle.repository_commands.specs.Faults.{EndsEarly};
ghost use Rattle.repository_commands.specs.Outcomes.{HasReason, IsFaulty, IsOutcome, IsStatusOf};
ghost use Rattle.change_commands.specs.Commands.{reasons_of, texts_of, HasFaultyWord};

use crate::proving::prove_change_text;
use crate::verifying::verify_change_text;
use crate::words::ChangeCommand;
use cid::Digest;
use console::CommandFault;
use repository_commands::{TextFault, status_of};
use std::alloc::Global;
use std::io::{Read, Write};

/// Does the command, or says on standard error why not, and answers the exit status.
///
/// At 0 the text of the input was written, and at 1, where a word, a line or what comes of them is at fault, nothing. At 3
/// memory was refused, and at 4 reading or writing failed.
pub fn run<D: Digest, R: Read, W: Write, X: Write>(
    command: ChangeCommand<'_>,
    alloc: Global,
    input: &mut R,
    out: &mut W,
    err: &mut X,
) -> u8
    ensures status { IsStatusOf (texts_of D.digest_of command.entry) (R.remaining input.old)
        (W.contents out.old) (W.contents out.new) result }

    // Where there is a fault of a word or of the input, or it isn't shown.
    ensures faulty { result ≡ 1 → IsFaulty {D = D} {A = Global} (texts_of D.digest_of command.entry)
        (reasons_of D.digest_of command.entry) (R.remaining input.old) }

    // A faulty word is told, before the input is read, and nothing is told where all went well.
    ensures told { HasFaultyWord command.entry → (result ≡ 1) ⊎ (result ≡ 3) }
    ensures unread { HasFaultyWord command.entry → input.new ≡ input.old }
    ensures quiet { result ≡ 0 → err.new ≡ err.old }
{
    let ended = write_text::<D, R, W>(command, alloc, input, out);
    status_of(ended, out, err)
}

/// Writes the text of the command.
fn write_text<D: Digest, R: Read, W: Write>(
    command: ChangeCommand<'_>,
    alloc: Global,
    input: &mut R,
    out: &mut W,
) -> Result<(), CommandFault<TextFault<D>>>
    ensures outcome { IsOutcome (texts_of D.digest_of command.entry) (R.remaining input.old)
        (W.contents out.old) (W.contents out.new) result }
    ensures reason { HasReason (reasons_of D.digest_of command.entry)
        (R.remaining input.old) result }
    ensures told { HasFaultyWord command.entry → EndsEarly result }
    ensures unread { HasFaultyWord command.entry → input.new ≡ input.old }
{
    match command {
        ChangeCommand::Prove { direction, form } => {
            prove_change_text(alloc, direction, form, input, out)
        }
        ChangeCommand::Verify {
            direction,
            before,
            after,
        } => verify_change_text(
            alloc,
            direction,
            before.as_bytes(),
            after.as_bytes(),
            input,
            out,
        ),
    }
}
