//! The run of a command on one repository, to the exit status.
ghost use Rattle.std.specs.Prelude.{◌≡◌, ◌⊎◌, IfOk, IsErr};
ghost use Rattle.batches.specs.Values.{stamp_of};
ghost use Rattle.repository_commands.specs.Commands.{own_stamp, reasons_of, stamp_of_words, texts_of, HasFaultyWord};
ghost use Rattle.repository_commands.specs.Faults.{EndsEarly};
ghost use Rattle.repository_commands.specs.Outcomes.{HasReason, IsFaulty, IsOutcome, IsStatusOf};
ghost use Rattle.repository_commands.specs.Refusals.{IsRefusedIn};
ghost use Rattle.repository_commands.specs.Texts.{car_text as car_text_of, key_check, prove_text as prove_text_of, signed_car_text as signed_car_text_of, signing_check, stamp_check};

use crate::car::car_text;
use crate::ending::status_of;
use crate::fault::TextFault;
use crate::proving::prove_text;
use crate::signing::signed_car_text;
use crate::verifying::verify_text;
use crate::words::{DID, REV, RepositoryCommand};
use batches::Stamp;
use cid::Digest;
use console::CommandFault;
use record_forms::Form;
use std::alloc::{AllocError, Global};
use std::io::{Read, Write};

/// Does the command, or says on standard error why not, and answers the exit status.
///
/// At 0 the text of the input was written, and at 1, where a word, a line or what comes of them is at fault, nothing. At 3
/// memory was refused, and at 4 reading or writing failed.
pub fn run<D: Digest, R: Read, W: Write, X: Write>(
    command: RepositoryCommand<'_>,
    alloc: Global,
    input: &mut R,
    out: &mut W,
    err: &mut X,
) -> u8
    ensures status { IsStatusOf (texts_of D.digest_of command.entry) (R.remaining input.old)
        (W.contents out.old) (W.contents out.new) result }

    // Where there is a fault of a word or of the input, or a line is refused.
    ensures faulty { result ≡ 1 → IsFaulty {D = D} {A = Global} (texts_of D.digest_of command.entry)
        (reasons_of D.digest_of command.entry) (R.remaining input.old) }

    // A faulty word is told, before the input is read, and nothing is told where all went well.
    ensures told { HasFaultyWord command.entry → (result ≡ 1) ⊎ (result ≡ 3) }
    ensures unread { HasFaultyWord command.entry → input.new ≡ input.old }
    ensures quiet { result ≡ 0 → err.new ≡ err.old }
{
    let ended = write_text::<D, R, W>(command, alloc, input, out);
    status_of(ended, out, err)
}

/// Writes the text of the command.
fn write_text<D: Digest, R: Read, W: Write>(
    command: RepositoryCommand<'_>,
    alloc: Global,
    input: &mut R,
    out: &mut W,
) -> Result<(), CommandFault<TextFault<D>>>
    ensures outcome { IsOutcome (texts_of D.digest_of command.entry) (R.remaining input.old)
        (W.contents out.old) (W.contents out.new) result }
    ensures reason { HasReason (reasons_of D.digest_of command.entry)
        (R.remaining input.old) result }
    ensures told { HasFaultyWord command.entry → EndsEarly result }
    ensures unread { HasFaultyWord command.entry → input.new ≡ input.old }
{
    match command {
        RepositoryCommand::Car { did, rev, form } => {
            write_car(did, rev, form, alloc, input, out)
        }
        RepositoryCommand::SignedCar {
            did,
            rev,
            sig,
            form,
        } => write_signed_car(did, rev, sig, form, alloc, input, out),
        RepositoryCommand::Prove { key, form } => write_proof(key, form, alloc, input, out),
        RepositoryCommand::Verify { root, key } => {
            verify_text(alloc, root.as_bytes(), key.as_bytes(), input, out)
        }
    }
}

/// Writes the repository of the lines, under the stamp of these words.
fn write_car<D: Digest, R: Read, W: Write>(
    did: &str,
    rev: &str,
    form: Form,
    alloc: Global,
    input: &mut R,
    out: &mut W,
) -> Result<(), CommandFault<TextFault<D>>>
    ensures outcome { IsOutcome (car_text_of D.digest_of form (stamp_of_words did.now rev.now))
        (R.remaining input.old) (W.contents out.old) (W.contents out.new) result }
    ensures reason { HasReason (IsRefusedIn D.digest_of form (stamp_of_words did.now rev.now))
        (R.remaining input.old) result }
    ensures told { IsErr (stamp_check (stamp_of_words did.now rev.now)) → EndsEarly result }
    ensures unread { IsErr (stamp_check (stamp_of_words did.now rev.now)) → input.new ≡ input.old }
{
    match stamp_of_words(did, rev, alloc) {
        Ok(stamp) => car_text(alloc, form, &stamp, input, out),
        Err(_) => Err(CommandFault::NoText(TextFault::NoMemory)),
    }
}

/// Writes the repository of the lines, under the stamp of these words and with this signature of its commit.
fn write_signed_car<D: Digest, R: Read, W: Write>(
    did: &str,
    rev: &str,
    sig: &str,
    form: Form,
    alloc: Global,
    input: &mut R,
    out: &mut W,
) -> Result<(), CommandFault<TextFault<D>>>
    ensures outcome { IsOutcome
        (signed_car_text_of D.digest_of form (stamp_of_words did.now rev.now) sig.now)
        (R.remaining input.old) (W.contents out.old) (W.contents out.new) result }
    ensures reason { HasReason (IsRefusedIn D.digest_of form (stamp_of_words did.now rev.now))
        (R.remaining input.old) result }
    ensures told { IsErr (signing_check (stamp_of_words did.now rev.now) sig.now)
        → EndsEarly result }
    ensures unread { IsErr (signing_check (stamp_of_words did.now rev.now) sig.now)
        → input.new ≡ input.old }
{
    match stamp_of_words(did, rev, alloc) {
        Ok(stamp) => signed_car_text(alloc, form, &stamp, sig.as_bytes(), input, out),
        Err(_) => Err(CommandFault::NoText(TextFault::NoMemory)),
    }
}

/// Writes the proof of a key in the repository of the lines, under the program's own stamp.
fn write_proof<D: Digest, R: Read, W: Write>(
    key: &str,
    form: Form,
    alloc: Global,
    input: &mut R,
    out: &mut W,
) -> Result<(), CommandFault<TextFault<D>>>
    ensures outcome { IsOutcome (prove_text_of D.digest_of form own_stamp key.now)
        (R.remaining input.old) (W.contents out.old) (W.contents out.new) result }
    ensures reason { HasReason (IsRefusedIn D.digest_of form own_stamp)
        (R.remaining input.old) result }
    ensures told { IsErr (key_check key.now) → EndsEarly result }
    ensures unread { IsErr (key_check key.now) → input.new ≡ input.old }
{
    match stamp_of_words(DID, REV, alloc) {
        Ok(stamp) => prove_text(alloc, form, &stamp, key.as_bytes(), input, out),
        Err(_) => Err(CommandFault::NoText(TextFault::NoMemory)),
    }
}

/// The stamp of these words.
pub fn stamp_of_words(did: &str, rev: &str, alloc: Global) -> Result<Stamp, AllocError>
    ensures { IfOk result (λ stamp. stamp_of stamp ≡ stamp_of_words did.now rev.now) }
{
    Ok(Stamp {
        did: Vec::from_slice(alloc, did.as_bytes())?,
        rev: Vec::from_slice(alloc, rev.as_bytes())?,
    })
}
