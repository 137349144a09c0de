//! The command on the two files that its words name.
ghost use Rattle.std.specs.Prelude.{◌≡◌, None, IfSome, option_map};
ghost use Rattle.difference_commands.specs.Outcomes.{IsEndOf, IsSavedBy, IsStatusOf, OfInputs, SavesSliceOf};
ghost use Rattle.difference_commands.specs.Words.{command_of};

use crate::command::ChangesCommand;
use crate::running::run;
use crate::words::ChangesWords;
use cid::Digest;
use console::{FAULTY, Files, tell, unopened};
use std::alloc::Global;
use std::io::{Read, Write};

/// Tells what the two files differ by that the words name, or says on standard error why not, and answers the exit status.
///
/// A word that is no form's is told as `BadForm`, at status 1, before a file is opened. The old file is opened before the new
/// one, and both before one is read; one that can't be opened is told with its name, at status 3 or 4. Then the command ends as
/// of `run`; the file that the words name for blocks may be one of these two.
#[tactic(auto, using(crate::proofs::Endings::end_of_status, crate::proofs::Endings::end_formless, crate::proofs::Endings::saved_by_words, crate::proofs::Endings::saved_formless))]
pub fn run_on_files<D: Digest, F: Files, W: Write, X: Write>(
    words: ChangesWords<'_>,
    alloc: Global,
    files: &F,
    out: &mut W,
    err: &mut X,
) -> u8
    ensures status { IsEndOf D.digest_of (command_of words.entry)
        (F.holds files.now words.entry.old.now) (F.holds files.now words.entry.new.now)
        (W.contents out.old) (W.contents out.new) result }
    ensures saved { result ≡ 0 → IsSavedBy D.digest_of (command_of words.entry)
        (F.holds files.now words.entry.old.now) (F.holds files.now words.entry.new.now)
        (option_map (λ name. name.now) words.entry.blocks) (F.saved files.now) }
    ensures told { command_of words.entry ≡ None → result ≡ 1 }
    ensures quiet { result ≡ 0 → err.new ≡ err.old }
{
    match words.command() {
        Some(command) => run_on_both::<D, F, W, X>(command, &words, alloc, files, out, err),
        None => bad_form(err),
    }
}

/// Tells that the word for the form is none, and answers the status.
fn bad_form<X: Write>(err: &mut X) -> u8
    ensures { result ≡ 1 }
{
    tell(&"BadForm", err);
    FAULTY
}

/// Does the command on the files that the words name, the old one first.
#[tactic(auto, using(crate::proofs::Endings::unopened_status, crate::proofs::Endings::unopened_ends))]
fn run_on_both<D: Digest, F: Files, W: Write, X: Write>(
    command: ChangesCommand,
    words: &ChangesWords<'_>,
    alloc: Global,
    files: &F,
    out: &mut W,
    err: &mut X,
) -> u8
    ensures status { IsStatusOf D.digest_of command
        (F.holds files.now words.now.old.now) (F.holds files.now words.now.new.now)
        (W.contents out.old) (W.contents out.new) result }
    ensures saved { result ≡ 0 → IfSome (option_map (λ name. name.now) words.now.blocks)
        (λ name. OfInputs
        (F.holds files.now words.now.old.now) (F.holds files.now words.now.new.now)
        (λ xs ys. SavesSliceOf D.digest_of command xs ys (F.saved files.now name))) }
    ensures quiet { result ≡ 0 → err.new ≡ err.old }
{
    match files.open(words.old) {
        Ok(mut file) => {
            run_on_new::<D, F, F::Reader, W, X>(command, &mut file, words, alloc, files, out, err)
        }
        Err(fault) => unopened(words.old, fault, err),
    }
}

/// Does the command on an old file that is open, and on the new one that the words name.
#[tactic(auto, using(crate::proofs::Endings::unopened_status, crate::proofs::Endings::unopened_ends))]
fn run_on_new<D: Digest, F: Files, R: Read, W: Write, X: Write>(
    command: ChangesCommand,
    old: &mut R,
    words: &ChangesWords<'_>,
    alloc: Global,
    files: &F,
    out: &mut W,
    err: &mut X,
) -> u8
    ensures status { IsStatusOf D.digest_of command
        (R.remaining old.old) (F.holds files.now words.now.new.now)
        (W.contents out.old) (W.contents out.new) result }
    ensures saved { result ≡ 0 → IfSome (option_map (λ name. name.now) words.now.blocks)
        (λ name. OfInputs (R.remaining old.old) (F.holds files.now words.now.new.now)
        (λ xs ys. SavesSliceOf D.digest_of command xs ys (F.saved files.now name))) }
    ensures quiet { result ≡ 0 → err.new ≡ err.old }
{
    match files.open(words.new) {
        Ok(mut file) => run::<D, F, R, F::Reader, W, X>(
            command,
            alloc,
            old,
            &mut file,
            files,
            words.blocks,
            out,
            err,
        ),
        Err(fault) => unopened(words.new, fault, err),
    }
}
