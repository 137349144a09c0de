//! The run of the command, to the exit status.
ghost use Rattle.std.specs.Prelude.{◌≡◌, IfErr, IfOk, IfSome, option_map};
ghost use Rattle.difference_commands.specs.Faults.{status_of};
ghost use Rattle.difference_commands.specs.Outcomes.{AreTextsOf, IsFault, IsFinish, IsStatusOf, OfInputs, SavesSliceOf};

use crate::command::ChangesCommand;
use crate::fault::ChangesFault;
use crate::making::texts_of;
use crate::told::Told;
use cid::Digest;
use console::{Files, done, read_all, tell, unsaved, unwritten, write_whole};
use std::alloc::Global;
use std::io::{Read, Write};

/// Tells what two files differ by, or says on standard error why not, and answers the exit status. Both are read before one is
/// judged. Where `blocks` names a file and `command` wants blocks, these are saved in it, before a line is written.
///
/// At 0 the lines of the difference of what both say were written; at 1 the first fault of them is told, and no file was saved
/// and nothing written. At 3 memory was refused, and at 4 reading, saving or writing failed; a file that wasn't saved is told
/// with its name, and then nothing was written.
#[tactic(auto, using(crate::proofs::Endings::fault_ends))]
pub fn run<D: Digest, F: Files, R: Read, S: Read, W: Write, X: Write>(
    command: ChangesCommand,
    alloc: Global,
    old: &mut R,
    new: &mut S,
    files: &F,
    blocks: Option<&str>,
    out: &mut W,
    err: &mut X,
) -> u8
    ensures status { IsStatusOf D.digest_of command (R.remaining old.old) (S.remaining new.old)
        (W.contents out.old) (W.contents out.new) result }
    ensures saved { result ≡ 0 → IfSome (option_map (λ name. name.now) blocks.entry)
        (λ name. OfInputs (R.remaining old.old) (S.remaining new.old)
        (λ xs ys. SavesSliceOf D.digest_of command xs ys (F.saved files.now name))) }
    ensures quiet { result ≡ 0 → err.new ≡ err.old }
{
    match texts_read::<D, R, S>(command, alloc, old, new) {
        Ok(told) => finish(&told, files, blocks, out, err),
        Err(fault) => failed(fault, err),
    }
}

/// What is told of the files that two readers still give.
#[tactic(auto, using(crate::proofs::Endings::texts_known, crate::proofs::Endings::fault_known, crate::proofs::Endings::unread_old, crate::proofs::Endings::unread_new))]
fn texts_read<D: Digest, R: Read, S: Read>(
    command: ChangesCommand,
    alloc: Global,
    old: &mut R,
    new: &mut S,
) -> Result<Told, ChangesFault>
    ensures texts { IfOk result (λ t. OfInputs (R.remaining old.old) (S.remaining new.old)
        (λ xs ys. AreTextsOf D.digest_of command xs ys
        t.lines.items (option_map (λ bytes. bytes.items) t.slice))) }
    ensures fault { IfErr result (λ fault. OfInputs (R.remaining old.old) (S.remaining new.old)
        (λ xs ys. IsFault D.digest_of command xs ys fault)) }
{
    let before = match read_all(alloc, old) {
        Ok(file) => file,
        Err(fault) => return Err(ChangesFault::OldUnread(fault)),
    };
    let after = match read_all(alloc, new) {
        Ok(file) => file,
        Err(fault) => return Err(ChangesFault::NewUnread(fault)),
    };
    texts_of::<D, Global>(command, alloc, &before, &after)
}

/// Saves the slice, where there is one and a file is named for it, writes the lines, and answers the status.
fn finish<F: Files, W: Write, X: Write>(
    told: &Told,
    files: &F,
    blocks: Option<&str>,
    out: &mut W,
    err: &mut X,
) -> u8
    ensures ended { IsFinish told.now.lines.items
        (W.contents out.old) (W.contents out.new) result }
    ensures saved { result ≡ 0 → IfSome (option_map (λ name. name.now) blocks.entry)
        (λ name. IfSome (option_map (λ bytes. bytes.items) told.now.slice)
        (F.saved files.now name)) }
    ensures quiet { result ≡ 0 → err.new ≡ err.old }
{
    let Some(name) = blocks else {
        return write_lines(&told.lines, out, err);
    };
    let Some(slice) = &told.slice else {
        return write_lines(&told.lines, out, err);
    };
    save_and_write(name, slice, &told.lines, files, out, err)
}

/// Saves a slice in the file of this name, writes the lines, and answers the status.
#[tactic(auto, using(crate::proofs::Endings::finished_unsaved, crate::proofs::Endings::unsaved_ends))]
fn save_and_write<F: Files, W: Write, X: Write>(
    name: &str,
    slice: &[u8],
    lines: &[u8],
    files: &F,
    out: &mut W,
    err: &mut X,
) -> u8
    ensures ended { IsFinish lines.now (W.contents out.old) (W.contents out.new) result }
    ensures saved { result ≡ 0 → F.saved files.now name.now slice.now }
    ensures quiet { result ≡ 0 → err.new ≡ err.old }
{
    match files.save(name, slice) {
        Ok(()) => write_lines(lines, out, err),
        Err(fault) => unsaved(name, fault, err),
    }
}

/// Writes the lines, and answers the status.
#[tactic(auto, using(crate::proofs::Endings::finished_whole, crate::proofs::Endings::finished_cut, crate::proofs::Endings::unwritten_ends))]
fn write_lines<W: Write, X: Write>(lines: &[u8], out: &mut W, err: &mut X) -> u8
    ensures ended { IsFinish lines.now (W.contents out.old) (W.contents out.new) result }
    ensures quiet { result ≡ 0 → err.new ≡ err.old }
{
    match write_whole(out, lines) {
        Ok(()) => done(out, err),
        Err(fault) => unwritten(fault, err),
    }
}

/// Tells a fault, and answers its status.
fn failed<X: Write>(fault: ChangesFault, err: &mut X) -> u8
    ensures { result ≡ status_of fault }
{
    tell(&fault, err);
    fault.status()
}
