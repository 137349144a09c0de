//! What is told of two files.
ghost use Rattle.std.specs.Prelude.{◌≡◌, true, IfOk, IfErr, option_map};
ghost use Rattle.spec.specs.NodeFormat.{is_ascending};
ghost use Rattle.difference.specs.Merged.{changes_told};
ghost use Rattle.difference_commands.specs.Files.{said_commit, said_pairs};
ghost use Rattle.difference_commands.specs.Slices.{coming};
ghost use Rattle.difference_commands.specs.Texts.{lines_text, slice_if};
ghost use Rattle.difference_commands.specs.Views.{pairs_in, records_in};
ghost use Rattle.difference_commands.specs.Outcomes.{AreTexts, AreTextsBetween, AreTextsOf, IsFault, IsFaultBetween};

use crate::command::{ChangesCommand, Values};
use crate::contents::{Contents, commit_of, contents_of};
use crate::entries::entries_of;
use crate::entry::Entry;
use crate::fault::ChangesFault;
use crate::slice::slice_of;
use crate::text::{lines_of, lines_with_records};
use crate::told::Told;
use crate::trees::{Compared, difference_of};
use cid::{Cid, Digest};
use difference::KeyDifference;
use std::alloc::{AllocError, Allocator};

/// What two files differ by: a line `change KEY BEFORE AFTER` for each key that doesn't have the same record in both, in the
/// order of the keys, with the text of the CID of its record in the old file and in the new one, or `-` where the file doesn't
/// have the key. With `Values::Records` two words more stand on the line, the bytes of these records in hexadecimal, or `-`.
///
/// Where blocks are wanted there is the slice of a CAR file beside it, for who has what the old file says: a section for each
/// node of the new tree that the old one lacks, and then one for the record of each key that differs, as far as the new file has
/// it. The root is the signed commit of the new file, and its section the first one, where that file is a CAR, and else the new
/// tree's root (CARv1; as a server sends a repository since a revision).
///
/// A file is a CAR, the export of a repository, or lines `KEY CID` or `KEY HEX`, of which those of one key count as the last
/// of them, and empty ones not at all. Where the form isn't told, a file whose second byte is 0xa2 is a CAR; else lines are
/// `KEY CID` where behind the first space of the first one a word begins with `bafy`. A file without lines has no keys
/// (CARv1; AT Protocol repository v3; the forms of the texts are this repository's own).
///
/// The old file is judged first, and then the new one (`ChangesFault::Old`, `ChangesFault::New`). `ChangesFault::Clash` comes
/// where two different nodes of their trees have one CID, and `ChangesFault::NoMemory` where memory was refused.
pub fn texts_of<D: Digest, A: Allocator + Copy>(
    command: ChangesCommand,
    alloc: A,
    old: &[u8],
    new: &[u8],
) -> Result<Told<A>, ChangesFault>
    ensures texts { IfOk result (λ t. AreTextsOf D.digest_of command old.now new.now
        t.lines.items (option_map (λ bytes. bytes.items) t.slice)) }
    ensures fault { IfErr result (IsFault D.digest_of command old.now new.now) }
{
    let before = match contents_of::<D, A>(command, alloc, old) {
        Ok(contents) => contents,
        Err(fault) => return Err(ChangesFault::Old(fault)),
    };
    let after = match contents_of::<D, A>(command, alloc, new) {
        Ok(contents) => contents,
        Err(fault) => return Err(ChangesFault::New(fault)),
    };
    texts_between::<D, A>(command, alloc, &before, &after)
}

/// What is told of what two files say.
fn texts_between<D: Digest, A: Allocator + Copy>(
    command: ChangesCommand,
    alloc: A,
    before: &Contents<'_, A>,
    after: &Contents<'_, A>,
) -> Result<Told<A>, ChangesFault>
    requires before { is_ascending (said_pairs D.digest_of before.now) ≡ true }
    requires after { is_ascending (said_pairs D.digest_of after.now) ≡ true }
    ensures texts { IfOk result (λ t. AreTextsBetween D.digest_of command before.now after.now
        t.lines.items (option_map (λ bytes. bytes.items) t.slice)) }
    ensures fault { IfErr result (IsFaultBetween D.digest_of
        (said_pairs D.digest_of before.now) (said_pairs D.digest_of after.now)) }
{
    let old = entries_of::<D, A>(alloc, before)?;
    let new = entries_of::<D, A>(alloc, after)?;
    texts_of_entries::<D, A>(command, alloc, after, &old, &new)
}

/// What is told of the entries of two files, of which the new one says this.
fn texts_of_entries<D: Digest, A: Allocator + Copy>(
    command: ChangesCommand,
    alloc: A,
    after: &Contents<'_, A>,
    old: &[(Entry<'_>, Cid)],
    new: &[(Entry<'_>, Cid)],
) -> Result<Told<A>, ChangesFault>
    requires old { is_ascending (pairs_in old.now) ≡ true }
    requires new { is_ascending (pairs_in new.now) ≡ true }
    ensures texts { IfOk result (λ t. AreTexts D.digest_of command (said_commit after.now)
        (pairs_in old.now) (pairs_in new.now) (records_in old.now) (records_in new.now)
        t.lines.items (option_map (λ bytes. bytes.items) t.slice)) }
    ensures fault { IfErr result
        (IsFaultBetween D.digest_of (pairs_in old.now) (pairs_in new.now)) }
{
    let compared = difference_of::<D, A>(alloc, old, new)?;
    Ok(told_of::<D, A>(command, alloc, after, &compared, old, new)?)
}

/// What is told of what was compared.
fn told_of<D: Digest, A: Allocator + Copy>(
    command: ChangesCommand,
    alloc: A,
    after: &Contents<'_, A>,
    compared: &Compared<D, A>,
    old: &[(Entry<'_>, Cid)],
    new: &[(Entry<'_>, Cid)],
) -> Result<Told<A>, AllocError>
    requires old { is_ascending (pairs_in old.now) ≡ true }
    requires new { is_ascending (pairs_in new.now) ≡ true }
    ensures lines { IfOk result (λ t. t.lines.items ≡ lines_text command.values
        (records_in old.now) (records_in new.now) (changes_told compared.now.found.changes.items)) }
    ensures slice { IfOk result (λ t. option_map (λ bytes. bytes.items) t.slice
        ≡ slice_if command.blocks D.digest_of (coming (said_commit after.now) compared.now)
        (records_in new.now) (changes_told compared.now.found.changes.items)) }
{
    let lines = lines_told(command.values, alloc, &compared.found.changes, old, new)?;
    let slice = slice_told::<D, A>(command.blocks, alloc, after, compared, new)?;
    Ok(Told { lines, slice })
}

/// The lines of these changes.
fn lines_told<A: Allocator + Copy>(
    values: Values,
    alloc: A,
    changes: &[KeyDifference<A>],
    old: &[(Entry<'_>, Cid)],
    new: &[(Entry<'_>, Cid)],
) -> Result<Vec<u8, A>, AllocError>
    requires old { is_ascending (pairs_in old.now) ≡ true }
    requires new { is_ascending (pairs_in new.now) ≡ true }
    ensures { IfOk result (λ text. text.items
        ≡ lines_text values (records_in old.now) (records_in new.now) (changes_told changes.now)) }
{
    match values {
        Values::Cids => lines_of(alloc, changes),
        Values::Records => lines_with_records(alloc, changes, old, new),
    }
}

/// The slice of what comes to the file that says this, where blocks are wanted.
fn slice_told<D: Digest, A: Allocator + Copy>(
    blocks: bool,
    alloc: A,
    contents: &Contents<'_, A>,
    compared: &Compared<D, A>,
    new: &[(Entry<'_>, Cid)],
) -> Result<Option<Vec<u8, A>>, AllocError>
    requires { is_ascending (pairs_in new.now) ≡ true }
    ensures { IfOk result (λ slice. option_map (λ bytes. bytes.items) slice
        ≡ slice_if blocks D.digest_of (coming (said_commit contents.now) compared.now)
        (records_in new.now) (changes_told compared.now.found.changes.items)) }
{
    if !blocks {
        return Ok(None);
    }
    let commit = commit_of(alloc, contents)?;
    Ok(Some(slice_of(alloc, &commit, compared, new)?))
}
