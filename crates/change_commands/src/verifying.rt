//! The command `verify-change`: whether a text shows what it tells of a change between two roots.
ghost use Rattle.std.specs.Prelude.{◌≡◌, true, Ok, IfErr, IfOk, IfSome, IsErr};
ghost use Rattle.change_laws.specs.Given.{given_at};
ghost use Rattle.change_proofs.specs.Verdicts.{IsSaid};
ghost use Rattle.key_changes.specs.Keyed.{are_changes};
ghost use Rattle.change_laws.specs.Told.{undone};
ghost use Rattle.spec.specs.Reading.{Gives};
ghost use Rattle.repository_commands.specs.Faults.{text_fault_of, TellsFaultyWord, TellsWords};
ghost use Rattle.repository_commands.specs.Outcomes.{HasReason, IsMade, IsOutcome};
ghost use Rattle.repository_commands.specs.Views.{blocks_of};
ghost use Rattle.change_commands.specs.Directions.{verdict_on, IsAnswer};
ghost use Rattle.change_commands.specs.Texts.{answer_of_told, roots_of as roots_of_words, shown_line, unshown_as, verify_change_text as verify_change_text_of, IsUnshown, IsUnshownBy};
ghost use Rattle.change_commands.specs.Views.{told_of as view_of_told};

use crate::direction::Direction;
use crate::roots::{check_roots, roots_of};
use crate::told::{Told, told_of};
use change_proofs::{ChangeFault, KeyChange, verify_change, verify_inversion};
use cid::{Cid, Digest};
use console::{CommandFault, read_all, write_made};
use repository_commands::{LineFault, TextFault, number_at};
use std::alloc::{AllocError, Global};
use std::io::{Read, Write};

/// Reads a text as `prove_change_text` writes it in this direction, with its nodes in any order and among others, and writes
/// `shown` where it shows that by its changes the tree whose root's CID has the text `before` became that with `after`. Nothing
/// but these two roots is trusted. Forward the changes are done in the tree before: where its root is that of some pairs, the
/// root after is that of these pairs with the changes done. For the inversion they are undone in the tree after: then what is
/// shown speaks of whatever pairs have the root after, and of a root that no pairs have it says nothing.
///
/// The two are tested before the input is read: `TextFault::BadBefore`, and then `TextFault::BadAfter`. Lines end at LF or
/// CR LF, and a last line needs no end. An empty line is passed over, and counted. A line that may not stand where it does is
/// `LineFault::BadLine`: no CID's text in the first two, no change and no block in hexadecimal behind them, a key that doesn't
/// come behind that before it, or a change behind a block; where a root is missing it is the line behind the last. Where the
/// text has another root before it is `TextFault::OtherBefore`, and where it has another one after `TextFault::OtherAfter`.
/// Then a change that isn't so is `LineFault::OtherValue` of its line, and what else the nodes don't show
/// `TextFault::Change`.
pub fn verify_change_text<D: Digest, R: Read, W: Write>(
    alloc: Global,
    direction: Direction,
    before: &[u8],
    after: &[u8],
    input: &mut R,
    out: &mut W,
) -> Result<(), CommandFault<TextFault<D>>>
    ensures outcome { IsOutcome (verify_change_text_of D.digest_of direction before.now after.now)
        (R.remaining input.old) (W.contents out.old) (W.contents out.new) result }
    ensures unshown { HasReason (IsUnshown D.digest_of direction) (R.remaining input.old) result }

    // A faulty root is told, before the input is read.
    ensures told { IsErr (roots_of_words before.now after.now) → TellsFaultyWord result }
    ensures unread { IsErr (roots_of_words before.now after.now) → input.new ≡ input.old }
{
    write_made(verdict_made(alloc, direction, before, after, input), out)
}

/// The line that answers for the text of the input.
fn verdict_made<D: Digest, R: Read>(
    alloc: Global,
    direction: Direction,
    before: &[u8],
    after: &[u8],
    input: &mut R,
) -> Result<Vec<u8>, TextFault<D>>
    ensures made { IsMade (λ bytes. bytes.items)
        (verify_change_text_of D.digest_of direction before.now after.now)
        (R.remaining input.old) result }
    ensures unshown { IfErr result (λ e. IfSome (R.remaining input.old) (λ xs.
        IsUnshown D.digest_of direction xs e)) }
    ensures told { IsErr (roots_of_words before.now after.now) → TellsWords result }
    ensures unread { IsErr (roots_of_words before.now after.now) → input.new ≡ input.old }
{
    let roots = roots_of::<D>(before, after)?;
    let text = read_all(alloc, input)?;
    let told = told_of::<D>(alloc, &text)?;
    check_roots::<D>(&roots, &told)?;
    answer_of::<D>(alloc, direction, &told)
}

/// The line that answers for what is told.
fn answer_of<D: Digest>(
    alloc: Global,
    direction: Direction,
    told: &Told<'_>,
) -> Result<Vec<u8>, TextFault<D>>
    requires keyed { are_changes (undone told.now.changes.items) ≡ true }
    ensures line { Gives (λ bytes. bytes.items) text_fault_of result
        (answer_of_told D.digest_of direction (view_of_told told.now)) }
    ensures unshown { IfErr result
        (IsUnshownBy D.digest_of direction (Ok (view_of_told told.now))) }
{
    match verified::<D>(
        alloc,
        direction,
        told.before,
        told.after,
        &told.blocks,
        &told.changes,
    ) {
        Ok(()) => Ok(shown(alloc)?),
        Err(fault) => Err(unshown(&told.numbers, fault)),
    }
}

/// Whether the tree with the root before becomes that with the root after by these changes, as these blocks show.
fn verified<D: Digest>(
    alloc: Global,
    direction: Direction,
    before: Cid,
    after: Cid,
    blocks: &[Vec<u8>],
    changes: &[KeyChange<'_>],
) -> Result<(), ChangeFault>
    requires keyed { are_changes (undone changes.now) ≡ true }
    ensures verdict { IsSaid (given_at D.digest_of (blocks_of blocks.now))
        (verdict_on D.digest_of direction before after (blocks_of blocks.now) changes.now) result }
    ensures answer { IsAnswer D.digest_of direction before after (blocks_of blocks.now)
        changes.now result }
{
    match direction {
        Direction::Forward => {
            verify_change::<D, 2, Global, Vec<u8>>(alloc, before, after, blocks, changes)
        }
        Direction::Inversion => {
            verify_inversion::<D, 2, Global, Vec<u8>>(alloc, before, after, blocks, changes)
        }
    }
}

/// The line that says that all is shown.
fn shown(alloc: Global) -> Result<Vec<u8>, AllocError>
    ensures { IfOk result (λ line. line.items ≡ shown_line) }
{
    Vec::from_slice(alloc, b"shown\n")
}

/// The fault of changes that aren't shown; a change that isn't so is told by its line.
fn unshown<D: Digest>(numbers: &[u64], fault: ChangeFault) -> TextFault<D>
    ensures { result ≡ unshown_as numbers.now fault }
{
    match fault {
        ChangeFault::OtherValue(place) => {
            let number = number_at(numbers, place);
            let fault = LineFault::OtherValue;
            TextFault::Line { number, fault }
        }
        ChangeFault::NoMemory => TextFault::NoMemory,
        fault => TextFault::Change(fault),
    }
}
