//! The command `verify`: it reads the blocks of a proof and writes what they show.
ghost use Rattle.std.specs.Prelude.{◌≡◌, true, false, IfErr, IfOk, IsErr};
ghost use Rattle.spec.specs.Reading.{Gives};
ghost use Rattle.spec.specs.Cid.{cid_of_text};
ghost use Rattle.spec.specs.Proof.{verified};
ghost use Rattle.repository_commands.specs.Faults.{text_fault_of, is_of_words, IfNoText, TellsFaultyWord, TellsWords};
ghost use Rattle.repository_commands.specs.Outcomes.{IsMade, IsOutcome};
ghost use Rattle.repository_commands.specs.Refusals.{is_refusal};
ghost use Rattle.repository_commands.specs.Texts.{answer_line, answer_of_blocks as answer_of_blocks_of, or_bad_root, or_no_proof, verify_text as verify_text_of, words_check};
ghost use Rattle.repository_commands.specs.Views.{blocks_of};

use crate::blocks::read_blocks;
use crate::fault::TextFault;
use crate::proving::check_key;
use cid::{Cid, Digest};
use console::{CommandFault, write_made};
use export::verify;
use std::alloc::{AllocError, Allocator};
use std::io::{Read, Write};

/// Reads lines `HEX`, the blocks of a proof in any order, and writes what they show of a key in the tree whose root's CID
/// has this text: `found CID`, or `absent`.
///
/// The root's text, else `TextFault::Root`, and then the key, of 1 to 1,024 bytes, are tested before the input is read.
/// Lines end at LF or CR LF, and a last line needs no end. An empty line is passed over, and counted; each other line is one
/// block in hexadecimal, in either case, else it is `LineFault::BadLine`. What `export::verify` answers is
/// `TextFault::Proof`.
pub fn verify_text<D: Digest, A: Allocator + Copy, R: Read, W: Write>(
    alloc: A,
    root: &[u8],
    key: &[u8],
    input: &mut R,
    out: &mut W,
) -> Result<(), CommandFault<TextFault<D, A>>>
    ensures outcome { IsOutcome (verify_text_of D.digest_of root.now key.now)
        (R.remaining input.old) (W.contents out.old) (W.contents out.new) result }

    // It puts nothing, so no line is refused.
    ensures refused { IfErr result (λ e. IfNoText e (λ f. is_refusal f ≡ false)) }

    // A faulty root or key is told, before the input is read.
    ensures told { IsErr (words_check root.now key.now) → TellsFaultyWord result }
    ensures unread { IsErr (words_check root.now key.now) → input.new ≡ input.old }
{
    write_made(answer_made(alloc, root, key, input), out)
}

/// The line that answers for the blocks of the input.
fn answer_made<D: Digest, A: Allocator + Copy, R: Read>(
    alloc: A,
    root: &[u8],
    key: &[u8],
    input: &mut R,
) -> Result<Vec<u8, A>, TextFault<D, A>>
    ensures made { IsMade (λ bytes. bytes.items) (verify_text_of D.digest_of root.now key.now)
        (R.remaining input.old) result }
    ensures told { IsErr (words_check root.now key.now) → TellsWords result }
    ensures unread { IsErr (words_check root.now key.now) → input.new ≡ input.old }
    ensures refused { IfErr result (λ e. is_refusal e ≡ false) }
{
    let root = root_of::<D, A>(root)?;
    check_key::<D, A>(key)?;
    let blocks = read_blocks::<D, A, R>(alloc, input)?;
    answer_of_blocks(alloc, root, &blocks, key)
}

/// The line that answers for these blocks.
fn answer_of_blocks<D: Digest, A: Allocator>(
    alloc: A,
    root: Cid,
    blocks: &[Vec<u8, A>],
    key: &[u8],
) -> Result<Vec<u8, A>, TextFault<D, A>>
    ensures line { Gives (λ bytes. bytes.items) text_fault_of result
        (answer_of_blocks_of D.digest_of root key.now (blocks_of blocks.now)) }
    ensures refused { IfErr result (λ e. is_refusal e ≡ false) }
{
    let value = shown::<D, A>(root, blocks, key)?;
    Ok(line_of(alloc, value)?)
}

/// The root of a text.
fn root_of<D: Digest, A: Allocator>(text: &[u8]) -> Result<Cid, TextFault<D, A>>
    ensures root { Gives (λ root. root) text_fault_of result (or_bad_root (cid_of_text text.now)) }
    ensures words { IfErr result (λ e. is_of_words e ≡ true) }
    ensures refused { IfErr result (λ e. is_refusal e ≡ false) }
{
    match Cid::from_text(text) {
        Ok(root) => Ok(root),
        Err(fault) => Err(TextFault::Root(fault)),
    }
}

/// What the blocks show.
fn shown<D: Digest, A: Allocator>(
    root: Cid,
    blocks: &[Vec<u8, A>],
    key: &[u8],
) -> Result<Option<Cid>, TextFault<D, A>>
    ensures value { Gives (λ value. value) text_fault_of result
        (or_no_proof (verified D.digest_of 2 root (blocks_of blocks.now) key.now)) }
    ensures refused { IfErr result (λ e. is_refusal e ≡ false) }
{
    match verify::<D, 2, Vec<u8, A>>(&root, blocks, key) {
        Ok(value) => Ok(value),
        Err(fault) => Err(TextFault::Proof(fault)),
    }
}

/// The line that says what the key has.
fn line_of<A: Allocator>(alloc: A, value: Option<Cid>) -> Result<Vec<u8, A>, AllocError>
    ensures { IfOk result (λ bytes. bytes.items ≡ answer_line value) }
{
    let mut line = Vec::new(alloc);
    match value {
        Some(cid) => {
            line.extend_from_slice(b"found ")?;
            line.extend_from_slice(&cid.text())?;
        }
        None => line.extend_from_slice(b"absent")?,
    }
    line.push(b'\n')?;
    Ok(line)
}
