//! The command `prove`: it puts the lines of its input into a repository and writes the proof of a key.
ghost use Rattle.std.specs.Prelude.{◌≡◌, ◌++◌, true, false, map, IfErr, IfOk, IfSome, IsErr, OnOk};
ghost use Rattle.std.specs.Arc.{arc_value};
ghost use Rattle.std.specs.List.{flat_map};
ghost use Rattle.spec.specs.Reading.{Gives};
ghost use Rattle.batches.specs.Values.{stamp_of};
ghost use Rattle.repository_commands.specs.Faults.{text_fault_of, is_of_words, TellsFaultyWord, TellsWords};
ghost use Rattle.repository_commands.specs.Outcomes.{HasReason, IsMade, IsOutcome};
ghost use Rattle.repository_commands.specs.Refusals.{IsRefusedIn, IsRefusedLine, is_refusal};
ghost use Rattle.repository_commands.specs.Shards.{WasFull};
ghost use Rattle.repository_commands.specs.Texts.{hex_line, key_check, no_writes, path_of_given, proof_of_given, prove_text as prove_text_of, root_line, text_of_path};
ghost use Rattle.repository_commands.specs.Views.{given_of, nodes_of};

use crate::fault::TextFault;
use crate::filling::{MOST_BLOCKS, filled};
use crate::puts::{Puts, read_puts};
use batches::Stamp;
use block::Block;
use cid::{Cid, Digest};
use console::{CommandFault, write_made};
use export::{ProofFault, prove};
use node::is_key;
use record_forms::Form;
use std::alloc::{AllocError, Allocator, Global};
use std::io::{Read, Write};
use std::sync::Arc;
use store::{LentShards, TableKey, empty_shards};

/// Reads lines `KEY HEX`, or `KEY JSON` in that form, into one repository, as `car_text` does, and writes the proof of a key:
/// the text of the CID of the tree's root, and then a line in hexadecimal for each node of the key's path, from the top.
///
/// The key has 1 to 1,024 bytes, else it is `ProofFault::KeyLength` before the input is read. The stamp is one that passes
/// its test, as the program's own does. The other faults are those of `car_text`.
pub fn prove_text<D: Digest, R: Read, W: Write>(
    alloc: Global,
    form: Form,
    stamp: &Stamp,
    key: &[u8],
    input: &mut R,
    out: &mut W,
) -> Result<(), CommandFault<TextFault<D>>>
    ensures outcome { IsOutcome (prove_text_of D.digest_of form (stamp_of stamp.now) key.now)
        (R.remaining input.old) (W.contents out.old) (W.contents out.new) result }
    ensures refused { HasReason (IsRefusedIn D.digest_of form (stamp_of stamp.now))
        (R.remaining input.old) result }

    // A faulty key is told, before the input is read.
    ensures told { IsErr (key_check key.now) → TellsFaultyWord result }
    ensures unread { IsErr (key_check key.now) → input.new ≡ input.old }
{
    write_made(proof_made(alloc, form, stamp, key, input), out)
}

/// The text of the proof over the lines of the input.
fn proof_made<D: Digest, R: Read>(
    alloc: Global,
    form: Form,
    stamp: &Stamp,
    key: &[u8],
    input: &mut R,
) -> Result<Vec<u8>, TextFault<D>>
    ensures made { IsMade (λ bytes. bytes.items)
        (prove_text_of D.digest_of form (stamp_of stamp.now) key.now)
        (R.remaining input.old) result }
    ensures refused { IfErr result (λ e. IfSome (R.remaining input.old) (λ xs.
        IsRefusedIn D.digest_of form (stamp_of stamp.now) xs e)) }
    ensures told { IsErr (key_check key.now) → TellsWords result }
    ensures unread { IsErr (key_check key.now) → input.new ≡ input.old }
{
    check_key::<D, Global>(key)?;
    let puts = read_puts(alloc, form, input)?;
    proof_of_puts(alloc, stamp, key, puts)
}

/// Tests a key.
pub(crate) fn check_key<D: Digest, A: Allocator>(key: &[u8]) -> Result<(), TextFault<D, A>>
    ensures check { Gives (λ ok. ok) text_fault_of result (key_check key.now) }
    ensures words { IfErr result (λ e. is_of_words e ≡ true) }
    ensures refused { IfErr result (λ e. is_refusal e ≡ false) }
{
    if !is_key(key) {
        return Err(TextFault::Proof(ProofFault::KeyLength));
    }
    Ok(())
}

/// The text of the proof of a key in the repository of these puts.
fn proof_of_puts<D: Digest>(
    alloc: Global,
    stamp: &Stamp,
    key: &[u8],
    puts: Puts<Global>,
) -> Result<Vec<u8>, TextFault<D>>
    ensures text { Gives (λ bytes. bytes.items) text_fault_of result
        (proof_of_given D.digest_of (stamp_of stamp.now) key.now (given_of puts)) }
    ensures refused { IfErr result (IsRefusedLine D.digest_of no_writes (stamp_of stamp.now)
        (given_of puts) (WasFull D.digest_of)) }
{
    let path = path_of_puts::<D>(alloc, stamp, key, puts)?;
    Ok(text_of(alloc, &path)?)
}

/// A root and the nodes of a key's path below it.
#[derive(Drop)]
pub(crate) struct PathNodes<D: Digest> {
    root: Cid,
    nodes: Vec<Arc<Block<D>>>,
}

/// The path of a key in the repository of these puts.
fn path_of_puts<D: Digest>(
    alloc: Global,
    stamp: &Stamp,
    key: &[u8],
    puts: Puts<Global>,
) -> Result<PathNodes<D>, TextFault<D>>
    ensures path { Gives nodes_of text_fault_of result
        (path_of_given D.digest_of (stamp_of stamp.now) key.now (given_of puts)) }
    ensures refused { IfErr result (IsRefusedLine D.digest_of no_writes (stamp_of stamp.now)
        (given_of puts) (WasFull D.digest_of)) }
{
    let mut shards = empty_shards(alloc, MOST_BLOCKS, TableKey::known());
    let mut store = LentShards::<D, MOST_BLOCKS, Global>::new(&mut shards);
    let core = filled::<D, LentShards<'_, D, MOST_BLOCKS, Global>>(alloc, &mut store, stamp, puts)?;
    let root = core.root();
    let nodes = prove(alloc, &core, key);
    core.end(&mut store);
    Ok(PathNodes {
        root,
        nodes: nodes?,
    })
}

/// The text of a path.
fn text_of<D: Digest>(alloc: Global, path: &PathNodes<D>) -> Result<Vec<u8>, AllocError>
    ensures { IfOk result (λ bytes. bytes.items ≡ text_of_path (nodes_of path.now)) }
{
    let mut text = Vec::new(alloc);
    push_root(&mut text, &path.root)?;
    push_lines(alloc, &mut text, &path.nodes)?;
    Ok(text)
}

/// Puts the line of a root at the end: the text of its CID. `AllocError` comes where memory was refused.
pub fn push_root(text: &mut Vec<u8>, root: &Cid) -> Result<(), AllocError>
    ensures { OnOk result (text.new.items ≡ text.old.items ++ root_line root.now) }
{
    text.extend_from_slice(&root.text())?;
    text.push(b'\n')?;
    Ok(())
}

/// Puts a line for each block at the end.
pub fn push_lines<D: Digest>(
    alloc: Global,
    text: &mut Vec<u8>,
    blocks: &[Arc<Block<D>>],
) -> Result<(), AllocError>
    ensures { OnOk result (text.new.items ≡ text.old.items
        ++ flat_map hex_line (map arc_value blocks.now)) }
{
    for block in blocks {
        push_line(alloc, text, block.bytes())?;
    }
    Ok(())
}

/// Puts the line of a block at the end.
fn push_line(alloc: Global, text: &mut Vec<u8>, block: &[u8]) -> Result<(), AllocError>
    ensures { OnOk result (text.new.items ≡ text.old.items ++ hex_line block.now) }
{
    let digits = hex::encode(alloc, block)?;
    text.extend_from_slice(digits.as_bytes())?;
    text.push(b'\n')?;
    Ok(())
}
