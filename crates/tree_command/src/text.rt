//! The listing of a tree.
ghost use Rattle.std.specs.Prelude.{◌≡◌, ◌≤◌, true, is_some, IfErr, IfSome, OnOk};
ghost use Rattle.std.specs.Io.KnownBytes.{IsAtEnd};
ghost use Rattle.spec.specs.NodeFormat.{is_ascending};
ghost use Rattle.spec.specs.Reading.{Gives};
ghost use Rattle.tree_command.specs.Fault.{tree_fault_of};
ghost use Rattle.tree_command.specs.Outcomes.{IsOutcome, seen};
ghost use Rattle.tree_command.specs.TreeText.{tree_of_map, tree_of_input as tree_of, tree_text as tree_text_of};

use crate::fault::TreeFault;
use crate::key::ListedKey;
use crate::keys::Keys;
use crate::listing::map_of_input;
use crate::node_lines::write_listed;
use cid::{Cid, Digest};
use console::{CommandFault, read_all};
use scratch::{Built, ScratchFault, build};
use std::alloc::Allocator;
use std::io::{Read, Write};

/// Reads lines `KEY CID`, and writes the text of the CID of their tree's root and then a line `CID HEX` for each node,
/// from the top, in the order of the export: a node, the subtree before its keys, and for each key the subtree after it.
///
/// Lines end at LF or CR LF, and a last line needs no end. An empty line is passed over, and counted. A key is all
/// before the last space of its line, and is one that is taken. Lines come in any order, and of those with one key the
/// last decides. `B` is the number of zero bits that count for one layer, 2 in the AT Protocol
/// (AT Protocol repository v3; the form of the text is this repository's own).
///
/// All of the input is read before a line is judged, and all is judged before a byte is written: where there is no text
/// (`CommandFault::NoText`) nothing was written, and where writing failed (`CommandFault::Unwritten`) a beginning of it.
pub fn tree_text<D: Digest, const B: u8, A: Allocator + Clone, R: Read, W: Write>(
    taken: Keys,
    alloc: A,
    input: &mut R,
    out: &mut W,
) -> Result<(), CommandFault<TreeFault>>
    requires least { 1 ≤ B }
    requires most { B ≤ 8 }
    ensures { IsOutcome (tree_text_of taken D.digest_of B) (R.remaining input.old)
        (R.remaining input.new) (W.contents out.old) (W.contents out.new) result }
{
    let made = tree_made::<D, B, A, R>(taken, alloc, input);
    write_listed(made, out)
}

/// The tree of the lines of the input.
fn tree_made<D: Digest, const B: u8, A: Allocator + Clone, R: Read>(
    taken: Keys,
    alloc: A,
    input: &mut R,
) -> Result<Built<D, A>, TreeFault>
    requires least { 1 ≤ B }
    requires most { B ≤ 8 }
    ensures tree { IfSome (R.remaining input.old) (λ xs. Gives seen tree_fault_of result
        (tree_of taken D.digest_of B xs)) }
    ensures read { OnOk result (IsAtEnd (R.remaining input.new)) }
    ensures judged { IfErr result (λ e. is_some (tree_fault_of e) ≡ true
        → IsAtEnd (R.remaining input.new)) }
{
    let bytes = read_all(alloc.clone()?, input)?;
    tree_of_input::<D, B, A>(taken, alloc, &bytes)
}

/// The tree of the map that the lines leave.
#[tactic(auto, unfolding(crate::specs::TreeText::tree_of_input))]
fn tree_of_input<D: Digest, const B: u8, A: Allocator + Clone>(
    taken: Keys,
    alloc: A,
    input: &[u8],
) -> Result<Built<D, A>, TreeFault>
    requires least { 1 ≤ B }
    requires most { B ≤ 8 }
    ensures { Gives seen tree_fault_of result (tree_of taken D.digest_of B input.now) }
{
    let pairs = map_of_input(taken, alloc.clone()?, input)?;
    tree_of_pairs::<D, B, A>(alloc, &pairs)
}

/// The tree of the pairs.
fn tree_of_pairs<D: Digest, const B: u8, A: Allocator + Clone>(
    alloc: A,
    pairs: &[(ListedKey<'_>, Cid)],
) -> Result<Built<D, A>, TreeFault>
    requires least { 1 ≤ B }
    requires most { B ≤ 8 }
    requires ascending { is_ascending pairs.now ≡ true }
    ensures { Gives seen tree_fault_of result (tree_of_map D.digest_of B pairs.now) }
{
    match build::<D, B, ListedKey<'_>, A>(alloc, pairs) {
        Ok(built) => Ok(built),
        Err(ScratchFault::Clash(_)) => Err(TreeFault::Clash),
        Err(ScratchFault::NoMemory) => Err(TreeFault::NoMemory),
    }
}
