//! The pairs of key and CID that the lines of an input leave.
ghost use Rattle.std.specs.Prelude.{◌≡◌, [], ◌∷◌, ◌++◌, OnOk};
ghost use Rattle.spec.specs.Reading.{Gives};
ghost use Rattle.console.specs.Lines.{numbered_lines as numbered_lines_of};
ghost use Rattle.tree_command.specs.TreeText.{pairs_of_lines, last_of_each_key, map_of_input as map_of};
ghost use Rattle.tree_command.specs.Fault.{tree_fault_of};

use crate::fault::TreeFault;
use crate::key::ListedKey;
use crate::keys::Keys;
use crate::line::pair_of_line;
use cid::Cid;
use console::numbered_lines;
use std::alloc::{AllocError, Allocator};

/// The pairs in the order of their lines, or the first line that is faulty.
pub(crate) fn pairs_of_input<A: Allocator>(
    taken: Keys,
    alloc: A,
    input: &[u8],
) -> Result<Vec<(ListedKey<'_>, Cid), A>, TreeFault>
    ensures { Gives (λ pairs. pairs.items) tree_fault_of result
        (pairs_of_lines taken (numbered_lines_of input.now)) }
{
    let mut pairs = Vec::new(alloc);
    for (number, line) in numbered_lines(input) {
        match pair_of_line(taken, line) {
            Ok(pair) => push_pair(&mut pairs, pair)?,
            Err(fault) => return Err(TreeFault::Line { number, fault }),
        }
    }
    Ok(pairs)
}

/// Adds the pair of a key that is lent.
fn push_pair<'a, A: Allocator>(
    pairs: &mut Vec<(ListedKey<'a>, Cid), A>,
    pair: (&'a [u8], Cid),
) -> Result<(), AllocError>
    ensures { OnOk result (pairs.new.items
        ≡ pairs.old.items ++ (pair.entry.0.now, pair.entry.1) ∷ []) }
{
    pairs.push((ListedKey::new(pair.0), pair.1))?;
    Ok(())
}

/// Sorts the pairs by key, and keeps of those with one key the last. At `Err` they may stand in another order.
pub(crate) fn keep_last_of_each_key<A: Allocator>(
    pairs: &mut Vec<(ListedKey<'_>, Cid), A>,
) -> Result<(), AllocError>
    ensures { OnOk result (pairs.new.items ≡ last_of_each_key pairs.old.items) }
{
    pairs.reverse();
    pairs.sort_by(|a, b| a.0.cmp(&b.0))?;
    pairs.dedup_by(|later, kept| later.0 == kept.0);
    Ok(())
}

/// The map that the lines `KEY CID` of an input leave, in the order of its keys, or the first line that is faulty
/// (`TreeFault::Line`); `TreeFault::NoMemory` comes where memory was refused. Of the lines with one key the last decides.
#[tactic(auto, unfolding(crate::specs::TreeText::map_of_input))]
pub fn map_of_input<A: Allocator>(
    taken: Keys,
    alloc: A,
    input: &[u8],
) -> Result<Vec<(ListedKey<'_>, Cid), A>, TreeFault>
    ensures { Gives (λ pairs. pairs.items) tree_fault_of result (map_of taken input.now) }
{
    let mut pairs = pairs_of_input(taken, alloc, input)?;
    keep_last_of_each_key(&mut pairs)?;
    Ok(pairs)
}
