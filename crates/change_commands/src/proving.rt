//! The command `prove-change`: what a batch changes in a repository, and the nodes that show it.
ghost use Rattle.std.specs.Prelude.{◌≡◌, ◌<◌, true, false, map, Ok, IfErr, IfNone, IfOk, IfSome};
ghost use Rattle.std.specs.Arc.{arc_value};
ghost use Rattle.spec.specs.Blocks.{pairs};
ghost use Rattle.spec.specs.Reading.{Gives};
ghost use Rattle.spec.specs.States.{records};
ghost use Rattle.batches.specs.Values.{writes_of};
ghost use Rattle.batch_laws.specs.Collecting.{collected, with_cids};
ghost use Rattle.key_changes.specs.Keyed.{are_changes as are_changes_of};
ghost use Rattle.change_laws.specs.Told.{undone};
ghost use Rattle.change_laws.specs.Laws.{change_path};
ghost use Rattle.change_proofs.specs.Provings.{told_by};
ghost use Rattle.change_proofs.specs.StepProvings.{IsStepOf};
ghost use Rattle.store.specs.Stores.{IsStore};
ghost use Rattle.change_commands.specs.Texts.{nodes_by, prove_change_text as prove_change_text_of, second_stamp, text_of_parts, text_of_story, text_on, IsRefusedStory, IsUnproved};
ghost use Rattle.repository_commands.specs.Refusals.{IsRefusedLine};
ghost use Rattle.repository_commands.specs.Faults.{text_fault_of};
ghost use Rattle.repository_commands.specs.Outcomes.{HasReason, IsMade, IsOutcome};
ghost use Rattle.repository_commands.specs.Views.{given_of};
ghost use Rattle.change_commands.specs.Views.{story_of};

use crate::changed::changes_of;
use crate::direction::Direction;
use crate::story::{Story, read_story};
use crate::text::text_of;
use batches::Write as RepositoryWrite;
use block::Block;
use change_proofs::{ChangeProof, KeyChange, ProvingFault, prove_change, prove_inversion};
use cid::{Cid, Digest};
use console::{CommandFault, write_made};
use edit::are_changes;
use record_forms::Form;
use repo::Core;
use repository_commands::{
    DID, MOST_BLOCKS, Puts, REV, TextFault, apply_puts, filled, stamp_of_words,
};
use std::alloc::{AllocError, Global};
use std::io::{Read, Write};
use std::sync::Arc;
use store::{BlockStore, Hold, LentShards, StoreFault, TableKey, empty_shards};

/// The revision of the batch, which comes behind that of the records before it.
const LATER_REV: &str = "2222222222223";

/// Reads lines `KEY HEX`, which are put into one repository, an empty line, and lines `put KEY HEX`, `create KEY HEX`,
/// `update KEY HEX` and `delete KEY`, which are one batch on it; with JSON in place of HEX in that form. It writes the CID of
/// the tree's root before the batch and that after it, a line each; then a line `change KEY BEFORE AFTER` for each key of the
/// batch, in the order of the keys, with the CID of its record or `-`; and then a line in hexadecimal for each node that shows
/// these changes: forward those of the tree before that doing them reads, and for the inversion those of the tree after that
/// undoing them reads.
///
/// Empty lines behind the first one are passed over, and all are counted. Where there are no writes there is no batch. The
/// faults are those of `car_text`, the writes before a line that is none tried first.
pub fn prove_change_text<D: Digest, R: Read, W: Write>(
    alloc: Global,
    direction: Direction,
    form: Form,
    input: &mut R,
    out: &mut W,
) -> Result<(), CommandFault<TextFault<D>>>
    ensures outcome { IsOutcome (prove_change_text_of D.digest_of direction form)
        (R.remaining input.old) (W.contents out.old) (W.contents out.new) result }

    // Where a line is refused, it is so by a test, by a clash that is shown, or by a full store.
    ensures refused { HasReason (IsUnproved D.digest_of form) (R.remaining input.old) result }
{
    write_made(change_made(alloc, direction, form, input), out)
}

/// The text for the lines of the input.
fn change_made<D: Digest, R: Read>(
    alloc: Global,
    direction: Direction,
    form: Form,
    input: &mut R,
) -> Result<Vec<u8>, TextFault<D>>
    ensures made { IsMade (λ bytes. bytes.items)
        (prove_change_text_of D.digest_of direction form) (R.remaining input.old) result }
    ensures refused { IfErr result (λ e. IfSome (R.remaining input.old) (λ xs.
        IsUnproved D.digest_of form xs e)) }
{
    let story = read_story(alloc, form, input)?;
    change_of_story(alloc, direction, story)
}

/// The text for a story.
fn change_of_story<D: Digest>(
    alloc: Global,
    direction: Direction,
    story: Story,
) -> Result<Vec<u8>, TextFault<D>>
    ensures text { Gives (λ bytes. bytes.items) text_fault_of result
        (text_of_story D.digest_of direction (story_of story)) }
    ensures refused { IfErr result (IsRefusedStory D.digest_of (story_of story)) }
{
    let Story { before, batch, .. } = story;
    let stamp = stamp_of_words(DID, REV, alloc)?;
    let mut shards = empty_shards(alloc, MOST_BLOCKS, TableKey::known());
    let mut store = LentShards::<D, MOST_BLOCKS, Global>::new(&mut shards);
    let mut core = filled::<D, LentShards<'_, D, MOST_BLOCKS, Global>>(
        alloc, &mut store, &stamp, before,
    )?;
    let text = change_of_batch::<D, LentShards<'_, D, MOST_BLOCKS, Global>>(
        alloc, direction, &mut store, &mut core, &batch,
    );
    core.end(&mut store);
    text
}

/// The text for a batch on a repository. What shows it forward is asked for before it is applied.
fn change_of_batch<D: Digest, S: BlockStore<Arc<Block<D>>, Hold<D>, StoreFault<D>>>(
    alloc: Global,
    direction: Direction,
    store: &mut S,
    core: &mut Core<D, 2>,
    batch: &Puts<Global>,
) -> Result<Vec<u8>, TextFault<D>>
    requires store { IsStore D.digest_of S.BlockStore }
    ensures text { Gives (λ bytes. bytes.items) text_fault_of result
        (text_on D.digest_of direction core.old (given_of batch.now)) }
    ensures refused { IfErr result (IsRefusedLine D.digest_of core.old second_stamp
        (given_of batch.now) (0 < S.fulls store.new)) }
{
    let root = core.root();
    let ahead = proof_ahead(alloc, core, &batch.writes)?;
    let stamp = stamp_of_words(DID, LATER_REV, alloc)?;
    apply_puts::<D, S>(alloc, store, core, &stamp, batch)?;
    match ahead {
        Some(proof) => Ok(shown_text(alloc, direction, core, &root, proof)?),
        // a batch that is taken has keys that a tree takes
        None => unreachable!(),
    }
}

/// What these writes make of a repository, and the nodes that show it; or `None` where they name a key that no tree takes.
pub fn proof_ahead<'w, D: Digest>(
    alloc: Global,
    core: &Core<D, 2>,
    writes: &'w [RepositoryWrite],
) -> Result<Option<ChangeProof<'w, D>>, AllocError>
    ensures proof { IfOk result (λ ahead. IfSome ahead (λ proof. IsStepOf D.digest_of 2
        (with_cids D.digest_of (collected (writes_of writes.now)))
        (pairs D.digest_of (records core.now)) proof.after proof.changes.items
        (map arc_value proof.nodes.items))) }
    ensures none { IfOk result (λ ahead. IfNone ahead (are_changes_of
        (with_cids D.digest_of (collected (writes_of writes.now))) ≡ false)) }
{
    let changes = changes_of::<D>(alloc, writes)?;
    if !are_changes(&changes) {
        return Ok(None);
    }
    Ok(Some(prove_change(alloc, core, &changes)?))
}

/// The text of a change of which a proof was made before, and that led from this root to a repository.
fn shown_text<D: Digest>(
    alloc: Global,
    direction: Direction,
    core: &Core<D, 2>,
    root: &Cid,
    proof: ChangeProof<'_, D>,
) -> Result<Vec<u8>, AllocError>
    requires keyed { are_changes_of (undone proof.changes.items) ≡ true }
    requires told { told_by (pairs D.digest_of (records core.now)) proof.changes.items ≡ Ok tt }
    ensures { IfOk result (λ text. text.items ≡ text_of_parts root.now proof.entry.after
        proof.entry.changes.items (nodes_by D.digest_of direction
        (map arc_value proof.entry.nodes.items) core.now proof.entry.changes.items)) }
{
    let ChangeProof {
        after,
        changes,
        nodes,
    } = proof;
    let nodes = nodes_of(alloc, direction, core, &changes, nodes)?;
    text_of(alloc, root, &after, &changes, &nodes)
}

/// The nodes that show these changes, of which those of the tree before are at hand.
fn nodes_of<D: Digest>(
    alloc: Global,
    direction: Direction,
    core: &Core<D, 2>,
    changes: &[KeyChange<'_>],
    before: Vec<Arc<Block<D>>>,
) -> Result<Vec<Arc<Block<D>>>, AllocError>
    requires keyed { are_changes_of (undone changes.now) ≡ true }
    requires told { told_by (pairs D.digest_of (records core.now)) changes.now ≡ Ok tt }
    ensures { IfOk result (λ nodes. map arc_value nodes.items ≡ nodes_by D.digest_of direction
        (map arc_value before.items) core.now changes.now) }
{
    match direction {
        Direction::Forward => Ok(before),
        Direction::Inversion => nodes_after(alloc, core, changes),
    }
}

/// The nodes of the tree after that undoing these changes reads.
fn nodes_after<D: Digest>(
    alloc: Global,
    core: &Core<D, 2>,
    changes: &[KeyChange<'_>],
) -> Result<Vec<Arc<Block<D>>>, AllocError>
    requires keyed { are_changes_of (undone changes.now) ≡ true }
    requires told { told_by (pairs D.digest_of (records core.now)) changes.now ≡ Ok tt }
    ensures { IfOk result (λ nodes. map arc_value nodes.items
        ≡ change_path D.digest_of 2 changes.now (pairs D.digest_of (records core.now))) }
{
    match prove_inversion::<D, 2, Global>(alloc, core, changes) {
        Ok(nodes) => Ok(nodes),
        // each key has the value that was just looked up
        Err(ProvingFault::OtherValue(_)) => unreachable!(),
        Err(ProvingFault::NoMemory) => Err(AllocError),
    }
}
