//! The commands `commit-event` and `sync-event`: the message of a batch, and that of a state.
ghost use Rattle.std.specs.Prelude.{◌≡◌, ◌<◌, List, Result, cond, ℕ, option_map, true, IfErr, IfSome, IsErr};
ghost use Rattle.spec.specs.Reading.{Gives};
ghost use Rattle.batches.specs.Values.{stamp_of};
ghost use Rattle.key_changes.specs.Keyed.{are_changes};
ghost use Rattle.change_laws.specs.Told.{undone};
ghost use Rattle.store.specs.Stores.{IsStore};
ghost use Rattle.event_writing.specs.Syncing.{sync_told_of};
ghost use Rattle.event_writing.specs.Views.{told_of, untold_fault_of};
ghost use Rattle.event_writing_laws.specs.Messages.{batch_message};
ghost use Rattle.event_writing_laws.specs.Telling as telling;
ghost use Rattle.change_commands.specs.Views.{story_of};
ghost use Rattle.repository_commands.specs.Views.{given_of};
ghost use Rattle.event_commands.specs.Faults.{message_fault_of, EndsAtWords, EndsEarly, EndsWords};
ghost use Rattle.event_commands.specs.Outcomes.{HasReason, IsMade, IsOutcome};
ghost use Rattle.event_commands.specs.Refusals.{IsOfNoLine, IsRefusedBy, IsRefusedStory, IsUntold};
ghost use Rattle.event_commands.specs.Texts.{batch_event_on, beside_state, event_in_order as event_in_order_of, event_of_story as event_of_story_of, event_on as event_on_of, event_text as event_text_of, has_writes as has_writes_of, of_batch, order_check, rev_of_records as rev_of_records_of, signature_of, state_event_on, with_signature};
ghost use Rattle.event_commands.specs.Views.{words_of};

use crate::command::{EventWords, Subject};
use crate::fault::MessageFault;
use batches::Stamp;
use block::Block;
use change_commands::{Story, proof_ahead, read_story};
use cid::{Cid, Digest};
use console::{CommandFault, bytes_of_hex, write_made};
use event_format::FormFault;
use event_writing::{SyncTold, Told, UntoldFault, commit_event, sync_event};
use key_changes::KeyChange;
use record_forms::Form;
use record_rules::{is_did, is_tid};
use repo::Core;
use repository_commands::{MOST_BLOCKS, Puts, REV, TextFault, apply_puts, filled, stamp_of_words};
use std::alloc::Global;
use std::io::{Read, Write};
use std::sync::Arc;
use store::{BlockStore, Hold, LentShards, StoreFault, TableKey, empty_shards};

/// Reads the records of a repository and the writes of a batch on it, as `change_commands::prove_change_text` does, and writes
/// a message: that of the batch, `#commit`, as `event_writing::commit_event` makes it, or that of the repository which it leaves,
/// `#sync`, as `event_writing::sync_event` makes it.
///
/// The batch has the revision of the words, and the records before are a batch of their own, of the same DID under the revision
/// `2222222222222`. Of a state there need be no batch: the records have the revision of the words then.
///
/// The DID, the revision and the signature are tested before the input is read: their faults are `TextFault::BadDid`,
/// `TextFault::BadRev` and `TextFault::BadSig`. Where a batch behind records has the revision `2222222222222` as well, that is
/// told before any line is tried: `MessageFault::Untold` with `FormFault::RevOrder`. The faults of lines are as of
/// `prove_change_text`, and then come those of the message, `MessageFault::Untold`: `UntoldFault::NoBatch` where there are no
/// writes behind the empty line, or for a state no records either.
pub fn event_text<D: Digest, R: Read, W: Write>(
    alloc: Global,
    subject: Subject,
    form: Form,
    words: &EventWords<'_>,
    input: &mut R,
    out: &mut W,
) -> Result<(), CommandFault<MessageFault<D>>>
    ensures outcome { IsOutcome (event_text_of D.digest_of subject form (words_of words.now))
        (R.remaining input.old) (W.contents out.old) (W.contents out.new) result }

    // Where a line is refused, it is so by a test, by a clash that is shown, or by a full store.
    ensures refused { HasReason (IsUntold D.digest_of form (words_of words.now))
        (R.remaining input.old) result }

    // A faulty word is told, or memory was refused to it, before the input is read.
    ensures told { IsErr (signature_of (words_of words.now)) → EndsEarly result }
    ensures unread { IsErr (signature_of (words_of words.now)) → input.new ≡ input.old }
{
    write_made(event_made(alloc, subject, form, words, input), out)
}

/// The message for the lines of the input.
fn event_made<D: Digest, R: Read>(
    alloc: Global,
    subject: Subject,
    form: Form,
    words: &EventWords<'_>,
    input: &mut R,
) -> Result<Vec<u8>, MessageFault<D>>
    ensures made { IsMade (λ bytes. bytes.items)
        (event_text_of D.digest_of subject form (words_of words.now)) (R.remaining input.old) result }
    ensures refused { IfErr result (λ e. IfSome (R.remaining input.old) (λ xs.
        IsUntold D.digest_of form (words_of words.now) xs e)) }
    ensures told { IsErr (signature_of (words_of words.now)) → EndsWords result }
    ensures unread { IsErr (signature_of (words_of words.now)) → input.new ≡ input.old }
{
    let sig = signature_in::<D>(alloc, words)?;
    let story = read_story(alloc, form, input)?;
    event_of_story(alloc, subject, words, &sig, story)
}

/// The signature of the words, whose DID and revision are tested first.
fn signature_in<D: Digest>(
    alloc: Global,
    words: &EventWords<'_>,
) -> Result<Vec<u8>, MessageFault<D>>
    ensures check { Gives (λ bytes. bytes.items) message_fault_of result
        (signature_of (words_of words.now)) }
    ensures words { IfErr result EndsAtWords }
    ensures lineless { IfErr result (λ e. IsOfNoLine e) }
{
    if !is_did(words.did.as_bytes()) {
        return Err(MessageFault::Text(TextFault::BadDid));
    }
    if !is_tid(words.rev.as_bytes()) {
        return Err(MessageFault::Text(TextFault::BadRev));
    }
    match bytes_of_hex(alloc, words.sig.as_bytes())? {
        Some(sig) => Ok(sig),
        None => Err(MessageFault::Text(TextFault::BadSig)),
    }
}

/// The message for a story.
fn event_of_story<D: Digest>(
    alloc: Global,
    subject: Subject,
    words: &EventWords<'_>,
    sig: &[u8],
    story: Story,
) -> Result<Vec<u8>, MessageFault<D>>
    ensures message { Gives (λ bytes. bytes.items) message_fault_of result
        (event_of_story_of D.digest_of subject (words_of words.now) sig.now (story_of story)) }
    ensures refused { IfErr result (IsRefusedStory D.digest_of (words_of words.now)
        (story_of story)) }
{
    test_order::<D>(words, &story)?;
    event_in_order(alloc, subject, words, sig, story)
}

/// Whether the revision of a batch behind records is another one than that of the records.
fn test_order<D: Digest>(words: &EventWords<'_>, story: &Story) -> Result<(), MessageFault<D>>
    ensures order { Gives (λ x. x) message_fault_of result
        (order_check (words_of words.now) (story_of story.now)) }
    ensures lineless { IfErr result (λ e. IsOfNoLine e) }
{
    if has_writes(&story.before) && has_writes(&story.batch) && words.rev == REV {
        return Err(MessageFault::Untold(UntoldFault::Form(FormFault::RevOrder)));
    }
    Ok(())
}

/// The revision that records have before such a batch, or without one.
fn rev_of_records<'t>(words: &EventWords<'t>, batch: &Puts<Global>) -> &'t str
    ensures { result.now ≡ rev_of_records_of (words_of words.now) (given_of batch.now).writes }
{
    if has_writes(batch) { REV } else { words.rev }
}

/// The message for a story, where a batch comes behind the records.
fn event_in_order<D: Digest>(
    alloc: Global,
    subject: Subject,
    words: &EventWords<'_>,
    sig: &[u8],
    story: Story,
) -> Result<Vec<u8>, MessageFault<D>>
    ensures message { Gives (λ bytes. bytes.items) message_fault_of result
        (event_in_order_of D.digest_of subject (words_of words.now) sig.now (story_of story)) }
    ensures refused { IfErr result (IsRefusedStory D.digest_of (words_of words.now)
        (story_of story)) }
{
    let Story { before, batch, .. } = story;
    let first = stamp_of_words(words.did, rev_of_records(words, &batch), alloc)?;
    let stamp = stamp_of_words(words.did, words.rev, alloc)?;
    let told = told_in(words, sig);
    let mut shards = empty_shards(alloc, MOST_BLOCKS, TableKey::known());
    let mut store = LentShards::<D, MOST_BLOCKS, Global>::new(&mut shards);
    match filled::<D, LentShards<'_, D, MOST_BLOCKS, Global>>(alloc, &mut store, &first, before) {
        Ok(mut core) => {
            let event = event_on::<D, LentShards<'_, D, MOST_BLOCKS, Global>>(
                alloc, subject, &mut store, &mut core, &stamp, &batch, &told,
            );
            core.end(&mut store);
            event
        }
        Err(fault) => Err(MessageFault::Text(fault)),
    }
}

/// What the words tell beside the batch, with this signature.
fn told_in<'t>(words: &EventWords<'t>, sig: &'t [u8]) -> Told<'t>
    ensures { told_of result ≡ with_signature (words_of words.now) sig.now }
{
    Told {
        seq: words.seq,
        time: words.time.as_bytes(),
        since: since_in(words),
        sig,
    }
}

/// The revision before that the words tell, if they tell one.
fn since_in<'t>(words: &EventWords<'t>) -> Option<&'t [u8]>
    ensures { option_map (λ s. s.now) result ≡ option_map (λ s. s.now) words.now.since }
{
    match words.since {
        Some(since) => Some(since.as_bytes()),
        None => None,
    }
}

/// The message for a batch on a repository, or for what it leaves.
fn event_on<D: Digest, S: BlockStore<Arc<Block<D>>, Hold<D>, StoreFault<D>>>(
    alloc: Global,
    subject: Subject,
    store: &mut S,
    core: &mut Core<D, 2>,
    stamp: &Stamp,
    batch: &Puts<Global>,
    told: &Told<'_>,
) -> Result<Vec<u8>, MessageFault<D>>
    requires store { IsStore D.digest_of S.BlockStore }
    ensures message { Gives (λ bytes. bytes.items) message_fault_of result (event_on_of
        D.digest_of subject core.old (stamp_of stamp.now) (given_of batch.now) (told_of told.now)) }
    ensures refused { IfErr result (IsRefusedBy D.digest_of core.old (stamp_of stamp.now)
        (given_of batch.now) (0 < S.fulls store.new)) }
{
    match subject {
        Subject::Batch => event_of_batch::<D, S>(alloc, store, core, stamp, batch, told),
        Subject::State => event_of_state::<D, S>(alloc, store, core, stamp, batch, told),
    }
}

/// The message for a batch on a repository. What its keys have is seen before it is applied.
fn event_of_batch<D: Digest, S: BlockStore<Arc<Block<D>>, Hold<D>, StoreFault<D>>>(
    alloc: Global,
    store: &mut S,
    core: &mut Core<D, 2>,
    stamp: &Stamp,
    batch: &Puts<Global>,
    told: &Told<'_>,
) -> Result<Vec<u8>, MessageFault<D>>
    requires store { IsStore D.digest_of S.BlockStore }
    ensures message { Gives (λ bytes. bytes.items) message_fault_of result (batch_event_on
        D.digest_of core.old (stamp_of stamp.now) (given_of batch.now) (told_of told.now)) }
    ensures refused { IfErr result (IsRefusedBy D.digest_of core.old (stamp_of stamp.now)
        (given_of batch.now) (0 < S.fulls store.new)) }
{
    let root = core.root();
    let ahead = proof_ahead(alloc, core, &batch.writes)?;
    match apply_puts::<D, S>(alloc, store, core, stamp, batch) {
        Ok(()) => {
            if !has_writes(batch) {
                return Err(MessageFault::Untold(UntoldFault::NoBatch));
            }
            match ahead {
                Some(proof) => told_event(alloc, core, root, &proof.changes, told),
                // a batch that is taken has keys that a tree takes
                None => unreachable!(),
            }
        }
        Err(fault) => Err(MessageFault::Text(fault)),
    }
}

/// The message for what a batch on a repository leaves.
fn event_of_state<D: Digest, S: BlockStore<Arc<Block<D>>, Hold<D>, StoreFault<D>>>(
    alloc: Global,
    store: &mut S,
    core: &mut Core<D, 2>,
    stamp: &Stamp,
    batch: &Puts<Global>,
    told: &Told<'_>,
) -> Result<Vec<u8>, MessageFault<D>>
    requires store { IsStore D.digest_of S.BlockStore }
    ensures message { Gives (λ bytes. bytes.items) message_fault_of result (state_event_on
        D.digest_of core.old (stamp_of stamp.now) (given_of batch.now) (told_of told.now)) }
    ensures refused { IfErr result (IsRefusedBy D.digest_of core.old (stamp_of stamp.now)
        (given_of batch.now) (0 < S.fulls store.new)) }
{
    match apply_puts::<D, S>(alloc, store, core, stamp, batch) {
        Ok(()) => message_or(sync_event(alloc, core, &beside(told))),
        Err(fault) => Err(MessageFault::Text(fault)),
    }
}

/// Whether there are writes.
fn has_writes(batch: &Puts<Global>) -> bool
    ensures { result ≡ has_writes_of (given_of batch.now).writes }
{
    !batch.writes.as_slice().is_empty()
}

/// The message of a repository's last batch, which led there from this root by these changes.
fn told_event<D: Digest>(
    alloc: Global,
    core: &Core<D, 2>,
    before: Cid,
    changes: &[KeyChange<'_>],
    told: &Told<'_>,
) -> Result<Vec<u8>, MessageFault<D>>
    requires keyed { are_changes (undone changes.now) ≡ true }
    ensures message { Gives (λ bytes. bytes.items) message_fault_of result (of_batch
        (batch_message D.digest_of 2 core.now before changes.now (told_of told.now))) }
    ensures lineless { IfErr result (λ e. IsOfNoLine e) }
{
    message_or(commit_event::<D, 2, Global>(alloc, core, before, changes, told))
}

/// What is told beside a state.
fn beside<'t>(told: &Told<'t>) -> SyncTold<'t>
    ensures { sync_told_of result ≡ beside_state (told_of told.now) }
{
    SyncTold {
        seq: told.seq,
        time: told.time,
        sig: told.sig,
    }
}

/// A message, or why there is none.
fn message_or<D: Digest>(message: Result<Vec<u8>, UntoldFault>) -> Result<Vec<u8>, MessageFault<D>>
    ensures message { (read : Result (List ℕ) telling.UntoldFault)
        → Gives (λ bytes. bytes.items) untold_fault_of message read
        → Gives (λ bytes. bytes.items) message_fault_of result (of_batch read) }
    ensures lineless { IfErr result (λ e. IsOfNoLine e) }
{
    match message {
        Ok(message) => Ok(message),
        Err(UntoldFault::NoMemory) => Err(MessageFault::Text(TextFault::NoMemory)),
        Err(fault) => Err(MessageFault::Untold(fault)),
    }
}
