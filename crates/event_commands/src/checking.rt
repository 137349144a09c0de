//! The command `check-event`: messages one after the other, each true of the repository that the one before it left.
ghost use Rattle.std.specs.Prelude.{◌≡◌, IfErr, IsErr};
ghost use Rattle.spec.specs.Reading.{Gives};
ghost use Rattle.event_commands.specs.Faults.{message_fault_of, EndsAtWords, EndsEarly, EndsWords};
ghost use Rattle.event_commands.specs.Outcomes.{HasReason, IsMade, IsOutcome};
ghost use Rattle.event_commands.specs.Refusals.{IsOfNoLine};
ghost use Rattle.event_commands.specs.Texts.{check_event_text as check_event_text_of, lines_of_stream, root_of_word, told_next};

use crate::fault::MessageFault;
use crate::telling::push_message;
use cid::{Cid, Digest};
use commit_events::{EventFault, check_commit};
use console::{CommandFault, read_all, write_made};
use event_frames::first_frame;
use record_forms::Form;
use repository_commands::TextFault;
use std::alloc::Global;
use std::io::{Read, Write};

/// Reads messages `#commit` that stand one after the other, each a frame of the event stream, and writes a line DID REV ROOT
/// COUNT of each: whose repository it is, its revision, the CID of the root after it, and how many operations it has. With JSON
/// the operations follow, a line each, as those of a batch.
///
/// The first message is checked as one of the repository that had the root `previous`, a word, and each further one from the
/// root after the one before it. Where one isn't true, nothing is written: the fault is `MessageFault::Message` with its number.
/// The word is tested before the input is read, and its fault is a `TextFault::Root`.
pub fn check_event_text<D: Digest, R: Read, W: Write>(
    alloc: Global,
    form: Form,
    previous: &[u8],
    input: &mut R,
    out: &mut W,
) -> Result<(), CommandFault<MessageFault<D>>>
    ensures outcome { IsOutcome (check_event_text_of D.digest_of form previous.now)
        (R.remaining input.old) (W.contents out.old) (W.contents out.new) result }

    // No line is refused, as of the commands that read lines.
    ensures lineless { HasReason (λ xs e. IsOfNoLine e) (R.remaining input.old) result }

    // A faulty root is told, before the input is read.
    ensures told { IsErr (root_of_word previous.now) → EndsEarly result }
    ensures unread { IsErr (root_of_word previous.now) → input.new ≡ input.old }
{
    write_made(lines_made(alloc, form, previous, input), out)
}

/// The lines of the messages of the input.
fn lines_made<D: Digest, R: Read>(
    alloc: Global,
    form: Form,
    previous: &[u8],
    input: &mut R,
) -> Result<Vec<u8>, MessageFault<D>>
    ensures made { IsMade (λ bytes. bytes.items) (check_event_text_of D.digest_of form previous.now)
        (R.remaining input.old) result }
    ensures lineless { IfErr result (λ e. IsOfNoLine e) }
    ensures told { IsErr (root_of_word previous.now) → EndsWords result }
    ensures unread { IsErr (root_of_word previous.now) → input.new ≡ input.old }
{
    let root = root_of::<D>(previous)?;
    let stream = read_all(alloc, input)?;
    lines_of::<D>(alloc, form, root, &stream)
}

/// The root of this text.
fn root_of<D: Digest>(word: &[u8]) -> Result<Cid, MessageFault<D>>
    ensures root { Gives (λ cid. cid) message_fault_of result (root_of_word word.now) }
    ensures words { IfErr result EndsAtWords }
    ensures lineless { IfErr result (λ e. IsOfNoLine e) }
{
    match Cid::from_text(word) {
        Ok(cid) => Ok(cid),
        Err(fault) => Err(MessageFault::Text(TextFault::Root(fault))),
    }
}

/// The lines of the messages of a stream.
fn lines_of<D: Digest>(
    alloc: Global,
    form: Form,
    previous: Cid,
    stream: &[u8],
) -> Result<Vec<u8>, MessageFault<D>>
    ensures lines { Gives (λ bytes. bytes.items) message_fault_of result
        (lines_of_stream D.digest_of form previous stream.now) }
    ensures lineless { IfErr result (λ e. IsOfNoLine e) }
{
    let mut text = Vec::new(alloc);
    let mut root = previous;
    let mut rest = stream;
    for turn in 0..stream.len() {
        if rest.is_empty() {
            return Ok(text);
        }
        let (message, behind) = first_frame(rest);
        root = push_lines::<D>(alloc, form, turn as u64 + 1, root, message, &mut text)?;
        rest = behind;
    }
    Ok(text)
}

/// Puts the lines of a message at the end, if it is true of the repository that had this root, and answers the root after it.
fn push_lines<D: Digest>(
    alloc: Global,
    form: Form,
    number: u64,
    root: Cid,
    message: &[u8],
    text: &mut Vec<u8>,
) -> Result<Cid, MessageFault<D>>
    ensures lines { Gives (λ after. (text.new.items, after)) message_fault_of result
        (told_next D.digest_of form text.old.items number root message.now) }
    ensures lineless { IfErr result (λ e. IsOfNoLine e) }
{
    match check_commit::<D, 2, Global>(alloc, root, message) {
        Ok(checked) => {
            push_message(alloc, form, text, &checked)?;
            Ok(checked.commit.root.to_cid())
        }
        Err(EventFault::NoMemory) => Err(MessageFault::Text(TextFault::NoMemory)),
        Err(fault) => Err(MessageFault::Message { number, fault }),
    }
}
