//! What the blocks of a message hold.

ghost use Rattle.std.specs.Prelude.{◌≡◌, true, IfErr, IfOk};
ghost use Rattle.spec.specs.Reading.{Gives};
ghost use Rattle.spec.specs.CarReading.{are_named};
ghost use Rattle.cid.specs.CidRef.{bytes_of};
ghost use Rattle.car_reader.specs.Views.{sections_of};
ghost use Rattle.signed_commits.specs.Views.{commit_of};
ghost use Rattle.event_laws.specs.Verdict.{sections_of as sections_in};
ghost use Rattle.event_format.specs.Views.{event_of};
ghost use Rattle.event_blocks.specs.Views.{blocks_fault_of};
ghost use Rattle.commit_events.specs.Views.{event_fault_of, HasNoWant};
ghost use Rattle.commit_events.specs.Steps.{told_commit};

use crate::fault::EventFault;
use car_reader::{Places, Section};
use cid::Digest;
use event_blocks::{BlocksFault, commit_in, read_blocks, test_records};
use event_format::Event;
use signed_commits::SignedCommit;
use std::alloc::Allocator;

/// The sections of a message's file, which are named by their blocks.
pub(crate) fn sections<'a, D: Digest, A: Allocator + Copy>(
    alloc: A,
    event: &Event<'a, A>,
) -> Result<Vec<Section<'a>, A>, EventFault>
    ensures read { Gives (λ ss. sections_of ss.items) event_fault_of result
        (sections_in D.digest_of (bytes_of event.now.commit) event.now.blocks.now) }
    ensures plain { IfErr result HasNoWant }
    ensures named { IfOk result (λ ss. are_named D.digest_of (sections_of ss.items) ≡ true) }
{
    match read_blocks::<D, A>(alloc, event.commit, event.blocks) {
        Ok(sections) => Ok(sections),
        Err(BlocksFault::NoMemory) => Err(EventFault::NoMemory),
        Err(fault) => Err(EventFault::Blocks(fault)),
    }
}

/// The commit of which a message tells, whose records are there.
pub(crate) fn commit<'a, A: Allocator + Copy>(
    alloc: A,
    event: &Event<'_, A>,
    sections: &[Section<'a>],
) -> Result<SignedCommit<'a>, EventFault>
    ensures read { Gives commit_of event_fault_of result
        (told_commit (sections_of sections.now) (event_of event.now)) }
    ensures plain { IfErr result HasNoWant }
{
    match among(alloc, event, sections) {
        Ok(commit) => Ok(commit),
        Err(BlocksFault::NoMemory) => Err(EventFault::NoMemory),
        Err(fault) => Err(EventFault::Blocks(fault)),
    }
}

/// The same, with the fault in the blocks.
#[tactic(auto, unfolding(crate::specs::Steps::told_commit))]
fn among<'a, A: Allocator + Copy>(
    alloc: A,
    event: &Event<'_, A>,
    sections: &[Section<'a>],
) -> Result<SignedCommit<'a>, BlocksFault>
    ensures { Gives commit_of blocks_fault_of result
        (told_commit (sections_of sections.now) (event_of event.now)) }
{
    let places = Places::new(alloc, sections)?;
    let commit = commit_in(&places, event)?;
    test_records(&places, &event.ops)?;
    Ok(commit)
}
