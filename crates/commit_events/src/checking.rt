//! The check of a whole message.

ghost use Rattle.std.specs.Prelude.{◌≡◌, ◌≤◌, true, IfErr, IfOk};
ghost use Rattle.std.specs.Str.{bytes_eq};
ghost use Rattle.spec.specs.Reading.{Gives};
ghost use Rattle.spec.specs.CarReading.{are_named};
ghost use Rattle.cid.specs.CidRef.{bytes_of};
ghost use Rattle.key_changes.specs.Keyed.{are_changes};
ghost use Rattle.change_laws.specs.Told.{undone};
ghost use Rattle.car_reader.specs.Views.{sections_of};
ghost use Rattle.signed_commits.specs.Views.{commit_of};
ghost use Rattle.event_laws.specs.Reading.{read_event as reading};
ghost use Rattle.event_laws.specs.Verdict.{commit_verdict, of_form, ordered_ops};
ghost use Rattle.event_format.specs.Views.{event_of};
ghost use Rattle.commit_events.specs.Views.{checked_of, event_fault_of, HasNoWant};
ghost use Rattle.commit_events.specs.Reading.{told_message};
ghost use Rattle.commit_events.specs.Steps.{IsTrue, event_verdict, shown_commit, single_event as single};

use crate::blocks::{commit, sections};
use crate::changes::test_changes;
use crate::checked::CheckedCommit;
use crate::fault::EventFault;
use crate::single::doubled;
use car_reader::Section;
use cid::{Cid, Digest};
use event_format::{Event, FormFault, read_event};
use signed_commits::SignedCommit;
use std::alloc::Allocator;

/// What a message says, where it is true of the repository that had the root `previous` before; or its first fault, in the
/// order of `EventFault`. `EventFault::NoMemory` comes wherever memory was refused.
///
/// Whatever blocks were given, at `Ok` this is so of whatever pairs have the commit's root, unless a node of their tree has the
/// CID of a given block with other bytes: each key of the operations has the record that they tell, and the pairs with each
/// operation undone have the root before. Of a root that no pairs have this says nothing, and no answer says that some have it:
/// `event_following::check_and_apply` does the operations, and goes from a root of pairs to a root of pairs. Each record that they
/// leave is among the blocks. Who may sign for the DID, whether the commit is signed, and whether `since` is the revision that is
/// known, is for the caller to see.
///
/// `B` is the number of zero bits of a digest that count for one layer, 2 in the AT Protocol.
pub fn check_commit<'a, D: Digest, const B: u8, A: Allocator + Copy>(
    alloc: A,
    previous: Cid,
    message: &'a [u8],
) -> Result<CheckedCommit<'a, A>, EventFault>
    requires least { 1 ≤ B }

    // The answer is the verdict, but for want of memory.
    ensures verdict { Gives checked_of event_fault_of result
        (commit_verdict D.digest_of B previous message.now) }

    // A want of memory is never told within another fault.
    ensures plain { IfErr result HasNoWant }

    // What is taken is true of the pairs of each tree with the commit's root.
    ensures taken { IfOk result (λ c. IsTrue D.digest_of B previous (checked_of c)) }
{
    judged::<D, B, A>(alloc, previous, message)
}

/// The same, step by step.
#[tactic(auto, unfolding(crate::specs::Steps::event_verdict))]
fn judged<'a, D: Digest, const B: u8, A: Allocator + Copy>(
    alloc: A,
    previous: Cid,
    message: &'a [u8],
) -> Result<CheckedCommit<'a, A>, EventFault>
    requires least { 1 ≤ B }
    ensures verdict { Gives checked_of event_fault_of result
        (event_verdict D.digest_of B previous message.now) }
    ensures plain { IfErr result HasNoWant }
{
    let event = single_event(alloc, message)?;
    if !is_after(&event, &previous) {
        return Err(EventFault::OtherPrevious);
    }
    let sections = sections::<D, A>(alloc, &event)?;
    match commit_shown::<D, B, A>(alloc, previous, &event, &sections) {
        Ok(commit) => Ok(CheckedCommit {
            event,
            commit,
            sections,
        }),
        Err(fault) => Err(fault),
    }
}

/// What a message says of a repository that had the root `previous` before, or its first fault, as `check_commit` names it, but
/// for `EventFault::Change`: whether its operations lead from that root to its commit's isn't looked at. It is for who has the
/// repository, and sees that by doing them.
#[tactic(auto, unfolding(crate::specs::Reading::told_message))]
pub fn read_commit<'a, D: Digest, A: Allocator + Copy>(
    alloc: A,
    previous: Cid,
    message: &'a [u8],
) -> Result<CheckedCommit<'a, A>, EventFault>
    ensures read { Gives checked_of event_fault_of result
        (told_message D.digest_of previous message.now) }
    ensures plain { IfErr result HasNoWant }
    ensures keyed { IfOk result
        (λ c. are_changes (undone (ordered_ops c.event.ops.items)) ≡ true) }
{
    let event = single_event(alloc, message)?;
    if !is_after(&event, &previous) {
        return Err(EventFault::OtherPrevious);
    }
    let sections = sections::<D, A>(alloc, &event)?;
    match commit(alloc, &event, &sections) {
        Ok(commit) => Ok(CheckedCommit {
            event,
            commit,
            sections,
        }),
        Err(fault) => Err(fault),
    }
}

/// What a message says, of which no two operations have one key.
#[tactic(auto, unfolding(crate::specs::Steps::single_event))]
fn single_event<'a, A: Allocator + Copy>(
    alloc: A,
    message: &'a [u8],
) -> Result<Event<'a, A>, EventFault>
    ensures read { Gives event_of event_fault_of result (single message.now) }
    ensures plain { IfErr result HasNoWant }
    ensures keyed { IfOk result (λ e. are_changes (undone (ordered_ops e.ops.items)) ≡ true) }
{
    let event = event(alloc, message)?;
    match doubled(&event.ops) {
        Some(place) => Err(EventFault::DoubledPath(place)),
        None => Ok(event),
    }
}

/// What a message says.
fn event<'a, A: Allocator + Copy>(alloc: A, message: &'a [u8]) -> Result<Event<'a, A>, EventFault>
    ensures read { Gives event_of event_fault_of result (of_form (reading message.now)) }
    ensures plain { IfErr result HasNoWant }
{
    match read_event(alloc, message) {
        Ok(event) => Ok(event),
        Err(FormFault::NoMemory) => Err(EventFault::NoMemory),
        Err(fault) => Err(EventFault::Form(fault)),
    }
}

/// Whether a message tells of a change of the tree with this root.
fn is_after<A: Allocator>(event: &Event<'_, A>, root: &Cid) -> bool
    ensures { result ≡ bytes_eq (bytes_of event.now.before) root.now }
{
    event.before.to_cid() == *root
}

/// The root that a commit names.
fn root_of(commit: &SignedCommit<'_>) -> Cid
    ensures { result ≡ bytes_of commit.now.root }
{
    commit.root.to_cid()
}

/// The commit of which a message tells, where its blocks show its operations, of which no two have one key.
#[tactic(auto, unfolding(crate::specs::Steps::shown_commit))]
fn commit_shown<'a, D: Digest, const B: u8, A: Allocator + Copy>(
    alloc: A,
    previous: Cid,
    event: &Event<'_, A>,
    sections: &[Section<'a>],
) -> Result<SignedCommit<'a>, EventFault>
    requires least { 1 ≤ B }
    requires changes { are_changes (undone (ordered_ops event.now.ops.items)) ≡ true }
    requires named { are_named D.digest_of (sections_of sections.now) ≡ true }
    ensures shown { Gives commit_of event_fault_of result (shown_commit D.digest_of B previous
        (sections_of sections.now) (event_of event.now)) }
    ensures plain { IfErr result HasNoWant }
{
    match commit(alloc, event, sections) {
        Ok(commit) => {
            test_changes::<D, B, A>(alloc, previous, root_of(&commit), sections, &event.ops)?;
            Ok(commit)
        }
        Err(fault) => Err(fault),
    }
}
