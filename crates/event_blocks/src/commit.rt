//! The signed commit of a message.

ghost use Rattle.spec.specs.Reading.{Gives};
ghost use Rattle.spec.specs.SignedCommits.{read_commit as reading};
ghost use Rattle.signed_commits.specs.Views.{commit_of};
ghost use Rattle.event_laws.specs.Verdict.{commit_in as commit_where, of_commit};
ghost use Rattle.event_format.specs.Views.{event_of};
ghost use Rattle.event_blocks.specs.Views.{blocks_fault_of};

use crate::fault::BlocksFault;
use car_reader::Places;
use event_format::Event;
use signed_commits::{SignedCommit, read_commit};
use std::alloc::Allocator;

/// The commit that a block is.
fn signed(block: &[u8]) -> Result<SignedCommit<'_>, BlocksFault>
    ensures { Gives commit_of blocks_fault_of result (of_commit (reading block.now)) }
{
    match read_commit(block) {
        Ok(commit) => Ok(commit),
        Err(fault) => Err(BlocksFault::Commit(fault)),
    }
}

/// The commit of which a message tells, among the blocks. `BlocksFault::CommitMissing`, `Commit`, `OtherDid` or `OtherRev` where
/// there is none.
#[tactic(auto, unfolding(event_laws::specs::Verdict::commit_in))]
pub fn commit_in<'f, A: Allocator>(
    places: &Places<'_, 'f, A>,
    event: &Event<'_, A>,
) -> Result<SignedCommit<'f>, BlocksFault>
    ensures { Gives commit_of blocks_fault_of result
        (commit_where places.now (event_of event.now)) }
{
    let Some(block) = places.find(&event.commit.to_cid()) else {
        return Err(BlocksFault::CommitMissing);
    };
    let commit = signed(block)?;
    if commit.did != event.did {
        return Err(BlocksFault::OtherDid);
    }
    if commit.rev != event.rev {
        return Err(BlocksFault::OtherRev);
    }
    Ok(commit)
}
