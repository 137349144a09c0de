//! The message of a state.

ghost use Rattle.std.specs.Prelude.{◌≡◌, length, nat_le, IfOk};
ghost use Rattle.spec.specs.Reading.{Gives};
ghost use Rattle.spec.specs.States.{records};
ghost use Rattle.batches.specs.Values.{stamp_of};
ghost use Rattle.event_laws.specs.Syncs.{most_sync_bytes, sync_bytes};
ghost use Rattle.event_writing_laws.specs.Syncs.{commit_file as file_of_commit, short_commit_file, sync_message, sync_of};
ghost use Rattle.event_writing.specs.Views.{untold_fault_of};
ghost use Rattle.event_writing.specs.Syncing.{sync_stamped, sync_told_of, sync_with as sync_with_commit};

use crate::fault::UntoldFault;
use crate::sync_told::{SyncTold, test_sync};
use batches::{Stamp, last_stamp, signed_block};
use block::Block;
use car_writing::{push_header, push_section};
use cid::Digest;
use event_format::{FormFault, MOST_SYNC_BYTES, SyncEvent, write_sync};
use repo::Core;
use std::alloc::{AllocError, Allocator};

/// The message `#sync` of a repository as it is now; or why there is none: `UntoldFault::NoBatch` before the first batch, then
/// `UntoldFault::BadSeq`, and as `UntoldFault::Form` `BadTime` and, where the file of the commit has more than 10,000 bytes,
/// `BlocksSize`.
///
/// It says whose repository it is and which revision it has, and holds the commit with the signature, and no other block. A host
/// sends it where a batch can't be told: whoever follows the repository then knows the root, and fetches what it lacks.
///
/// `UntoldFault::NoMemory` comes wherever memory was refused. The repository stays as it is.
pub fn sync_event<D: Digest, const B: u8, A: Allocator + Copy>(
    alloc: A,
    core: &Core<D, B, A>,
    told: &SyncTold<'_>,
) -> Result<Vec<u8, A>, UntoldFault>
    // The answer is the message, or why there is none, but for want of memory.
    ensures { Gives (λ message. message.items) untold_fault_of result
        (sync_message D.digest_of B core.now (sync_told_of told.now)) }
{
    match last_stamp(core.stamps()) {
        Some(stamp) => stamped_sync::<D, B, A>(alloc, core, stamp, told),
        None => Err(UntoldFault::NoBatch),
    }
}

/// The message over a batch with this stamp.
#[tactic(auto, unfolding(crate::specs::Syncing::sync_stamped))]
fn stamped_sync<D: Digest, const B: u8, A: Allocator + Copy>(
    alloc: A,
    core: &Core<D, B, A>,
    stamp: &Stamp<A>,
    told: &SyncTold<'_>,
) -> Result<Vec<u8, A>, UntoldFault>
    ensures { Gives (λ message. message.items) untold_fault_of result
        (sync_stamped D.digest_of B (records core.now) (stamp_of stamp.now)
        (sync_told_of told.now)) }
{
    test_sync(told)?;
    let root = core.root();
    let commit = signed_block::<D, A>(alloc, stamp, &root, told.sig)?;
    sync_with::<D, A>(alloc, stamp, &commit, told)
}

/// The message with this commit.
#[tactic(auto, unfolding(crate::specs::Syncing::sync_with))]
fn sync_with<D: Digest, A: Allocator + Copy>(
    alloc: A,
    stamp: &Stamp<A>,
    commit: &Block<D, A>,
    told: &SyncTold<'_>,
) -> Result<Vec<u8, A>, UntoldFault>
    ensures { Gives (λ message. message.items) untold_fault_of result
        (sync_with_commit D.digest_of (stamp_of stamp.now) commit.now (sync_told_of told.now)) }
{
    let file = short_file::<D, A>(alloc, commit)?;
    let bytes = sync_of_file(alloc, stamp, told, &file)?;
    Ok(bytes)
}

/// The bytes of the message with this file.
fn sync_of_file<A: Allocator + Copy>(
    alloc: A,
    stamp: &Stamp<A>,
    told: &SyncTold<'_>,
    file: &[u8],
) -> Result<Vec<u8, A>, AllocError>
    ensures { IfOk result (λ bytes. bytes.items
        ≡ sync_bytes (sync_of (sync_told_of told.now) (stamp_of stamp.now) file.now)) }
{
    let sync = SyncEvent {
        seq: told.seq,
        did: &stamp.did,
        blocks: file,
        rev: &stamp.rev,
        time: told.time,
    };
    write_sync(alloc, &sync)
}

/// The CAR file of a commit, unless it has more bytes than a message may have.
#[tactic(auto, unfolding(event_writing_laws::specs::Syncs::short_commit_file))]
fn short_file<D: Digest, A: Allocator>(
    alloc: A,
    commit: &Block<D, A>,
) -> Result<Vec<u8, A>, UntoldFault>
    ensures { Gives (λ file. file.items) untold_fault_of result
        (short_commit_file (file_of_commit D.digest_of commit.now)) }
{
    let file = commit_file::<D, A>(alloc, commit)?;
    if !is_short(&file) {
        return Err(UntoldFault::Form(FormFault::BlocksSize));
    }
    Ok(file)
}

/// Whether a file is no longer than a message may have it.
fn is_short(file: &[u8]) -> bool
    ensures { result ≡ nat_le (length file.now) most_sync_bytes }
{
    file.len() <= MOST_SYNC_BYTES
}

/// The CAR file of a commit alone, which is its root.
fn commit_file<D: Digest, A: Allocator>(
    alloc: A,
    commit: &Block<D, A>,
) -> Result<Vec<u8, A>, AllocError>
    ensures { IfOk result (λ file. file.items ≡ file_of_commit D.digest_of commit.now) }
{
    let cid = commit.cid();
    let mut file = Vec::new(alloc);
    push_header(&mut file, &cid)?;
    push_section(&mut file, &cid, commit.bytes())?;
    Ok(file)
}
