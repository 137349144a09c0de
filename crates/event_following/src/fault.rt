//! Why a repository doesn't follow a message.

ghost use Rattle.std.specs.Prelude.{◌≡◌};
ghost use Rattle.event_following.specs.declared.fault.FollowingFault.TheVariants as followings;

use batches::RepoFault;
use cid::Digest;
use commit_events::EventFault;
use std::alloc::{AllocError, AllocFailed, Allocator, Global};
use thiserror::Error;

/// Why a repository doesn't follow a message: the first of these, in this order. Nothing has changed then. A place is that of an
/// operation in the message, from 0.
#[derive(Drop, Error)]
#[derive_where(Debug)]
pub enum FollowingFault<D: Digest, A: Allocator = Global> {
    /// It is no message of this repository as it is, or doesn't hold its commit and the records of its operations: the first
    /// fault, as `commit_events::check_commit` names it. `EventFault::OtherPrevious` is of a message that comes twice, or after
    /// one that is missing.
    #[error("no message of the repository as it is: {0}")]
    Message(EventFault),

    /// The operations lead to another root than the one that the commit names: one of them is false, or one is missing.
    #[error("the operations lead to another root")]
    OtherRoot,

    /// The key of the operation at this place had another value than the one that the operation tells: of those at fault the one
    /// with the first path.
    #[error("the key of operation {0} had another value")]
    OtherValue(usize),

    /// The batch of the operations is refused at that of this place, as `repo::Core::apply` tells it, but for a want of memory. A
    /// revision that isn't after the last one is
    /// `RepoFault::RevOrder`, at the operation with the first path.
    #[error("the batch is refused at operation {0}: {1}")]
    Refused(usize, RepoFault<D, A>),

    /// Memory was refused. This says nothing of the message.
    #[error("out of memory")]
    NoMemory,
}

impl<D: Digest, A: Allocator> From<AllocError> for FollowingFault<D, A> {
    ghost from_gives = { λ _ fault. fault ≡ followings.NoMemory };

    fn from(_: AllocError) -> FollowingFault<D, A> {
        FollowingFault::NoMemory
    }
}

impl<D: Digest, A: Allocator, T: Drop> From<AllocFailed<T>> for FollowingFault<D, A> {
    ghost from_gives = { λ _ fault. fault ≡ followings.NoMemory };

    fn from(_: AllocFailed<T>) -> FollowingFault<D, A> {
        FollowingFault::NoMemory
    }
}
