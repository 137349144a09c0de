//! Why calls are refused.

ghost use Rattle.std.specs.Prelude.{◌≡◌};
ghost use Rattle.host.specs.declared.fault.OpenFault.TheVariants as faults;

use batches::RepoFault;
use cid::Digest;
use std::alloc::{AllocError, Allocator, Global};
use thiserror::Error;

/// Why a writer's call was refused. The writer is as before then, and so is each core to which the call came.
#[derive(Drop, Error)]
#[derive_where(Debug)]
pub enum HostFault<D: Digest, A: Allocator = Global> {
    /// There is no repository of this number.
    #[error("there is no such repository")]
    NoSuchRepository,
    /// The batch was refused: the place of the refused write, from 0, and the fault.
    #[error("the batch is refused at write {0}")]
    Refused(usize, RepoFault<D, A>),
    /// Memory was refused.
    #[error("out of memory")]
    NoMemory,
    /// The writer's last accepted call has the number 2^64 - 1.
    #[error("the writer has no number for one more accepted call")]
    SeqFull,
}

/// Why a batch that was made over a root wasn't applied. The writer is as before then, and so is each core to which the call
/// came.
#[derive(Drop, Error)]
#[derive_where(Debug)]
pub enum ApplyFromFault<D: Digest, A: Allocator = Global> {
    /// The repository has another root than the one before: another batch came between.
    #[error("the repository has another root")]
    OtherRoot,
    /// What a batch is refused for wherever it comes from.
    #[error("{0}")]
    Host(HostFault<D, A>),
}

/// Why a host wasn't opened.
#[derive(Debug, Drop, Error)]
pub enum OpenFault {
    /// Not 1 to 1,024 repositories.
    #[error("not 1 to 1,024 repositories")]
    BadRepos,
    /// Not 1 to 64 writers.
    #[error("not 1 to 64 writers")]
    BadWriters,
    /// Not room for 1 to 65,536 notices in the queue.
    #[error("not 1 to 65,536 notices")]
    BadQueue,
    /// Not 1 to 1,048,576 blocks a shard.
    #[error("not 1 to 1,048,576 blocks a shard")]
    BadBlocks,
    /// Not 1 to 1,048,576 writes a repository.
    #[error("not 1 to 1,048,576 writes a repository")]
    BadWrites,
    /// Memory was refused.
    #[error("out of memory")]
    NoMemory,
}

impl From<AllocError> for OpenFault {
    ghost from_gives = { λ _ fault. fault ≡ faults.NoMemory };

    fn from(_refused: AllocError) -> OpenFault {
        OpenFault::NoMemory
    }
}
