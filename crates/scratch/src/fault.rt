//! Why a tree was not built.

ghost use Rattle.std.specs.Prelude.{◌≡◌};
ghost use Rattle.scratch.specs.declared.fault.ScratchFault.TheVariants.{NoMemory};

use block::Collided;
use cid::Digest;
use std::alloc::{AllocError, AllocFailed, Allocator, Global};
use thiserror::Error;

/// Why a tree was not built. Nothing is left behind then.
#[derive(Drop, Error)]
#[derive_where(Debug)]
pub enum ScratchFault<D: Digest, A: Allocator = Global> {
    /// Two nodes of this tree have one CID and different bytes.
    #[error("two different nodes have one CID")]
    Clash(Collided<D, A>),

    /// Memory was refused.
    #[error("out of memory")]
    NoMemory,
}

impl<D: Digest, A: Allocator> From<AllocError> for ScratchFault<D, A> {
    ghost from_gives = { λ _ fault. fault ≡ NoMemory };

    fn from(_: AllocError) -> ScratchFault<D, A> {
        ScratchFault::NoMemory
    }
}

impl<D: Digest, A: Allocator, T: Drop> From<AllocFailed<T>> for ScratchFault<D, A> {
    ghost from_gives = { λ _ fault. fault ≡ NoMemory };

    fn from(_: AllocFailed<T>) -> ScratchFault<D, A> {
        ScratchFault::NoMemory
    }
}
