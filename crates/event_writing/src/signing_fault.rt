//! Why a signed batch isn't accepted.

ghost use Rattle.std.specs.Prelude.{◌≡◌};
ghost use Rattle.event_writing.specs.declared.signing_fault.SigningFault.TheVariants as signings;
ghost use Rattle.event_writing.specs.Signing.{refused_as, unsigned_as};

use crate::fault::UntoldFault;
use batches::RepoFault;
use cid::Digest;
use event_format::FormFault;
use std::alloc::{AllocError, AllocFailed, Allocator, Global};
use thiserror::Error;

/// Why a signed batch isn't accepted. Nothing has changed then.
///
/// The tests come in this order: the root before, the batch, its message, and then the store.
#[derive(Drop, Error)]
#[derive_where(Debug)]
pub enum SigningFault<D: Digest, A: Allocator = Global> {
    /// The repository's root isn't the one that the batch was signed over: another batch came between. Who prepares it anew has
    /// another commit to sign.
    #[error("the repository has another root")]
    RootMoved,

    /// The batch is refused at the write of this place, as `Core::apply` tells it, but for a want of memory.
    #[error("the batch is refused at write {0}: {1}")]
    Refused(usize, RepoFault<D, A>),

    /// The batch can't be told. Who accepts it by `Core::apply` all the same sends a message `#sync` of what it leaves.
    #[error("the batch can't be told: {0}")]
    Untold(UntoldFault),

    /// Memory was refused. This says nothing of the batch.
    #[error("out of memory")]
    NoMemory,
}

impl<D: Digest, A: Allocator> From<AllocError> for SigningFault<D, A> {
    ghost from_gives = { λ _ fault. fault ≡ signings.NoMemory };

    fn from(_: AllocError) -> SigningFault<D, A> {
        SigningFault::NoMemory
    }
}

impl<D: Digest, A: Allocator, T: Drop> From<AllocFailed<T>> for SigningFault<D, A> {
    ghost from_gives = { λ _ fault. fault ≡ signings.NoMemory };

    fn from(_: AllocFailed<T>) -> SigningFault<D, A> {
        SigningFault::NoMemory
    }
}

/// What a refusal of the batch is here.
pub(crate) fn refused<D: Digest, A: Allocator>(
    place: usize,
    fault: RepoFault<D, A>,
) -> SigningFault<D, A>
    ensures { result ≡ refused_as place fault }
{
    match fault {
        RepoFault::NoMemory => SigningFault::NoMemory,
        fault => SigningFault::Refused(place, fault),
    }
}

/// What it is here that a batch can't be told.
pub(crate) fn untold<D: Digest, A: Allocator>(fault: UntoldFault) -> SigningFault<D, A>
    ensures { result ≡ unsigned_as fault }
{
    match fault {
        UntoldFault::NoMemory | UntoldFault::Form(FormFault::NoMemory) => SigningFault::NoMemory,
        fault => SigningFault::Untold(fault),
    }
}
