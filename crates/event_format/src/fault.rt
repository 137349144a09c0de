//! Why bytes are no message.

ghost use Rattle.std.specs.Prelude.{◌≡◌};
ghost use Rattle.event_format.specs.declared.fault.FormFault.TheVariants as errors;

use dagcbor::CborFault;
use std::alloc::{AllocError, AllocFailed};
use thiserror::Error;

/// A field of a message's second value, in the order in which DAG-CBOR has them.
#[derive(Clone, Copy, PartialEq, Eq, Debug)]
pub enum Field {
    Ops,
    Rev,
    Seq,
    Repo,
    Time,
    Blobs,
    Since,
    Blocks,
    Commit,
    Rebase,
    TooBig,
    PrevData,
}

/// Why bytes are no message: the first of these, in this order. A place is that of an operation in the message, from 0.
#[derive(Clone, Copy, PartialEq, Eq, Debug, Error)]
pub enum FormFault {
    /// It has more bytes than `limits` allows.
    #[error("the message is too long")]
    MessageSize,
    /// It doesn't begin with `HEADER`: another message of the stream, or none.
    #[error("no message #commit")]
    NotCommit,
    /// What follows isn't one value in DAG-CBOR: the first fault in it.
    #[error("the message is not DAG-CBOR")]
    Cbor(CborFault),
    /// It is a value, but no map.
    #[error("the message is no map")]
    NotAMap,
    /// The first field that isn't there, or is of another kind. Fields of other names are passed over.
    #[error("a field is missing or of another kind")]
    BadField(Field),
    /// It says that it is a rebase, of which sync 1.1 has none.
    #[error("a rebase")]
    Rebase,
    /// It says that it is too big to hold all.
    #[error("the message does not hold all")]
    TooBig,
    /// It has more operations than `limits` allows.
    #[error("too many operations")]
    TooManyOps,
    /// Its CAR file has more bytes than `limits` allows.
    #[error("the blocks have too many bytes")]
    BlocksSize,
    /// Its repository is no DID.
    #[error("the repository is no DID")]
    BadDid,
    /// Its revision is no timestamp identifier.
    #[error("the revision is no timestamp identifier")]
    BadRev,
    /// The revision before is no timestamp identifier.
    #[error("the revision before is no timestamp identifier")]
    BadSince,
    /// Its revision isn't after the one before.
    #[error("the revision is not after the one before")]
    RevOrder,
    /// Its time isn't of the form of a time.
    #[error("the time is none")]
    BadTime,
    /// The operation at this place isn't a create with a `cid`, an update with a `cid` and another `prev`, or a delete with a
    /// `prev`, of the path of a record.
    #[error("operation {0} is none")]
    BadOp(usize),
    /// Memory was refused. This says nothing of the message.
    #[error("out of memory")]
    NoMemory,
}

impl From<AllocError> for FormFault {
    ghost from_gives = { λ _ e. e ≡ errors.NoMemory };

    fn from(_refused: AllocError) -> FormFault {
        FormFault::NoMemory
    }
}

impl<T: Drop> From<AllocFailed<T>> for FormFault {
    ghost from_gives = { λ _ e. e ≡ errors.NoMemory };

    fn from(_refused: AllocFailed<T>) -> FormFault {
        FormFault::NoMemory
    }
}
