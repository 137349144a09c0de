//! Why bytes are no value, or that there was no memory.

ghost use Rattle.std.specs.Prelude.{◌≡◌};
ghost use Rattle.dagcbor.specs.declared.fault.CborFault.TheVariants as errors;

use std::alloc::{AllocError, AllocFailed};
use thiserror::Error;

/// What is wrong with an encoded value, at the first place from the left where something is; or `NoMemory`.
/// The rules are those of IPLD DAG-CBOR (strictness, links) over RFC 8949; the names are this repository's own.
#[derive(Clone, Copy, Debug, PartialEq, Eq, Error)]
pub enum CborFault {
    /// The bytes end inside an item.
    #[error("the bytes end inside an item")]
    Truncated,
    /// A head is longer than its number needs, or of a form that RFC 8949 reserves.
    #[error("a head is longer than its number needs")]
    LongHead,
    /// An item of indefinite length, or its end (RFC 8949, section 3.2).
    #[error("an item has no definite length")]
    Indefinite,
    /// A tag other than 42.
    #[error("a tag other than 42, the one of links")]
    BadTag,
    /// Tag 42 stands over something other than the byte 00 and a CID in a byte string.
    #[error("a link holds no CID")]
    BadLink,
    /// A map's key isn't a text.
    #[error("the key of a map is no text")]
    KeyNotText,
    /// A map's keys don't ascend, shorter ones first and those of one length bytewise.
    #[error("the keys of a map are not distinct and in order")]
    KeyOrder,
    /// A text isn't UTF-8.
    #[error("a text is not UTF-8")]
    BadUtf8,
    /// A floating-point number, which the AT Protocol's data model doesn't have.
    #[error("a floating-point number")]
    Float,
    /// A simple value other than false, true and null.
    #[error("a simple value other than false, true and null")]
    Simple,
    /// A whole number outside the range of 64 bits with a sign.
    #[error("a whole number does not fit 64 bits with a sign")]
    IntegerRange,
    /// Lists and maps more than `MAX_DEPTH` levels deep.
    #[error("lists and maps lie more than 64 levels deep")]
    TooDeep,
    /// Bytes after the value.
    #[error("bytes follow the value")]
    Trailing,
    /// Memory that was wanted was refused. This says nothing of the bytes.
    #[error("out of memory")]
    NoMemory,
}

impl From<AllocError> for CborFault {
    ghost from_gives = { λ _ e. e ≡ errors.NoMemory };

    fn from(_refused: AllocError) -> CborFault {
        CborFault::NoMemory
    }
}

impl<T: Drop> From<AllocFailed<T>> for CborFault {
    ghost from_gives = { λ _ e. e ≡ errors.NoMemory };

    fn from(_refused: AllocFailed<T>) -> CborFault {
        CborFault::NoMemory
    }
}
