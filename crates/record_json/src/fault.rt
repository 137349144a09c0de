//! Why a JSON text is no record, and where in it.

ghost use Rattle.std.specs.Prelude.{◌≡◌};
ghost use Rattle.record_json.specs.declared.fault.JsonFaultKind.TheVariants as errors;

use std::alloc::{AllocError, AllocFailed, Allocator, Global};
use thiserror::Error;

/// What is wrong with a JSON text; or `NoMemory`. The rules are those of the AT Protocol's data model over RFC 8259; the
/// names are this repository's own.
#[derive(Clone, Copy, Debug, PartialEq, Eq, Error)]
pub enum JsonFaultKind {
    /// The text isn't JSON, or nests more than 128 levels deep.
    #[error("the text is not JSON")]
    NotJson,
    /// An object has a key twice.
    #[error("a key stands twice in an object")]
    DoubledKey,
    /// A number with a point or an exponent, which the data model doesn't have.
    #[error("a number has a point or an exponent")]
    Float,
    /// A whole number outside of -(2^53 - 1) to 2^53 - 1.
    #[error("a whole number is outside the range that each reader of JSON holds")]
    IntegerRange,
    /// Under `$link` stands no text of a CID of version 1.
    #[error("a link holds no CID of version 1 in base 32")]
    BadLink,
    /// Under `$bytes` stands no text in base 64.
    #[error("bytes are not in base 64")]
    BadBytes,
    /// An object has `$link` or `$bytes` and other keys.
    #[error("an object with $link or $bytes has other keys")]
    BadDollar,
    /// Lists and maps more than `dagcbor::MAX_DEPTH` levels deep.
    #[error("lists and maps lie more than 64 levels deep")]
    TooDeep,
    /// The value isn't a map (AT Protocol, record).
    #[error("the value is not a map")]
    NotAMap,
    /// Memory that was wanted was refused. This says nothing of the text.
    #[error("out of memory")]
    NoMemory,
}

impl From<AllocError> for JsonFaultKind {
    ghost from_gives = { λ _ e. e ≡ errors.NoMemory };

    fn from(_refused: AllocError) -> JsonFaultKind {
        JsonFaultKind::NoMemory
    }
}

impl<T: Drop> From<AllocFailed<T>> for JsonFaultKind {
    ghost from_gives = { λ _ e. e ≡ errors.NoMemory };

    fn from(_refused: AllocFailed<T>) -> JsonFaultKind {
        JsonFaultKind::NoMemory
    }
}

/// The first fault of a JSON text, and where it is.
#[derive(Debug, Drop, Error)]
#[error("{path}: {kind}")]
pub struct JsonFault<A: Allocator = Global> {
    pub kind: JsonFaultKind,
    /// The way to it from the outside: `.key` for a key of an object, `[place]` for an item of a list, counted from 0. Of a key
    /// each byte that isn't a graphic character of ASCII, or is `%`, `.`, `[` or `]`, is `%` and two hexadecimal digits.
    /// It is empty where the fault is that of the whole text.
    pub path: String<A>,
}
