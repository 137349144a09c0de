use thiserror::Error;

/// What is wrong with a text, or with bytes, that should be the identifier of a block of this host. The names are
/// this repository's own.
#[derive(Clone, Copy, PartialEq, Eq, Debug, Error)]
pub enum CidFault {
    /// The text isn't 59 bytes long.
    #[error("a CID has 59 characters")]
    BadLength,
    /// The first character isn't the multibase prefix `b`.
    #[error("a CID begins with the letter b, for base32 in lower case")]
    BadPrefix,
    /// A later character is none of `a` to `z` and `2` to `7`.
    #[error("a CID has only the letters a to z and the digits 2 to 7")]
    BadLetter,
    /// The two bits after the last byte aren't zero.
    #[error("the last letter of a CID stands for bits that belong to no byte")]
    BadBits,
    /// The bytes don't begin with `01 71 12 20`.
    #[error("the CID isn't of version 1 with codec dag-cbor and hash SHA-256")]
    NotThisProfile,
}
