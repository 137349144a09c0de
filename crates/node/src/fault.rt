//! Why bytes are no node.

use thiserror::Error;

/// What is wrong with a node's bytes, at the first place from the front where something is (AT Protocol repository
/// v3, MST node data format). An entry is tested when it has been read whole. The names are this
/// repository's own.
#[derive(Clone, Copy, Debug, PartialEq, Eq, Error)]
pub enum NodeFault {
    /// The bytes aren't those of a node: other fields, another order of them, a head that is not the shortest, another
    /// form of link, a `p` above 2^63 - 1, bytes that are missing or left over.
    #[error("the bytes are not those of a node")]
    NotNode,
    /// A `p` that isn't the length of the greatest common prefix with the key before. The first entry's is 0.
    #[error("a prefix is not what a key has in common with the one before")]
    BadPrefix,
    /// A key that isn't greater than the one before.
    #[error("the keys do not ascend")]
    KeyOrder,
    /// A key of no bytes or of more than 1,024.
    #[error("a key has no bytes or more than 1,024")]
    KeyLength,
}
