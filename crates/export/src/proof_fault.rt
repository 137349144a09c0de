//! Why a proof shows nothing.

use node::NodeFault;
use thiserror::Error;

/// Why blocks don't prove what a tree has under a key.
#[derive(Clone, Copy, Debug, PartialEq, Eq, Error)]
pub enum ProofFault {
    /// A node that the key's path needs isn't among the blocks.
    #[error("a block of the path is missing")]
    BlockMissing,
    /// A block of the path is no node.
    #[error("a block of the path is no node: {0}")]
    BadNode(NodeFault),
    /// The path has more nodes than a tree has layers.
    #[error("the path is longer than any tree is deep")]
    TooDeep,
    /// The key has no bytes or more than 1,024.
    #[error("a key has no bytes or more than 1,024")]
    KeyLength,
}
