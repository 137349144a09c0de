//! The faults of a close.

use thiserror::Error;

/// Where cores and their places, cores and tables, or cores and what writers have seen, don't agree.
#[derive(Clone, Copy, PartialEq, Eq, Debug, Error)]
pub enum Mismatch {
    /// Some core's number isn't its place.
    #[error("a repository's number is not its place")]
    Numbers,

    /// The cores that are entered for some CID aren't those that have a block with it.
    #[error("the cores entered for a block are not those that have it")]
    Counts,

    /// Some core has fewer accepted writes than a writer has seen there.
    #[error("a repository has fewer writes than a writer has seen")]
    Lists,
}
