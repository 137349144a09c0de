//! Why changes aren't proved.

use thiserror::Error;

/// Why a repository doesn't prove some changes.
#[derive(Clone, Copy, Debug, PartialEq, Eq, Error)]
pub enum ProvingFault {
    /// The key of the change at this place has another value now than the one told after it.
    #[error("the key of change {0} has another value")]
    OtherValue(usize),
    /// Memory was refused.
    #[error("out of memory")]
    NoMemory,
}
