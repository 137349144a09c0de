//! Why there is no next timestamp identifier.

use thiserror::Error;

/// Why there is no next timestamp identifier: the first of these, in this order.
#[derive(Clone, Copy, PartialEq, Eq, Debug, Error)]
pub enum TidFault {
    /// The last one isn't one.
    #[error("the last one is no timestamp identifier")]
    BadTid,
    /// The microseconds have more than 53 bits, or the clock's number more than 10.
    #[error("the time or the clock is out of range")]
    OutOfRange,
    /// The last one is that of the last microsecond, or isn't one of 53 bits of microseconds.
    #[error("there is none after the last one")]
    NoneAfter,
}
