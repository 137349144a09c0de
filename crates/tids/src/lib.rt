//! Timestamp identifiers (AT Protocol, TID): revisions and record keys that ascend with time.
//!
//! - [`next_tid`] is the next one after the last, at a time by a clock that may have gone back. [`TidFault`] says why there is none.
//!
//! Which bytes are one is told by `record_rules::is_tid`. The clock is the caller's.
#![tactic(auto)]

mod fault;
mod letters;
mod next;

pub use fault::TidFault;
pub use next::next_tid;
