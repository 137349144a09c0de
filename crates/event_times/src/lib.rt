//! The bounds of messages `#commit` of the event stream (AT Protocol, sync 1.1), and the form of their times.
//!
//! - [`limits`] has the bounds.
//! - [`is_time`] tests the form of a time.
#![tactic(auto)]

pub mod limits;
mod times;

pub use times::is_time;
