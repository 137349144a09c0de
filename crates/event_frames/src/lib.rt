//! How a stream of messages is cut into its frames (AT Protocol, event streams): each is two items of DAG-CBOR, a header and a
//! payload, and a stream that was kept in a file is frames one after the other.
//!
//! - [`frame_length`] says how many bytes the first frame of some bytes has, or why none ends there. It reads heads alone (RFC
//!   8949, section 3): whether a frame is a message, and of what, is for its reader to say.
//!
//! - [`first_frame`] cuts it off.
//!
//! ```rust
//! // a header {}, a payload [1], and what is behind them
//! assert!(rt; frame_length(b"\xa0\x81\x01\xa0") == Ok(3));
//! ```
#![tactic(auto)]

mod frame;

pub use frame::{first_frame, frame_length};
