//! The form of messages `#commit` and `#sync` of the event stream `com.atproto.sync.subscribeRepos` (AT Protocol, event streams,
//! sync 1.1): two values of DAG-CBOR, of which the first is [`HEADER`] or [`SYNC_HEADER`]. The second says what a batch
//! changed, or in which state a repository is.
//!
//! - [`read_event`] takes a message's bytes and tests all that needs no blocks. What it says is lent from them. It names the
//!   first fault, [`FormFault`].
//! - [`write_event`] spells an event.
//! - [`write_sync`] spells what a message `#sync` says.
//! - [`action_of`] is what an operation is called. [`test_since`] tests a revision by the one before.
//!
//! The bounds of a message stand in `event_times::limits`.
#![tactic(auto)]

mod event;
mod fault;
mod fields;
mod kinds;
mod ops;
mod ops_reading;
mod parts;
mod reading;
mod said;
mod sync_event;
mod sync_writing;
mod writing;

pub use event::{Event, HEADER};
pub use fault::{Field, FormFault};
pub use ops::action_of;
pub use reading::read_event;
pub use said::test_since;
pub use sync_event::{MOST_SYNC_BYTES, SYNC_HEADER, SyncEvent};
pub use sync_writing::write_sync;
pub use writing::write_event;
