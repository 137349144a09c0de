//! What the AT Protocol asks of the parts of a repository, each by itself: DIDs, revisions, record paths and records.
//!
//! - [`is_did`] and [`is_tid`] test whose repository it is and its revision, as a commit names them.
//! - [`is_repository_key`] tests a record path: a collection, a slash and a record key.
//! - [`test_record`] tests a record: one map in DAG-CBOR, within the greatest size. [`RecordFault`] says what is wrong,
//!   [`bad_record_name`] names it for commands and reports.
//!
//! They know nothing of batches and trees, so a reader of commits or of whole files stands on them alone.
#![tactic(auto)]

mod fault;
mod keys;
mod letters;
mod names;
mod records;
mod stamps;

pub use fault::RecordFault;
pub use keys::is_repository_key;
pub use names::bad_record_name;
pub use records::test_record;
pub use stamps::{is_did, is_tid};
