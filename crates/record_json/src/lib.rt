//! Records as people write them: the JSON form of the AT Protocol's data model.
//!
//! - [`json_of`] spells a value in its one JSON text: keys in the order of DAG-CBOR, no spaces, the shortest escapes,
//!   links as `{"$link": ..}`, bytes as `{"$bytes": ..}`.
//! - Not each value has one: [`has_form`] tells.
//! - [`dag_cbor_of`] reads a text of any such layout: it gives the record's bytes, or the first fault and where that is.
//!   [`dag_cbor_of_bytes`] takes bytes that may not be UTF-8.
//! - [`link_text`] and [`cid_of_link`] are the texts of links by themselves, as those of blobs.
//! - [`laws`] say what the form means: the text is JSON, what is written is read back, and no two values have one text.
//!
//! A value is read from a record's bytes by `dagcbor::read`, which lends it from them.
#![tactic(auto)]

mod base32;
mod fault;
mod form;
mod keys;
pub mod laws;
mod leaves;
mod numbers;
mod path;
mod reading;
mod special;
mod texts;
mod writing;

pub use fault::{JsonFault, JsonFaultKind};
pub use form::has_form;
pub use reading::dag_cbor_of;
pub use texts::{cid_of_link, dag_cbor_of_bytes, link_text};
pub use writing::json_of;
