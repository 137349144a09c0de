//! Records as words of lines: in hexadecimal, or as JSON, as people write them (AT Protocol data model).
//!
//! - [`record_of_word`] gives the bytes of the record that a word stands for in a [`Form`], or why it stands for none
//!   ([`WordFault`]).
//! - [`word_of_record`] gives the word of a record in a form, and hexadecimal where it has no JSON.
//! - [`json_of_record`] gives the JSON of a record by its bytes, where it has one, and [`has_json`] whether it has.
//! - [`json_option`] is a command's option `--json`, and [`form_of`] the form that its words ask for.
//! - [`json_fault_name`] and [`JsonFaultText`] are what standard error shows of a fault of JSON.
#![tactic(auto)]

mod fault;
mod form;
mod names;
mod options;
mod reading;
mod writing;

pub use fault::WordFault;
pub use form::Form;
pub use names::{JsonFaultText, json_fault_name};
pub use options::{form_of, json_option};
pub use reading::record_of_word;
pub use writing::{has_json, json_of_record, word_of_record};
