//! Why a word is no record.

use record_json::JsonFaultKind;
use std::alloc::{Allocator, Global};

/// Why a word is no record.
#[derive(Drop)]
#[derive_where(Debug)]
pub enum WordFault<A: Allocator = Global> {
    /// It is empty, or it isn't bytes in hexadecimal.
    BadWord,
    /// It has this fault as JSON, the first one.
    Json {
        kind: JsonFaultKind,
        /// The way to it from the outside, as `record_json::JsonFault` has it: graphic characters of ASCII alone.
        path: String<A>,
    },
}
