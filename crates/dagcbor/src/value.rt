//! Values of the data model, whose bytes and texts are lent.

use std::alloc::{Allocator, Global};

/// How many levels deep lists and maps may lie: one that holds no other is one level. This bound is this repository's own;
/// DAG-CBOR has none.
pub const MAX_DEPTH: u8 = 64;

/// A value of the data model (IPLD DAG-CBOR; AT Protocol data model, which has no floats). Its bytes and texts are lent: those
/// of a value that was read are slices of what it was read from.
#[derive(Debug, Drop)]
pub enum Value<'a, A: Allocator = Global> {
    Null,
    Bool(bool),
    Int(i64),
    Bytes(&'a [u8]),
    Text(&'a str),
    /// The items in order.
    List(Vec<Value<'a, A>, A>),
    /// The keys in order, each with its value.
    Map(Vec<(&'a str, Value<'a, A>), A>),
    /// The bytes of a CID, without the byte 00 that stands before them in a link.
    Link(&'a [u8]),
}
