//! Which values have a spelling.

ghost use Rattle.std.specs.Prelude.{◌≡◌, true, None};
ghost use Rattle.std.specs.Str.{is_utf8};
ghost use Rattle.spec.specs.DagCbor.{is_signed_64, fits_length, is_lawful_within, are_lawful_within, are_entries_within, is_lawful};
ghost use Rattle.dagcbor.specs.View.{view, view_items, view_fields};

use crate::cid::is_cid;
use crate::keys::is_next_key;
use crate::value::{MAX_DEPTH, Value};
use std::alloc::Allocator;

/// Whether a value has a spelling (IPLD DAG-CBOR, strictness): each map's keys ascend, a shorter one first and those of one length
/// bytewise; each link holds a CID; and lists and maps lie at most `MAX_DEPTH` levels deep, a bound of this
/// repository's own.
pub fn is_lawful<A: Allocator>(value: &Value<'_, A>) -> bool
    ensures { result ≡ is_lawful (view value.now) }
{
    is_lawful_within(MAX_DEPTH, value)
}

/// A law: each number of 64 bits with a sign has a spelling.
fn integer_has_spelling(_n: i64)
    ensures { is_signed_64 _n ≡ true }
{}

/// A law: no slice is longer than a head can say, as its length is a number of 64 bits.
fn length_has_spelling(_bytes: &[u8])
    ensures { fits_length _bytes.now ≡ true }
{}

/// A law: each text has a spelling, as a `str` is UTF-8.
fn text_has_spelling(text: &str)
    ensures length { fits_length text.now ≡ true }
    ensures utf8 { is_utf8 text.now ≡ true }
{
    length_has_spelling(text.as_bytes());
}

#[cycle(lawful)]
fn is_lawful_within<A: Allocator>(levels: u8, value: &Value<'_, A>) -> bool
    ensures { result ≡ is_lawful_within levels (view value.now) }
{
    match value {
        Value::Null | Value::Bool(_) => true,
        Value::Int(n) => {
            integer_has_spelling(*n);
            true
        }
        Value::Bytes(bytes) => {
            length_has_spelling(bytes);
            true
        }
        Value::Text(text) => {
            text_has_spelling(text);
            true
        }
        Value::List(items) => levels > 0 && are_lawful_within(levels - 1, items),
        Value::Map(fields) => levels > 0 && are_fields_lawful(levels - 1, fields),
        Value::Link(cid) => is_cid(cid),
    }
}

#[cycle(lawful)]
fn are_lawful_within<A: Allocator>(levels: u8, items: &Vec<Value<'_, A>, A>) -> bool
    ensures { result ≡ are_lawful_within levels (view_items items.now.items) }
{
    for item in items {
        if !is_lawful_within(levels, item) {
            return false;
        }
    }
    true
}

#[cycle(lawful)]
fn are_fields_lawful<A: Allocator>(levels: u8, fields: &Vec<(&str, Value<'_, A>), A>) -> bool
    ensures { result ≡ are_entries_within levels None (view_fields fields.now.items) }
{
    let mut before = None;
    for (key, value) in fields {
        text_has_spelling(key);
        if !is_next_key(before, key) || !is_lawful_within(levels, value) {
            return false;
        }
        before = Some(*key);
    }
    true
}
