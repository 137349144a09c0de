//! Values that have no JSON form.

use dagcbor::read;
use record_json::has_form;
use std::alloc::Global;

/// Whole numbers past the range, keys that stand for links and bytes, and links of version 0: alone, and within others.
const WITHOUT: [&[u8]; 13] = [
    b"\x1b\x00\x20\x00\x00\x00\x00\x00\x00",
    b"\x3b\x00\x1f\xff\xff\xff\xff\xff\xff",
    b"\x81\x1b\x7f\xff\xff\xff\xff\xff\xff\xff",
    b"\xa1\x61a\x3b\x7f\xff\xff\xff\xff\xff\xff\xff",
    b"\xa1\x65$link\x61a",
    b"\xa1\x66$bytes\x60",
    b"\xa1\x65$link\xd8\x2a\x49\x00\x01\x55\x00\x04\x01\x02\x03\x04",
    b"\xa2\x61a\x02\x66$bytes\x01",
    b"\xa2\x65$link\x02\x67another\x01",
    b"\xa1\x61a\x81\xa1\x61b\xa1\x66$bytes\xf6",
    b"\xa1\x60\xa1\x65$link\x00",
    b"\xd8\x2a\x58\x23\x00\x12\x20abcdefghijklmnopqrstuvwxyz012345",
    b"\x82\x00\xd8\x2a\x58\x23\x00\x12\x20abcdefghijklmnopqrstuvwxyz012345",
];

/// Whether these bytes are those of a value without a form.
fn has_none(alloc: Global, bytes: &[u8]) -> bool {
    match read(alloc, bytes) {
        Ok(value) => !has_form(&value),
        Err(_) => false,
    }
}

#[test]
fn values_without_a_form(rt: HostRuntime) {
    for bytes in &WITHOUT {
        assert!(rt; has_none(rt.alloc(), bytes), "at {bytes:?}");
    }
}
