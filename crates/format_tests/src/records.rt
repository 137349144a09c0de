//! Readings of records by their bytes.

use dagcbor::{CborFault, Cursor, Value, is_lawful, read, write};
use std::alloc::{Allocator, Global};
use std::process::Abort;

/// Each of these is the spelling of a value.
const SPELLINGS: [&[u8]; 19] = [
    b"\xa0",
    b"\x80",
    b"\x00",
    b"\x38\x63",
    b"\xf4",
    b"\xf5",
    b"\xf6",
    b"\x1b\x7f\xff\xff\xff\xff\xff\xff\xff",
    b"\x3b\x7f\xff\xff\xff\xff\xff\xff\xff",
    b"\x19\x01\x00",
    b"\x1a\x00\x01\x00\x00",
    b"\x44\x00\x01\x02\xff",
    b"\x62\xc3\xa9",
    b"\x83\x01\x82\x02\x03\xa1\x61a\x80",
    b"\xa2\x61b\xf6\x62aa\xf5",
    b"\xa2\x61b\x00\x62aa\x00",
    b"\xd8\x2a\x49\x00\x01\x55\x00\x04\x01\x02\x03\x04",
    b"\xd8\x2a\x58\x23\x00\x12\x20abcdefghijklmnopqrstuvwxyz012345",
    OWN_LINK,
];

/// The link to the node without entries: a CID of 36 bytes.
const OWN_LINK: &[u8] = b"\xd8\x2a\x58\x25\x00\x01\x71\x12\x20\
    \x9d\xfe\xfe\x61\xdd\x76\xea\x3d\xca\xe5\x02\x38\x80\xb0\x83\x79\
    \xd5\x7a\xdf\x20\x48\x2d\x6f\xdb\xe2\x75\x92\x89\xf6\x47\x67\x7b";

/// Why some bytes aren't read.
pub fn fault_of<A: Allocator + Copy>(alloc: A, bytes: &[u8]) -> Option<CborFault> {
    read(alloc, bytes).err()
}

/// Writes a value: whether it is lawful, and these bytes came.
fn is_written<A: Allocator>(
    alloc: A,
    value: &Value<'_, A>,
    bytes: &[u8],
) -> Result<bool, CborFault> {
    if !is_lawful(value) {
        return Ok(false);
    }
    let written = write(alloc, value)?;
    Ok(written.as_slice() == bytes)
}

/// Reads these bytes and writes the value again: whether it is lawful, and the same bytes came.
pub fn read_and_write<A: Allocator + Copy>(alloc: A, bytes: &[u8]) -> Result<bool, CborFault> {
    let value = read(alloc, bytes)?;
    is_written(alloc, &value, bytes)
}

/// Bytes that are no value, with the first fault in them.
const REFUSED: [(&[u8], CborFault); 41] = [
    (b"", CborFault::Truncated),
    (b"\xa1\x61", CborFault::Truncated),
    (
        b"\x9b\xff\xff\xff\xff\xff\xff\xff\xff",
        CborFault::Truncated,
    ),
    (
        b"\x5b\xff\xff\xff\xff\xff\xff\xff\xff",
        CborFault::Truncated,
    ),
    (
        b"\xbb\x7f\xff\xff\xff\xff\xff\xff\xff",
        CborFault::Truncated,
    ),
    (b"\xb8\x00", CborFault::LongHead),
    (b"\x18\x17", CborFault::LongHead),
    (b"\x19\x00\xff", CborFault::LongHead),
    (b"\x1a\x00\x00\xff\xff", CborFault::LongHead),
    (b"\x1b\x00\x00\x00\x00\xff\xff\xff\xff", CborFault::LongHead),
    (b"\x1c", CborFault::LongHead),
    (b"\x9f", CborFault::Indefinite),
    (b"\xff", CborFault::Indefinite),
    (b"\xc0\x00", CborFault::BadTag),
    (b"\xd8\x2a", CborFault::Truncated),
    (b"\xd8\x2a\x60", CborFault::BadLink),
    (b"\xd8\x2a\x40", CborFault::BadLink),
    (b"\xd8\x2a\x41\x00", CborFault::BadLink),
    (
        b"\xd8\x2a\x49\x01\x01\x55\x00\x04\x01\x02\x03\x04",
        CborFault::BadLink,
    ),
    (
        b"\xd8\x2a\x48\x00\x01\x55\x00\x04\x01\x02\x03",
        CborFault::BadLink,
    ),
    (
        b"\xd8\x2a\x4a\x00\x01\xd5\x00\x00\x04\x01\x02\x03\x04",
        CborFault::BadLink,
    ),
    (b"\xa1\x01\x00", CborFault::KeyNotText),
    (b"\xa2\x61b\x00\x61a\x00", CborFault::KeyOrder),
    (b"\xa2\x61a\x00\x61a\x00", CborFault::KeyOrder),
    (b"\xa2\x62aa\x00\x61b\x00", CborFault::KeyOrder),
    (b"\x62\xc3\x28", CborFault::BadUtf8),
    (b"\xa1\x61\x80\x00", CborFault::BadUtf8),
    (b"\xf9\x00\x00", CborFault::Float),
    (b"\xfa", CborFault::Float),
    (
        b"\xa1\x61a\xfb\x00\x00\x00\x00\x00\x00\x00\x00",
        CborFault::Float,
    ),
    (b"\xf7", CborFault::Simple),
    (b"\xe0", CborFault::Simple),
    (b"\xf8\x20", CborFault::Simple),
    (
        b"\x1b\x80\x00\x00\x00\x00\x00\x00\x00",
        CborFault::IntegerRange,
    ),
    (
        b"\x3b\x80\x00\x00\x00\x00\x00\x00\x00",
        CborFault::IntegerRange,
    ),
    (b"\xa0\xa0", CborFault::Trailing),
    (b"\x00\xff", CborFault::Trailing),
    (b"\x82\xf7\xff", CborFault::Simple),
    (b"\x82\x18\x17\xf7", CborFault::LongHead),
    (b"\xa2\x61b\xf7\x61a\x00", CborFault::Simple),
    (b"\xd8\x2b\x60", CborFault::BadTag),
];

#[test]
fn refuses_with_the_first_fault(rt: HostRuntime) {
    for (bytes, fault) in &REFUSED {
        assert!(rt; fault_of(rt.alloc(), bytes) == Some(*fault), "at {bytes:?}");
    }
}

/// Whether a value has this debugging text.
fn is_shown_as(alloc: Global, value: &Value<'_>, wanted: &str) -> bool {
    match format!(in alloc; "{value:?}") {
        Ok(shown) => shown.as_str() == wanted,
        Err(_) => false,
    }
}

/// Whether the value of these bytes has this debugging text.
fn shows(alloc: Global, bytes: &[u8], wanted: &str) -> bool {
    match read(alloc, bytes) {
        Ok(value) => is_shown_as(alloc, &value, wanted),
        Err(_) => false,
    }
}

/// Bytes with the debugging text of their value.
const SHOWN: [(&[u8], &str); 11] = [
    (
        b"\x1b\x7f\xff\xff\xff\xff\xff\xff\xff",
        "Int(9223372036854775807)",
    ),
    (
        b"\x3b\x7f\xff\xff\xff\xff\xff\xff\xff",
        "Int(-9223372036854775808)",
    ),
    (b"\x38\x63", "Int(-100)"),
    (b"\xf4", "Bool(false)"),
    (b"\xf5", "Bool(true)"),
    (b"\xf6", "Null"),
    (b"\x44\x00\x01\x02\xff", "Bytes([0, 1, 2, 255])"),
    (b"\x62aa", "Text(\"aa\")"),
    (
        b"\xa2\x61b\xf6\x62aa\xf5",
        "Map([(\"b\", Null), (\"aa\", Bool(true))])",
    ),
    (b"\x82\x01\x80", "List([Int(1), List([])])"),
    (
        b"\xd8\x2a\x49\x00\x01\x55\x00\x04\x01\x02\x03\x04",
        "Link([1, 85, 0, 4, 1, 2, 3, 4])",
    ),
];

#[test]
fn reads_what_the_bytes_say(rt: HostRuntime) {
    for (bytes, wanted) in &SHOWN {
        assert!(rt; shows(rt.alloc(), bytes, wanted), "at {bytes:?}");
    }
}

/// Whether the value of these bytes is written as it was read, and no fewer of them spell one.
fn is_uncut_spelling(alloc: Global, bytes: &[u8]) -> bool {
    for end in 0..bytes.len() {
        if fault_of(alloc, &bytes[..end]) != Some(CborFault::Truncated) {
            return false;
        }
    }
    read_and_write(alloc, bytes) == Ok(true)
}

#[test]
fn writes_what_it_read_and_knows_cut_bytes(rt: HostRuntime) {
    for bytes in &SPELLINGS {
        assert!(rt; is_uncut_spelling(rt.alloc(), bytes), "at {bytes:?}");
    }
}

/// Whether the value of these bytes is a link, the bytes after the first five, which are so many.
fn is_link(alloc: Global, bytes: &[u8], length: usize) -> bool {
    match read(alloc, bytes) {
        Ok(Value::Link(cid)) => cid.len() == length && bytes.get(5..) == Some(cid),
        _ => false,
    }
}

#[test]
fn a_link_is_a_part_of_its_source(rt: HostRuntime) {
    let older = b"\xd8\x2a\x58\x23\x00\x12\x20abcdefghijklmnopqrstuvwxyz012345";
    assert!(rt; is_link(rt.alloc(), OWN_LINK, 36) && is_link(rt.alloc(), older, 34));
}

/// Whether the value of these bytes is lawful within a list.
fn is_lawful_in_a_list(rt: &impl Abort, alloc: Global, bytes: &[u8]) -> bool {
    let value = read(alloc, bytes).expect(rt, "a value");
    let mut outer = Vec::new(alloc);
    outer.push(value).expect(rt, "room for the value");
    is_lawful(&Value::List(outer))
}

#[test]
fn goes_64_levels_deep(rt: HostRuntime) {
    let mut bytes = [0x81; 65];
    bytes[64] = 0;
    assert!(rt; is_uncut_spelling(rt.alloc(), &bytes));
    assert!(rt; !is_lawful_in_a_list(&rt, rt.alloc(), &bytes));
}

#[test]
fn goes_no_deeper_than_64_levels(rt: HostRuntime) {
    let mut bytes = Vec::new(rt.alloc());
    for levels in [65, 1_000_000] {
        bytes.resize(levels, 0x81).expect(&rt, "memory for levels");
        let fault = fault_of(rt.alloc(), &bytes);
        assert!(rt; fault == Some(CborFault::TooDeep), "{levels} levels");
    }
}

/// Whether a map with these two keys in this order is lawful.
fn is_lawful_map(rt: &impl Abort, alloc: Global, first: &str, second: &str) -> bool {
    let fields = [(first, Value::Bool(true)), (second, Value::Null)];
    let fields = Vec::from_array(alloc, fields).expect(rt, "memory for two fields");
    is_lawful(&Value::Map(fields))
}

#[test]
fn tells_unlawful_values(rt: HostRuntime) {
    assert!(rt;
        !is_lawful_map(&rt, rt.alloc(), "aa", "b") && !is_lawful_map(&rt, rt.alloc(), "a", "a")
    );
    let no_cid: Value<'_> = Value::Link(b"\x01\x55\x00\x04\x01");
    assert!(rt; !is_lawful(&no_cid));
}

/// Whether the next head is of this major type and has this argument.
fn is_head(cursor: &mut Cursor<'_>, major: u8, argument: u64) -> bool {
    cursor.head() == Ok((major, argument))
}

/// Whether the next bytes are these.
fn are_next(cursor: &mut Cursor<'_>, bytes: &[u8]) -> bool {
    cursor.take(bytes.len() as u64) == Ok(bytes)
}

/// Whether a long head and more bytes than are left are refused and nothing is read, and then the rest is taken to its end.
fn ends_after_a_long_head(cursor: &mut Cursor<'_>) -> bool {
    cursor.head() == Err(CborFault::LongHead)
        && cursor.take(3) == Err(CborFault::Truncated)
        && cursor.place() == 8
        && are_next(cursor, b"\x18\x17")
        && cursor.head() == Err(CborFault::Truncated)
}

#[test]
fn goes_from_head_to_head(rt: HostRuntime) {
    let mut cursor = Cursor::new(b"\xa1\x62ab\x19\x01\x00\xf5\x18\x17");
    assert!(rt;
        is_head(&mut cursor, 5, 1)
            && is_head(&mut cursor, 3, 2)
            && are_next(&mut cursor, b"ab")
            && is_head(&mut cursor, 0, 256)
            && is_head(&mut cursor, 7, 21)
            && cursor.place() == 8
    );
    assert!(rt; ends_after_a_long_head(&mut cursor));
}

#[test]
fn faults_have_messages(rt: HostRuntime) {
    let message = format!(in rt.alloc(); "{}", CborFault::Truncated).expect(&rt, "memory");
    assert!(rt; message.as_str() == "the bytes end inside an item");
}
