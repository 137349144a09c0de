//! Large values.

use crate::texts::{is_read, is_text_of, joined};
use std::alloc::{AllocError, Global};

/// What stands one after the other, and how many times each.
type Parts = &'static [(&'static [u8], usize)];

/// The bytes of 64 levels of lists and of maps with the most inside, a text of 1 MB and 300,000 bytes, with their texts.
const LARGE: [(Parts, Parts); 5] = [
    (
        &[(b"\x81", 64), (b"\x00", 1)],
        &[(b"[", 64), (b"0", 1), (b"]", 64)],
    ),
    (
        &[(b"\x81", 64), (b"\x41\x00", 1)],
        &[(b"[", 64), (br#"{"$bytes":"AA"}"#, 1), (b"]", 64)],
    ),
    (
        &[(b"\xa1\x61a", 64), (b"\xd8\x2a\x45\x00\x01\x55\x00\x00", 1)],
        &[
            (br#"{"a":"#, 64),
            (br#"{"$link":"bafkqaaa"}"#, 1),
            (b"}", 64),
        ],
    ),
    (
        &[
            (b"\x7a\x00\x0f\x42\x41", 1),
            (&[b'a'; 1_000], 1_000),
            (b"\"", 1),
        ],
        &[(b"\"", 1), (&[b'a'; 1_000], 1_000), (br#"\"""#, 1)],
    ),
    (
        &[(b"\x5a\x00\x04\x93\xe0", 1), (&[0; 300], 1_000)],
        &[(br#"{"$bytes":""#, 1), (&[b'A'; 400], 1_000), (br#""}"#, 1)],
    ),
];

/// Whether the value of these bytes has this text.
fn is_text_of_parts(alloc: Global, bytes: Parts, wanted: Parts) -> bool {
    let Ok(bytes) = joined(alloc, bytes) else {
        return false;
    };
    let Ok(wanted) = joined(alloc, wanted) else {
        return false;
    };
    is_text_of(alloc, &bytes, &wanted)
}

#[test]
fn values_of_64_levels_and_of_a_megabyte(rt: HostRuntime) {
    for (bytes, wanted) in &LARGE {
        assert!(rt;
            is_text_of_parts(rt.alloc(), bytes, wanted),
            "at {:?}",
            bytes[0]
        );
    }
}

/// The bytes of a list of the 20,000 numbers from 1,000 on.
fn numbers(alloc: Global) -> Result<Vec<u8>, AllocError> {
    let mut bytes = Vec::from_slice(alloc, b"\x99\x4e\x20")?;
    for number in 1_000..21_000u16 {
        bytes.push(0x19)?;
        bytes.extend_from_slice(&number.to_be_bytes())?;
    }
    Ok(bytes)
}

/// The text of that list.
fn text_of_numbers(alloc: Global) -> Result<Vec<u8>, AllocError> {
    let mut text = Vec::from_slice(alloc, b"[1000")?;
    for number in 1_001..21_000u16 {
        let digits = format!(in alloc; ",{number}")?;
        text.extend_from_slice(digits.as_bytes())?;
    }
    text.push(b']')?;
    Ok(text)
}

#[test]
fn a_list_of_many_numbers(rt: HostRuntime) {
    let bytes = numbers(rt.alloc()).expect(&rt, "memory for numbers");
    let wanted = text_of_numbers(rt.alloc()).expect(&rt, "memory for their text");
    assert!(rt; is_text_of(rt.alloc(), &bytes, &wanted));
}

/// A record with that list, and its text.
fn record_of_numbers(alloc: Global) -> Option<(Vec<u8>, String)> {
    let mut bytes = Vec::from_slice(alloc, b"\xa1\x61a\x99\x4e\x20").ok()?;
    let mut text = String::new(alloc);
    text.push_str("{\"a\":[1000").ok()?;
    for number in 1_000..21_000u16 {
        bytes.push(0x19).ok()?;
        bytes.extend_from_slice(&number.to_be_bytes()).ok()?;
        if number > 1_000 {
            let digits = format!(in alloc; ",{number}").ok()?;
            text.push_str(digits.as_str()).ok()?;
        }
    }
    text.push_str("]}").ok()?;
    Some((bytes, text))
}

/// A record with the keys 10,000 to 14,999, and a text of it with the last one first.
fn record_of_keys(alloc: Global) -> Option<(Vec<u8>, String)> {
    let mut bytes = Vec::from_slice(alloc, b"\xb9\x13\x88").ok()?;
    let mut text = String::new(alloc);
    text.push('{').ok()?;
    for step in 0..5_000u16 {
        let first = format!(in alloc; "{}", 10_000 + step).ok()?;
        bytes.push(0x65).ok()?;
        bytes.extend_from_slice(first.as_bytes()).ok()?;
        bytes.push(0).ok()?;
        let last = format!(in alloc; "\"{}\":0,", 14_999 - step).ok()?;
        text.push_str(last.as_str()).ok()?;
    }
    let _ = text.pop();
    text.push('}').ok()?;
    Some((bytes, text))
}

/// A record with a text of 1,000,000 letters, and its text.
fn record_of_letters(alloc: Global) -> Option<(Vec<u8>, String)> {
    let mut bytes = Vec::from_slice(alloc, b"\xa1\x61a\x7a\x00\x0f\x42\x40").ok()?;
    let mut text = String::new(alloc);
    text.push_str("{\"a\":\"").ok()?;
    for _ in 0..100_000u32 {
        bytes.extend_from_slice(b"abcdefghij").ok()?;
        text.push_str("abcdefghij").ok()?;
    }
    text.push_str("\"}").ok()?;
    Some((bytes, text))
}

#[test]
fn large_texts_are_read(rt: HostRuntime) {
    let alloc = rt.alloc();
    let (bytes, text) = record_of_numbers(alloc).expect(&rt, "a record of numbers");
    assert!(rt; is_read(alloc, &text, &bytes));
    let (bytes, text) = record_of_keys(alloc).expect(&rt, "a record of keys");
    assert!(rt; is_read(alloc, &text, &bytes));
    let (bytes, text) = record_of_letters(alloc).expect(&rt, "a record of letters");
    assert!(rt; is_read(alloc, &text, &bytes));
}
