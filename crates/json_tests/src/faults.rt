//! Texts that are no records: the first fault, and the way to it.

use crate::texts::is_refused;
use record_json::{JsonFaultKind, dag_cbor_of};
use std::alloc::Global;

/// Texts, with their first fault and the way to it.
const FAULTS: [(&str, JsonFaultKind, &str); 27] = [
    ("", JsonFaultKind::NotJson, ""),
    ("{", JsonFaultKind::NotJson, ""),
    ("{\"a\":1}x", JsonFaultKind::NotJson, ""),
    (r#"{"a":"\ud800"}"#, JsonFaultKind::NotJson, ""),
    ("{'a':1}", JsonFaultKind::NotJson, ""),
    (r#"{"a":{"b":1,"b":1}}"#, JsonFaultKind::DoubledKey, ".a.b"),
    (r#"{"a":1.0}"#, JsonFaultKind::Float, ".a"),
    (r#"{"a":[0,{"b":1e3}]}"#, JsonFaultKind::Float, ".a[1].b"),
    (
        r#"{"a":9007199254740992}"#,
        JsonFaultKind::IntegerRange,
        ".a",
    ),
    (
        r#"{"a":-9007199254740992}"#,
        JsonFaultKind::IntegerRange,
        ".a",
    ),
    (
        r#"{"a":123456789012345678901234567890}"#,
        JsonFaultKind::IntegerRange,
        ".a",
    ),
    (r#"{"a":{"$link":"bafkqab"}}"#, JsonFaultKind::BadLink, ".a"),
    (r#"{"a":{"$link":1}}"#, JsonFaultKind::BadLink, ".a"),
    (r#"{"a":{"$bytes":"A"}}"#, JsonFaultKind::BadBytes, ".a"),
    (r#"{"a":{"$bytes":"-_8"}}"#, JsonFaultKind::BadBytes, ".a"),
    (
        r#"{"a":{"$bytes":"AA","b":1}}"#,
        JsonFaultKind::BadDollar,
        ".a",
    ),
    // What of a key isn't a graphic character of ASCII, or is a sign of a way, stands as `%` and two digits.
    ("{\"a\":{\"\":1.5}}", JsonFaultKind::Float, ".a."),
    ("{\"x\\u0000y\":1.5}", JsonFaultKind::Float, ".x%00y"),
    ("{\"\\u001b[2J\":1.5}", JsonFaultKind::Float, ".%1B%5B2J"),
    ("{\"a b\":[1.5]}", JsonFaultKind::Float, ".a%20b[0]"),
    (
        "{\"a.b\":{\"c]\":1.5}}",
        JsonFaultKind::Float,
        ".a%2Eb.c%5D",
    ),
    (
        "{\"100%\":1,\"100%\":1}",
        JsonFaultKind::DoubledKey,
        ".100%25",
    ),
    (
        "{\"\u{e9}\u{9b}\u{7f}~\":1.5}",
        JsonFaultKind::Float,
        ".%C3%A9%C2%9B%7F~",
    ),
    // In the order of DAG-CBOR, the key that is shorter first.
    (r#"{"aa":1.5,"b":1e1}"#, JsonFaultKind::Float, ".b"),
    ("[]", JsonFaultKind::NotAMap, ""),
    (r#"{"$bytes":"AA"}"#, JsonFaultKind::NotAMap, ""),
    ("null", JsonFaultKind::NotAMap, ""),
];

#[test]
fn the_first_fault_and_its_place(rt: HostRuntime) {
    for (text, kind, path) in &FAULTS {
        assert!(rt; is_refused(rt.alloc(), text, *kind, path), "at {text}");
    }
}

/// Lists in a list in a map, so many levels in all, one after the other.
fn levels(alloc: Global, levels: usize) -> Option<String> {
    let mut text = String::new(alloc);
    text.push_str("{\"a\":").ok()?;
    for _ in 1..levels {
        text.push('[').ok()?;
    }
    for _ in 1..levels {
        text.push(']').ok()?;
    }
    text.push('}').ok()?;
    Some(text)
}

#[test]
fn levels_of_a_text(rt: HostRuntime) {
    let alloc = rt.alloc();
    let most = levels(alloc, 64).expect(&rt, "a text");
    assert!(rt; dag_cbor_of(alloc, &most).is_ok());
    let more = levels(alloc, 65).expect(&rt, "a text");
    let kind = match dag_cbor_of(alloc, &more) {
        Ok(_) => JsonFaultKind::NoMemory,
        Err(fault) => fault.kind,
    };
    assert!(rt; kind == JsonFaultKind::TooDeep);
    let deepest = levels(alloc, 200).expect(&rt, "a text");
    assert!(rt; is_refused(alloc, &deepest, JsonFaultKind::NotJson, ""));
}
