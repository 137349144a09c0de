//! Texts of records in other layouts than the one that is written.

use crate::texts::is_read;

/// Texts, and the bytes of their records.
const LAYOUTS: [(&str, &[u8]); 9] = [
    (" {\n} ", b"\xa0"),
    ("{\"b\" : 1,\r\n\t\"a\":[ ] }", b"\xa2\x61a\x80\x61b\x01"),
    (r#"{"aa":1,"b":2,"":3}"#, b"\xa3\x60\x03\x61b\x02\x62aa\x01"),
    (
        r#"{"\u0061":"\u00e9\/\ud83c\udf33"}"#,
        b"\xa1\x61a\x67\xc3\xa9/\xf0\x9f\x8c\xb3",
    ),
    (r#"{"a":-0}"#, b"\xa1\x61a\x00"),
    (r#"{"a":{"$bytes":"AA=="}}"#, b"\xa1\x61a\x41\x00"),
    (r#"{"a":{"$bytes":"//4="}}"#, b"\xa1\x61a\x42\xff\xfe"),
    (
        r#"{"a":{"$link":"bafkqababaibqi"}}"#,
        b"\xa1\x61a\xd8\x2a\x49\x00\x01\x55\x00\x04\x01\x02\x03\x04",
    ),
    (
        r#"{"a":[-9007199254740991,9007199254740991]}"#,
        b"\xa1\x61a\x82\x3b\x00\x1f\xff\xff\xff\xff\xff\xfe\x1b\x00\x1f\xff\xff\xff\xff\xff\xff",
    ),
];

#[test]
fn texts_in_other_layouts(rt: HostRuntime) {
    for (text, bytes) in &LAYOUTS {
        assert!(rt; is_read(rt.alloc(), text, bytes), "at {text}");
    }
}
