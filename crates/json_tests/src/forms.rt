//! Worked texts, by kind of value.

use crate::texts::{Row, assert_texts};

const PLAIN: [Row; 12] = [
    (b"\xa0", "{}"),
    (b"\x80", "[]"),
    (b"\xf6", "null"),
    (b"\xf5", "true"),
    (b"\xf4", "false"),
    (b"\x60", r#""""#),
    (b"\x00", "0"),
    (b"\x20", "-1"),
    (b"\x1b\x00\x1f\xff\xff\xff\xff\xff\xff", "9007199254740991"),
    (b"\x3b\x00\x1f\xff\xff\xff\xff\xff\xfe", "-9007199254740991"),
    (b"\x83\xf6\xf5\xf4", "[null,true,false]"),
    (
        b"\xa2\x61a\x83\x01\xa1\x61b\x80\x82\x02\x81\xa0\x61c\xa1\x61d\xa1\x61e\x21",
        r#"{"a":[1,{"b":[]},[2,[{}]]],"c":{"d":{"e":-2}}}"#,
    ),
];

#[test]
fn plain_values(rt: HostRuntime) {
    assert_texts(&rt, rt.alloc(), &PLAIN);
}

/// Keys in the order of their lengths and then of their bytes, and keys and texts that are nearly those of links and bytes.
const KEYS: [Row; 7] = [
    (
        b"\xa7\x60\x06\x61B\x04\x61a\x03\x61b\x01\x62aa\x02\x62ab\x05\x62\xc3\xa9\x07",
        "{\"\":6,\"B\":4,\"a\":3,\"b\":1,\"aa\":2,\"ab\":5,\"\u{e9}\":7}",
    ),
    (b"\xa1\x65$type\x61a", r#"{"$type":"a"}"#),
    (b"\xa2\x64link\x01\x65bytes\x02", r#"{"link":1,"bytes":2}"#),
    (b"\xa1\x66$links\x80", r#"{"$links":[]}"#),
    (
        b"\xa2\x65$Link\x01\x65$byte\x02",
        r#"{"$Link":1,"$byte":2}"#,
    ),
    (b"\x82\x65$link\x66$bytes", r#"["$link","$bytes"]"#),
    (b"\xa1\x61a\x65$link", r#"{"a":"$link"}"#),
];

#[test]
fn maps_by_their_keys(rt: HostRuntime) {
    assert_texts(&rt, rt.alloc(), &KEYS);
}

/// Base 64 without padding (RFC 4648, section 4).
const BYTES: [Row; 5] = [
    (b"\x40", r#"{"$bytes":""}"#),
    (b"\x41\x00", r#"{"$bytes":"AA"}"#),
    (b"\x42\xff\xfe", r#"{"$bytes":"//4"}"#),
    (b"\x43\x00\x10\x83", r#"{"$bytes":"ABCD"}"#),
    (b"\x44\xfb\xff\xbe\xff", r#"{"$bytes":"+/++/w"}"#),
];

#[test]
fn bytes_of_each_length(rt: HostRuntime) {
    assert_texts(&rt, rt.alloc(), &BYTES);
}

/// The links to the empty map and to no bytes, and CIDs whose lengths leave each number of bytes behind their groups of five.
const LINKS: [Row; 7] = [
    (
        b"\xd8\x2a\x58\x25\x00\x01\x71\x12\x20\
            \xc1\x9a\x79\x7f\xa1\xfd\x59\x0c\xd2\xe5\xb4\x2d\x1c\xf5\xf2\x46\
            \xe2\x9b\x91\x68\x4e\x2f\x87\x40\x4b\x81\xdc\x34\x5c\x7a\x56\xa0",
        r#"{"$link":"bafyreigbtj4x7ip5legnfznufuopl4sg4knzc2cof6duas4b3q2fy6swua"}"#,
    ),
    (
        b"\xd8\x2a\x58\x25\x00\x01\x55\x12\x20\
            \xe3\xb0\xc4\x42\x98\xfc\x1c\x14\x9a\xfb\xf4\xc8\x99\x6f\xb9\x24\
            \x27\xae\x41\xe4\x64\x9b\x93\x4c\xa4\x95\x99\x1b\x78\x52\xb8\x55",
        r#"{"$link":"bafkreihdwdcefgh4dqkjv67uzcmw7ojee6xedzdetojuzjevtenxquvyku"}"#,
    ),
    (
        b"\xd8\x2a\x45\x00\x01\x55\x00\x00",
        r#"{"$link":"bafkqaaa"}"#,
    ),
    (
        b"\xd8\x2a\x46\x00\x01\x55\x00\x01\xff",
        r#"{"$link":"bafkqaap7"}"#,
    ),
    (
        b"\xd8\x2a\x47\x00\x01\x71\x00\x02\xff\xff",
        r#"{"$link":"bafyqaax774"}"#,
    ),
    (
        b"\xd8\x2a\x48\x00\x01\x55\x00\x03\xff\xff\xff",
        r#"{"$link":"bafkqaa77777q"}"#,
    ),
    (
        b"\xd8\x2a\x49\x00\x01\x55\x00\x04\x01\x02\x03\x04",
        r#"{"$link":"bafkqababaibqi"}"#,
    ),
];

#[test]
fn links_of_each_length(rt: HostRuntime) {
    assert_texts(&rt, rt.alloc(), &LINKS);
}

/// Every character below 32, those of two bytes to four, those with escapes of their own, also in keys.
const ESCAPES: [Row; 3] = [
    (
        b"\x78\x20\x00\x01\x02\x03\x04\x05\x06\x07\x08\x09\x0a\x0b\x0c\x0d\x0e\x0f\
            \x10\x11\x12\x13\x14\x15\x16\x17\x18\x19\x1a\x1b\x1c\x1d\x1e\x1f",
        concat!(
            r#""\u0000\u0001\u0002\u0003\u0004\u0005\u0006\u0007"#,
            r#"\b\t\n\u000b\f\r\u000e\u000f"#,
            r#"\u0010\u0011\u0012\u0013\u0014\u0015\u0016\u0017"#,
            r#"\u0018\u0019\u001a\u001b\u001c\u001d\u001e\u001f""#,
        ),
    ),
    (
        b"\x6e\"\\/\x7f\xc3\xa9\xe2\x80\xa8\xf0\x9f\x98\x80<",
        "\"\\\"\\\\/\u{7f}\u{e9}\u{2028}\u{1f600}<\"",
    ),
    (
        b"\xa3\x61\x0a\x61\x09\x61\x1f\x01\x62\"\\\x62\\\"",
        r#"{"\n":"\t","\u001f":1,"\"\\":"\\\""}"#,
    ),
];

#[test]
fn texts_with_each_escape(rt: HostRuntime) {
    assert_texts(&rt, rt.alloc(), &ESCAPES);
}
