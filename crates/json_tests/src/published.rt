//! What the AT Protocol publishes on its data model: values with their identifiers, and texts like its valid and its invalid
//! ones. The first two values have the identifiers that are published, letter for letter. Those of the other two were reckoned
//! from their JSON by a program in another language: README.md says how far they are known. The texts have none: they were
//! written from memory, so what each tests is published, and its letters may differ.

use crate::texts::{is_map, is_read, is_refused, is_text_of};
use cid::{Cid, Sha256};
use record_json::JsonFaultKind;
use std::alloc::Global;

/// A value's bytes, their identifier, and its text, with its members in the order of DAG-CBOR.
struct Published {
    bytes: &'static [u8],
    cid: &'static str,
    text: &'static str,
}

/// The values with an identifier: both of the interoperability tests (`data-model-fixtures.json`), and a list of links and
/// one value inside another of the tests beside them (`ipld-vectors.ts`).
const FIXTURES: [Published; 4] = [
    Published {
        bytes: b"\xa7\x64bool\xf5\x64null\xf6\x65array\x83\x63abc\x63def\x63ghi\
            \x66object\xa4\x63arr\x83\x63abc\x63def\x63ghi\x64bool\xf5\x66number\x18\x7b\
            \x66string\x63abc\x66string\x63abc\x67integer\x18\x7b\x67unicode\x78\x2fa~\
            \xc3\xb6\xc3\xb1\xc2\xa9\xe2\xbd\x98\xe2\x98\x8e\xf0\x93\x8b\x93\xf0\x9f\x98\x80\
            \xf0\x9f\x91\xa8\xe2\x80\x8d\xf0\x9f\x91\xa9\xe2\x80\x8d\
            \xf0\x9f\x91\xa7\xe2\x80\x8d\xf0\x9f\x91\xa7",
        cid: "bafyreiclp443lavogvhj3d2ob2cxbfuscni2k5jk7bebjzg7khl3esabwq",
        text: concat!(
            r#"{"bool":true,"null":null,"array":["abc","def","ghi"],"#,
            r#""object":{"arr":["abc","def","ghi"],"bool":true,"number":123,"string":"abc"},"#,
            r#""string":"abc","integer":123,"unicode":"a~"#,
            "\u{f6}\u{f1}\u{a9}\u{2f58}\u{260e}\u{132d3}\u{1f600}",
            "\u{1f468}\u{200d}\u{1f469}\u{200d}\u{1f467}\u{200d}\u{1f467}\"}",
        ),
    },
    Published {
        bytes: b"\xa3\x61a\xd8\x2a\x58\x25\x00\x01\x71\x12\x20\
            \x65\x06\x2a\x5a\x5a\x00\xfc\x16\xd7\x3c\x69\x44\x23\x7c\xcb\xc1\
            \x5b\x1c\x4a\x72\x34\x48\x93\x36\x89\x1d\x09\x17\x41\xa2\x39\xd0\x61b\x58\x20\
            \x9c\x51\x11\x8e\xf2\xcb\x8b\x0f\x6a\x9b\x8e\x49\xae\xa1\xfd\x41\
            \x3c\xf2\x0b\x62\xee\xd5\x76\xf8\x9d\xee\xbe\xb0\x1a\xc2\xcc\x8d\x61c\xa4\
            \x63ref\xd8\x2a\x58\x25\x00\x01\x55\x12\x20\
            \x42\x58\xcf\xff\x78\xf6\x13\x69\x76\x97\x56\x3f\x92\x6c\x91\xe5\
            \xd3\x57\x4d\x2e\xa2\x5a\xe7\xed\x92\xd6\xeb\xfc\x23\xa3\x88\x9e\x64size\x19\x27\x10\
            \x65$type\x64blob\x68mimeType\x6aimage/jpeg",
        cid: "bafyreihldkhcwijkde7gx4rpkkuw7pl6lbyu5gieunyc7ihactn5bkd2nm",
        text: concat!(
            r#"{"a":{"$link":"bafyreidfayvfuwqa7qlnopdjiqrxzs6blmoeu4rujcjtnci5beludirz2a"},"#,
            r#""b":{"$bytes":"nFERjvLLiw9qm45JrqH9QTzyC2Lu1Xb4ne6+sBrCzI0"},"#,
            r#""c":{"ref":{"$link":"bafkreiccldh766hwcnuxnf2wh6jgzepf2nlu2lvcllt63eww5p6chi4ity"},"#,
            r#""size":10000,"$type":"blob","mimeType":"image/jpeg"}}"#,
        ),
    },
    Published {
        bytes: b"\x84\
            \xd8\x2a\x58\x25\x00\x01\x71\x12\x20\
            \x65\x06\x2a\x5a\x5a\x00\xfc\x16\xd7\x3c\x69\x44\x23\x7c\xcb\xc1\
            \x5b\x1c\x4a\x72\x34\x48\x93\x36\x89\x1d\x09\x17\x41\xa2\x39\xd0\
            \xd8\x2a\x58\x25\x00\x01\x71\x12\x20\
            \xce\xbc\xfd\xc8\x18\xf8\x9e\x55\x1f\x21\x5f\x85\x67\x91\x7d\x78\
            \xc4\xd1\x0e\xdc\x21\x8b\x94\x1b\xa5\xd6\x96\xac\xff\xd5\x8e\xf4\
            \xd8\x2a\x58\x25\x00\x01\x71\x12\x20\
            \x08\xce\x1a\x25\xb6\x08\x72\xe1\xf0\xe0\xaf\x4a\x66\x68\x65\xbc\
            \x91\x63\x23\x37\xf9\xd1\xce\x5f\x05\xdc\xa4\xc7\x65\x21\xbf\x51\
            \xd8\x2a\x58\x25\x00\x01\x71\x12\x20\
            \xa3\xe5\xb9\x31\x47\xb3\x5d\x2f\x9f\xba\x49\x9b\x5c\x52\x96\xb3\
            \x93\x0c\x38\x08\xb1\x2a\x3c\x4a\xa4\x64\xe3\xd7\xaf\xae\x29\x7e",
        cid: "bafyreiaj3udmqlqrcbjxjayzuxwp64gt64olcbjfrkldzoqponpru6gq4m",
        text: concat!(
            r#"[{"$link":"bafyreidfayvfuwqa7qlnopdjiqrxzs6blmoeu4rujcjtnci5beludirz2a"},"#,
            r#"{"$link":"bafyreigoxt64qghytzkr6ik7qvtzc7lyytiq5xbbrokbxjows2wp7vmo6q"},"#,
            r#"{"$link":"bafyreiaizynclnqiolq7byfpjjtgqzn4sfrsgn7z2hhf6bo4utdwkin7ke"},"#,
            r#"{"$link":"bafyreifd4w4tcr5tluxz7osjtnofffvtsmgdqcfrfi6evjde4pl27lrjpy"}]"#,
        ),
    },
    Published {
        bytes: b"\xa1\x61a\xa1\x61b\x81\xa2\x61d\x82\
            \xd8\x2a\x58\x25\x00\x01\x71\x12\x20\
            \x65\x06\x2a\x5a\x5a\x00\xfc\x16\xd7\x3c\x69\x44\x23\x7c\xcb\xc1\
            \x5b\x1c\x4a\x72\x34\x48\x93\x36\x89\x1d\x09\x17\x41\xa2\x39\xd0\
            \xd8\x2a\x58\x25\x00\x01\x71\x12\x20\
            \x65\x06\x2a\x5a\x5a\x00\xfc\x16\xd7\x3c\x69\x44\x23\x7c\xcb\xc1\
            \x5b\x1c\x4a\x72\x34\x48\x93\x36\x89\x1d\x09\x17\x41\xa2\x39\xd0\
            \x61e\x82\x58\x20\
            \x9c\x51\x11\x8e\xf2\xcb\x8b\x0f\x6a\x9b\x8e\x49\xae\xa1\xfd\x41\
            \x3c\xf2\x0b\x62\xee\xd5\x76\xf8\x9d\xee\xbe\xb0\x1a\xc2\xcc\x8d\x58\x20\
            \x88\x4f\xac\x3e\x81\xe8\x6d\x4f\x6d\x48\x8a\x86\x23\xed\xf4\xf4\
            \xb2\xc2\x71\x64\x08\x46\x61\x17\xc3\x17\x28\x0e\xdd\x7d\xb5\xab",
        cid: "bafyreid3imdulnhgeytpf6uk7zahjvrsqlofkmm5b5ub2maw4kqus6jp4i",
        text: concat!(
            r#"{"a":{"b":[{"d":["#,
            r#"{"$link":"bafyreidfayvfuwqa7qlnopdjiqrxzs6blmoeu4rujcjtnci5beludirz2a"},"#,
            r#"{"$link":"bafyreidfayvfuwqa7qlnopdjiqrxzs6blmoeu4rujcjtnci5beludirz2a"}],"#,
            r#""e":[{"$bytes":"nFERjvLLiw9qm45JrqH9QTzyC2Lu1Xb4ne6+sBrCzI0"},"#,
            r#"{"$bytes":"iE+sPoHobU9tSIqGI+309LLCcWQIRmEXwxcoDt19tas"}]}]}}"#,
        ),
    },
];

/// Whether bytes have the identifier of this text.
fn has_cid(alloc: Global, bytes: &[u8], cid: &str) -> bool {
    match format!(in alloc; "{}", Cid::of::<Sha256>(bytes)) {
        Ok(text) => text.as_str() == cid,
        Err(_) => false,
    }
}

#[test]
fn published_values(rt: HostRuntime) {
    let alloc = rt.alloc();
    for Published { bytes, cid, text } in &FIXTURES {
        assert!(rt; has_cid(alloc, bytes, cid), "at {text}");
        assert!(rt; is_text_of(alloc, bytes, text.as_bytes()), "at {text}");
        assert!(rt; !is_map(bytes) || is_read(alloc, text, bytes), "at {text}");
    }
}

/// Texts of valid records: as two of `data-model-valid.json`, and as those of a link and of bytes on the data model's page.
/// Their bytes are those that a program in another language makes of them.
const VALID: [(&str, &[u8]); 4] = [
    (
        r#"{"$type":"com.example.blah","a":123,"b":"blah"}"#,
        b"\xa3\x61a\x18\x7b\x61b\x64blah\x65$type\x70com.example.blah",
    ),
    (
        r#"{"$type":"com.example.blah","a":[],"b":{}}"#,
        b"\xa3\x61a\x80\x61b\xa0\x65$type\x70com.example.blah",
    ),
    (
        r#"{"exampleLink":{"$link":"bafyreidfayvfuwqa7qlnopdjiqrxzs6blmoeu4rujcjtnci5beludirz2a"}}"#,
        b"\xa1\x6bexampleLink\xd8\x2a\x58\x25\x00\x01\x71\x12\x20\
            \x65\x06\x2a\x5a\x5a\x00\xfc\x16\xd7\x3c\x69\x44\x23\x7c\xcb\xc1\
            \x5b\x1c\x4a\x72\x34\x48\x93\x36\x89\x1d\x09\x17\x41\xa2\x39\xd0",
    ),
    (
        r#"{"exampleBytes":{"$bytes":"nFERjvLLiw9qm45JrqH9QTzyC2Lu1Xb4ne6+sBrCzI0"}}"#,
        b"\xa1\x6cexampleBytes\x58\x20\
            \x9c\x51\x11\x8e\xf2\xcb\x8b\x0f\x6a\x9b\x8e\x49\xae\xa1\xfd\x41\
            \x3c\xf2\x0b\x62\xee\xd5\x76\xf8\x9d\xee\xbe\xb0\x1a\xc2\xcc\x8d",
    ),
];

#[test]
fn published_valid_records(rt: HostRuntime) {
    for (text, bytes) in &VALID {
        assert!(rt; is_read(rt.alloc(), text, bytes), "at {text}");
    }
}

/// Texts that are refused, with the fault and the way to it: as those of `data-model-invalid.json` that are for the data model
/// to judge, and as two parts of the badly formed value of `ipld-vectors.ts`. The last is as one of `data-model-valid.json`,
/// which takes a number with a point where it is whole: here no number has a point.
const REFUSED: [(&str, JsonFaultKind, &str); 10] = [
    (r#""blah""#, JsonFaultKind::NotAMap, ""),
    (
        r#"{"rcrd":{"$type":"com.example.blah","a":123.456,"b":"blah"}}"#,
        JsonFaultKind::Float,
        ".rcrd.a",
    ),
    (
        r#"{"lnk":{"$bytes":[1,2,3]}}"#,
        JsonFaultKind::BadBytes,
        ".lnk",
    ),
    (
        r#"{"lnk":{"$bytes":"nFERjvLLiw9qm45JrqH9QTzyC2Lu1Xb4ne6+sBrCzI0","other":"blah"}}"#,
        JsonFaultKind::BadDollar,
        ".lnk",
    ),
    (r#"{"lnk":{"$link":1234}}"#, JsonFaultKind::BadLink, ".lnk"),
    (r#"{"lnk":{"$link":"."}}"#, JsonFaultKind::BadLink, ".lnk"),
    (
        concat!(
            r#"{"lnk":{"$link":"bafkreiccldh766hwcnuxnf2wh6jgzepf2nlu2lvcllt63eww5p6chi4ity","#,
            r#""other":"blah"}}"#,
        ),
        JsonFaultKind::BadDollar,
        ".lnk",
    ),
    (
        concat!(
            r#"{"a":{"$link":"bafyreidfayvfuwqa7qlnopdjiqrxzs6blmoeu4rujcjtnci5beludirz2a","#,
            r#""another":"bad value"}}"#,
        ),
        JsonFaultKind::BadDollar,
        ".a",
    ),
    (
        concat!(
            r#"{"b":{"$bytes":"nFERjvLLiw9qm45JrqH9QTzyC2Lu1Xb4ne6+sBrCzI0","#,
            r#""another":"bad value"}}"#,
        ),
        JsonFaultKind::BadDollar,
        ".b",
    ),
    (
        r#"{"$type":"com.example.blah","a":123.0,"b":"blah"}"#,
        JsonFaultKind::Float,
        ".a",
    ),
];

#[test]
fn published_values_that_are_refused(rt: HostRuntime) {
    for (text, kind, path) in &REFUSED {
        assert!(rt; is_refused(rt.alloc(), text, *kind, path), "at {text}");
    }
}
