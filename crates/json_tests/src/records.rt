//! Records as they stand in repositories, with their texts.

use crate::texts::is_text_of;
use std::alloc::Global;

/// A post with a mention, a link and a picture.
const POST: &[u8] = b"\xa6\x64text\x78\x2bHello @ann.example, trees: example.com \xf0\x9f\x8c\xb3\
    \x65$type\x72app.bsky.feed.post\x65embed\xa2\x65$type\x75app.bsky.embed.images\
    \x66images\x81\xa3\x63alt\x68A \"tree\"\x65image\xa4\x63ref\xd8\x2a\x58\x25\x00\x01\x55\x12\x20\
    \x92\xb2\xfa\x58\x02\x89\x58\x31\x7e\x40\x8b\xd8\x4e\xcf\xa7\x0f\
    \x5e\xe3\x5b\x12\x19\x91\xdb\xc2\x32\xc4\x9d\x16\x63\x53\x70\x8b\x64size\x1a\x00\x01\xe2\x40\
    \x65$type\x64blob\x68mimeType\x6aimage/jpeg\x6baspectRatio\xa2\x65width\x04\x66height\x03\
    \x65langs\x81\x62en\x66facets\x82\
    \xa2\x65index\xa2\x67byteEnd\x12\x69byteStart\x06\x68features\x81\xa2\
    \x63did\x78\x20did:plc:ewvi7nxzyoun6zhxrhs64oiz\x65$type\x78\x1fapp.bsky.richtext.facet#mention\
    \xa2\x65index\xa2\x67byteEnd\x18\x26\x69byteStart\x18\x1b\x68features\x81\xa2\
    \x63uri\x74https://example.com/\x65$type\x78\x1capp.bsky.richtext.facet#link\
    \x69createdAt\x78\x182024-11-05T12:34:56.789Z";

/// Its text.
const POST_TEXT: &str = concat!(
    r#"{"text":"Hello @ann.example, trees: example.com "#,
    "\u{1f333}",
    r#"","$type":"app.bsky.feed.post","embed":{"$type":"app.bsky.embed.images","#,
    r#""images":[{"alt":"A \"tree\"","#,
    r#""image":{"ref":{"$link":"bafkreieswl5fqaujlayx4qel3bhm7jypl3rvweqzshn4emwetulggu3qrm"},"#,
    r#""size":123456,"$type":"blob","mimeType":"image/jpeg"},"#,
    r#""aspectRatio":{"width":4,"height":3}}]},"langs":["en"],"facets":["#,
    r#"{"index":{"byteEnd":18,"byteStart":6},"features":["#,
    r#"{"did":"did:plc:ewvi7nxzyoun6zhxrhs64oiz","$type":"app.bsky.richtext.facet#mention"}]},"#,
    r#"{"index":{"byteEnd":38,"byteStart":27},"features":["#,
    r#"{"uri":"https://example.com/","$type":"app.bsky.richtext.facet#link"}]}],"#,
    r#""createdAt":"2024-11-05T12:34:56.789Z"}"#,
);

#[test]
fn a_post_with_facets_and_an_embed(rt: HostRuntime) {
    assert!(rt; is_text_of(rt.alloc(), POST, POST_TEXT.as_bytes()));
}

/// The records of `examples/records.txt`, in hexadecimal as they stand there, with their texts.
const LISTED: [(&str, &str); 5] = [
    (
        "a16b646973706c61794e616d6563416e6e",
        r#"{"displayName":"Ann"}"#,
    ),
    ("a164746578746568656c6c6f", r#"{"text":"hello"}"#),
    (
        "a1647465787471612074726565206f66207265636f726473",
        r#"{"text":"a tree of records"}"#,
    ),
    (
        "a164746578746e6f6e652070617468206f66206974",
        r#"{"text":"one path of it"}"#,
    ),
    (
        "a1677375626a656374736469643a7765623a6578616d706c652e636f6d",
        r#"{"subject":"did:web:example.com"}"#,
    ),
];

/// Whether the value of these bytes, in hexadecimal, has this text.
fn is_text_of_digits(alloc: Global, digits: &str, wanted: &str) -> bool {
    match hex::decode(alloc, digits.as_bytes()) {
        Ok(bytes) => is_text_of(alloc, &bytes, wanted.as_bytes()),
        Err(_) => false,
    }
}

#[test]
fn records_of_the_example(rt: HostRuntime) {
    for (digits, text) in &LISTED {
        assert!(rt; is_text_of_digits(rt.alloc(), digits, text), "at {digits}");
    }
}
