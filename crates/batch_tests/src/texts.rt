//! Which bytes are keys, DIDs and timestamp identifiers.

use crate::long::{Parts, joined};
use batches::{is_did, is_repository_key, is_tid};
use std::alloc::Global;

/// Which of the tests pass some bytes: as a key, as a DID, as a timestamp identifier.
type Passes = [bool; 3];

const KEY: Passes = [true, false, false];

const A_DID: Passes = [false, true, false];

const TID: Passes = [false, false, true];

const NONE: Passes = [false, false, false];

static TEXTS: [(&[u8], Passes); 15] = [
    (b"a/b", KEY),
    (b"a/...", KEY),
    (b"a.b-c/x:~_", KEY),
    (b"A0/Z9", KEY),
    (b"com.example.feed/3jzfcijpj2z2a", KEY),
    (b"did:web:a.b", A_DID),
    (b"did:web:a%3A", A_DID),
    (b"did:web:a:b", A_DID),
    (b"did:plc:ewvi7nxzyoun6zhxrhs64oiz", A_DID),
    (b"did:x:A_-.%:9", A_DID),
    (b"2222222222222", TID),
    (b"3jzfcijpj2z2a", TID),
    (b"7777777777777", TID),
    (b"j222222222222", TID),
    (b"jzzzzzzzzzzzz", TID),
];

/// Bytes that are no key.
pub(crate) static NO_KEYS: [&[u8]; 15] = [
    b"",
    b"a",
    b"/",
    b"a/",
    b"/b",
    b"a/b/c",
    b"a/.",
    b"a/..",
    b"a_b/c",
    b"a:b/c",
    b"a~b/c",
    b"a b/c",
    b"a/b c",
    b"a/b@c",
    b"a/\xc3\xa9",
];

/// Bytes that are no DID, and bytes that are no timestamp identifier.
static NO_OTHERS: [&[u8]; 24] = [
    b"did",
    b"did:",
    b"did::",
    b"did::a",
    b"did:web",
    b"did:web:",
    b"DID:web:a",
    b"did:Web:a",
    b"did:w3b:a",
    b"did:web:a:",
    b"did:web:a%",
    b"did:web:a/b",
    b"did:web:a b",
    b"xdid:web:a",
    b"k222222222222",
    b"z222222222222",
    b"222222222222",
    b"22222222222222",
    b"2222222222221",
    b"1222222222222",
    b"2222222222228",
    b"222222222222A",
    b"222222-222222",
    b"0222222222222",
];

/// Which tests pass these bytes.
fn passes(bytes: &[u8]) -> Passes {
    [is_repository_key(bytes), is_did(bytes), is_tid(bytes)]
}

/// Parts of a text, its length, and which tests it passes. A key has at most 317 letters before the slash and 512 after it, a
/// DID 2,048 in all.
static LONG_TEXTS: [(Parts, usize, Passes); 7] = [
    (&[(b"c", 317), (b"/", 1), (b"r", 512)], 830, KEY),
    (&[(b"c", 1), (b"/", 1), (b"r", 512)], 514, KEY),
    (&[(b"c", 318), (b"/", 1), (b"r", 1)], 320, NONE),
    (&[(b"c", 317), (b"/", 1), (b"r", 513)], 831, NONE),
    (&[(b"c", 1), (b"/", 1), (b"r", 513)], 515, NONE),
    (&[(b"did:web:", 1), (b"a", 2040)], 2048, A_DID),
    (&[(b"did:web:", 1), (b"a", 2041)], 2049, NONE),
];

/// The first bytes of the tables that not just the right tests pass.
fn wrong_bytes() -> Option<&'static [u8]> {
    for (bytes, wanted) in &TEXTS {
        if passes(bytes) != *wanted {
            return Some(*bytes);
        }
    }
    for table in [NO_KEYS.as_slice(), &NO_OTHERS] {
        for bytes in table {
            if passes(bytes) != NONE {
                return Some(*bytes);
            }
        }
    }
    None
}

#[test]
fn texts(rt: HostRuntime) {
    let wrong = wrong_bytes();
    assert!(rt; wrong.is_none(), "{wrong:?}");
}

/// Whether a text has its length, and the right tests pass it.
fn is_right(alloc: Global, parts: Parts, length: usize, wanted: Passes) -> bool {
    match joined(alloc, parts) {
        Ok(bytes) => bytes.len() == length && passes(&bytes) == wanted,
        Err(_) => false,
    }
}

#[test]
fn long_texts(rt: HostRuntime) {
    for (parts, length, wanted) in &LONG_TEXTS {
        let is_right = is_right(rt.alloc(), parts, *length, *wanted);
        assert!(rt; is_right, "{length}");
    }
}
