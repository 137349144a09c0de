//! Texts where memory is refused.

use crate::texts::joined;
use dagcbor::{Value, is_lawful, read};
use record_json::{JsonFaultKind, dag_cbor_of, has_form, json_of};
use refusing::Refusing;
use std::alloc::{AllocError, Allocator, Global};
use std::process::Abort;

/// A map with each kind of value: both booleans, null, a number of each sign, a byte string, a text, a link, a list and a map.
const EACH_KIND: &[u8] = b"\xaa\x61a\xf4\x61b\xf5\x61c\xf6\x61d\x1b\x00\x00\x00\x01\x00\x00\x00\x00\
    \x61e\x3b\x00\x00\x00\x01\x00\x00\x00\x00\x61f\x44\x00\x01\x02\xff\x61g\x64\xc3\xa9\"\n\
    \x61h\xd8\x2a\x49\x00\x01\x55\x00\x04\x01\x02\x03\x04\
    \x61i\x84\x00\x18\x18\x19\x01\x00\x20\x61j\xa0";

/// Its text.
const TEXT: &[u8] = b"{\"a\":false,\"b\":true,\"c\":null,\"d\":4294967296,\"e\":-4294967297,\
    \"f\":{\"$bytes\":\"AAEC/w\"},\"g\":\"\xc3\xa9\\\"\\n\",\"h\":{\"$link\":\"bafkqababaibqi\"},\
    \"i\":[0,24,256,-1],\"j\":{}}";

/// Writes a value: whether it has a form, and this text came.
fn is_written<A: Allocator + Copy>(
    alloc: A,
    value: &Value<'_>,
    wanted: &[u8],
) -> Result<bool, AllocError> {
    if !is_lawful(value) || !has_form(value) {
        return Ok(false);
    }
    match json_of(alloc, value) {
        Ok(text) => Ok(text.as_slice() == wanted),
        Err(refused) => Err(refused),
    }
}

/// Whether an answer is that memory was refused where it was, else that the text came.
fn is_right(answer: Result<bool, AllocError>, refused: bool) -> bool {
    match answer {
        Ok(same) => same && !refused,
        Err(_) => refused,
    }
}

/// Writes a value with each request for memory refused in turn: how many requests there are.
fn requests_refused(
    rt: &impl Abort,
    heap: &Refusing<Global>,
    value: &Value<'_>,
    wanted: &[u8],
) -> u64 {
    for number in 1..100u64 {
        heap.refuse(number);
        let before = heap.refused();
        let answer = is_written(heap, value, wanted);
        let refused = heap.refused() != before;
        let right = is_right(answer, refused) && heap.live() == 0;
        assert!(rt; right, "at request {number}");
        if !refused {
            return number - 1;
        }
    }
    0
}

/// How many requests there are for the map with each kind of value in a list, behind a text of so many letters.
fn requests_behind(rt: &impl Abort, alloc: Global, heap: &Refusing<Global>, letters: u8) -> u64 {
    let times = usize::from(letters);
    let parts = [
        (b"\x82\x78".as_slice(), 1),
        (&[letters], 1),
        (b"a", times),
        (EACH_KIND, 1),
    ];
    let bytes = joined(alloc, &parts).expect(rt, "memory for the bytes");
    let parts = [
        (b"[\"".as_slice(), 1),
        (b"a", times),
        (b"\",", 1),
        (TEXT, 1),
        (b"]", 1),
    ];
    let wanted = joined(alloc, &parts).expect(rt, "memory for the text");
    let value = read(alloc, &bytes).expect(rt, "a value");
    requests_refused(rt, heap, &value, &wanted)
}

// Each letter before the map moves it along by one byte, so that what is written grows at each of the map's parts in turn.
// The base 64 of bytes and the text of a CID are two requests more.
#[test]
fn answers_each_refusal_of_memory(rt: HostRuntime) {
    let heap = Refusing::new(rt.alloc());
    for letters in 24..=u8::MAX {
        let requests = requests_behind(&rt, rt.alloc(), &heap, letters);
        assert!(rt; requests >= 4, "{requests} requests");
    }
}

/// A text with bytes, a link, a list and a text.
const READ: &str =
    r#"{"b":{"$link":"bafkqababaibqi"},"a":[false,{"$bytes":"AAEC/w"}],"c":"\u00e9"}"#;

/// The bytes of its record.
const BYTES: &[u8] = b"\xa3\x61a\x82\xf4\x44\x00\x01\x02\xff\
    \x61b\xd8\x2a\x49\x00\x01\x55\x00\x04\x01\x02\x03\x04\x61c\x62\xc3\xa9";

/// A text with a fault, to which there is a way.
const FAULTY: &str = r#"{"a":[0,{"b":1.5}]}"#;

/// Reads a text: whether these bytes came, or another fault than a want of memory where none are wanted; `None` where memory
/// was refused.
fn is_read_in(heap: &Refusing<Global>, text: &str, wanted: Option<&[u8]>) -> Option<bool> {
    match dag_cbor_of(heap, text) {
        Ok(bytes) => Some(wanted == Some(bytes.as_slice())),
        Err(fault) => {
            if fault.kind == JsonFaultKind::NoMemory {
                return None;
            }
            Some(wanted.is_none())
        }
    }
}

/// Reads a text with each request for memory refused in turn: how many requests there are.
fn requests_of_reading(
    rt: &impl Abort,
    heap: &Refusing<Global>,
    text: &str,
    wanted: Option<&[u8]>,
) -> u64 {
    for number in 1..200u64 {
        heap.refuse(number);
        let before = heap.refused();
        let answer = is_read_in(heap, text, wanted);
        let refused = heap.refused() != before;
        let right = match answer {
            Some(same) => same && !refused,
            None => refused,
        };
        assert!(rt; right && heap.live() == 0, "at request {number}");
        if !refused {
            return number - 1;
        }
    }
    0
}

#[test]
fn answers_each_refusal_while_it_reads(rt: HostRuntime) {
    let heap = Refusing::new(rt.alloc());
    let read = requests_of_reading(&rt, &heap, READ, Some(BYTES));
    assert!(rt; read >= 6, "{read} requests");
    let faulty = requests_of_reading(&rt, &heap, FAULTY, None);
    assert!(rt; faulty >= 4, "{faulty} requests");
}
