//! The text of a value, by the bytes that spell the value.

use dagcbor::read;
use record_json::{JsonFaultKind, dag_cbor_of, has_form, json_of};
use std::alloc::{AllocError, Global};
use std::process::Abort;

/// The bytes of a value, with its text.
pub type Row = (&'static [u8], &'static str);

/// The text of the value of these bytes, or none: there is no value, or it has no form.
fn text_of(alloc: Global, bytes: &[u8]) -> Option<Vec<u8>> {
    let Ok(value) = read(alloc, bytes) else {
        return None;
    };
    if !has_form(&value) {
        return None;
    }
    json_of(alloc, &value).ok()
}

/// Whether the value of these bytes has this text.
pub fn is_text_of(alloc: Global, bytes: &[u8], wanted: &[u8]) -> bool {
    match text_of(alloc, bytes) {
        Some(text) => text.as_slice() == wanted,
        None => false,
    }
}

/// Whether these are the bytes of the record of this text.
pub fn is_read(alloc: Global, text: &str, bytes: &[u8]) -> bool {
    match dag_cbor_of(alloc, text) {
        Ok(read) => read.as_slice() == bytes,
        Err(_) => false,
    }
}

/// Whether a text has this fault, at this place.
pub fn is_refused(alloc: Global, text: &str, kind: JsonFaultKind, path: &str) -> bool {
    match dag_cbor_of(alloc, text) {
        Ok(_) => false,
        Err(fault) => fault.kind == kind && fault.path.as_str() == path,
    }
}

/// Whether a value of these bytes is a map.
pub fn is_map(bytes: &[u8]) -> bool {
    match bytes.first() {
        Some(head) => (0xa0..=0xbf).contains(head),
        None => false,
    }
}

/// Sees that the value of each row has the row's text, and that the text of a map is read back.
pub fn assert_texts(rt: &impl Abort, alloc: Global, rows: &[Row]) {
    for (bytes, text) in rows {
        assert!(rt; is_text_of(alloc, bytes, text.as_bytes()), "at {text}");
        assert!(rt; !is_map(bytes) || is_read(alloc, text, bytes), "at {text}");
    }
}

/// These parts one after the other, each so many times.
pub fn joined(alloc: Global, parts: &[(&[u8], usize)]) -> Result<Vec<u8>, AllocError> {
    let mut all = Vec::new(alloc);
    for (part, times) in parts {
        for _ in 0..*times {
            all.extend_from_slice(part)?;
        }
    }
    Ok(all)
}
