//! A message put together from its fields as they are spelled.

use std::alloc::{AllocError, Global};

/// The map of `t`, `#commit`, and `op`, 1.
const HEADER: &[u8] = b"\xa2\x61t\x67#commit\x62op\x01";

/// Each field of the worked message, its key and its value as they are spelled: a create, a delete and an update.
pub(crate) static FIELDS: [(&[u8], &[u8]); 12] = [
    (
        b"\x63ops",
        b"\x83\
        \xa3\x63cid\xd8\x2a\x58\x25\x00\x01\x71\x12\x20aaaaaaaaaaaaaaaaaaaaaaaaaaaaaaaa\x64path\x68posts/10\x66action\x66create\
        \xa4\x63cid\xf6\x64path\x68posts/11\x64prev\xd8\x2a\x58\x25\x00\x01\x71\x12\x20bbbbbbbbbbbbbbbbbbbbbbbbbbbbbbbb\
        \x66action\x66delete\
        \xa4\x63cid\xd8\x2a\x58\x25\x00\x01\x71\x12\x20cccccccccccccccccccccccccccccccc\x64path\x68posts/12\
        \x64prev\xd8\x2a\x58\x25\x00\x01\x71\x12\x20dddddddddddddddddddddddddddddddd\x66action\x66update",
    ),
    (b"\x63rev", b"\x6d3jzfcijpj2z2a"),
    (b"\x63seq", b"\x18\x7b"),
    (b"\x64repo", b"\x78\x20did:plc:ewvi7nxzyoun6zhxrhs64oiz"),
    (b"\x64time", b"\x78\x182024-01-01T00:00:00.000Z"),
    (b"\x65blobs", b"\x80"),
    (b"\x65since", b"\x6d3jzfcijpj2y2a"),
    (b"\x66blocks", b"\x44\x01\x02\x03\x04"),
    (
        b"\x66commit",
        b"\xd8\x2a\x58\x25\x00\x01\x71\x12\x20eeeeeeeeeeeeeeeeeeeeeeeeeeeeeeee",
    ),
    (b"\x66rebase", b"\xf4"),
    (b"\x66tooBig", b"\xf4"),
    (
        b"\x68prevData",
        b"\xd8\x2a\x58\x25\x00\x01\x71\x12\x20ffffffffffffffffffffffffffffffff",
    ),
];

/// The message whose field with this key has another value, or isn't there. With no such key it is the worked one.
pub(crate) fn message_with(
    alloc: Global,
    key: &[u8],
    value: Option<&[u8]>,
) -> Result<Vec<u8>, AllocError> {
    let mut out = Vec::new(alloc);
    out.extend_from_slice(HEADER)?;
    out.extend_from_slice(if value.is_some() { b"\xac" } else { b"\xab" })?;
    for (name, own) in &FIELDS {
        push_field(&mut out, name, own, key, value)?;
    }
    Ok(out)
}

/// Puts a field, with the other value where it has this key.
fn push_field(
    out: &mut Vec<u8>,
    name: &[u8],
    own: &[u8],
    key: &[u8],
    value: Option<&[u8]>,
) -> Result<(), AllocError> {
    if name != key {
        out.extend_from_slice(name)?;
        return out.extend_from_slice(own);
    }
    match value {
        Some(value) => {
            out.extend_from_slice(name)?;
            out.extend_from_slice(value)
        }
        None => Ok(()),
    }
}

/// The worked message with one more field at its end, a byte string of so many zeros, which no reader knows.
pub(crate) fn padded(alloc: Global, zeros: usize) -> Result<Vec<u8>, AllocError> {
    let mut out = Vec::new(alloc);
    out.extend_from_slice(HEADER)?;
    out.extend_from_slice(b"\xad")?;
    for (name, own) in &FIELDS {
        push_field(&mut out, name, own, b"", None)?;
    }
    out.extend_from_slice(b"\x69a_further")?;
    push_zeros(&mut out, zeros)?;
    Ok(out)
}

/// Puts a byte string of so many zeros, from 65,536 to 2^32 - 1.
pub(crate) fn push_zeros(out: &mut Vec<u8>, zeros: usize) -> Result<(), AllocError> {
    let [_, _, _, _, a, b, c, d] = (zeros as u64).to_be_bytes();
    out.extend_from_slice(&[0x5a, a, b, c, d])?;
    for _zero in 0..zeros {
        out.extend_from_slice(b"\x00")?;
    }
    Ok(())
}
