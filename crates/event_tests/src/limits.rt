//! The bounds of a message, at and above.

use crate::faults::fault_of;
use crate::messages::{message_with, padded, push_zeros};
use event_format::FormFault;
use event_times::is_time;
use std::alloc::{AllocError, Global};

/// A create, as it is spelled.
const CREATE: &[u8] =
    b"\xa3\x63cid\xd8\x2a\x58\x25\x00\x01\x71\x12\x20aaaaaaaaaaaaaaaaaaaaaaaaaaaaaaaa\
    \x64path\x68posts/10\x66action\x66create";

/// A message of so many operations.
fn with_ops(alloc: Global, count: u8) -> Result<Vec<u8>, AllocError> {
    let mut ops = Vec::new(alloc);
    ops.extend_from_slice(&[0x98, count])?;
    for _op in 0..count {
        ops.extend_from_slice(CREATE)?;
    }
    message_with(alloc, b"\x63ops", Some(&ops))
}

/// A message whose CAR file has so many bytes.
fn with_blocks(alloc: Global, size: usize) -> Result<Vec<u8>, AllocError> {
    let mut blocks = Vec::new(alloc);
    push_zeros(&mut blocks, size)?;
    message_with(alloc, b"\x66blocks", Some(&blocks))
}

#[test]
fn operations(rt: HostRuntime) {
    let most = with_ops(rt.alloc(), 200).expect(&rt, "a message");
    assert!(rt; fault_of(rt.alloc(), &most) == FormFault::NoMemory);
    let more = with_ops(rt.alloc(), 201).expect(&rt, "a message");
    assert!(rt; fault_of(rt.alloc(), &more) == FormFault::TooManyOps);
}

#[test]
fn bytes_of_blocks(rt: HostRuntime) {
    let most = with_blocks(rt.alloc(), 2_000_000).expect(&rt, "a message");
    assert!(rt; fault_of(rt.alloc(), &most) == FormFault::NoMemory);
    let more = with_blocks(rt.alloc(), 2_000_001).expect(&rt, "a message");
    assert!(rt; fault_of(rt.alloc(), &more) == FormFault::BlocksSize);
}

/// The fault of a message of so many bytes in all; `NotAMap` where it can't be made.
fn fault_at(alloc: Global, size: usize) -> FormFault {
    let Ok(least) = padded(alloc, 65_536) else {
        return FormFault::NotAMap;
    };
    let zeros = size.saturating_sub(least.len()).saturating_add(65_536);
    match padded(alloc, zeros) {
        Ok(message) if message.len() == size => fault_of(alloc, &message),
        _ => FormFault::NotAMap,
    }
}

#[test]
fn bytes_of_messages(rt: HostRuntime) {
    assert!(rt; fault_at(rt.alloc(), 5_000_000) == FormFault::NoMemory);
    assert!(rt; fault_at(rt.alloc(), 5_000_001) == FormFault::MessageSize);
}

/// Texts, and whether each has the form of a time.
const TIMES: [(&[u8], bool); 12] = [
    (b"2024-01-01T00:00:00Z", true),
    (b"2024-01-01T00:00:00.1Z", true),
    (b"2024-01-01T00:00:00.123456789+05:30", true),
    (b"2024-01-01T00:00:00-08:00", true),
    (
        b"2024-01-01T00:00:00.12345678901234567890123456789012345678901234Z",
        false,
    ),
    (
        b"2024-01-01T00:00:00.1234567890123456789012345678901234567890123Z",
        true,
    ),
    (b"2024-01-01T00:00:00", false),
    (b"2024-01-01T00:00:00.Z", false),
    (b"2024-01-01 00:00:00Z", false),
    (b"2024-01-01T00:00:00z", false),
    (b"2024-01-01T00:00:00+0530", false),
    (b"", false),
];

#[test]
fn times(rt: HostRuntime) {
    for (time, is_one) in &TIMES {
        assert!(rt; is_time(time) == *is_one);
    }
}
