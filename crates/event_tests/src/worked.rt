//! A worked message, read and written.

use crate::messages::message_with;
use event_format::{Event, read_event, write_event};
use key_changes::KeyChange;
use std::alloc::Global;

/// Whether a CID's digest is this letter, 32 times.
fn is_of(cid: &[u8; 36], letter: u8) -> bool {
    cid[4] == letter && cid[35] == letter
}

/// Whether an operation is of this key, from one record to another, each by its letter, or 0 where there is none.
fn is_op(op: &KeyChange<'_>, key: &[u8], before: u8, after: u8) -> bool {
    let from = match &op.before {
        Some(cid) => cid.as_bytes()[35],
        None => 0,
    };
    let to = match &op.after {
        Some(cid) => cid.as_bytes()[35],
        None => 0,
    };
    op.key == key && from == before && to == after
}

/// Whether these are the worked message's operations.
fn are_worked_ops(ops: &[KeyChange<'_>]) -> bool {
    match ops {
        [one, two, three] => {
            is_op(one, b"posts/10", 0, b'a')
                && is_op(two, b"posts/11", b'b', 0)
                && is_op(three, b"posts/12", b'd', b'c')
        }
        _ => false,
    }
}

/// Whether an event is the worked message's, but for its operations.
fn is_worked(event: &Event<'_, Global>) -> bool {
    event.seq == 123
        && event.did == b"did:plc:ewvi7nxzyoun6zhxrhs64oiz".as_slice()
        && event.rev == b"3jzfcijpj2z2a".as_slice()
        && event.since == Some(b"3jzfcijpj2y2a".as_slice())
        && event.time == b"2024-01-01T00:00:00.000Z".as_slice()
        && event.blocks == [1, 2, 3, 4].as_slice()
        && is_of(event.commit.as_bytes(), b'e')
        && is_of(event.before.as_bytes(), b'f')
}

/// Whether a message is read as the worked one, and written back as it was.
fn is_read_and_written(alloc: Global, message: &[u8]) -> bool {
    let Ok(event) = read_event(alloc, message) else {
        return false;
    };
    let Ok(bytes) = write_event(alloc, &event) else {
        return false;
    };
    is_worked(&event) && are_worked_ops(&event.ops) && bytes.as_slice() == message
}

#[test]
fn the_worked_message(rt: HostRuntime) {
    let message = message_with(rt.alloc(), b"", Some(b"")).expect(&rt, "a message");
    assert!(rt; is_read_and_written(rt.alloc(), &message));
}

/// Whether a message is read, and written back as it was.
fn comes_back(alloc: Global, message: &[u8]) -> bool {
    let Ok(event) = read_event(alloc, message) else {
        return false;
    };
    match write_event(alloc, &event) {
        Ok(bytes) => bytes.as_slice() == message,
        Err(_) => false,
    }
}

/// Other values of a field that are taken: no operation, the greatest number, no revision before, another time.
const OTHERS: [(&[u8], &[u8]); 5] = [
    (b"\x63ops", b"\x80"),
    (b"\x63seq", b"\x1b\x7f\xff\xff\xff\xff\xff\xff\xff"),
    (b"\x65since", b"\xf6"),
    (b"\x64time", b"\x742024-01-01T00:00:00Z"),
    (b"\x66blocks", b"\x40"),
];

#[test]
fn other_values(rt: HostRuntime) {
    for (key, value) in &OTHERS {
        let message = message_with(rt.alloc(), key, Some(value)).expect(&rt, "a message");
        assert!(rt; comes_back(rt.alloc(), &message));
    }
}
