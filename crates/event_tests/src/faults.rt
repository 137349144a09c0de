//! Each fault of the form.

use crate::messages::message_with;
use dagcbor::CborFault;
use event_format::{Field, FormFault, read_event};
use std::alloc::Global;

/// The fault of a message, or `NoMemory` where it has none.
pub(crate) fn fault_of(alloc: Global, message: &[u8]) -> FormFault {
    match read_event(alloc, message) {
        Ok(_) => FormFault::NoMemory,
        Err(fault) => fault,
    }
}

/// Bytes that are no message.
const BYTES: [(&[u8], FormFault); 6] = [
    (b"", FormFault::NotCommit),
    (b"\xa2\x61t\x65#sync\x62op\x01\xa0", FormFault::NotCommit),
    (b"\xa2\x61t\x67#commit\x62op\x20\xa0", FormFault::NotCommit),
    (
        b"\xa2\x61t\x67#commit\x62op\x01",
        FormFault::Cbor(CborFault::Truncated),
    ),
    (
        b"\xa2\x61t\x67#commit\x62op\x01\xa0\x00",
        FormFault::Cbor(CborFault::Trailing),
    ),
    (b"\xa2\x61t\x67#commit\x62op\x01\x80", FormFault::NotAMap),
];

#[test]
fn bytes_that_are_no_message(rt: HostRuntime) {
    for (bytes, fault) in &BYTES {
        assert!(rt; fault_of(rt.alloc(), bytes) == *fault);
    }
}

/// A field that isn't there, or has another value, and the fault.
const FIELDS: [(&[u8], Option<&[u8]>, FormFault); 39] = [
    (b"\x63ops", None, FormFault::BadField(Field::Ops)),
    (b"\x63rev", None, FormFault::BadField(Field::Rev)),
    (b"\x63seq", None, FormFault::BadField(Field::Seq)),
    (b"\x64repo", None, FormFault::BadField(Field::Repo)),
    (b"\x64time", None, FormFault::BadField(Field::Time)),
    (b"\x65blobs", None, FormFault::BadField(Field::Blobs)),
    (b"\x65since", None, FormFault::BadField(Field::Since)),
    (b"\x66blocks", None, FormFault::BadField(Field::Blocks)),
    (b"\x66commit", None, FormFault::BadField(Field::Commit)),
    (b"\x66rebase", None, FormFault::BadField(Field::Rebase)),
    (b"\x66tooBig", None, FormFault::BadField(Field::TooBig)),
    (b"\x68prevData", None, FormFault::BadField(Field::PrevData)),
    (b"\x63ops", Some(b"\xa0"), FormFault::BadField(Field::Ops)),
    (b"\x63rev", Some(b"\xf6"), FormFault::BadField(Field::Rev)),
    (b"\x63seq", Some(b"\x20"), FormFault::BadField(Field::Seq)),
    (b"\x64repo", Some(b"\x40"), FormFault::BadField(Field::Repo)),
    (b"\x64time", Some(b"\x01"), FormFault::BadField(Field::Time)),
    (
        b"\x65blobs",
        Some(b"\x81\xf6"),
        FormFault::BadField(Field::Blobs),
    ),
    (
        b"\x65since",
        Some(b"\xf4"),
        FormFault::BadField(Field::Since),
    ),
    (
        b"\x66blocks",
        Some(b"\x60"),
        FormFault::BadField(Field::Blocks),
    ),
    // a link of another codec
    (
        b"\x66commit",
        Some(b"\xd8\x2a\x58\x25\x00\x01\x55\x12\x20eeeeeeeeeeeeeeeeeeeeeeeeeeeeeeee"),
        FormFault::BadField(Field::Commit),
    ),
    (
        b"\x66rebase",
        Some(b"\xf6"),
        FormFault::BadField(Field::Rebase),
    ),
    (
        b"\x66tooBig",
        Some(b"\x00"),
        FormFault::BadField(Field::TooBig),
    ),
    (
        b"\x68prevData",
        Some(b"\xf6"),
        FormFault::BadField(Field::PrevData),
    ),
    (b"\x66rebase", Some(b"\xf5"), FormFault::Rebase),
    (b"\x66tooBig", Some(b"\xf5"), FormFault::TooBig),
    (b"\x64repo", Some(b"\x64did:"), FormFault::BadDid),
    (b"\x63rev", Some(b"\x613"), FormFault::BadRev),
    (b"\x65since", Some(b"\x613"), FormFault::BadSince),
    (
        b"\x65since",
        Some(b"\x6d3jzfcijpj2z2a"),
        FormFault::RevOrder,
    ),
    (b"\x64time", Some(b"\x6a2024-01-01"), FormFault::BadTime),
    // no operation at all
    (b"\x63ops", Some(b"\x81\xf6"), FormFault::BadOp(0)),
    // an action that isn't this one
    (
        b"\x63ops",
        Some(
            b"\x81\xa4\x63cid\xf6\x64path\x68posts/11\x64prev\
            \xd8\x2a\x58\x25\x00\x01\x71\x12\x20bbbbbbbbbbbbbbbbbbbbbbbbbbbbbbbb\x66action\x66update",
        ),
        FormFault::BadOp(0),
    ),
    // a path that is none, behind an operation that is one
    (
        b"\x63ops",
        Some(
            b"\x82\
            \xa3\x63cid\xd8\x2a\x58\x25\x00\x01\x71\x12\x20aaaaaaaaaaaaaaaaaaaaaaaaaaaaaaaa\
            \x64path\x68posts/10\x66action\x66create\
            \xa3\x63cid\xd8\x2a\x58\x25\x00\x01\x71\x12\x20aaaaaaaaaaaaaaaaaaaaaaaaaaaaaaaa\
            \x64path\x65posts\x66action\x66create",
        ),
        FormFault::BadOp(1),
    ),
    // an update to the same record
    (
        b"\x63ops",
        Some(
            b"\x81\xa4\x63cid\xd8\x2a\x58\x25\x00\x01\x71\x12\x20cccccccccccccccccccccccccccccccc\x64path\x68posts/12\
            \x64prev\xd8\x2a\x58\x25\x00\x01\x71\x12\x20cccccccccccccccccccccccccccccccc\x66action\x66update",
        ),
        FormFault::BadOp(0),
    ),
    // neither before nor after
    (
        b"\x63ops",
        Some(b"\x81\xa3\x63cid\xf6\x64path\x68posts/11\x66action\x66delete"),
        FormFault::BadOp(0),
    ),
    // no action, no path, prev null
    (
        b"\x63ops",
        Some(b"\x81\xa2\x63cid\xf6\x64path\x68posts/11"),
        FormFault::BadOp(0),
    ),
    (
        b"\x63ops",
        Some(b"\x81\xa2\x63cid\xf6\x66action\x66delete"),
        FormFault::BadOp(0),
    ),
    (
        b"\x63ops",
        Some(
            b"\x81\xa4\x63cid\xd8\x2a\x58\x25\x00\x01\x71\x12\x20aaaaaaaaaaaaaaaaaaaaaaaaaaaaaaaa\
            \x64path\x68posts/10\x64prev\xf6\x66action\x66create",
        ),
        FormFault::BadOp(0),
    ),
];

#[test]
fn fields_at_fault(rt: HostRuntime) {
    for (key, value, fault) in &FIELDS {
        let message = message_with(rt.alloc(), key, *value).expect(&rt, "a message");
        assert!(rt; fault_of(rt.alloc(), &message) == *fault);
    }
}
