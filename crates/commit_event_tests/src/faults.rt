//! Each fault.

use crate::messages::fault_of;
use crate::parts::{
    BEFORE, BLOCKS_SIZE, CAR_ROOT, COMMIT, COMMIT_SECTION, CREATED, DID, FLAGS, KEPT, LOWEST,
    LOWEST_NODE, MISNAMED, NEW, OF_A_RECORD, REV, TEXT, TEXT_SECTION, UPDATED_FROM, UPDATED_PATH,
    UPDATED_TO, VERSION,
};
use crate::planted::{BELOW_LAYER_0, DESCENDING, Planted};
use car_reader::CarFault;
use change_proofs::ChangeFault;
use cid::CidRef;
use commit_events::EventFault;
use event_blocks::BlocksFault;
use event_format::FormFault;
use record_rules::RecordFault;
use signed_commits::CommitFault;
use std::alloc::Global;

/// What is changed in the worked message, and its fault.
const FAULTS: [(&[(usize, &[u8])], EventFault); 14] = [
    (
        &[(
            FLAGS,
            b"\x66rebase\xf4\x66tooBig\xf5\x68prevData\xd8\x2a\x58\x25\x00",
        )],
        EventFault::Form(FormFault::TooBig),
    ),
    // the first two operations have one path
    (&[(UPDATED_PATH, b"posts/10")], EventFault::DoubledPath(1)),
    (&[(BEFORE, KEPT)], EventFault::OtherPrevious),
    (
        &[(VERSION, b"\x67version\x02")],
        EventFault::Blocks(BlocksFault::Car(CarFault::BadHeader)),
    ),
    (
        &[(COMMIT, KEPT)],
        EventFault::Blocks(BlocksFault::NotTheRoot),
    ),
    (
        &[(TEXT_SECTION, MISNAMED)],
        EventFault::Blocks(BlocksFault::Misnamed),
    ),
    (
        &[(COMMIT_SECTION, b""), (BLOCKS_SIZE, b"\x59\x02\xf6")],
        EventFault::Blocks(BlocksFault::CommitMissing),
    ),
    (
        &[(COMMIT, TEXT), (CAR_ROOT, TEXT)],
        EventFault::Blocks(BlocksFault::Commit(CommitFault::NotACommit)),
    ),
    (
        &[(DID, b"did:plc:ewvi7nxzyoun6zhxrhs64oia")],
        EventFault::Blocks(BlocksFault::OtherDid),
    ),
    (
        &[(REV, b"3jzfcijpj2z2b")],
        EventFault::Blocks(BlocksFault::OtherRev),
    ),
    (
        &[(UPDATED_TO, KEPT)],
        EventFault::Blocks(BlocksFault::RecordMissing(0)),
    ),
    (
        &[(CREATED, TEXT)],
        EventFault::Blocks(BlocksFault::BadRecord(1, RecordFault::NotAMap)),
    ),
    // the last one in the order of the keys, and the first of the message
    (
        &[(UPDATED_TO, NEW)],
        EventFault::Change(ChangeFault::OtherValue(0)),
    ),
    (
        &[(UPDATED_FROM, KEPT)],
        EventFault::Change(ChangeFault::OtherRoot),
    ),
];

#[test]
fn faults(rt: HostRuntime) {
    for (edits, fault) in &FAULTS {
        assert!(rt; fault_of(rt.alloc(), edits) == Some(*fault));
    }
}

/// The fault where the block with this CID is missing.
fn missing(cid: CidRef<'_>) -> EventFault {
    EventFault::Change(ChangeFault::BlockMissing(cid.to_cid()))
}

/// The fault where the block with this CID is no node.
fn bad_node(cid: CidRef<'_>) -> EventFault {
    EventFault::Change(ChangeFault::BadNode(cid.to_cid()))
}

#[test]
fn a_node_is_missing(rt: HostRuntime) {
    let node = CidRef::from_bytes(LOWEST_NODE).expect(&rt, "a CID");
    let edits: [(usize, &[u8]); 2] = [(LOWEST, b""), (BLOCKS_SIZE, b"\x59\x03\x6f")];
    assert!(rt; fault_of(rt.alloc(), &edits) == Some(missing(node)));
}

#[test]
fn a_record_is_no_node(rt: HostRuntime) {
    let record = CidRef::from_bytes(NEW).expect(&rt, "a CID");
    let (section, cid) = OF_A_RECORD;
    let edits = [(COMMIT_SECTION, section), (COMMIT, cid), (CAR_ROOT, cid)];
    assert!(rt; fault_of(rt.alloc(), &edits) == Some(bad_node(record)));
}

/// The fault of the worked message with these nodes and their commit.
fn fault_over(alloc: Global, planted: &Planted) -> Option<EventFault> {
    let edits = [
        (BLOCKS_SIZE, planted.size),
        (CAR_ROOT, planted.cid),
        (COMMIT_SECTION, planted.commit),
        (LOWEST, planted.nodes),
        (COMMIT, planted.cid),
    ];
    fault_of(alloc, &edits)
}

#[test]
fn nodes_are_no_tree(rt: HostRuntime) {
    let deep = fault_over(rt.alloc(), &BELOW_LAYER_0);
    assert!(rt; deep == Some(EventFault::Change(ChangeFault::TooDeep)));
    let descending = fault_over(rt.alloc(), &DESCENDING);
    assert!(rt; descending == Some(EventFault::Change(ChangeFault::NotTree)));
}
