//! Whole exports.

use crate::empty::{EMPTY, FOREIGN};
use crate::one::{KEY, NODE_SECTION, ONE, RECORD, RECORD_SECTION};
use crate::writing::{file_of, file_of_commit, node, node_without_pairs, push_block};
use car_reader::CarFault;
use cid::{Cid, Sha256};
use dagcbor::CborFault;
use repository_check::{CheckFault, Record, RecordFault, Repository, check};
use signed_commits::CommitFault;
use std::alloc::{AllocError, Global};

const DID: &[u8] = b"did:plc:ewvi7nxzyoun6zhxrhs64oiz";

const REV: &[u8] = b"3jzfcijpj2z2a";

/// The fault of a file.
fn fault_of(alloc: Global, file: &[u8]) -> Option<CheckFault> {
    check::<Sha256, 2, Global>(alloc, file).err()
}

/// Whether this is the record of the file with one.
fn is_the_record(record: &Record<'_>) -> bool {
    let bytes = &ONE[RECORD..];
    record.key.as_slice() == KEY.as_slice()
        && record.cid == Cid::of::<Sha256>(bytes)
        && record.bytes == bytes
}

/// Whether this is the repository of the file with one record.
fn is_the_repository(found: &Repository<'_>) -> bool {
    found.commit.did == DID
        && found.commit.rev == REV
        && found.commit.sig.len() == 64
        && found.records.len() == 1
        && is_the_record(&found.records[0])
}

#[test]
fn checks_the_empty_repository(rt: HostRuntime) {
    let found = check::<Sha256, 2, Global>(rt.alloc(), &EMPTY).expect(&rt, "an export");
    assert!(rt; found.commit.did == DID);
    assert_eq!(rt; found.records.len(), 0);
}

#[test]
fn checks_one_record(rt: HostRuntime) {
    let found = check::<Sha256, 2, Global>(rt.alloc(), &ONE).expect(&rt, "an export");
    assert!(rt; is_the_repository(&found));
}

/// The file with one record, its sections in another order and twice, with a block of another.
fn shuffled(alloc: Global) -> Result<Vec<u8>, AllocError> {
    let mut file = Vec::from_slice(alloc, &ONE[..59])?;
    file.extend_from_slice(&ONE[RECORD_SECTION..])?;
    file.extend_from_slice(&FOREIGN)?;
    file.extend_from_slice(&ONE[NODE_SECTION..])?;
    file.extend_from_slice(&ONE[59..])?;
    Ok(file)
}

#[test]
fn takes_any_order_and_blocks_of_others(rt: HostRuntime) {
    let file = shuffled(rt.alloc()).expect(&rt, "memory");
    let found = check::<Sha256, 2, Global>(rt.alloc(), &file).expect(&rt, "an export");
    assert!(rt; is_the_repository(&found));
}

/// Where the file with one record is cut, a byte that is changed, what it becomes, and the fault.
const CHANGES: [(usize, usize, u8, CheckFault); 6] = [
    (490, 0, 0x39, CheckFault::Car(CarFault::BadHeader)),
    (489, 0, 0x3a, CheckFault::Car(CarFault::Truncated)),
    (490, 489, 0x75, CheckFault::Misnamed),
    (490, 49, 0x00, CheckFault::NoCommit),
    (285, 0, 0x3a, CheckFault::NotTheTree),
    (416, 0, 0x3a, CheckFault::Record(0, RecordFault::NoRecord)),
];

/// The first `length` bytes of the file, with another byte at one place.
fn changed(alloc: Global, length: usize, place: usize, byte: u8) -> Result<Vec<u8>, AllocError> {
    let mut bytes = Vec::new(alloc);
    for (at, old) in ONE.iter().enumerate() {
        if at < length {
            bytes.push(if at == place { byte } else { *old })?;
        }
    }
    Ok(bytes)
}

#[test]
fn names_faults_of_a_changed_file(rt: HostRuntime) {
    for (length, place, byte, wanted) in &CHANGES {
        let bytes = changed(rt.alloc(), *length, *place, *byte).expect(&rt, "memory");
        let fault = fault_of(rt.alloc(), &bytes);
        assert!(rt; fault == Some(*wanted), "{length} bytes, {byte} at {place}");
    }
}

/// A record path without its slash.
const NO_PATH: [u8; 32] = *b"app.bsky.feed.post-3jzfcijpj2z2a";

/// Whose repository it is, its revision, the key and the record of its only pair, and the fault.
const PARTS: [(&[u8], &[u8], &[u8; 32], &[u8], CheckFault); 5] = [
    (
        b"did:plc",
        REV,
        &KEY,
        b"\xa0",
        CheckFault::Commit(CommitFault::BadDid),
    ),
    (
        DID,
        b"3jzfcijpj2z2",
        &KEY,
        b"\xa0",
        CheckFault::Commit(CommitFault::BadRev),
    ),
    (
        DID,
        REV,
        &NO_PATH,
        b"\xa0",
        CheckFault::Record(0, RecordFault::BadKey),
    ),
    (
        DID,
        REV,
        &KEY,
        b"\xa0\x00",
        CheckFault::Record(0, RecordFault::BadRecord(CborFault::Trailing)),
    ),
    (
        DID,
        REV,
        &KEY,
        b"\x80",
        CheckFault::Record(0, RecordFault::NotAMap),
    ),
];

/// The file of a repository with one pair.
fn file_with(
    alloc: Global,
    did: &[u8],
    rev: &[u8],
    key: &[u8; 32],
    record: &[u8],
) -> Result<Vec<u8>, AllocError> {
    let node = node(alloc, None, key, record)?;
    let mut file = file_of_commit(alloc, did, rev, &Cid::of::<Sha256>(&node))?;
    push_block(&mut file, &node)?;
    push_block(&mut file, record)?;
    Ok(file)
}

#[test]
fn names_faults_of_commits_and_records(rt: HostRuntime) {
    for (did, rev, key, record, wanted) in &PARTS {
        let file = file_with(rt.alloc(), did, rev, key, record).expect(&rt, "memory");
        let fault = fault_of(rt.alloc(), &file);
        assert!(rt; fault == Some(*wanted), "{fault:?} in place of {wanted:?}");
    }
}

/// A file whose root is a node and no commit.
fn file_without_commit(alloc: Global) -> Result<Vec<u8>, AllocError> {
    let node = node_without_pairs(alloc, None)?;
    let mut file = file_of(alloc, &Cid::of::<Sha256>(&node))?;
    push_block(&mut file, &node)?;
    Ok(file)
}

#[test]
fn names_a_root_that_is_no_commit(rt: HostRuntime) {
    let file = file_without_commit(rt.alloc()).expect(&rt, "memory");
    let fault = fault_of(rt.alloc(), &file);
    assert!(rt; fault == Some(CheckFault::Commit(CommitFault::NotACommit)));
}

/// A file with a record of one byte too many.
fn file_with_a_long_record(alloc: Global) -> Result<Vec<u8>, AllocError> {
    let mut record = Vec::with_capacity(alloc, 1_048_577)?;
    for _ in 0..1_048_577u32 {
        record.push(0u8)?;
    }
    file_with(alloc, DID, REV, &KEY, &record)
}

#[test]
fn names_a_record_that_is_too_long(rt: HostRuntime) {
    let file = file_with_a_long_record(rt.alloc()).expect(&rt, "memory");
    let fault = fault_of(rt.alloc(), &file);
    assert!(rt; fault == Some(CheckFault::Record(0, RecordFault::RecordSize)));
}

/// What stands below a commit that has no tree.
#[derive(Clone, Copy, Debug)]
enum Below {
    /// A block that is no node.
    NoNode,
    /// A node that links to a block that isn't there.
    LostLink,
    /// A node that links to a node with its own key.
    KeyTwice,
    /// A node that links to a node without pairs and without a link.
    EmptyNode,
    /// A node without pairs over the node of the only pair.
    BareTop,
}

const BELOW: [Below; 5] = [
    Below::NoNode,
    Below::LostLink,
    Below::KeyTwice,
    Below::EmptyNode,
    Below::BareTop,
];

/// The block below the commit, over the node of one pair and the node of none.
fn top_of(alloc: Global, below: Below, one: Cid, none: Cid) -> Result<Vec<u8>, AllocError> {
    match below {
        Below::NoNode => Vec::from_slice(alloc, b"\xa0"),
        Below::LostLink => node(alloc, Some(Cid::of::<Sha256>(b"lost")), &KEY, b"\xa0"),
        Below::KeyTwice => node(alloc, Some(one), &KEY, b"\xa0"),
        Below::EmptyNode => node(alloc, Some(none), &KEY, b"\xa0"),
        Below::BareTop => node_without_pairs(alloc, Some(one)),
    }
}

/// The file of a commit over such a block, with the nodes of one pair and of none, and the record.
fn file_without_tree(alloc: Global, below: Below) -> Result<Vec<u8>, AllocError> {
    let one = node(alloc, None, &KEY, b"\xa0")?;
    let none = node_without_pairs(alloc, None)?;
    let top = top_of(
        alloc,
        below,
        Cid::of::<Sha256>(&one),
        Cid::of::<Sha256>(&none),
    )?;
    let mut file = file_of_commit(alloc, DID, REV, &Cid::of::<Sha256>(&top))?;
    push_block(&mut file, &top)?;
    push_block(&mut file, &one)?;
    push_block(&mut file, &none)?;
    push_block(&mut file, b"\xa0")?;
    Ok(file)
}

#[test]
fn tells_where_there_is_no_tree(rt: HostRuntime) {
    for below in &BELOW {
        let file = file_without_tree(rt.alloc(), *below).expect(&rt, "memory");
        let fault = fault_of(rt.alloc(), &file);
        assert!(rt; fault == Some(CheckFault::NotTheTree), "{below:?}");
    }
}
