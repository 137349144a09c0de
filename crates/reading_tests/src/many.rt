//! Repositories of many records.

use crate::writing::{file_of_commit, push_block};
use cid::{Cid, Sha256};
use export_commands::{ExportCommand, Values, export_text};
use repository_check::{CheckFault, RecordFault, Repository, check};
use scratch::{Built, build, is_ascending};
use std::alloc::{AllocError, Global};

/// How many records the greatest one has.
const COUNT: u16 = 2000;

/// The key of the record with a number below 10,000.
pub(crate) fn key_of(alloc: Global, n: u16) -> Result<Vec<u8>, AllocError> {
    let mut key = Vec::from_slice(alloc, b"app.bsky.feed.post/")?;
    for unit in [1000u16, 100, 10, 1] {
        key.push(b'0' + (n / unit % 10) as u8)?;
    }
    Ok(key)
}

/// The record with a number.
pub(crate) fn record_of(n: u16) -> [u8; 6] {
    let [high, low] = (n % 2000 + 1000).to_be_bytes();
    [0xa1, 0x61, b'n', 0x19, high, low]
}

/// The key of each of so many records with the record's CID.
fn pairs(alloc: Global, count: u16) -> Result<Vec<(Vec<u8>, Cid)>, AllocError> {
    let mut pairs = Vec::new(alloc);
    for n in 0..count {
        pairs.push((key_of(alloc, n)?, Cid::of::<Sha256>(&record_of(n))))?;
    }
    Ok(pairs)
}

/// Adds so many records but the one with a number.
fn push_records(file: &mut Vec<u8>, count: u16, without: u16) -> Result<(), AllocError> {
    for n in 0..count {
        if n != without {
            push_block(file, &record_of(n))?;
        }
    }
    Ok(())
}

/// The tree of so many records.
pub(crate) fn tree(alloc: Global, count: u16) -> Option<Built<Sha256>> {
    let pairs = pairs(alloc, count).ok()?;
    if !is_ascending(&pairs) {
        return None;
    }
    build::<Sha256, 2, Vec<u8>, Global>(alloc, &pairs).ok()
}

/// The file of the tree's repository: its commit, so many records but the one with a number, and its nodes.
pub(crate) fn file_over(
    alloc: Global,
    tree: &Built<Sha256>,
    count: u16,
    without: u16,
) -> Result<Vec<u8>, AllocError> {
    let did = b"did:plc:ewvi7nxzyoun6zhxrhs64oiz";
    let mut file = file_of_commit(alloc, did, b"3jzfcijpj2z2a", &tree.root)?;
    push_records(&mut file, count, without)?;
    for block in &tree.blocks {
        push_block(&mut file, block.bytes())?;
    }
    Ok(file)
}

/// Whether the record at a place is the one with this number.
fn is_at(found: &Repository<'_>, place: usize, n: u16) -> bool {
    match found.records.get(place) {
        Some(record) => record.bytes == record_of(n).as_slice(),
        None => false,
    }
}

#[test]
fn checks_two_thousand_records(rt: HostRuntime) {
    let tree = tree(rt.alloc(), COUNT).expect(&rt, "a tree");
    let file = file_over(rt.alloc(), &tree, COUNT, COUNT).expect(&rt, "memory");
    let found = check::<Sha256, 2, Global>(rt.alloc(), &file).expect(&rt, "an export");
    assert_eq!(rt; found.records.len(), 2000);
    assert!(rt; is_at(&found, 0, 0) && is_at(&found, 1234, 1234) && is_at(&found, 1999, 1999));
}

#[test]
fn names_the_place_of_a_lost_record(rt: HostRuntime) {
    let tree = tree(rt.alloc(), COUNT).expect(&rt, "a tree");
    let file = file_over(rt.alloc(), &tree, COUNT, 1234).expect(&rt, "memory");
    let fault = check::<Sha256, 2, Global>(rt.alloc(), &file).err();
    assert!(rt; fault == Some(CheckFault::Record(1234, RecordFault::NoRecord)));
}

/// What a command tells of so many records.
fn told(alloc: Global, command: ExportCommand, count: u16) -> Option<Vec<u8>> {
    let tree = tree(alloc, count)?;
    let file = file_over(alloc, &tree, count, count).ok()?;
    let mut input: &[u8] = &file;
    let mut out = Vec::new(alloc);
    export_text::<Sha256, Global, _, _>(command, alloc, &mut input, &mut out).ok()?;
    Some(out)
}

/// A line has a key of 23 bytes, and a record of 6 bytes in hexadecimal or a CID's text of 59 letters.
#[test]
fn tells_two_thousand_records(rt: HostRuntime) {
    let alloc = rt.alloc();
    let records = told(alloc, ExportCommand::Records(Values::Bytes), COUNT);
    let records = records.expect(&rt, "lines of records");
    assert_eq!(rt; records.len(), 74_000);
    assert!(rt; records.ends_with(b"\napp.bsky.feed.post/1999 a1616e190bb7\n"));
    let cids = told(alloc, ExportCommand::Records(Values::Cids), COUNT);
    assert_eq!(rt; cids.expect(&rt, "lines of CIDs").len(), 168_000);
    let summary = told(alloc, ExportCommand::Check, COUNT).expect(&rt, "a summary");
    assert!(rt; summary.ends_with(b" 2000\n"));
}
