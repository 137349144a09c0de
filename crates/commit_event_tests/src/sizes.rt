//! A long record, and many blocks.

use crate::messages::{check, fault_of, message_with};
use crate::parts::{
    BLOCKS_SIZE, CREATED, CREATED_SECTION, LONG, LONG_FRONT, LONG_SIZE, TEXT_SECTION,
};
use cid::{Cid, Sha256};
use commit_events::EventFault;
use event_blocks::BlocksFault;
use std::alloc::{AllocError, Global};

/// The head of a byte string of so many bytes.
fn head(size: usize) -> [u8; 5] {
    let [_, _, _, _, a, b, c, d] = (size as u64).to_be_bytes();
    [0x5a, a, b, c, d]
}

/// The section of a record that is one byte too long.
fn long_section(alloc: Global) -> Result<Vec<u8>, AllocError> {
    let mut out = Vec::from_slice(alloc, LONG_FRONT)?;
    for _ten in 0..99_999 {
        out.extend_from_slice(&[0; 10])?;
    }
    Ok(out)
}

/// Whether the worked message has this fault where its second operation creates that record.
fn has_long_record(alloc: Global, fault: EventFault) -> bool {
    let Ok(section) = long_section(alloc) else {
        return false;
    };
    let edits = [
        (CREATED, LONG),
        (CREATED_SECTION, section.as_slice()),
        (BLOCKS_SIZE, LONG_SIZE),
    ];
    fault_of(alloc, &edits) == Some(fault)
}

#[test]
fn a_record_one_byte_too_long(rt: HostRuntime) {
    assert!(rt; has_long_record(rt.alloc(), EventFault::Blocks(BlocksFault::RecordSize(1))));
}

/// Sections of so many different blocks, each of two bytes.
fn sections(alloc: Global, count: u16) -> Result<Vec<u8>, AllocError> {
    let mut out = Vec::new(alloc);
    for number in 0..count {
        let block = number.to_be_bytes();
        out.push(38)?;
        out.extend_from_slice(Cid::of::<Sha256>(&block).as_bytes())?;
        out.extend_from_slice(&block)?;
    }
    Ok(out)
}

/// Whether the worked message is taken with so many sections more, each of 39 bytes.
fn takes_sections(alloc: Global, count: u16) -> bool {
    let Ok(sections) = sections(alloc, count) else {
        return false;
    };
    let size = head(sections.len().saturating_add(946));
    let Ok(message) = message_with(alloc, &[(TEXT_SECTION, &sections), (BLOCKS_SIZE, &size)]) else {
        return false;
    };
    match check(alloc, &message) {
        Ok(checked) => checked.sections.len() == usize::from(count).saturating_add(7),
        Err(_) => false,
    }
}

#[test]
fn many_blocks(rt: HostRuntime) {
    assert!(rt; takes_sections(rt.alloc(), 50_000));
}
