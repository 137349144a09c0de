//! Signed commits.

use crate::empty::{AFTER_ANOTHER, EMPTY, UNSIGNED};
use signed_commits::{CommitFault, read_commit};
use std::alloc::{AllocError, Global};

/// The commit of the empty repository.
fn block() -> &'static [u8] {
    &EMPTY[97..285]
}

/// The commit with other bytes at two places.
fn changed(alloc: Global, one: (usize, u8), two: (usize, u8)) -> Result<Vec<u8>, AllocError> {
    let mut bytes = Vec::new(alloc);
    for (at, old) in block().iter().enumerate() {
        let byte = if at == one.0 {
            one.1
        } else if at == two.0 {
            two.1
        } else {
            *old
        };
        bytes.push(byte)?;
    }
    Ok(bytes)
}

/// Two bytes that are changed, what they become, and the fault: a field's name, the DID's first letter, the revision's, both,
/// and the DID's and a field's name.
const FAULTS: [((usize, u8), (usize, u8), CommitFault); 5] = [
    ((58, 0x53), (58, 0x53), CommitFault::NotACommit),
    ((7, 0x44), (7, 0x44), CommitFault::BadDid),
    ((44, 0x7a), (44, 0x7a), CommitFault::BadRev),
    ((7, 0x44), (44, 0x7a), CommitFault::BadDid),
    ((7, 0x44), (58, 0x53), CommitFault::NotACommit),
];

#[test]
fn reads_and_writes_a_commit(rt: HostRuntime) {
    let commit = read_commit(block()).expect(&rt, "a commit");
    assert!(rt; commit.did == b"did:plc:ewvi7nxzyoun6zhxrhs64oiz".as_slice());
    assert!(rt; commit.rev == b"3jzfcijpj2z2a".as_slice());
    assert_eq!(rt; commit.sig.len(), 64);
    assert!(rt; commit.prev.is_none());
    let signed = commit.signed_bytes(rt.alloc()).expect(&rt, "memory");
    assert!(rt; signed.as_slice() == block());
    let unsigned = commit.unsigned_bytes(rt.alloc()).expect(&rt, "memory");
    assert!(rt; unsigned.as_slice() == UNSIGNED.as_slice());
}

#[test]
fn reads_the_commit_before(rt: HostRuntime) {
    let commit = read_commit(&AFTER_ANOTHER).expect(&rt, "a commit");
    assert!(rt; commit.prev == Some(commit.root));
    let signed = commit.signed_bytes(rt.alloc()).expect(&rt, "memory");
    assert!(rt; signed.as_slice() == AFTER_ANOTHER.as_slice());
}

#[test]
fn names_each_fault(rt: HostRuntime) {
    for (one, two, wanted) in &FAULTS {
        let bytes = changed(rt.alloc(), *one, *two).expect(&rt, "memory");
        assert!(rt;
            read_commit(&bytes).err() == Some(*wanted),
            "{one:?} and {two:?}"
        );
    }
    let cut = &EMPTY[97..284];
    assert!(rt; read_commit(cut).err() == Some(CommitFault::NotACommit));
}
