//! What given blocks prove, row by row, with all memory refused.

use crate::fixtures::{Proof, add};
use cid::{Cid, Sha256};
use export::{ProofFault, verify};
use node::NodeFault;
use refusing::Refusing;
use std::alloc::{AllocError, Allocator};

/// The block of the node without pairs.
const EMPTY: &[u8] = b"\xa2\x61e\x80\x61l\xf6";

/// The block of the node with the key `a/b` alone, whose record is the byte `a0`. The record's digest is of another program.
const ONE_KEY: &[u8] =
    b"\xa2\x61e\x81\xa4\x61kCa/b\x61p\x00\x61t\xf6\x61v\xd8\x2a\x58\x25\x00\x01\x71\x12\x20\
    \xc1\x9a\x79\x7f\xa1\xfd\x59\x0c\xd2\xe5\xb4\x2d\x1c\xf5\xf2\x46\
    \xe2\x9b\x91\x68\x4e\x2f\x87\x40\x4b\x81\xdc\x34\x5c\x7a\x56\xa0\x61l\xf6";

/// The longest key there is, and one that is longer.
const LONGEST: [u8; 1024] = [b'a'; 1024];

const LONGER: [u8; 1025] = [b'a'; 1025];

/// The block of the root, the blocks that are given, the key, and what they prove of it: its record, or none.
type Row = (
    &'static [u8],
    &'static [&'static [u8]],
    &'static [u8],
    Result<Option<&'static [u8]>, ProofFault>,
);

static ROWS: [Row; 11] = [
    (EMPTY, &[EMPTY], b"a/b", Ok(None)),
    (EMPTY, &[EMPTY], &LONGEST, Ok(None)),
    (EMPTY, &[b"other", EMPTY, EMPTY], b"a/b", Ok(None)),
    (EMPTY, &[], b"a/b", Err(ProofFault::BlockMissing)),
    (EMPTY, &[b"\xa2"], b"a/b", Err(ProofFault::BlockMissing)),
    (EMPTY, &[EMPTY], b"", Err(ProofFault::KeyLength)),
    (EMPTY, &[], &LONGER, Err(ProofFault::KeyLength)),
    (ONE_KEY, &[ONE_KEY], b"a/a", Ok(None)),
    (ONE_KEY, &[ONE_KEY], b"a/b", Ok(Some(b"\xa0"))),
    (ONE_KEY, &[ONE_KEY], b"a/c", Ok(None)),
    (
        b"\xa0",
        &[b"\xa0"],
        b"a/b",
        Err(ProofFault::BadNode(NodeFault::NotNode)),
    ),
];

/// Copies of some blocks.
fn copied<A: Allocator + Copy>(alloc: A, blocks: &[&[u8]]) -> Result<Proof<A>, AllocError> {
    let mut copies = Vec::new(alloc);
    for block in blocks {
        add(alloc, &mut copies, block)?;
    }
    Ok(copies)
}

/// Whether a row is answered so by these copies of its blocks.
fn is_answered<A: Allocator>(given: &[Vec<u8, A>], row: &Row) -> bool {
    let (root, _, key, wanted) = row;
    let root = Cid::of::<Sha256>(root);
    match (verify::<Sha256, 2, Vec<u8, A>>(&root, given, key), wanted) {
        (Ok(Some(cid)), Ok(Some(record))) => cid == Cid::of::<Sha256>(record),
        (Ok(None), Ok(None)) => true,
        (Err(fault), Err(other)) => fault == *other,
        _ => false,
    }
}

/// Whether it is with all memory refused.
fn is_answered_without_memory<A: Allocator>(heap: &Refusing<A>, row: &Row) -> bool {
    match copied(heap, row.1) {
        Ok(given) => {
            heap.refuse_from(1);
            let is_right = is_answered(&given, row);
            heap.refuse(0);
            is_right
        }
        Err(_) => false,
    }
}

/// Whether all rows are, and no request is refused.
fn are_answered_without_memory<A: Allocator>(heap: &Refusing<A>) -> bool {
    for row in &ROWS {
        if !is_answered_without_memory(heap, row) || heap.refused() != 0 {
            return false;
        }
    }
    true
}

#[test]
fn proofs_of_no_key_and_of_one(rt: HostRuntime) {
    let heap = Refusing::new(rt.alloc());
    assert!(rt; are_answered_without_memory(&heap));
}
