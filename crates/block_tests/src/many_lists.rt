//! Digests and blocks of many lists of bytes at once.

use crate::fixtures::EMPTY_NODE;
use block::{Block, Write};
use cid::digests::Toy;
use cid::{Cid, Digest, Sha256};
use std::alloc::{AllocError, Global};
use std::sync::Arc;
use std::test::Fail;

const LISTS: [&[u8]; 5] = [b"", b"a", &EMPTY_NODE, b"a", b"blue"];

/// Whether each digest is that of its list.
fn are_digests<D: Digest>(digests: &[[u8; 32]]) -> bool {
    let mut right = digests.len() == LISTS.len();
    for (digest, list) in digests.iter().zip(LISTS) {
        right &= *digest == D::digest(list);
    }
    right
}

#[test]
fn digests_of_many_lists(rt: HostRuntime) -> Result<(), Fail> {
    assert!(rt; are_digests::<Sha256>(&Sha256::digest_each(rt.alloc(), &LISTS)?));
    assert!(rt; are_digests::<Toy>(&Toy::digest_each(rt.alloc(), &LISTS)?));
    Ok(())
}

#[test]
fn blocks_of_many_lists(rt: HostRuntime) -> Result<(), Fail> {
    let mut lists = Vec::new(rt.alloc());
    for list in LISTS {
        lists.push(Vec::from_slice(rt.alloc(), list)?)?;
    }
    let blocks = Block::<Sha256>::of_each(lists)?;
    let mut right = blocks.len() == LISTS.len();
    for (block, list) in blocks.iter().zip(LISTS) {
        right &= block.bytes() == list && block.cid() == Cid::of::<Sha256>(list);
    }
    assert!(rt; right);
    Ok(())
}

fn bytes(alloc: Global, list: &[u8]) -> Result<Vec<u8>, AllocError> {
    Vec::from_slice(alloc, list)
}

/// A put, a create and an update: each block has the record and not the key, also where the record is a node.
#[test]
fn blocks_of_the_records_of_writes(rt: HostRuntime) -> Result<(), Fail> {
    let alloc = rt.alloc();
    let put = Write::Put(bytes(alloc, b"a/b")?, bytes(alloc, LISTS[2])?);
    let create = Write::Create(bytes(alloc, b"a/c")?, bytes(alloc, LISTS[3])?);
    let update = Write::Update(bytes(alloc, b"a/d")?, bytes(alloc, LISTS[4])?);
    let put = Arc::new(alloc, put)?;
    let create = Arc::new(alloc, create)?;
    let update = Arc::new(alloc, update)?;
    let blocks = Block::<Sha256>::of_writes(vec![in alloc; put, create, update]?)?;
    let mut right = blocks.len() == 3;
    for (block, list) in blocks.iter().zip(&LISTS[2..]) {
        right &= block.bytes() == *list && block.cid() == Cid::of::<Sha256>(list);
        right &= block.is_node() == (*list == EMPTY_NODE.as_slice());
    }
    assert!(rt; right);
    Ok(())
}
