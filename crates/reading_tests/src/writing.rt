//! Files as servers write them, and their blocks.

use cid::{Cid, CidRef, Sha256};
use signed_commits::SignedCommit;
use std::alloc::{AllocError, Global};

/// Adds a number below 2,097,152, seven bits a byte, the low ones first.
fn push_number(file: &mut Vec<u8>, n: usize) -> Result<(), AllocError> {
    let low = (n % 128) as u8;
    let middle = (n / 128 % 128) as u8;
    let high = (n / 16_384 % 128) as u8;
    if n < 128 {
        file.extend_from_slice(&[low])
    } else if n < 16_384 {
        file.extend_from_slice(&[low | 0x80, middle])
    } else {
        file.extend_from_slice(&[low | 0x80, middle | 0x80, high])
    }
}

/// Adds the section of a block.
pub(crate) fn push_block(file: &mut Vec<u8>, block: &[u8]) -> Result<(), AllocError> {
    push_number(file, block.len().saturating_add(36))?;
    file.extend_from_slice(Cid::of::<Sha256>(block).as_bytes())?;
    file.extend_from_slice(block)
}

/// A file without sections that names this root.
pub(crate) fn file_of(alloc: Global, root: &Cid) -> Result<Vec<u8>, AllocError> {
    let mut file = Vec::from_slice(alloc, b"\x3a\xa2\x65roots\x81\xd8\x2a\x58\x25\x00")?;
    file.extend_from_slice(root.as_bytes())?;
    file.extend_from_slice(b"\x67version\x01")?;
    Ok(file)
}

/// A commit of this DID and revision over this root.
fn commit<'a>(
    alloc: Global,
    did: &'a [u8],
    rev: &'a [u8],
    root: &'a Cid,
) -> Result<Vec<u8>, AllocError> {
    let commit = SignedCommit {
        did,
        rev,
        sig: b"signed",
        root: CidRef::from(root),
        prev: None,
    };
    commit.signed_bytes(alloc)
}

/// The file of such a commit, without other sections.
pub(crate) fn file_of_commit(
    alloc: Global,
    did: &[u8],
    rev: &[u8],
    root: &Cid,
) -> Result<Vec<u8>, AllocError> {
    let commit = commit(alloc, did, rev, root)?;
    let mut file = file_of(alloc, &Cid::of::<Sha256>(&commit))?;
    push_block(&mut file, &commit)?;
    Ok(file)
}

/// A node with a left link and one entry, by the entry's key and its record.
pub(crate) fn node(
    alloc: Global,
    left: Option<Cid>,
    key: &[u8; 32],
    record: &[u8],
) -> Result<Vec<u8>, AllocError> {
    let mut bytes = Vec::from_slice(alloc, b"\xa2\x61e\x81\xa4\x61k\x58\x20")?;
    bytes.extend_from_slice(key)?;
    bytes.extend_from_slice(b"\x61p\x00\x61t\xf6\x61v\xd8\x2a\x58\x25\x00")?;
    bytes.extend_from_slice(Cid::of::<Sha256>(record).as_bytes())?;
    bytes.extend_from_slice(b"\x61l")?;
    push_link(&mut bytes, left)?;
    Ok(bytes)
}

/// A node with a left link and no entry.
pub(crate) fn node_without_pairs(alloc: Global, left: Option<Cid>) -> Result<Vec<u8>, AllocError> {
    let mut bytes = Vec::from_slice(alloc, b"\xa2\x61e\x80\x61l")?;
    push_link(&mut bytes, left)?;
    Ok(bytes)
}

/// Adds a link, or null.
fn push_link(bytes: &mut Vec<u8>, link: Option<Cid>) -> Result<(), AllocError> {
    match link {
        Some(cid) => {
            bytes.extend_from_slice(b"\xd8\x2a\x58\x25\x00")?;
            bytes.extend_from_slice(cid.as_bytes())
        }
        None => bytes.extend_from_slice(b"\xf6"),
    }
}
