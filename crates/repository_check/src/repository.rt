//! A repository that was read.

use cid::Cid;
use signed_commits::SignedCommit;
use std::alloc::{Allocator, Global};

/// A record as its file shows it: its key, its CID, and its bytes, which the file lends.
#[derive(Drop)]
#[derive_where(Debug)]
pub struct Record<'f, A: Allocator = Global> {
    pub key: Vec<u8, A>,
    pub cid: Cid,
    pub bytes: &'f [u8],
}

/// A repository as its export shows it: the signed commit, whose parts the file lends, and the records in ascending order of
/// their keys.
#[derive(Drop)]
#[derive_where(Debug)]
pub struct Repository<'f, A: Allocator = Global> {
    pub commit: SignedCommit<'f>,
    pub records: Vec<Record<'f, A>, A>,
}
