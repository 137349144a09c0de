//! Repositories that open with the records of a file.

ghost use Rattle.std.specs.Prelude.{◌≤◌};
ghost use Rattle.sha2.specs.Sha256.{sha256};
ghost use Rattle.checked_opening.specs.Opening.{IsOpenable};

use crate::empty::EMPTY;
use crate::many::{file_over, tree};
use crate::one::ONE;
use batches::RepoFault;
use checked_opening::open_checked;
use cid::{Cid, Sha256};
use repo::Core;
use repository_check::{Repository, check};
use std::alloc::Global;
use store::{LentShard, Shard, TableKey};

/// What came of a file.
#[derive(Clone, Copy, Debug, PartialEq, Eq)]
enum Answer {
    /// It opened with so many writes and this root, and with the file's records.
    Opened(u64, Cid),
    /// It opened, and has other records than the file.
    Wrong,
    /// It has too many records.
    Full,
    /// The store is full.
    StoreFull,
    /// There was another fault.
    Other,
}

/// Whether a core has the record of each key.
fn has_records(core: &Core<Sha256, 2>, found: &Repository<'_>) -> bool {
    for record in &found.records {
        match core.get(&record.key) {
            Some(block) if block.bytes() == record.bytes => {}
            _ => return false,
        }
    }
    true
}

/// What a core shows of the file that it was opened with.
fn shown(core: &Core<Sha256, 2>, found: &Repository<'_>) -> Answer {
    if has_records(core, found) && core.root() == found.commit.root.to_cid() {
        Answer::Opened(core.number(), core.root())
    } else {
        Answer::Wrong
    }
}

/// What comes of a repository that was checked, where it may have so many writes and the store so many blocks.
fn open_found(alloc: Global, found: &Repository<'_>, limit: usize, blocks: usize) -> Answer
    requires openable { IsOpenable sha256 2 found.now }
    requires least { 1 ≤ limit }
    requires most { limit ≤ 1048576 }
    requires some_blocks { 1 ≤ blocks }
    requires most_blocks { blocks ≤ 1048576 }
{
    let mut shard = Shard::new(alloc, blocks, TableKey::known());
    let mut store = LentShard::new(&mut shard);
    match open_checked(alloc, &mut store, 0, limit, found) {
        Ok(core) => {
            let answer = shown(&core, found);
            core.end(&mut store);
            answer
        }
        Err(RepoFault::WritesFull) => Answer::Full,
        Err(RepoFault::StoreFull) => Answer::StoreFull,
        Err(_) => Answer::Other,
    }
}

/// What comes of a file, where the store may have so many blocks.
fn open_in(alloc: Global, file: &[u8], limit: usize, blocks: usize) -> Answer
    requires least { 1 ≤ limit }
    requires most { limit ≤ 1048576 }
    requires some_blocks { 1 ≤ blocks }
    requires most_blocks { blocks ≤ 1048576 }
{
    match check::<Sha256, 2, Global>(alloc, file) {
        Ok(found) => open_found(alloc, &found, limit, blocks),
        Err(_) => Answer::Other,
    }
}

/// What comes of the file of so many records, and the root of their tree from scratch.
fn open_many(alloc: Global, count: u16, limit: usize) -> Option<(Answer, Cid)>
    requires least { 1 ≤ limit }
    requires most { limit ≤ 1048576 }
{
    let tree = tree(alloc, count)?;
    let file = file_over(alloc, &tree, count, count).ok()?;
    Some((open_in(alloc, &file, limit, 1000), tree.root))
}

#[test]
fn opens_three_records(rt: HostRuntime) {
    let (answer, root) = open_many(rt.alloc(), 3, 3).expect(&rt, "a file");
    assert!(rt; answer == Answer::Opened(3, root));
}

#[test]
fn opens_three_hundred_records(rt: HostRuntime) {
    let (answer, root) = open_many(rt.alloc(), 300, 1000).expect(&rt, "a file");
    assert!(rt; answer == Answer::Opened(300, root));
}

#[test]
fn refuses_more_records_than_its_limit(rt: HostRuntime) {
    let (answer, _) = open_many(rt.alloc(), 3, 2).expect(&rt, "a file");
    assert!(rt; answer == Answer::Full);
}

#[test]
fn opens_an_empty_repository(rt: HostRuntime) {
    let node = Cid::of::<Sha256>(b"\xa2\x61e\x80\x61l\xf6");
    assert!(rt; open_in(rt.alloc(), &EMPTY, 1, 1000) == Answer::Opened(0, node));
}

#[test]
fn tells_a_full_store(rt: HostRuntime) {
    let answer = open_in(rt.alloc(), &ONE, 1, 2);
    assert!(rt; answer == Answer::StoreFull);
}
