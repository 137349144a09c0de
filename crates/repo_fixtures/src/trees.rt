//! Repositories beside the trees from scratch of the pairs that their writes leave.

ghost use Rattle.std.specs.Prelude.{◌≤◌};

use cid::{Cid, Digest};
use repo::Core;
use scratch::{Built, build, is_ascending};
use std::alloc::{Allocator, Global};
use std::convert::AsSlice;

/// The tree of these pairs from scratch, where it can be built.
pub fn tree_of<D: Digest, const B: u8, K: AsSlice<u8>>(
    alloc: Global,
    pairs: &[(K, Cid)],
) -> Option<Built<D>>
    requires least { 1 ≤ B }
    requires most { B ≤ 8 }
{
    if !is_ascending(pairs) {
        return None;
    }
    build::<D, B, K, _>(alloc, pairs).ok()
}

/// A list of CIDs, and whether there was memory for each of them and for their order.
#[derive(Drop)]
struct Cids {
    list: Vec<Cid>,
    is_whole: bool,
}

impl Cids {
    fn none(alloc: Global) -> Cids {
        Cids {
            list: Vec::new(alloc),
            is_whole: true,
        }
    }

    fn add(&mut self, cid: Cid) {
        self.is_whole = self.list.push(cid).is_ok() && self.is_whole;
    }

    fn sort(&mut self) {
        self.is_whole = self.list.sort().is_ok() && self.is_whole;
    }
}

/// The CIDs of a tree's nodes, of the records of its pairs and of a commit, each once, in their order.
fn cids_of<D: Digest, K>(
    alloc: Global,
    tree: &Built<D>,
    pairs: &[(K, Cid)],
    commit: Option<Cid>,
) -> Cids {
    let mut cids = Cids::none(alloc);
    for block in &tree.blocks {
        cids.add(block.cid());
    }
    for (_, record) in pairs {
        cids.add(*record);
    }
    if let Some(commit) = commit {
        cids.add(commit);
    }
    cids.sort();
    cids.list.dedup();
    cids
}

/// The CIDs of a core's blocks, in their order.
fn cids_in<D: Digest, const B: u8, A: Allocator>(alloc: Global, core: &Core<D, B, A>) -> Cids {
    let mut cids = Cids::none(alloc);
    for block in core.blocks() {
        cids.add(block.cid());
    }
    cids.sort();
    cids
}

/// Whether there was memory for both, and they are the same CIDs.
fn are_alike(ones: &Cids, others: &Cids) -> bool {
    ones.is_whole && others.is_whole && ones.list == others.list
}

/// Whether a core finds the record of each pair under its key.
fn has_records<D: Digest, const B: u8, A: Allocator, K: AsSlice<u8>>(
    core: &Core<D, B, A>,
    pairs: &[(K, Cid)],
) -> bool {
    for (key, record) in pairs {
        match core.get(key.as_slice()) {
            Some(block) if block.cid() == *record => {}
            _ => return false,
        }
    }
    true
}

/// Whether a core has the root of the tree of these pairs, this commit and, beside it, the tree's nodes, the pairs' records
/// and no other blocks.
pub fn is_of<D: Digest, const B: u8, A: Allocator, K: AsSlice<u8>>(
    alloc: Global,
    core: &Core<D, B, A>,
    pairs: &[(K, Cid)],
    commit: Option<Cid>,
) -> bool
    requires least { 1 ≤ B }
    requires most { B ≤ 8 }
{
    match tree_of::<D, B, K>(alloc, pairs) {
        Some(tree) => {
            core.root() == tree.root
                && core.commit() == commit
                && has_records(core, pairs)
                && are_alike(&cids_in(alloc, core), &cids_of(alloc, &tree, pairs, commit))
        }
        None => false,
    }
}
