//! Walks over slices that whoever made, in so many reads.

ghost use Rattle.std.specs.Prelude.{Some};

use crate::fixtures::{node, value};
use cid::{Cid, Sha256};
use counts::Count;
use lookups::{Source, walk_in_reads};
use std::alloc::{AllocError, Global};

/// A source that gives the same bytes whatever is asked for, so that a node with a link is linked without end.
#[derive(Drop)]
struct Always<'a> {
    bytes: &'a [u8],
    reads: u64,
    asked: Count,
}

impl<'a> Source<&'a [u8]> for Always<'a> {
    ghost gives = { λ always _. Some always.bytes.now };

    ghost reads = { λ always. always.asked.times };

    fn get(&mut self, _cid: &Cid) -> Option<&'a [u8]> {
        self.reads = self.reads.saturating_add(1);
        self.asked = self.asked.once_more();
        Some(self.bytes)
    }
}

/// Whether a walk over a node of this key with these subtrees lists so many pairs in so many reads, of those allowed.
fn walks(
    alloc: Global,
    before: Option<Cid>,
    key: &[u8],
    after: Option<Cid>,
    allowed: usize,
    pairs: usize,
    reads: u64,
) -> Result<bool, AllocError> {
    let bytes = node(alloc, before, key, after)?;
    let mut always = Always {
        bytes: &bytes,
        reads: 0,
        asked: Count::never(),
    };
    let found = walk_in_reads::<Sha256, 2, &[u8], Global, _>(
        alloc,
        &mut always,
        value(),
        b"",
        usize::MAX,
        allowed,
    )?;
    Ok(found.len() == pairs && always.reads == reads)
}

#[test]
fn a_slice_is_walked(rt: HostRuntime) {
    assert!(rt; walks(rt.alloc(), None, b"k", None, 1, 1, 1).expect(&rt, "memory"));
    assert!(rt; walks(rt.alloc(), None, b"k", None, 0, 0, 0).expect(&rt, "memory"));
}

/// Whether the walk over a node with a link before its pair is as `walks` says.
fn walks_before(
    alloc: Global,
    key: &[u8],
    allowed: usize,
    pairs: usize,
    reads: u64,
) -> Result<bool, AllocError> {
    walks(alloc, Some(value()), key, None, allowed, pairs, reads)
}

#[test]
fn links_without_end_are_walked_to_the_last_layer_or_read(rt: HostRuntime) {
    assert!(rt; walks_before(rt.alloc(), b"k", 1_000, 1, 129).expect(&rt, "memory"));
    assert!(rt; walks_before(rt.alloc(), b"", 1_000, 0, 129).expect(&rt, "memory"));
    assert!(rt; walks_before(rt.alloc(), b"k", 10, 0, 10).expect(&rt, "memory"));
}

/// Whether the walk over a node with a link behind its pair is as `walks` says.
fn walks_behind(
    alloc: Global,
    key: &[u8],
    allowed: usize,
    pairs: usize,
    reads: u64,
) -> Result<bool, AllocError> {
    walks(alloc, None, key, Some(value()), allowed, pairs, reads)
}

#[test]
fn a_node_that_comes_again_ends_the_walk(rt: HostRuntime) {
    assert!(rt; walks_behind(rt.alloc(), b"k", 1_000, 1, 2).expect(&rt, "memory"));
    assert!(rt; walks_behind(rt.alloc(), b"k", 1, 1, 1).expect(&rt, "memory"));
}
