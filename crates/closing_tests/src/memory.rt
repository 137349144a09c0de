//! A close where memory is refused.

use crate::closes::closed_after;
use crate::repositories::{Batch, EMPTY, EMPTY_NODE, Heap};
use cid::Cid;
use cid::digests::Toy;
use closing::Closed;
use ended::Feed;
use notices::Queue;
use refusing::Refusing;
use std::alloc::AllocError;
use std::process::Abort;
use std::sync::Wait;

/// The same record put into both repositories by the same stamp.
const SHARED: [Batch; 2] = [(0, b'2', Some(EMPTY)), (1, b'2', Some(EMPTY))];

/// The CID of the block that has a link to this CID between these bytes.
fn linking<'h>(
    heap: Heap<'h>,
    before: &[u8],
    link: &Cid,
    behind: &[u8],
) -> Result<Cid, AllocError> {
    let mut bytes = Vec::from_slice(heap, before)?;
    bytes.extend_from_slice(link.as_bytes())?;
    bytes.extend_from_slice(behind)?;
    Ok(Cid::of::<Toy>(&bytes))
}

/// The root of a repository with this one record, by the bytes of its node.
fn one_root<'h>(heap: Heap<'h>) -> Result<Cid, AllocError> {
    let before = b"\xa2\x61e\x81\xa4\x61k\x44a/b0\x61p\x00\x61t\xf6\x61v\xd8\x2a\x58\x25\x00";
    linking(heap, before, &Cid::of::<Toy>(EMPTY), b"\x61l\xf6")
}

/// The CID of its commit, by the commit's bytes.
fn one_commit<'h>(heap: Heap<'h>, root: &Cid) -> Result<Cid, AllocError> {
    let before =
        b"\xa5\x63did\x71did:web:localhost\x63rev\x6d2222222222222\x64data\xd8\x2a\x58\x25\x00";
    linking(heap, before, root, b"\x64prev\xf6\x67version\x03")
}

/// Whether a repository with one write is shown with this root and this commit.
fn is_shown<'h>(closed: &Closed<Toy, 2, Heap<'h>>, number: usize, root: Cid, commit: Cid) -> bool {
    if number >= closed.cores().len() {
        return false;
    }
    let shown = closed.shown(number);
    let mut blocks = 0u64;
    for _ in shown.blocks {
        blocks = blocks.saturating_add(1);
    }
    shown.root == root
        && shown.commit == Some(commit)
        && shown.accepted.len() == 1
        && shown.stamps.len() == 1
        && blocks == 3
}

/// Whether what takes no memory answers as ever, and the counts are refused.
fn answer_without_memory<'h>(
    closed: &Closed<Toy, 2, Heap<'h>>,
    heap: Heap<'h>,
    root: Cid,
    commit: Cid,
) -> bool {
    is_shown(closed, 0, root, commit)
        && is_shown(closed, 1, root, commit)
        && closed.count(&Cid::of::<Toy>(EMPTY)) == 2
        && closed.count(&Cid::of::<Toy>(EMPTY_NODE)) == 0
        && closed.kept(0).is_empty()
        && closed.counts(heap).is_err()
}

/// Whether three counts of 2 come at last, after each request for memory was refused in turn, and each time all memory was
/// given back.
fn counts_at_last<'h>(closed: &Closed<Toy, 2, Heap<'h>>, heap: Heap<'h>) -> bool {
    let live = heap.live();
    for request in 1..50u64 {
        heap.refuse(request);
        let answer = closed.counts(heap);
        heap.refuse(0);
        if let Ok(counts) = answer {
            return request > 1 && counts.len() == 3 && counts.iter().all(|(_, count)| *count == 2);
        }
        if heap.live() != live {
            return false;
        }
    }
    false
}

/// Whether a close of two repositories answers all that, and its end takes no memory.
fn close_without_memory<'h, R: Wait + Abort>(rt: &R, heap: Heap<'h>) -> bool {
    let Ok(root) = one_root(heap) else {
        return false;
    };
    let Ok(commit) = one_commit(heap, &root) else {
        return false;
    };
    let Ok(closed) = closed_after(rt, heap, (0, 1), &SHARED, 1) else {
        return false;
    };
    let is_right = counts_at_last(&closed, heap);
    heap.refuse_from(1);
    let still_right = answer_without_memory(&closed, heap, root, commit);
    let refused = heap.refused();
    closed.end();
    is_right && still_right && heap.refused() == refused
}

#[test]
fn refused_in_a_close(rt: HostRuntime) {
    let heap = Refusing::new(rt.alloc());
    assert!(rt; close_without_memory(&rt, &heap));
    assert!(rt; heap.live() == 0);
}

#[test]
fn refused_for_the_room(rt: HostRuntime) {
    let heap = Refusing::new(rt.alloc());
    let (queue, passes, feed) = Queue::open(&heap, 2, 2).expect(&rt, "a queue");
    let live = heap.live();
    heap.refuse(1);
    assert!(rt; Feed::with_room(&heap, feed, 2).is_err() && heap.live() == live);
    drop(passes);
    drop(queue);
    assert!(rt; heap.live() == 0);
}
