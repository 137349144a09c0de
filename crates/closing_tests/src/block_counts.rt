//! The counts of a host that has closed, and what it shows of its repositories.

ghost use Rattle.std.specs.Prelude.{◌≤◌};

use crate::closes::closed_after;
use crate::repositories::{Batch, EMPTY, Heap};
use cid::digests::Toy;
use cid::{Cid, Sha256};
use closing::Closed;
use refusing::Refusing;
use repo::Core;
use std::alloc::Global;
use std::process::Abort;
use std::sync::Wait;

/// Whether so many blocks have a count, each of them this one.
pub(crate) fn are_counts<'h, const B: u8>(
    heap: Heap<'h>,
    closed: &Closed<Toy, B, Heap<'h>>,
    blocks: usize,
    each: u64,
) -> bool {
    match closed.counts(heap) {
        Ok(counts) => counts.len() == blocks && counts.iter().all(|(_, count)| *count == each),
        Err(_) => false,
    }
}

/// Whether each block of the core has this count.
fn have_count<'h, const B: u8>(
    closed: &Closed<Toy, B, Heap<'h>>,
    core: &Core<Toy, B, Heap<'h>>,
    count: u64,
) -> bool {
    for block in core.blocks() {
        if closed.count(&block.cid()) != count {
            return false;
        }
    }
    true
}

/// Whether each block of each core has this count.
fn all_have_count<'h, const B: u8>(closed: &Closed<Toy, B, Heap<'h>>, count: u64) -> bool {
    for core in closed.cores() {
        if !have_count(closed, core, count) {
            return false;
        }
    }
    true
}

/// Whether of two repositories, after these batches, so many blocks have this count, and no others have one.
fn close_with<R: Wait + Abort, const B: u8>(
    rt: &R,
    alloc: Global,
    batches: &[Batch],
    blocks: usize,
    count: u64,
) -> bool
    requires least { 1 ≤ B }
    requires most { B ≤ 8 }
{
    let heap = Refusing::new(alloc);
    let is_right = match closed_after::<Toy, R, B>(rt, &heap, (0, 1), batches, 0) {
        Ok(closed) => {
            are_counts(&heap, &closed, blocks, count)
                && all_have_count(&closed, count)
                && closed.count(&Cid::of::<Toy>(b"another")) == 0
        }
        Err(_) => false,
    };
    is_right && heap.live() == 0
}

/// The same record put into both repositories by the same stamp, and then taken out of the second.
const SHARED: [Batch; 3] = [
    (0, b'2', Some(EMPTY)),
    (1, b'2', Some(EMPTY)),
    (1, b'3', None),
];

#[test]
fn two_repositories_share_blocks(rt: HostRuntime) {
    assert!(rt; close_with::<_, 2>(&rt, rt.alloc(), &SHARED[..2], 3, 2));
    assert!(rt; close_with::<_, 2>(&rt, rt.alloc(), &SHARED, 5, 1));
}

/// The CID of the node without entries. Its digest is SHA-256 of the node, by another program.
const EMPTY_NODE_CID: &[u8] =
    b"\x01\x71\x12\x20\x9d\xfe\xfe\x61\xdd\x76\xea\x3d\xca\xe5\x02\x38\x80\xb0\x83\x79\
    \xd5\x7a\xdf\x20\x48\x2d\x6f\xdb\xe2\x75\x92\x89\xf6\x47\x67\x7b";

/// Whether two repositories without writes, under the protocol's digest and with its zero bits a layer, have one block in
/// common and no others, which is the node without entries.
fn close_without_writes<'h, R: Wait + Abort>(rt: &R, heap: Heap<'h>) -> bool {
    let Ok(closed) = closed_after::<Sha256, R, 2>(rt, heap, (0, 1), &[], 0) else {
        return false;
    };
    match closed.counts(heap) {
        Ok(counts) => match counts.as_slice() {
            [(cid, count)] => {
                cid.as_bytes().as_slice() == EMPTY_NODE_CID && (*count, closed.count(cid)) == (2, 2)
            }
            _ => false,
        },
        Err(_) => false,
    }
}

#[test]
fn run_of_nothing(rt: HostRuntime) {
    let heap = Refusing::new(rt.alloc());
    assert!(rt; close_without_writes(&rt, &heap) && heap.live() == 0);
    assert!(rt; close_with::<_, 1>(&rt, rt.alloc(), &[], 1, 2));
    assert!(rt; close_with::<_, 8>(&rt, rt.alloc(), &[], 1, 2));
}
