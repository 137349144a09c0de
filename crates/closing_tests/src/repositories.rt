//! Two repositories over the sixteen shards.

ghost use Rattle.std.specs.Prelude.{◌≤◌, ◌<◌};

use batches::{Stamp, Write};
use cid::Digest;
use refusing::Refusing;
use repo::Core;
use std::alloc::{AllocError, Allocator, Global};
use std::process::Abort;
use std::sync::Wait;
use store::{LockedShards, Shards};

/// Memory that refuses requests.
pub(crate) type Heap<'h> = &'h Refusing<Global>;

/// The DAG-CBOR bytes of the node without entries and without a left link.
pub(crate) const EMPTY_NODE: &[u8] = b"\xa2\x61e\x80\x61l\xf6";

/// The DAG-CBOR bytes of the empty map.
pub(crate) const EMPTY: &[u8] = b"\xa0";

/// A batch of one write on the key "a/b0": the place of its repository, the last letter of its revision, and the record, or
/// `None` for a delete.
pub(crate) type Batch = (usize, u8, Option<&'static [u8]>);

/// The write of a batch.
fn writes_of<A: Allocator + Copy>(
    alloc: A,
    record: Option<&[u8]>,
) -> Result<Vec<Write<A>, A>, AllocError> {
    let key = Vec::from_slice(alloc, b"a/b0")?;
    let write = match record {
        Some(bytes) => Write::Put(key, Vec::from_slice(alloc, bytes)?),
        None => Write::Delete(key),
    };
    let mut writes = Vec::new(alloc);
    writes.push(write)?;
    Ok(writes)
}

/// The stamp of a batch.
fn stamp_of<A: Allocator + Copy>(alloc: A, last: u8) -> Result<Stamp<A>, AllocError> {
    let mut rev = [b'2'; 13];
    rev[12] = last;
    Ok(Stamp {
        did: Vec::from_slice(alloc, b"did:web:localhost")?,
        rev: Vec::from_slice(alloc, &rev)?,
    })
}

/// Whether a core takes this batch.
pub(crate) fn is_taken<'h, D: Digest, R: Wait, const B: u8>(
    rt: &R,
    heap: Heap<'h>,
    shards: &Shards<D, Heap<'h>>,
    core: &mut Core<D, B, Heap<'h>>,
    last: u8,
    record: Option<&[u8]>,
) -> bool {
    let Ok(stamp) = stamp_of(heap, last) else {
        return false;
    };
    let Ok(writes) = writes_of(heap, record) else {
        return false;
    };
    core.apply(heap, &mut LockedShards::new(rt, shards), &stamp, &writes)
        .is_ok()
}

/// A core without writes.
pub(crate) fn opened<'h, D: Digest, R: Wait + Abort, const B: u8>(
    rt: &R,
    heap: Heap<'h>,
    shards: &Shards<D, Heap<'h>>,
    me: u32,
) -> Core<D, B, Heap<'h>>
    requires least { 1 ≤ B }
    requires most { B ≤ 8 }
    requires small { me < 1024 }
{
    Core::open(heap, &mut LockedShards::new(rt, shards), me, 9).expect(rt, "a core")
}

/// Two cores of these numbers, after these batches.
pub(crate) fn two_cores<'h, D: Digest, R: Wait + Abort, const B: u8>(
    rt: &R,
    heap: Heap<'h>,
    shards: &Shards<D, Heap<'h>>,
    numbers: (u32, u32),
    batches: &[Batch],
) -> Vec<Core<D, B, Heap<'h>>, Heap<'h>>
    requires least { 1 ≤ B }
    requires most { B ≤ 8 }
    requires first { numbers.0 < 1024 }
    requires second { numbers.1 < 1024 }
{
    let mut cores = Vec::with_capacity(heap, 2).expect(rt, "room");
    cores.push_reserved(opened(rt, heap, shards, numbers.0));
    cores.push_reserved(opened(rt, heap, shards, numbers.1));
    let mut are_taken = true;
    for (place, last, record) in batches {
        are_taken = match cores.get_mut(*place) {
            Some(core) => are_taken && is_taken(rt, heap, shards, core, *last, *record),
            None => false,
        };
    }
    assert!(rt; are_taken);
    cores
}
