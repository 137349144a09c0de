//! Exports and proofs where memory is refused.

ghost use Rattle.std.specs.Prelude.{◌≤◌};

use crate::fixtures::{FIVE_NODES, ONE_RECORD_TWICE, Proof, Record, copies_of, end, opened, takes};
use crate::signed::SIGNATURE;
use block::Block;
use cid::digests::Toy;
use cid::{Cid, Digest};
use export::{ExportFault, ProofFault, ToMemory, car, prove, signed_car, verify};
use refusing::Refusing;
use repo::Core;
use std::alloc::{Allocator, Global};
use std::process::Abort;
use std::sync::Arc;
use store::{Shard, TableKey};

/// Memory that refuses requests.
type Heap<'h> = &'h Refusing<Global>;

/// How a call ended for which a request for memory may have been refused.
#[derive(Clone, Copy, PartialEq, Eq)]
enum Ended {
    /// It gave what it should.
    Done,
    /// It ended for want of memory of its own.
    NoMemory,
    /// It ended as the output failed.
    DeviceFault,
    Wrong,
}

/// Which file of a core is written.
#[derive(Clone, Copy)]
enum File {
    Unsigned,
    Signed,
}

/// Writes a core's file of this kind, and answers with how many bytes it has; it has a commit to be signed.
fn written<D: Digest, const B: u8, A: Allocator + Clone, M: Allocator + Copy>(
    file: File,
    alloc: A,
    core: &Core<D, B, A>,
    out: &mut ToMemory<M>,
) -> Result<u64, ExportFault>
    requires { 1 ≤ B }
{
    match file {
        File::Unsigned => car(alloc, core, out),
        File::Signed => {
            let length = signed_car(alloc, core, SIGNATURE, out)?;
            Ok(length.unwrap_or(0))
        }
    }
}

/// The bytes of a core's file of this kind.
fn file_in<D: Digest, const B: u8, A: Allocator + Clone>(
    file: File,
    global: Global,
    alloc: A,
    core: &Core<D, B, A>,
) -> Option<Vec<u8>>
    requires { 1 ≤ B }
{
    let mut out = ToMemory::new(global);
    match written(file, alloc, core, &mut out) {
        Ok(length) if length == out.bytes().len() as u64 => Some(out.into_bytes()),
        _ => None,
    }
}

/// How a file into this memory ended. What was taken is a beginning of it.
fn file_end<'h>(kind: File, heap: Heap<'h>, core: &Core<Toy, 2, Heap<'h>>, file: &[u8]) -> Ended {
    let mut out = ToMemory::new(heap);
    let answer = written(kind, heap, core, &mut out);
    if !file.starts_with(out.bytes()) {
        return Ended::Wrong;
    }
    match answer {
        Ok(count) if count == file.len() as u64 && out.bytes().len() == file.len() => Ended::Done,
        Err(ExportFault::NoMemory) => Ended::NoMemory,
        Err(ExportFault::DeviceFault) => Ended::DeviceFault,
        Ok(_) => Ended::Wrong,
    }
}

/// How it ended where this request was refused and all memory was given back.
fn refused_file_end<'h>(
    kind: File,
    heap: Heap<'h>,
    core: &Core<Toy, 2, Heap<'h>>,
    file: &[u8],
    request: u64,
) -> Ended {
    let live = heap.live();
    heap.refuse(request);
    let ended = file_end(kind, heap, core, file);
    heap.refuse(0);
    if heap.live() == live {
        ended
    } else {
        Ended::Wrong
    }
}

/// Whether a file ended with both faults where each of its requests was refused in turn, before it came to its end.
fn is_taken_at_last<'h>(
    kind: File,
    heap: Heap<'h>,
    core: &Core<Toy, 2, Heap<'h>>,
    file: &[u8],
) -> bool {
    let mut had_faults = false;
    let mut had_refusals = false;
    for request in 1..200u64 {
        match refused_file_end(kind, heap, core, file, request) {
            Ended::Done => return had_faults && had_refusals,
            Ended::DeviceFault => had_faults = true,
            Ended::NoMemory => had_refusals = true,
            Ended::Wrong => return false,
        }
    }
    false
}

/// What a proof shows of a key.
fn shown<A: Allocator>(
    root: &Cid,
    proof: &[Vec<u8, A>],
    key: &[u8],
) -> Result<Option<Cid>, ProofFault> {
    verify::<Toy, 1, Vec<u8, A>>(root, proof, key)
}

/// Whether a proof shows this value with all memory refused, and no request was.
fn shows_without_memory<'h>(
    heap: Heap<'h>,
    root: &Cid,
    proof: &Proof<Heap<'h>>,
    key: &[u8],
    value: Cid,
) -> bool {
    let refused = heap.refused();
    heap.refuse_from(1);
    let answer = shown(root, proof, key);
    heap.refuse(0);
    answer == Ok(Some(value)) && heap.refused() == refused
}

/// Whether the nodes of a proof are more than four, and show this value.
fn are_right<'h>(
    heap: Heap<'h>,
    root: &Cid,
    nodes: &[Arc<Block<Toy, Heap<'h>>, Heap<'h>>],
    key: &[u8],
    value: Cid,
) -> bool {
    match copies_of(heap, nodes) {
        Ok(proof) => nodes.len() > 4 && shows_without_memory(heap, root, &proof, key, value),
        Err(_) => false,
    }
}

/// How a proof ended of whose requests this one was refused.
fn proof_end<'h>(
    heap: Heap<'h>,
    core: &Core<Toy, 1, Heap<'h>>,
    key: &[u8],
    value: Cid,
    request: u64,
) -> Ended {
    heap.refuse(request);
    let proof = prove(heap, core, key);
    heap.refuse(0);
    match &proof {
        Ok(nodes) if are_right(heap, &core.root(), nodes, key, value) => Ended::Done,
        Ok(_) => Ended::Wrong,
        Err(_) => Ended::NoMemory,
    }
}

/// How many of its requests a proof was refused for, one in turn, until there was one that shows this value. Each time all
/// memory was given back.
fn refusals<'h>(
    heap: Heap<'h>,
    core: &Core<Toy, 1, Heap<'h>>,
    key: &[u8],
    value: Cid,
) -> Option<u64> {
    let live = heap.live();
    for request in 1..20u64 {
        let ended = proof_end(heap, core, key, value, request);
        if heap.live() != live {
            return None;
        }
        match ended {
            Ended::Done => return Some(request - 1),
            Ended::NoMemory => {}
            _ => return None,
        }
    }
    None
}

/// Whether each request of the file of these records was refused, and it has this size.
fn is_each_refused<R: Abort>(
    rt: &R,
    alloc: Global,
    kind: File,
    records: &[Record<'_>],
    size: usize,
) -> bool {
    let heap = Refusing::new(alloc);
    let mut shard = Shard::new(&heap, 20, TableKey::known());
    let mut core = opened(rt, &heap, &mut shard);
    let filled = takes(&heap, &mut shard, &mut core, records);
    let right = match file_in(kind, alloc, &heap, &core) {
        Some(file) => file.len() == size && is_taken_at_last(kind, &heap, &core, &file),
        None => false,
    };
    end(&mut shard, core);
    drop(shard);
    filled && right && heap.live() == 0
}

#[test]
fn each_request_of_a_car_refused(rt: HostRuntime) {
    assert!(rt; is_each_refused(&rt, rt.alloc(), File::Unsigned, FIVE_NODES, 868));
    // The CID of a record under two keys is noted, which takes memory.
    assert!(rt; is_each_refused(&rt, rt.alloc(), File::Unsigned, ONE_RECORD_TWICE, 827));
}

#[test]
fn each_request_of_a_signed_file_refused(rt: HostRuntime) {
    assert!(rt; is_each_refused(&rt, rt.alloc(), File::Signed, FIVE_NODES, 938));
    assert!(rt; is_each_refused(&rt, rt.alloc(), File::Signed, ONE_RECORD_TWICE, 897));
}

#[test]
fn each_request_of_a_proof_refused(rt: HostRuntime) {
    let heap = Refusing::new(rt.alloc());
    let mut shard = Shard::new(&heap, 50, TableKey::known());
    let mut core = opened(&rt, &heap, &mut shard);
    let filled = takes(&heap, &mut shard, &mut core, FIVE_NODES);
    let refusals = refusals(&heap, &core, b"a/p0", Cid::of::<Toy>(FIVE_NODES[0].1));
    end(&mut shard, core);
    drop(shard);
    assert!(rt; filled && refusals == Some(2) && heap.live() == 0);
}
