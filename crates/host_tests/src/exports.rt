//! CAR files and proofs of a host's repositories.

ghost use Rattle.ended.specs.Ending.{IsEndedAt};

use crate::seated::{Alone, close_one, open_one};
use block::Block;
use cid::Cid;
use cid::digests::Toy;
use closing::Closed;
use ended::Ended;
use export::{ExportFault, ToMemory, car, verify};
use host::{Host, Writer};
use host_exports::{CarFault, ProveFault, prove};
use refusing::Refusing;
use repo::Core;
use repo_fixtures::batch::{ONE, Step, TWO, stamped};
use std::alloc::{AllocError, Global};
use std::process::Abort;
use std::sync::{Arc, Wait};

/// The DAG-CBOR bytes of the map of "a" to 3.
const THREE: &[u8] = b"\xa1\x61a\x03";

/// Records whose tree has five nodes.
const FIVE_NODES: &[Step<'static>] = &[
    Step::Put(b"a/p0", ONE),
    Step::Put(b"a/q2", TWO),
    Step::Put(b"a/r0", THREE),
];

/// Puts these records into repository 1; answers the writer's end, and the root that is then told.
fn put_all<R: Wait + Abort>(rt: &R, alloc: Global, mut writer: Writer<'_, Toy, 2>) -> (Ended, Cid)
    ensures { IsEndedAt writer.entry.host.queue.queue_id writer.entry.host.repos result.0 }
{
    let batch = stamped(alloc, b"did:web:a.b", b"3jzfcijpj2z2a", FIVE_NODES).expect(rt, "a batch");
    let root = match writer.apply(rt, alloc, 1, &batch.stamp, &batch.writes) {
        Ok(notice) => notice.root,
        Err(_) => panic!(rt; "no notice"),
    };
    (writer.end(), root)
}

/// The CAR of a host's repository, where it is answered with its length.
pub(crate) fn car_of<R: Wait>(
    rt: &R,
    alloc: Global,
    host: &Host<Toy, 2>,
    repo: usize,
) -> Option<Vec<u8>> {
    let mut out = ToMemory::new(alloc);
    match host_exports::car(rt, alloc, host, repo, &mut out) {
        Ok(length) if length == out.bytes().len() as u64 => Some(out.into_bytes()),
        _ => None,
    }
}

/// Whether this is the CAR of a core.
fn is_car_of(alloc: Global, core: &Core<Toy, 2>, file: &[u8]) -> bool {
    let mut out = ToMemory::new(alloc);
    car(alloc, core, &mut out).is_ok() && out.bytes() == file
}

/// The bytes of a proof's nodes.
fn bytes_of<'a>(alloc: Global, nodes: &'a [Arc<Block<Toy>>]) -> Result<Vec<&'a [u8]>, AllocError> {
    let mut proof = Vec::new(alloc);
    for node in nodes {
        proof.push(node.bytes())?;
    }
    Ok(proof)
}

/// Whether a proof's nodes show, to whoever knows this root, that the key has this record or none.
fn show(
    alloc: Global,
    nodes: &[Arc<Block<Toy>>],
    root: &Cid,
    key: &[u8],
    record: Option<&[u8]>,
) -> bool {
    let value = match record {
        Some(bytes) => Some(Cid::of::<Toy>(bytes)),
        None => None,
    };
    match bytes_of(alloc, nodes) {
        Ok(proof) => verify::<Toy, 2, &[u8]>(root, &proof, key) == Ok(value),
        Err(_) => false,
    }
}

/// Whether repository 1 proves this.
fn proves<R: Wait>(
    rt: &R,
    alloc: Global,
    host: &Host<Toy, 2>,
    root: &Cid,
    key: &[u8],
    record: Option<&[u8]>,
) -> bool {
    match prove(rt, alloc, host, 1, key) {
        Ok(nodes) => show(alloc, &nodes, root, key, record),
        Err(_) => false,
    }
}

/// Keys, and their records or none.
static ROWS: [(&[u8], Option<&[u8]>); 5] = [
    (b"a/p0", Some(ONE)),
    (b"a/q2", Some(TWO)),
    (b"a/r0", Some(THREE)),
    (b"a/a", None),
    (b"a/z", None),
];

/// Whether it proves each of three records, and that two keys have none.
fn proves_all<R: Wait>(rt: &R, alloc: Global, host: &Host<Toy, 2>, root: &Cid) -> bool {
    for (key, record) in &ROWS {
        if !proves(rt, alloc, host, root, key, *record) {
            return false;
        }
    }
    true
}

/// Whether a host of two repositories says that there is none of number 2, and an output takes nothing then.
fn none_is_there<R: Wait>(rt: &R, alloc: Global, host: &Host<Toy, 2>) -> bool {
    let mut out = ToMemory::new(alloc);
    let answer = host_exports::car(rt, alloc, host, 2, &mut out);
    matches!(answer, Err(CarFault::NoSuchRepository))
        && out.bytes().is_empty()
        && matches!(
            prove(rt, alloc, host, 2, b"a/p0"),
            Err(ProveFault::NoSuchRepository)
        )
}

/// Whether the output of repository 1 took a beginning of the file where its own memory was refused for this request, or the
/// file where it did without.
fn is_beginning<R: Wait>(
    rt: &R,
    alloc: Global,
    host: &Host<Toy, 2>,
    file: &[u8],
    number: u64,
) -> Option<bool> {
    let heap = Refusing::new(alloc);
    heap.refuse(number);
    let mut out = ToMemory::new(&heap);
    match host_exports::car(rt, alloc, host, 1, &mut out) {
        Ok(_) if out.bytes() == file => Some(true),
        Err(CarFault::Export(ExportFault::DeviceFault)) if file.starts_with(out.bytes()) => {
            Some(false)
        }
        _ => None,
    }
}

/// Whether the file comes at last, once each request of the output for memory was refused in turn.
fn is_cut_where_memory_is_refused<R: Wait>(
    rt: &R,
    alloc: Global,
    host: &Host<Toy, 2>,
    file: &[u8],
) -> bool {
    for number in 1..50u64 {
        match is_beginning(rt, alloc, host, file, number) {
            Some(true) => return number > 1,
            Some(false) => {}
            None => return false,
        }
    }
    false
}

/// The files of both repositories: without records, and of five nodes.
#[derive(Drop)]
struct Files {
    empty: Vec<u8>,
    full: Vec<u8>,
}

/// The files of a host's repositories.
fn files_of<R: Wait>(rt: &R, alloc: Global, host: &Host<Toy, 2>) -> Option<Files> {
    let empty = car_of(rt, alloc, host, 0)?;
    let full = car_of(rt, alloc, host, 1)?;
    Some(Files { empty, full })
}

/// Whether a host that is open proves the records, and its files are of the right lengths and cut where memory is refused.
fn is_right<R: Wait>(
    rt: &R,
    alloc: Global,
    host: &Host<Toy, 2>,
    root: &Cid,
    files: &Files,
) -> bool {
    proves_all(rt, alloc, host, root)
        && none_is_there(rt, alloc, host)
        && is_cut_where_memory_is_refused(rt, alloc, host, &files.full)
        && (files.empty.len(), files.full.len()) == (103, 868)
}

/// Whether the files are those of the cores once the host has closed.
fn has_files(alloc: Global, closed: &Closed<Toy, 2>, files: &Files) -> bool {
    match closed.cores() {
        [first, second] => {
            is_car_of(alloc, first, &files.empty) && is_car_of(alloc, second, &files.full)
        }
        _ => false,
    }
}

/// Whether a repository of five nodes is exported as its core is once the host has closed, and proves its records.
fn is_exported<R: Wait + Abort>(rt: &R, alloc: Global) -> bool {
    let opened = open_one::<Toy, 2, R>(rt, alloc, 2, 9);
    let Alone { host, seat, feed } = opened;
    let (ended, root) = put_all(rt, alloc, host.writer(seat));
    let files = files_of(rt, alloc, &host).expect(rt, "files");
    let is_right = is_right(rt, alloc, &host, &root, &files);
    let closed = close_one(rt, alloc, host, ended, feed);
    is_right && has_files(alloc, &closed, &files)
}

#[test]
fn exports_and_proofs(rt: HostRuntime) {
    assert!(rt; is_exported(&rt, rt.alloc()));
}
