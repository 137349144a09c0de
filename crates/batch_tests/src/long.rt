//! Long DIDs, records and keys.

use crate::opened::opened;
use cid::digests::Toy;
use dagcbor::CborFault;
use repo::Core;
use repo_fixtures::batch::{DID, EMPTY, Step, stamped};
use repo_fixtures::cores::{apply_made, apply_steps, end};
use repo_fixtures::ends::Ended::{Accepted, Refused};
use repo_fixtures::ends::{Ended, Why};
use std::alloc::{AllocError, Global};
use store::{Shard, TableKey};

/// Parts of some bytes, each with the number of times that it stands.
pub(crate) type Parts = &'static [(&'static [u8], u32)];

/// The bytes of these parts.
pub(crate) fn joined(alloc: Global, parts: Parts) -> Result<Vec<u8>, AllocError> {
    let mut bytes = Vec::new(alloc);
    for (part, times) in parts {
        for _ in 0..*times {
            bytes.extend_from_slice(part)?;
        }
    }
    Ok(bytes)
}

/// A batch that puts one record: the DID's and the record's parts and the record's length, the stamp's revision, and how the
/// batch ends.
type Row = (Parts, Parts, usize, &'static [u8], Ended);

const WEB: Parts = &[(DID, 1)];

const FIRST: &[u8] = b"2222222222222";

/// Batches one after the other. The greatest record is a map of "a" to a byte string; the size is tested before the bytes are
/// read.
static LONG: [Row; 6] = [
    (
        WEB,
        &[(b"\xa1\x61\x61\x5a\x00\x0f\xff\xf9", 1), (b"\0", 1_048_569)],
        1_048_577,
        FIRST,
        Refused(0, Why::RecordSize),
    ),
    (
        WEB,
        &[(b"\xff", 1), (b"\0", 1_048_576)],
        1_048_577,
        FIRST,
        Refused(0, Why::RecordSize),
    ),
    (
        WEB,
        &[(b"\xff", 1), (b"\0", 1_048_575)],
        1_048_576,
        FIRST,
        Refused(0, Why::BadRecord(CborFault::Indefinite)),
    ),
    (
        &[(b"did:web:", 1), (b"a", 2041)],
        &[(EMPTY, 1)],
        1,
        FIRST,
        Refused(0, Why::BadDid),
    ),
    (
        &[(b"did:web:", 1), (b"a", 2040)],
        &[(EMPTY, 1)],
        1,
        FIRST,
        Accepted(1),
    ),
    (
        WEB,
        &[(b"\xa1\x61\x61\x5a\x00\x0f\xff\xf8", 1), (b"\0", 1_048_568)],
        1_048_576,
        b"2222222222223",
        Accepted(2),
    ),
];

/// Whether a row's batch ends as it says.
fn is_so(alloc: Global, shard: &mut Shard<Toy>, core: &mut Core<Toy, 2>, row: &Row) -> bool {
    let (dids, records, length, rev, wanted) = row;
    match (joined(alloc, dids), joined(alloc, records)) {
        (Ok(did), Ok(record)) => {
            let batch = stamped(alloc, &did, rev, &[Step::Put(b"a/b0", &record)]);
            record.len() == *length && apply_made(alloc, shard, core, batch) == *wanted
        }
        _ => false,
    }
}

/// Whether the batches of all rows end so.
fn are_so(alloc: Global, shard: &mut Shard<Toy>, core: &mut Core<Toy, 2>) -> bool {
    for row in &LONG {
        if !is_so(alloc, shard, core, row) {
            return false;
        }
    }
    true
}

#[test]
fn longest_dids_and_records(rt: HostRuntime) {
    let mut shard = Shard::new(rt.alloc(), 9, TableKey::known());
    let mut core = opened(&rt, rt.alloc(), &mut shard, 0, 2000);
    let are_so = are_so(rt.alloc(), &mut shard, &mut core);
    end(&mut shard, core);
    assert!(rt; are_so);
}

/// The parts of a key, and how a batch ends that puts a record under it.
static KEYS: [(Parts, Ended); 4] = [
    (
        &[(b"a", 318), (b"/", 1), (b"b", 1)],
        Refused(0, Why::BadKey),
    ),
    (
        &[(b"a", 1), (b"/", 1), (b"b", 513)],
        Refused(0, Why::BadKey),
    ),
    (&[(b"a/...", 1)], Accepted(1)),
    (&[(b"a", 317), (b"/", 1), (b"b", 512)], Accepted(2)),
];

/// Whether each of these keys is taken or not, as it says.
fn are_taken(alloc: Global, shard: &mut Shard<Toy>, core: &mut Core<Toy, 2>) -> bool {
    let mut turn = 0u16;
    for (parts, wanted) in &KEYS {
        turn = turn.saturating_add(1);
        let ended = match joined(alloc, parts) {
            Ok(key) => apply_steps(alloc, shard, core, turn, &[Step::Put(&key, EMPTY)]),
            Err(_) => Ended::Unmade,
        };
        if ended != *wanted {
            return false;
        }
    }
    true
}

#[test]
fn longest_keys(rt: HostRuntime) {
    let mut shard = Shard::new(rt.alloc(), 9, TableKey::known());
    let mut core = opened(&rt, rt.alloc(), &mut shard, 0, 2000);
    let are_taken = are_taken(rt.alloc(), &mut shard, &mut core);
    end(&mut shard, core);
    assert!(rt; are_taken);
}
