//! Which writes and stamps are taken, and in which order they are tested.

ghost use Rattle.std.specs.Prelude.{◌≤◌};

use crate::opened::opened;
use crate::texts::NO_KEYS;
use cid::digests::Toy;
use dagcbor::CborFault;
use repo::Core;
use repo_fixtures::batch::Step::{Create, Delete, Put, Update};
use repo_fixtures::batch::{DID, EMPTY, ONE, Step, stamped};
use repo_fixtures::cores::{apply_made, apply_steps, end, held};
use repo_fixtures::ends::Ended::{Accepted, Refused};
use repo_fixtures::ends::{Ended, Why};
use std::alloc::Global;
use std::process::Abort;
use store::{Shard, TableKey};

/// A stamp's DID and revision, writes, and how their batch ends.
type Row = (
    &'static [u8],
    &'static [u8],
    &'static [Step<'static>],
    Ended,
);

/// No key, and a record that is none.
const BAD: &[Step<'static>] = &[Put(b"a", b"")];

const GOOD: &[Step<'static>] = &[Put(b"a/b0", EMPTY)];

const FIRST: &[u8] = b"2222222222222";

const SECOND: &[u8] = b"2222222222223";

const THIRD: &[u8] = b"2222222222224";

/// Tests of the stamp come after that for an empty batch and before those of the writes. The DID may be another each time.
static STAMPS: [Row; 13] = [
    (
        b"did:web:",
        b"k222222222222",
        &[],
        Refused(0, Why::EmptyBatch),
    ),
    (b"did:web:", b"k222222222222", BAD, Refused(0, Why::BadDid)),
    (b"did:Web:a", FIRST, GOOD, Refused(0, Why::BadDid)),
    (b"did:web:a:", FIRST, GOOD, Refused(0, Why::BadDid)),
    (b"did:web:a%", FIRST, GOOD, Refused(0, Why::BadDid)),
    (DID, b"k222222222222", BAD, Refused(0, Why::BadRev)),
    (DID, b"2222222222221", GOOD, Refused(0, Why::BadRev)),
    (DID, b"222222222222", GOOD, Refused(0, Why::BadRev)),
    (DID, FIRST, BAD, Refused(0, Why::BadKey)),
    (DID, b"j222222222222", GOOD, Accepted(1)),
    (DID, b"j222222222222", BAD, Refused(0, Why::RevOrder)),
    (DID, b"izzzzzzzzzzzz", GOOD, Refused(0, Why::RevOrder)),
    (b"did:web:a%3A", b"j222222222223", GOOD, Accepted(2)),
];

/// Records under one key.
static RECORD_FAULTS: [Row; 10] = [
    (DID, FIRST, &[Put(b"a/b", EMPTY)], Accepted(1)),
    (
        DID,
        SECOND,
        &[Put(b"a/b", b"\xb8\x00")],
        Refused(0, Why::BadRecord(CborFault::LongHead)),
    ),
    (
        DID,
        SECOND,
        &[Put(b"a/b", b"\xa2\x61b\x00\x61a\x00")],
        Refused(0, Why::BadRecord(CborFault::KeyOrder)),
    ),
    (
        DID,
        SECOND,
        &[Put(b"a/b", b"\xa2\x61b\x00\x62aa\x00")],
        Accepted(2),
    ),
    (
        DID,
        THIRD,
        &[Put(b"a/b", b"\xa1\x61a\xfb\x00\x00\x00\x00\x00\x00\x00\x00")],
        Refused(0, Why::BadRecord(CborFault::Float)),
    ),
    (
        DID,
        THIRD,
        &[Put(b"a/b", b"\xa0\xa0")],
        Refused(0, Why::BadRecord(CborFault::Trailing)),
    ),
    (
        DID,
        THIRD,
        &[Put(b"a/b", b"\x80")],
        Refused(0, Why::NotAMap),
    ),
    (
        DID,
        THIRD,
        &[Put(b"a/b", b"\xa1\x61")],
        Refused(0, Why::BadRecord(CborFault::Truncated)),
    ),
    (
        DID,
        THIRD,
        &[Put(b"a/b", b"")],
        Refused(0, Why::BadRecord(CborFault::Truncated)),
    ),
    (DID, THIRD, &[Put(b"a/b", EMPTY)], Accepted(3)),
];

/// A repository that may have two writes: room for the write is tested first, then its key, its record, and last whether the
/// key is there.
static ORDER_OF_TESTS: [Row; 8] = [
    (
        DID,
        FIRST,
        &[Create(b"a/b0", ONE), Create(b"a/b0", b"")],
        Refused(1, Why::BadRecord(CborFault::Truncated)),
    ),
    (
        DID,
        FIRST,
        &[Update(b"a/b0", b"\x80")],
        Refused(0, Why::NotAMap),
    ),
    (DID, FIRST, &[Delete(b"a/b0")], Refused(0, Why::NoSuchKey)),
    (
        DID,
        FIRST,
        &[Put(b"a/b0", ONE), Put(b"a/c0", ONE), Put(b"a", b"")],
        Refused(2, Why::WritesFull),
    ),
    (DID, FIRST, &[Put(b"a/b0", ONE)], Accepted(1)),
    (
        DID,
        SECOND,
        &[Put(b"a/b0", ONE), Put(b"a/c0", ONE)],
        Refused(1, Why::WritesFull),
    ),
    (DID, SECOND, &[Delete(b"a/b0")], Accepted(2)),
    (DID, THIRD, BAD, Refused(0, Why::WritesFull)),
];

/// A repository that may have one write.
static ONE_WRITE: [Row; 2] = [
    (
        DID,
        FIRST,
        &[Put(b"a/b0", EMPTY), Put(b"a/c0", EMPTY)],
        Refused(1, Why::WritesFull),
    ),
    (DID, FIRST, &[Put(b"a.b-c/x:~_", EMPTY)], Accepted(1)),
];

/// Whether a key that is none is refused as such, whatever is written under it.
fn is_refused(
    alloc: Global,
    shard: &mut Shard<Toy>,
    core: &mut Core<Toy, 2>,
    key: &'static [u8],
) -> bool {
    for step in [
        Put(key, EMPTY),
        Create(key, b""),
        Update(key, EMPTY),
        Delete(key),
    ] {
        if apply_steps(alloc, shard, core, 0, &[step]) != Refused(0, Why::BadKey) {
            return false;
        }
    }
    true
}

/// Whether each key that is none is.
fn are_refused(alloc: Global, shard: &mut Shard<Toy>, core: &mut Core<Toy, 2>) -> bool {
    for key in &NO_KEYS {
        if !is_refused(alloc, shard, core, key) {
            return false;
        }
    }
    true
}

/// Whether each batch of a table ends as it says, one after the other.
fn end_so(alloc: Global, shard: &mut Shard<Toy>, core: &mut Core<Toy, 2>, rows: &[Row]) -> bool {
    for (did, rev, steps, wanted) in rows {
        if apply_made(alloc, shard, core, stamped(alloc, did, rev, steps)) != *wanted {
            return false;
        }
    }
    true
}

/// The batches of a table on a repository without writes, which may have so many: whether each ends as the table says, how
/// many writes there then are and may be, and how many blocks.
fn ended<R: Abort>(
    rt: &R,
    alloc: Global,
    limit: usize,
    rows: &[Row],
) -> (bool, u64, usize, Option<u64>)
    requires least { 1 ≤ limit }
    requires most { limit ≤ 2000 }
{
    let mut shard: Shard<Toy> = Shard::new(alloc, 9, TableKey::known());
    let mut core = opened(rt, alloc, &mut shard, 0, limit);
    let is_right = are_refused(alloc, &mut shard, &mut core)
        && end_so(alloc, &mut shard, &mut core, rows);
    let found = (is_right, core.number(), core.limit(), held(&shard, &core));
    end(&mut shard, core);
    found
}

#[test]
fn keys_records_and_stamps(rt: HostRuntime) {
    assert!(rt; ended(&rt, rt.alloc(), 2000, &STAMPS) == (true, 2, 2000, Some(3)));
    assert!(rt; ended(&rt, rt.alloc(), 2000, &RECORD_FAULTS) == (true, 3, 2000, Some(3)));
    assert!(rt; ended(&rt, rt.alloc(), 2, &ORDER_OF_TESTS) == (true, 2, 2, Some(2)));
    assert!(rt; ended(&rt, rt.alloc(), 1, &ONE_WRITE) == (true, 1, 1, Some(3)));
}
