//! Batches on two repositories of one store: what is refused and what is left, blocks with several uses, full stores, and
//! blocks that clash.

use crate::turns::{Turn, are_turns};
use cid::digests::{Clash, Size, Toy};
use repo_fixtures::batch::Step::{Create, Delete, Put, Update};
use repo_fixtures::batch::{EMPTY, EMPTY_NODE, ONE, TWO};
use repo_fixtures::ends::Ended::{Accepted, Refused};
use repo_fixtures::ends::Why;

/// Nothing of a batch is accepted that is refused.
const REFUSED_BATCHES: [Turn; 4] = [
    Turn {
        second: false,
        rev: 0,
        batch: &[],
        ended: Refused(0, Why::EmptyBatch),
        records: &[],
        blocks: (1, 1, 1),
    },
    Turn {
        second: false,
        rev: 0,
        batch: &[Delete(b"a/b0")],
        ended: Refused(0, Why::NoSuchKey),
        records: &[],
        blocks: (1, 1, 1),
    },
    Turn {
        second: false,
        rev: 0,
        batch: &[Put(b"a/b0", EMPTY), Delete(b"a/c0")],
        ended: Refused(1, Why::NoSuchKey),
        records: &[],
        blocks: (1, 1, 1),
    },
    Turn {
        second: true,
        rev: 0,
        batch: &[Put(b"a/b0", EMPTY), Delete(b"a/c0")],
        ended: Refused(1, Why::NoSuchKey),
        records: &[],
        blocks: (1, 1, 1),
    },
];

/// What a write finds is what those before it left.
const WRITES_IN_ORDER: [Turn; 6] = [
    Turn {
        second: false,
        rev: 0,
        batch: &[Update(b"a/b0", ONE)],
        ended: Refused(0, Why::NoSuchKey),
        records: &[],
        blocks: (1, 1, 1),
    },
    Turn {
        second: false,
        rev: 0,
        batch: &[Create(b"a/b0", ONE), Create(b"a/b0", TWO)],
        ended: Refused(1, Why::KeyExists),
        records: &[],
        blocks: (1, 1, 1),
    },
    Turn {
        second: false,
        rev: 0,
        batch: &[Create(b"a/b0", ONE), Update(b"a/b0", TWO)],
        ended: Accepted(2),
        records: &[(b"a/b0", TWO)],
        blocks: (3, 1, 4),
    },
    Turn {
        second: false,
        rev: 1,
        batch: &[Delete(b"a/b0"), Delete(b"a/b0")],
        ended: Refused(1, Why::NoSuchKey),
        records: &[(b"a/b0", TWO)],
        blocks: (3, 1, 4),
    },
    Turn {
        second: false,
        rev: 1,
        batch: &[Create(b"a/b0", ONE)],
        ended: Refused(0, Why::KeyExists),
        records: &[(b"a/b0", TWO)],
        blocks: (3, 1, 4),
    },
    Turn {
        second: false,
        rev: 1,
        batch: &[Delete(b"a/b0"), Create(b"a/b0", ONE)],
        ended: Accepted(4),
        records: &[(b"a/b0", ONE)],
        blocks: (3, 1, 4),
    },
];

/// The same put twice is accepted twice, and leaves the same blocks but for the commit.
const THE_SAME_PUT_TWICE: [Turn; 2] = [
    Turn {
        second: false,
        rev: 0,
        batch: &[Put(b"a/b0", EMPTY)],
        ended: Accepted(1),
        records: &[(b"a/b0", EMPTY)],
        blocks: (3, 1, 4),
    },
    Turn {
        second: false,
        rev: 1,
        batch: &[Put(b"a/b0", EMPTY)],
        ended: Accepted(2),
        records: &[(b"a/b0", EMPTY)],
        blocks: (3, 1, 4),
    },
];

/// A tree of five nodes, and the one node that is left of it.
const MERGE_AFTER_A_DELETE: [Turn; 2] = [
    Turn {
        second: false,
        rev: 0,
        batch: &[Put(b"a/p0", ONE), Put(b"a/q2", ONE), Put(b"a/r0", ONE)],
        ended: Accepted(3),
        records: &[(b"a/p0", ONE), (b"a/q2", ONE), (b"a/r0", ONE)],
        blocks: (7, 1, 8),
    },
    Turn {
        second: false,
        rev: 1,
        batch: &[Delete(b"a/q2")],
        ended: Accepted(4),
        records: &[(b"a/p0", ONE), (b"a/r0", ONE)],
        blocks: (3, 1, 4),
    },
];

/// A top that comes three layers above the one node before, which stays.
const RAISED_TOP: [Turn; 2] = [
    Turn {
        second: false,
        rev: 0,
        batch: &[Put(b"a/r0", ONE)],
        ended: Accepted(1),
        records: &[(b"a/r0", ONE)],
        blocks: (3, 1, 4),
    },
    Turn {
        second: false,
        rev: 1,
        batch: &[Put(b"a/p3", ONE)],
        ended: Accepted(2),
        records: &[(b"a/p3", ONE), (b"a/r0", ONE)],
        blocks: (6, 1, 7),
    },
];

/// The record has the bytes of the node without entries, which is the tree once its key goes.
const NODE_AND_RECORD_IN_ONE_BLOCK: [Turn; 2] = [
    Turn {
        second: false,
        rev: 0,
        batch: &[Put(b"a/b0", EMPTY_NODE)],
        ended: Accepted(1),
        records: &[(b"a/b0", EMPTY_NODE)],
        blocks: (3, 1, 3),
    },
    Turn {
        second: false,
        rev: 1,
        batch: &[Delete(b"a/b0")],
        ended: Accepted(2),
        records: &[],
        blocks: (2, 1, 2),
    },
];

/// The record stays as long as one of its keys does.
const ONE_RECORD_UNDER_TWO_KEYS: [Turn; 2] = [
    Turn {
        second: false,
        rev: 0,
        batch: &[Put(b"a/b0", EMPTY), Put(b"a/c0", EMPTY)],
        ended: Accepted(2),
        records: &[(b"a/b0", EMPTY), (b"a/c0", EMPTY)],
        blocks: (3, 1, 4),
    },
    Turn {
        second: false,
        rev: 1,
        batch: &[Delete(b"a/b0")],
        ended: Accepted(3),
        records: &[(b"a/c0", EMPTY)],
        blocks: (3, 1, 4),
    },
];

/// With one stamp two repositories share all three blocks, and none once the key of one goes.
const TWO_REPOSITORIES_SHARE_BLOCKS: [Turn; 3] = [
    Turn {
        second: false,
        rev: 0,
        batch: &[Put(b"a/b0", EMPTY)],
        ended: Accepted(1),
        records: &[(b"a/b0", EMPTY)],
        blocks: (3, 1, 4),
    },
    Turn {
        second: true,
        rev: 0,
        batch: &[Put(b"a/b0", EMPTY)],
        ended: Accepted(1),
        records: &[(b"a/b0", EMPTY)],
        blocks: (3, 3, 3),
    },
    Turn {
        second: true,
        rev: 1,
        batch: &[Delete(b"a/b0")],
        ended: Accepted(2),
        records: &[],
        blocks: (3, 2, 5),
    },
];

/// With two stamps their commits are two blocks.
const TWO_REPOSITORIES_WITH_TWO_STAMPS: [Turn; 3] = [
    Turn {
        second: false,
        rev: 0,
        batch: &[Put(b"a/b0", EMPTY)],
        ended: Accepted(1),
        records: &[(b"a/b0", EMPTY)],
        blocks: (3, 1, 4),
    },
    Turn {
        second: true,
        rev: 1,
        batch: &[Put(b"a/b0", EMPTY)],
        ended: Accepted(1),
        records: &[(b"a/b0", EMPTY)],
        blocks: (3, 3, 4),
    },
    Turn {
        second: true,
        rev: 2,
        batch: &[Delete(b"a/b0")],
        ended: Accepted(2),
        records: &[],
        blocks: (3, 2, 5),
    },
];

/// Twenty writes of all kinds, of which some overwrite others, on a tree of four nodes: one of five is left.
const TWENTY_WRITES: [Turn; 2] = [
    Turn {
        second: false,
        rev: 0,
        batch: &[
            Put(b"a/b0", ONE),
            Put(b"a/d1", TWO),
            Put(b"a/f0", EMPTY),
            Put(b"a/h2", ONE),
        ],
        ended: Accepted(4),
        records: &[
            (b"a/b0", ONE),
            (b"a/d1", TWO),
            (b"a/f0", EMPTY),
            (b"a/h2", ONE),
        ],
        blocks: (8, 1, 9),
    },
    Turn {
        second: false,
        rev: 1,
        batch: &[
            Update(b"a/b0", TWO),
            Create(b"a/c0", ONE),
            Delete(b"a/d1"),
            Create(b"a/d1", ONE),
            Put(b"a/e0", TWO),
            Delete(b"a/f0"),
            Put(b"a/g1", EMPTY),
            Update(b"a/g1", ONE),
            Delete(b"a/h2"),
            Put(b"a/i0", ONE),
            Put(b"a/j0", TWO),
            Delete(b"a/i0"),
            Create(b"a/i0", TWO),
            Put(b"a/k2", ONE),
            Put(b"a/l0", EMPTY),
            Put(b"a/l0", ONE),
            Delete(b"a/l0"),
            Put(b"a/m3", TWO),
            Delete(b"a/m3"),
            Update(b"a/k2", TWO),
        ],
        ended: Accepted(24),
        records: &[
            (b"a/b0", TWO),
            (b"a/c0", ONE),
            (b"a/d1", ONE),
            (b"a/e0", TWO),
            (b"a/g1", ONE),
            (b"a/i0", TWO),
            (b"a/j0", TWO),
            (b"a/k2", TWO),
        ],
        blocks: (8, 1, 9),
    },
];

/// A store with room for two blocks has none for a record and its node beside the node without entries.
const FULL_SHARD: [Turn; 1] = [Turn {
    second: false,
    rev: 0,
    batch: &[Put(b"a/b0", EMPTY), Put(b"a/c0", ONE)],
    ended: Refused(1, Why::StoreFull),
    records: &[],
    blocks: (1, 1, 1),
}];

/// A store with room for one block is full once the first repository is opened; the second needs no room.
const OPENED_IN_A_FULL_SHARD: [Turn; 1] = [Turn {
    second: true,
    rev: 0,
    batch: &[Put(b"a/b0", EMPTY)],
    ended: Refused(0, Why::StoreFull),
    records: &[],
    blocks: (1, 1, 1),
}];

/// Stories under `Toy`, with the room that their stores have beside the one block of repositories without writes.
const STORIES: [(&str, u8, &[Turn]); 12] = [
    ("refused batches", 99, &REFUSED_BATCHES),
    ("writes in order", 99, &WRITES_IN_ORDER),
    ("the same put twice", 99, &THE_SAME_PUT_TWICE),
    ("merge after a delete", 99, &MERGE_AFTER_A_DELETE),
    ("raised top", 99, &RAISED_TOP),
    (
        "node and record in one block",
        99,
        &NODE_AND_RECORD_IN_ONE_BLOCK,
    ),
    ("one record under two keys", 99, &ONE_RECORD_UNDER_TWO_KEYS),
    (
        "two repositories share blocks",
        4,
        &TWO_REPOSITORIES_SHARE_BLOCKS,
    ),
    (
        "two repositories with two stamps",
        99,
        &TWO_REPOSITORIES_WITH_TWO_STAMPS,
    ),
    ("twenty writes", 99, &TWENTY_WRITES),
    ("full shard", 1, &FULL_SHARD),
    ("opened in a full shard", 0, &OPENED_IN_A_FULL_SHARD),
];

/// Two records of the same length clash in one repository.
const TWO_RECORDS_OF_ONE_REPOSITORY: [Turn; 2] = [
    Turn {
        second: false,
        rev: 0,
        batch: &[Put(b"a/b0", ONE)],
        ended: Accepted(1),
        records: &[(b"a/b0", ONE)],
        blocks: (3, 1, 4),
    },
    Turn {
        second: false,
        rev: 1,
        batch: &[Put(b"a/c0", TWO)],
        ended: Refused(0, Why::CollisionOfRecords),
        records: &[(b"a/b0", ONE)],
        blocks: (3, 1, 4),
    },
];

/// They clash in one batch, which is refused at its last write.
const TWO_RECORDS_OF_ONE_BATCH: [Turn; 1] = [Turn {
    second: false,
    rev: 0,
    batch: &[Put(b"a/b0", ONE), Put(b"a/c0", TWO), Put(b"a/d0", EMPTY)],
    ended: Refused(2, Why::CollisionOfRecords),
    records: &[],
    blocks: (1, 1, 1),
}];

/// They clash in two repositories of one store.
const RECORDS_OF_TWO_REPOSITORIES: [Turn; 2] = [
    Turn {
        second: false,
        rev: 0,
        batch: &[Put(b"a/b0", ONE)],
        ended: Accepted(1),
        records: &[(b"a/b0", ONE)],
        blocks: (3, 1, 4),
    },
    Turn {
        second: true,
        rev: 0,
        batch: &[Put(b"a/b0", TWO)],
        ended: Refused(0, Why::CollisionOfRecords),
        records: &[],
        blocks: (3, 1, 4),
    },
];

/// Two repositories share a record, and another one of its length clashes with it for both.
const RECORDS_SHARED_AND_CLASHING: [Turn; 3] = [
    Turn {
        second: false,
        rev: 0,
        batch: &[Put(b"a/b0", ONE)],
        ended: Accepted(1),
        records: &[(b"a/b0", ONE)],
        blocks: (3, 1, 4),
    },
    Turn {
        second: true,
        rev: 0,
        batch: &[Put(b"a/b0", ONE)],
        ended: Accepted(1),
        records: &[(b"a/b0", ONE)],
        blocks: (3, 3, 3),
    },
    Turn {
        second: true,
        rev: 1,
        batch: &[Put(b"a/c0", ONE), Put(b"a/d0", TWO)],
        ended: Refused(1, Why::CollisionOfRecords),
        records: &[(b"a/b0", ONE)],
        blocks: (3, 3, 3),
    },
];

/// A record of 102 bytes, as a commit of the tests has.
const AS_LONG_AS_A_COMMIT: &[u8] =
    b"\xa1\x61a\x78\x61a text that makes its record as long as a commit, and ends in no digit, so both have one CID here";

/// The commit clashes with a record of its batch, which is refused at its last write.
const COMMIT_AND_RECORD: [Turn; 1] = [Turn {
    second: false,
    rev: 0,
    batch: &[Put(b"a/b0", AS_LONG_AS_A_COMMIT), Put(b"a/c0", ONE)],
    ended: Refused(1, Why::Collision),
    records: &[],
    blocks: (1, 1, 1),
}];

/// All blocks have one CID: the record clashes with the node without entries.
const COLLIDING_RECORD: [Turn; 1] = [Turn {
    second: false,
    rev: 0,
    batch: &[Put(b"a/b", EMPTY)],
    ended: Refused(0, Why::Collision),
    records: &[],
    blocks: (1, 1, 1),
}];

#[test]
fn stories(rt: HostRuntime) {
    for (name, spare, turns) in &STORIES {
        let are_so = are_turns::<_, Toy>(&rt, rt.alloc(), *spare, turns);
        assert!(rt; are_so, "{name}");
    }
}

#[test]
fn blocks_that_clash(rt: HostRuntime) {
    assert!(rt; are_turns::<_, Size>(&rt, rt.alloc(), 8, &TWO_RECORDS_OF_ONE_REPOSITORY));
    assert!(rt; are_turns::<_, Size>(&rt, rt.alloc(), 8, &TWO_RECORDS_OF_ONE_BATCH));
    assert!(rt; are_turns::<_, Size>(&rt, rt.alloc(), 8, &RECORDS_OF_TWO_REPOSITORIES));
    assert!(rt; are_turns::<_, Size>(&rt, rt.alloc(), 8, &RECORDS_SHARED_AND_CLASHING));
    assert!(rt; are_turns::<_, Size>(&rt, rt.alloc(), 8, &COMMIT_AND_RECORD));
    assert!(rt; are_turns::<_, Clash>(&rt, rt.alloc(), 8, &COLLIDING_RECORD));
}
