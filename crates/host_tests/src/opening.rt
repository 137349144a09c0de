//! Hosts that aren't opened, and the smallest and greatest ones.

use crate::hosts::{Answer, apply_steps, limits};
use cid::digests::Toy;
use host::{Host, Limits, OpenFault, Opened};
use repo::end_all;
use repo_fixtures::batch::Step;
use repo_fixtures::ends::Why;
use std::alloc::Global;
use std::hash::{BuildHasher, Hasher};
use std::process::Abort;
use std::sync::Wait;
use store::{SHARDS, Shard, TableKey};

/// How a host is opened.
#[derive(Clone, Copy, PartialEq, Eq)]
enum Opening {
    Opened,
    BadRepos,
    BadWriters,
    BadQueue,
    BadBlocks,
    BadWrites,
    NoMemory,
}

/// How a host of these limits is opened.
fn opening_of<R: Wait>(rt: &R, alloc: Global, limits: Limits) -> Opening {
    match Host::<Toy, 2>::open(rt, alloc, limits, TableKey::known()) {
        Ok(_) => Opening::Opened,
        Err(OpenFault::BadRepos) => Opening::BadRepos,
        Err(OpenFault::BadWriters) => Opening::BadWriters,
        Err(OpenFault::BadQueue) => Opening::BadQueue,
        Err(OpenFault::BadBlocks) => Opening::BadBlocks,
        Err(OpenFault::BadWrites) => Opening::BadWrites,
        Err(OpenFault::NoMemory) => Opening::NoMemory,
    }
}

/// Limits in the order of their fields, and how a host of them is opened.
static ROWS: [([u32; 5], Opening); 13] = [
    ([0, 0, 0, 0, 0], Opening::BadRepos),
    ([1025, 1, 1, 1, 1], Opening::BadRepos),
    ([1, 0, 0, 0, 0], Opening::BadWriters),
    ([1, 65, 1, 1, 1], Opening::BadWriters),
    ([1, 1, 0, 0, 0], Opening::BadQueue),
    ([1, 1, 65537, 1, 1], Opening::BadQueue),
    ([1, 1, 1, 0, 0], Opening::BadBlocks),
    ([1, 1, 1, 1048577, 1], Opening::BadBlocks),
    ([1, 1, 1, 1, 0], Opening::BadWrites),
    ([1, 1, 1, 1, 1048577], Opening::BadWrites),
    ([1, 1, 1, 1, 1], Opening::Opened),
    ([1, 64, 65536, 1048576, 1048576], Opening::Opened),
    ([1024, 1, 1, 1, 1], Opening::Opened),
];

/// How a host of a row's limits is opened.
fn opening_of_row<R: Wait>(rt: &R, alloc: Global, row: &[u32; 5]) -> Opening {
    let [repos, writers, queue, blocks, writes] = *row;
    let given = Limits {
        shard_blocks: blocks as usize,
        repo_writes: writes as usize,
        ..limits(repos, writers, queue as usize)
    };
    opening_of(rt, alloc, given)
}

#[test]
fn limits_are_tested_in_their_order(rt: HostRuntime) {
    for (row, wanted) in &ROWS {
        assert!(rt; opening_of_row(&rt, rt.alloc(), row) == *wanted, "{row:?}");
    }
}

/// A record whose block stands in shard 3. Those of the node before it, of its node and of its commit stand in shard 15.
const THREE: &[u8] = b"\xa1\x61a\x33";

/// How two puts are answered on a host whose shards may have so many blocks, and its repository so many writes.
fn puts_within<R: Wait + Abort>(
    rt: &R,
    alloc: Global,
    shard_blocks: usize,
    repo_writes: usize,
) -> [Answer; 2] {
    let given = Limits {
        shard_blocks,
        repo_writes,
        ..limits(1, 1, 9)
    };
    let opened = Host::<Toy, 2>::open(rt, alloc, given, TableKey::known()).expect(rt, "a host");
    let Opened {
        host,
        mut seats,
        feed: _,
    } = opened;
    let seat = seats.pop().expect(rt, "a seat");
    let mut writer = host.writer(seat);
    let put = [Step::Put(b"a/b0", THREE)];
    let first = apply_steps(rt, alloc, &mut writer, 0, 1, &put);
    [first, apply_steps(rt, alloc, &mut writer, 0, 2, &put)]
}

/// How many blocks and writes there may be, and how two puts are answered then.
const LIMITS: [(usize, usize, [Answer; 2]); 3] = [
    (
        2,
        9,
        [
            Answer::Refused(0, Why::StoreFull),
            Answer::Refused(0, Why::StoreFull),
        ],
    ),
    (3, 9, [Answer::Told(1, 1), Answer::Told(2, 2)]),
    (
        3,
        1,
        [Answer::Told(1, 1), Answer::Refused(0, Why::WritesFull)],
    ),
];

#[test]
fn each_shard_and_repository_has_its_limit(rt: HostRuntime) {
    let rows = LIMITS;
    for (blocks, writes, wanted) in &rows {
        assert!(rt;
            puts_within(&rt, rt.alloc(), *blocks, *writes) == *wanted,
            "{blocks} blocks and {writes} writes"
        );
    }
}

/// What a table makes of the key alone.
fn hash_of(key: TableKey) -> u64 {
    key.build_hasher().finish()
}

/// Whether each of the sixteen shards may have so many blocks, under this key.
fn have_all(tables: &[Shard<Toy>; SHARDS], limit: usize, key: TableKey) -> bool {
    for table in tables {
        if table.limit() != limit || hash_of(table.key()) != hash_of(key) {
            return false;
        }
    }
    true
}

/// Whether each shard of a host has the limit and the key with which it was opened.
fn is_opened_so<R: Wait + Abort>(rt: &R, alloc: Global, limit: usize, key: TableKey) -> bool {
    let given = Limits {
        shard_blocks: limit,
        ..limits(1, 1, 9)
    };
    let opened = Host::<Toy, 2>::open(rt, alloc, given, key).expect(rt, "a host");
    let Opened {
        host,
        seats: _,
        feed: _,
    } = opened;
    let (_, cores, tables) = host.into_parts();
    let is_so = have_all(&tables, limit, key);
    end_all(cores, tables);
    is_so
}

/// No contract can say what stands behind a lock.
#[test]
fn each_shard_has_the_limit_and_the_key(rt: HostRuntime) {
    let key = TableKey::of(0x0706_0504_0302_0100, u64::MAX);
    for limit in [1usize, 65_537, 1_048_576] {
        assert!(rt; is_opened_so(&rt, rt.alloc(), limit, key), "at {limit}");
    }
}
