//! Long records and files.

use crate::fixtures::{Posts, change, opened, record, shard, told, written};
use cid::Sha256;
use event_format::FormFault;
use event_writing::UntoldFault;
use repo_fixtures::batch::{Step, batch_at};
use repo_fixtures::cores::{apply_made, end};
use repo_fixtures::ends::Ended;
use std::alloc::Global;
use store::Shard;

/// How the message of a batch ends that puts two records of these bytes, of which it tells.
fn told_of_two(
    alloc: Global,
    shard: &mut Shard<Sha256>,
    core: &mut Posts<Global>,
    turn: u16,
    one: &[u8],
    other: &[u8],
) -> Option<Result<usize, UntoldFault>> {
    let before = core.root();
    let steps = [Step::Put(b"posts/1", one), Step::Put(b"posts/2", other)];
    let Ended::Accepted(_) = apply_made(alloc, shard, core, batch_at(alloc, turn, &steps)) else {
        return None;
    };
    let changes = [
        change(b"posts/1", None, Some(one)),
        change(b"posts/2", None, Some(other)),
    ];
    let mut beside = told();
    beside.since = None;
    match written(alloc, core, before, &changes, &beside) {
        Ok(message) => Some(Ok(message.len())),
        Err(fault) => Some(Err(fault)),
    }
}

/// The same with records of so many zeros.
fn of_zeros(
    alloc: Global,
    shard: &mut Shard<Sha256>,
    core: &mut Posts<Global>,
    turn: u16,
    one: u32,
    other: u32,
) -> Option<Result<usize, UntoldFault>> {
    match (record(alloc, one), record(alloc, other)) {
        (Ok(one), Ok(other)) => told_of_two(alloc, shard, core, turn, &one, &other),
        _ => None,
    }
}

#[test]
fn long_records(rt: HostRuntime) {
    let alloc = rt.alloc();
    let mut shard = shard(alloc);
    let mut core = opened(&rt, alloc, &mut shard);
    let record_too_long = of_zeros(alloc, &mut shard, &mut core, 1, 70_000, 999_990);
    let file_too_long = of_zeros(alloc, &mut shard, &mut core, 2, 999_989, 999_988);
    let short_enough = of_zeros(alloc, &mut shard, &mut core, 3, 999_989, 999_000);
    end(&mut shard, core);
    assert!(rt; record_too_long == Some(Err(UntoldFault::RecordSize(1))));
    assert!(rt; file_too_long == Some(Err(UntoldFault::Form(FormFault::BlocksSize))));
    assert!(rt; short_enough.is_some_and(|told| told.is_ok()));
}
