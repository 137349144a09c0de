//! Calls that are refused.

use crate::hosts::{Answer, apply_steps, finds};
use crate::seated::{Alone, open_one};
use cid::digests::Toy;
use host::{HostFault, Writer};
use repo_fixtures::batch::{EMPTY, Step};
use repo_fixtures::ends::Why;
use std::alloc::Global;
use std::process::Abort;
use std::sync::Wait;

/// Whether each reading call says that there is no such repository.
fn none_is_there<R: Wait>(
    rt: &R,
    alloc: Global,
    writer: &mut Writer<'_, Toy, 2>,
    repo: usize,
) -> bool {
    matches!(
        writer.get(rt, alloc, repo, b"a/b0"),
        Err(HostFault::NoSuchRepository)
    ) && matches!(
        writer.list(rt, alloc, repo, b"", 9),
        Err(HostFault::NoSuchRepository)
    ) && matches!(
        writer.publish(rt, alloc, repo),
        Err(HostFault::NoSuchRepository)
    )
}

/// A repository's number, a batch's steps, and how the batch is answered.
static ROWS: [(usize, &[Step<'static>], Answer); 6] = [
    (1, &[Step::Put(b"a/b0", EMPTY)], Answer::NoSuchRepository),
    (0, &[], Answer::Refused(0, Why::EmptyBatch)),
    (
        0,
        &[Step::Delete(b"a/b0")],
        Answer::Refused(0, Why::NoSuchKey),
    ),
    (
        0,
        &[Step::Put(b"a/b0", EMPTY), Step::Delete(b"a/c0")],
        Answer::Refused(1, Why::NoSuchKey),
    ),
    (0, &[Step::Put(b"a/b0", EMPTY)], Answer::Told(1, 1)),
    (
        0,
        &[Step::Create(b"a/c0", EMPTY), Step::Delete(b"a/b0")],
        Answer::Told(2, 3),
    ),
];

/// Whether a writer is answered each row so.
fn are_answered<R: Wait>(rt: &R, alloc: Global, writer: &mut Writer<'_, Toy, 2>) -> bool {
    let mut turn = 0u16;
    for (repo, steps, wanted) in &ROWS {
        turn = turn.saturating_add(1);
        if apply_steps(rt, alloc, writer, *repo, turn, steps) != *wanted {
            return false;
        }
    }
    true
}

/// Whether each row is answered so, and nothing that was refused is there.
fn are_refused<R: Wait + Abort>(rt: &R, alloc: Global) -> bool {
    let opened = open_one::<Toy, 2, R>(rt, alloc, 1, 9);
    let Alone {
        host,
        seat,
        feed: _,
    } = opened;
    let mut writer = host.writer(seat);
    are_answered(rt, alloc, &mut writer)
        && finds(rt, alloc, &mut writer, 0, None)
        && none_is_there(rt, alloc, &mut writer, 1)
}

#[test]
fn refused_calls(rt: HostRuntime) {
    assert!(rt; are_refused(&rt, rt.alloc()));
}
