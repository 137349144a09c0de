//! Beside a CAR that is written slowly its repository is read, and another one is read, written and exported.

ghost use Rattle.std.specs.Prelude.{◌≡◌, ◌<◌};

use crate::closes::{limits, open};
use crate::locks::{Beside, car_of};
use change_proofs::{KeyChange, are_key_changes};
use cid::Cid;
use cid::digests::Toy;
use export::ToMemory;
use host::{Host, Opened, Writer};
use host_exports::{car, prove, prove_inversion};
use repo_fixtures::batch::{EMPTY, Step, batch_at};
use std::alloc::Global;
use std::process::Abort;
use std::sync::Wait;
use std::thread;
use std::thread::Threads;

/// The key of the one record.
const KEY: &[u8] = b"a/b0";

/// Whether a put of the record is accepted.
fn puts<R: Wait>(rt: &R, alloc: Global, writer: &mut Writer<'_, Toy, 2>, repo: usize) -> bool
    ensures { writer.new.host ≡ writer.old.host }
{
    match batch_at(alloc, 1, &[Step::Put(KEY, EMPTY)]) {
        Ok(batch) => writer
            .apply(rt, alloc, repo, &batch.stamp, &batch.writes)
            .is_ok(),
        Err(_) => false,
    }
}

/// Whether the repository with the record alone is read by each call of a writer.
fn is_read<R: Wait>(rt: &R, alloc: Global, writer: &mut Writer<'_, Toy, 2>, repo: usize) -> bool
    ensures { writer.new.host ≡ writer.old.host }
{
    let has_record = matches!(writer.get(rt, alloc, repo, KEY), Ok(Some(_)));
    let has_pair = match writer.list(rt, alloc, repo, b"", 9) {
        Ok(pairs) => pairs.len() == 1,
        Err(_) => false,
    };
    has_record && has_pair && writer.publish(rt, alloc, repo).is_ok()
}

/// Whether it proves its record and how that came.
fn is_proved<R: Wait>(rt: &R, alloc: Global, host: &Host<Toy, 2>, repo: usize) -> bool {
    let changes = [KeyChange {
        key: KEY,
        before: None,
        after: Some(Cid::of::<Toy>(EMPTY)),
    }];
    if !are_key_changes(&changes) {
        return false;
    }
    let Ok(nodes) = prove(rt, alloc, host, repo, KEY) else {
        return false;
    };
    match nodes.first() {
        Some(top) => prove_inversion(rt, alloc, host, repo, top.cid(), &changes).is_ok(),
        None => false,
    }
}

/// Whether repository 0 is read and proved, and repository 1 written, read, proved and exported, once the output is in its
/// first write, which then goes on.
fn are_answered<R: Wait>(
    rt: &R,
    alloc: Global,
    host: &Host<Toy, 2>,
    mut writer: Writer<'_, Toy, 2>,
    beside: &Beside,
) -> bool {
    let is_writing = beside.is_writing.comes();
    let is_first = is_read(rt, alloc, &mut writer, 0) && is_proved(rt, alloc, host, 0);
    let is_other = puts(rt, alloc, &mut writer, 1)
        && is_read(rt, alloc, &mut writer, 1)
        && is_proved(rt, alloc, host, 1);
    let mut out = ToMemory::new(alloc);
    let is_exported = car(rt, alloc, host, 1, &mut out).is_ok();
    beside.are_answered.happens();
    is_writing && is_first && is_other && is_exported
}

/// Whether they are answered while the CAR of repository 0 is written, and it is written then.
fn are_answered_beside<R: Threads + Wait + Sync>(
    rt: &R,
    alloc: Global,
    host: &Host<Toy, 2>,
    writer: Writer<'_, Toy, 2>,
) -> bool {
    let events = Beside::new();
    let beside = &events;
    let (are_answered, length) = thread::join(
        rt,
        move || are_answered(rt, alloc, host, writer, beside),
        move || car_of(rt, alloc, host, beside),
    );
    are_answered && length.is_ok() && !beside.gave_up.has_happened()
}

/// Whether this is so on a host of two repositories, the first of which has a record.
fn is_right<R: Threads + Wait + Abort + Sync>(rt: &R, alloc: Global) -> bool {
    let opened = open(rt, alloc, limits(2, 1, 9));
    let Opened {
        host,
        mut seats,
        feed: _,
    } = opened;
    let seat = seats.pop().expect(rt, "a seat");
    let mut writer = host.writer(seat);
    puts(rt, alloc, &mut writer, 0) && are_answered_beside(rt, alloc, &host, writer)
}

#[test]
fn readers_share_and_others_go_on(rt: HostRuntime) {
    assert!(rt; is_right(&rt, rt.alloc()));
}
