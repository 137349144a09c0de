//! Versions are the same for good, on any thread.

ghost use Rattle.std.specs.Prelude.{◌≡◌};
ghost use Rattle.boxcar.specs.Table.{Shows};

use crate::hosts::{Answer, apply_steps};
use crate::seated::{Pair, open_two};
use batches::Write;
use cid::Cid;
use cid::digests::Toy;
use host::{Host, Receipt, Version, Writer};
use repo_fixtures::batch::{EMPTY, EMPTY_NODE, Step};
use std::alloc::Global;
use std::process::Abort;
use std::sync::atomic::{AtomicBool, Ordering};
use std::sync::{Arc, Wait};
use std::thread;
use std::thread::Threads;

/// How often a thread reads the versions at most. It stops before, once the writer has ended.
const TURNS: u64 = 10_000_000;

/// How many puts there are while the versions are read.
const PUTS: u16 = 100;

/// Whether these are puts of the one record under the one key.
fn are_puts(writes: &[Arc<Write>]) -> bool {
    for write in writes {
        if write.key() != b"a/b0".as_slice() || write.record() != Some(EMPTY) {
            return false;
        }
    }
    true
}

/// Whether the version is of repository 0, and has so many writes, those that were made.
fn is_of(version: &Version, number: u64) -> bool {
    version.repo == 0
        && version.number == number
        && version.writes.len() as u64 == number
        && are_puts(&version.writes)
}

/// Whether a put of one record is accepted, under the stamp of this turn.
fn puts<R: Wait>(rt: &R, alloc: Global, writer: &mut Writer<'_, Toy, 2>, turn: u16) -> bool
    ensures { writer.new.host ≡ writer.old.host }
{
    let step = [Step::Put(b"a/b0", EMPTY)];
    apply_steps(rt, alloc, writer, 0, turn, &step) == Answer::Told(u64::from(turn), u64::from(turn))
}

/// A version by one writer after a put by the other.
fn published_after<R: Wait + Abort>(
    rt: &R,
    alloc: Global,
    publisher: &mut Writer<'_, Toy, 2>,
    writer: &mut Writer<'_, Toy, 2>,
    turn: u16,
) -> Receipt<Toy, 2>
    ensures publisher { publisher.new.host ≡ publisher.old.host }
    ensures writer { writer.new.host ≡ writer.old.host }
    ensures shown { Shows publisher.new.host.shelf result }
{
    assert!(rt; puts(rt, alloc, writer, turn));
    publisher.publish(rt, alloc, 0).expect(rt, "a version")
}

/// Whether three versions are as they were published: without writes, and with one and two that leave the same.
fn are_as_published(
    host: &Host<Toy, 2>,
    zero: &Receipt<Toy, 2>,
    one: &Receipt<Toy, 2>,
    two: &Receipt<Toy, 2>,
) -> bool
    requires zero { Shows host.now.shelf zero.now }
    requires one { Shows host.now.shelf one.now }
    requires two { Shows host.now.shelf two.now }
{
    let (zero, one, two) = (host.version(zero), host.version(one), host.version(two));
    is_of(zero, 0)
        && is_of(one, 1)
        && is_of(two, 2)
        && zero.root == Cid::of::<Toy>(EMPTY_NODE)
        && zero.root != one.root
        && one.root == two.root
}

/// Whether they are so each time, until the writer has ended.
fn stay_as_published(
    host: &Host<Toy, 2>,
    zero: &Receipt<Toy, 2>,
    one: &Receipt<Toy, 2>,
    two: &Receipt<Toy, 2>,
    has_ended: &AtomicBool,
) -> bool
    requires zero { Shows host.now.shelf zero.now }
    requires one { Shows host.now.shelf one.now }
    requires two { Shows host.now.shelf two.now }
{
    for _ in 0..TURNS {
        if !are_as_published(host, zero, one, two) {
            return false;
        }
        if has_ended.load(Ordering::SeqCst) {
            break;
        }
    }
    true
}

/// Whether so many further puts are accepted, after which the writer has ended.
fn goes_on<R: Wait>(
    rt: &R,
    alloc: Global,
    mut writer: Writer<'_, Toy, 2>,
    has_ended: &AtomicBool,
) -> bool {
    let mut are_accepted = true;
    for turn in 3..3 + PUTS {
        are_accepted = are_accepted && puts(rt, alloc, &mut writer, turn);
    }
    has_ended.store(true, Ordering::SeqCst);
    are_accepted
}

/// Whether two threads read three versions right while the writer goes on.
fn are_read_beside<R: Threads + Wait + Sync>(
    rt: &R,
    alloc: Global,
    host: &Host<Toy, 2>,
    zero: &Receipt<Toy, 2>,
    one: &Receipt<Toy, 2>,
    two: &Receipt<Toy, 2>,
    writer: Writer<'_, Toy, 2>,
) -> bool
    requires zero { Shows host.now.shelf zero.now }
    requires one { Shows host.now.shelf one.now }
    requires two { Shows host.now.shelf two.now }
{
    let ended = AtomicBool::new(false);
    let has_ended = &ended;
    let (first, (second, is_accepted)) = thread::join(
        rt,
        || -> bool
            requires { (Shows host.now.shelf zero.now) × (Shows host.now.shelf one.now)
                × (Shows host.now.shelf two.now) }
        { stay_as_published(host, zero, one, two, has_ended) },
        move || -> (bool, bool)
            requires { (Shows host.now.shelf zero.now) × (Shows host.now.shelf one.now)
                × (Shows host.now.shelf two.now) }
        {
            thread::join(
                rt,
                || -> bool
                    requires { (Shows host.now.shelf zero.now) × (Shows host.now.shelf one.now)
                        × (Shows host.now.shelf two.now) }
                { stay_as_published(host, zero, one, two, has_ended) },
                move || goes_on(rt, alloc, writer, has_ended),
            )
        },
    );
    first && second && is_accepted
}

/// Whether two threads find three versions of one writer as they were published, while the other one goes on.
fn are_read_by_two<R: Threads + Wait + Abort + Sync>(rt: &R, alloc: Global) -> bool {
    let opened = open_two(rt, alloc, 9);
    let Pair {
        host,
        first,
        second,
        feed: _,
    } = opened;
    let mut publisher = host.writer(first);
    let mut writer = host.writer(second);
    let zero = publisher.publish(rt, alloc, 0).expect(rt, "a version");
    let one = published_after(rt, alloc, &mut publisher, &mut writer, 1);
    let two = published_after(rt, alloc, &mut publisher, &mut writer, 2);
    are_read_beside(rt, alloc, &host, &zero, &one, &two, writer)
        && are_as_published(&host, &zero, &one, &two)
}

#[test]
fn versions_stay(rt: HostRuntime) {
    assert!(rt; are_read_by_two(&rt, rt.alloc()));
}
