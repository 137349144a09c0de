//! Batches that a host tells before they are accepted, and others that come between.

use crate::asked_again::{Heap, seated};
use crate::seated::{Alone, Pair, open_one, open_two};
use change_proofs::{are_key_changes, verify_change_blocks};
use cid::Cid;
use cid::digests::Toy;
use host::{ApplyFromFault, Host, HostFault, Writer};
use host_exports::{PrepareFault, prepare};
use notices::Notice;
use refusing::Refusing;
use repo::{Core, PreparedBatch};
use repo_fixtures::batch::{Batch, EMPTY_NODE, ONE, Step, TWO, batch_at};
use repo_fixtures::ends::{Why, why_of};
use std::alloc::Global;
use std::process::Abort;
use std::sync::Wait;

/// The batch before.
const FIRST: &[Step<'static>] = &[
    Step::Put(b"a/p0", ONE),
    Step::Put(b"a/q2", ONE),
    Step::Put(b"a/r0", ONE),
];

/// The batch that is told.
const SECOND: &[Step<'static>] = &[
    Step::Put(b"a/r1", ONE),
    Step::Delete(b"a/p0"),
    Step::Put(b"a/q0", TWO),
    Step::Update(b"a/q2", TWO),
];

/// The one that comes between.
const BETWEEN: &[Step<'static>] = &[Step::Put(b"a/s0", TWO)];

/// Whether the nodes that its edit reads show the batch's changes to who knows the root before.
fn shows(alloc: Global, prepared: &PreparedBatch<Toy, 2>) -> bool {
    let Ok(changes) = prepared.changes(alloc) else {
        return false;
    };
    let (before, after) = (prepared.previous(), prepared.root());
    if changes.len() != 4 || !are_key_changes(&changes) {
        return false;
    }
    verify_change_blocks::<Toy, 2, _>(alloc, before, after, prepared.nodes_read(), &changes).is_ok()
}

/// Whether a core has so many writes and this root.
fn is_at(core: &Core<Toy, 2>, number: u64, root: Cid) -> bool {
    core.number() == number && core.root() == root
}

/// Whether a core is as the batch told: it has the nodes that come and not those that go, and this commit.
fn is_after(core: &Core<Toy, 2>, prepared: &PreparedBatch<Toy, 2>) -> bool {
    for node in prepared.nodes_added() {
        if core.block(&node.cid()).is_none() {
            return false;
        }
    }
    for cid in prepared.nodes_dropped() {
        if core.block(cid).is_some() {
            return false;
        }
    }
    core.commit() == Some(prepared.commit_block().cid())
}

/// Whether repository 1 has so many writes and this root.
fn stands<R: Wait>(rt: &R, host: &Host<Toy, 2>, number: u64, root: Cid) -> bool {
    host.repos() == 2 && is_at(&host.read(rt, 1, 0), number, root)
}

/// Whether it is as the batch told.
fn has_become<R: Wait>(rt: &R, host: &Host<Toy, 2>, prepared: &PreparedBatch<Toy, 2>) -> bool {
    host.repos() == 2 && is_after(&host.read(rt, 1, 0), prepared)
}

/// Whether what a host tells of a batch is so before it is accepted, and once it was.
fn is_foretold<R: Wait + Abort>(rt: &R, alloc: Global) -> bool {
    let opened = open_one::<Toy, 2, R>(rt, alloc, 2, 9);
    let Alone {
        host,
        seat,
        feed: _,
    } = opened;
    let mut writer = host.writer(seat);
    let first = batch_at(alloc, 0, FIRST).expect(rt, "a batch");
    let Batch { stamp, writes } = batch_at(alloc, 1, SECOND).expect(rt, "a batch");
    let before = writer
        .apply(rt, alloc, 1, &first.stamp, &first.writes)
        .expect(rt, "a notice");

    let prepared = prepare(rt, alloc, &host, 1, &stamp, &writes).expect(rt, "what is told");
    let is_still = stands(rt, &host, 3, before.root);
    let after = writer
        .apply_from(rt, alloc, 1, prepared.previous(), &stamp, &writes)
        .expect(rt, "a notice");

    is_still
        && prepared.previous() == before.root
        && (after.number, after.root) == (7, prepared.root())
        && shows(alloc, &prepared)
        && has_become(rt, &host, &prepared)
}

#[test]
fn a_host_tells_a_batch_before_it_is_accepted(rt: HostRuntime) {
    assert!(rt; is_foretold(&rt, rt.alloc()));
}

/// Whether a batch is refused between which and its being told another writer's batch came, and told anew it is accepted.
fn is_outrun<R: Wait + Abort>(rt: &R, alloc: Global) -> bool {
    let opened = open_two(rt, alloc, 9);
    let Pair {
        host,
        first,
        second,
        feed: _,
    } = opened;
    let (mut own, mut other) = (host.writer(first), host.writer(second));
    let between = batch_at(alloc, 0, BETWEEN).expect(rt, "a batch");
    let Batch { stamp, writes } = batch_at(alloc, 1, FIRST).expect(rt, "a batch");

    let early = prepare(rt, alloc, &host, 1, &stamp, &writes).expect(rt, "what is told");
    let meanwhile = other
        .apply(rt, alloc, 1, &between.stamp, &between.writes)
        .expect(rt, "a notice");
    let refused = own.apply_from(rt, alloc, 1, early.previous(), &stamp, &writes);
    let is_still = stands(rt, &host, 1, meanwhile.root);

    let late = prepare(rt, alloc, &host, 1, &stamp, &writes).expect(rt, "what is told");
    let told = own
        .apply_from(rt, alloc, 1, late.previous(), &stamp, &writes)
        .expect(rt, "a notice");

    matches!(refused, Err(ApplyFromFault::OtherRoot))
        && is_still
        && late.previous() == meanwhile.root
        && (told.seq, told.number, told.root) == (1, 4, late.root())
        && early.root() != late.root()
}

#[test]
fn a_batch_that_another_outran_is_refused(rt: HostRuntime) {
    assert!(rt; is_outrun(&rt, rt.alloc()));
}

/// Why a batch isn't told, or isn't accepted.
#[derive(Clone, Copy, PartialEq, Eq)]
enum Said {
    NoSuchRepository,
    Refused(usize, Why),
    OtherRoot,
    Other,
}

/// Why a batch isn't told.
fn untold<R: Wait>(
    rt: &R,
    alloc: Global,
    host: &Host<Toy, 2>,
    repo: usize,
    batch: &Batch<Global>,
) -> Said {
    match prepare(rt, alloc, host, repo, &batch.stamp, &batch.writes) {
        Ok(_) => Said::Other,
        Err(PrepareFault::NoSuchRepository) => Said::NoSuchRepository,
        Err(PrepareFault::Refused(place, fault)) => Said::Refused(place, why_of(&fault)),
    }
}

/// Why a batch isn't accepted.
fn said_of(answer: Result<Notice, ApplyFromFault<Toy>>) -> Said {
    match answer {
        Err(ApplyFromFault::OtherRoot) => Said::OtherRoot,
        Err(ApplyFromFault::Host(HostFault::NoSuchRepository)) => Said::NoSuchRepository,
        Err(ApplyFromFault::Host(HostFault::Refused(place, fault))) => {
            Said::Refused(place, why_of(&fault))
        }
        _ => Said::Other,
    }
}

/// A repository's number, the place of a stamp, a batch's steps, and why it is refused after the first batch.
static ROWS: [(usize, u16, &[Step<'static>], Said); 5] = [
    (2, 6, FIRST, Said::NoSuchRepository),
    (1, 6, &[], Said::Refused(0, Why::EmptyBatch)),
    (1, 5, FIRST, Said::Refused(0, Why::RevOrder)),
    (
        1,
        6,
        &[Step::Put(b"a/b0", ONE), Step::Delete(b"a/c0")],
        Said::Refused(1, Why::NoSuchKey),
    ),
    (
        1,
        6,
        &[Step::Create(b"a/p0", ONE)],
        Said::Refused(0, Why::KeyExists),
    ),
];

/// Whether each row is refused so, where it is told and where it is applied; and before its tests, where another root is named.
fn are_refused<R: Wait + Abort>(
    rt: &R,
    alloc: Global,
    host: &Host<Toy, 2>,
    writer: &mut Writer<'_, Toy, 2>,
    root: Cid,
) -> bool {
    let other = Cid::of::<Toy>(EMPTY_NODE);
    for (repo, turn, steps, said) in &ROWS {
        let batch = batch_at(alloc, *turn, steps).expect(rt, "a batch");
        let (stamp, writes) = (&batch.stamp, &batch.writes);
        let applied = said_of(writer.apply_from(rt, alloc, *repo, root, stamp, writes));
        let moved = said_of(writer.apply_from(rt, alloc, *repo, other, stamp, writes));
        let is_moved = moved == Said::OtherRoot
            || *said == Said::NoSuchRepository && moved == *said;
        if untold(rt, alloc, host, *repo, &batch) != *said || applied != *said || !is_moved {
            return false;
        }
    }
    true
}

/// Whether nothing comes of what is refused.
fn is_refused<R: Wait + Abort>(rt: &R, alloc: Global) -> bool {
    let opened = open_one::<Toy, 2, R>(rt, alloc, 2, 9);
    let Alone {
        host,
        seat,
        feed: _,
    } = opened;
    let mut writer = host.writer(seat);
    let Batch { stamp, writes } = batch_at(alloc, 5, FIRST).expect(rt, "a batch");
    let first = writer
        .apply(rt, alloc, 1, &stamp, &writes)
        .expect(rt, "a notice");
    are_refused(rt, alloc, &host, &mut writer, first.root) && stands(rt, &host, 3, first.root)
}

#[test]
fn what_is_refused_is_not_told(rt: HostRuntime) {
    assert!(rt; is_refused(&rt, rt.alloc()));
}

/// Whether a batch is told, or isn't for want of memory; `None` where another fault is told.
fn is_told<'h>(
    told: Result<PreparedBatch<Toy, 2, &'h Heap>, PrepareFault<Toy, &'h Heap>>,
) -> Option<bool> {
    match told {
        Ok(_) => Some(true),
        Err(PrepareFault::Refused(_, fault)) => match why_of(&fault) {
            Why::NoMemory => Some(false),
            _ => None,
        },
        Err(PrepareFault::NoSuchRepository) => None,
    }
}

/// Tells a batch where this request for memory is refused.
fn told_without<'h, R: Wait>(
    rt: &R,
    heap: &'h Heap,
    host: &Host<Toy, 2, &'h Heap>,
    batch: &Batch<&'h Heap>,
    request: u64,
) -> Option<bool> {
    heap.refuse(request);
    let told = is_told(prepare(rt, heap, host, 0, &batch.stamp, &batch.writes));
    heap.refuse(0);
    told
}

/// How many requests for memory a batch that is told makes, where each that is refused is told as that, and nothing stays.
fn requests<'h, R: Wait + Abort>(rt: &R, heap: &'h Heap) -> u64 {
    let opened = seated(rt, heap);
    let Alone {
        host,
        seat: _,
        feed: _,
    } = opened;
    let batch = batch_at(heap, 1, FIRST).expect(rt, "a batch");
    let live = heap.live();
    for request in 1..400u64 {
        let told = told_without(rt, heap, &host, &batch, request);
        if told.is_none() || heap.live() != live {
            return 0;
        }
        if told == Some(true) {
            return request;
        }
    }
    0
}

#[test]
fn a_batch_without_memory_is_not_told(rt: HostRuntime) {
    let heap = Refusing::new(rt.alloc());
    assert!(rt; requests(&rt, &heap) > 20 && heap.live() == 0);
}
