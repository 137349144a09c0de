//! A mirror that takes a difference while memory is refused.

use crate::spans::FIRST;
use batches::Stamp;
use cid::{Cid, Sha256};
use difference_taking::{TakingFault, take_difference};
use key_changes::{KeyChange, are_key_changes};
use refusing::Refusing;
use repo::Core;
use repo_fixtures::batch::{DID, ONE, TWO, rev_after, stamp_of};
use repo_fixtures::cores::{apply_steps, counts, end};
use std::alloc::Global;
use std::process::Abort;
use store::{LentShard, Shard, TableKey};

/// Memory that refuses requests.
type Heap<'h> = &'h Refusing<Global>;

/// How a difference ended that was to be taken.
#[derive(Clone, Copy, PartialEq, Eq)]
enum Ended {
    Done,
    NoMemory,
    Otherwise,
}

/// How a difference ends that the mirror takes: one key goes, and two come.
fn taken<'h>(
    heap: Heap<'h>,
    shard: &mut Shard<Sha256, Heap<'h>>,
    mirror: &mut Core<Sha256, 2, Heap<'h>>,
    stamp: &Stamp<Heap<'h>>,
) -> Ended {
    let one = Cid::of::<Sha256>(ONE);
    let two = Cid::of::<Sha256>(TWO);
    let changes = [
        KeyChange {
            key: b"a/c",
            before: Some(one),
            after: None,
        },
        KeyChange {
            key: b"a/d",
            before: None,
            after: Some(one),
        },
        KeyChange {
            key: b"a/e",
            before: None,
            after: Some(two),
        },
    ];
    if !are_key_changes(&changes) {
        return Ended::Otherwise;
    }
    let mut store = LentShard::new(shard);
    match take_difference(heap, &mut store, mirror, stamp, &changes, &[TWO, ONE]) {
        Ok(_) => Ended::Done,
        Err(TakingFault::NoMemory) => Ended::NoMemory,
        Err(_) => Ended::Otherwise,
    }
}

/// How it ends where this request is refused. Where that is told, the mirror is as before, and takes the difference once more
/// memory is there.
fn tried<'h>(
    heap: Heap<'h>,
    shard: &mut Shard<Sha256, Heap<'h>>,
    mirror: &mut Core<Sha256, 2, Heap<'h>>,
    request: u64,
) -> Ended {
    let Ok(stamp) = stamp_of(heap, DID, &rev_after(3)) else {
        return Ended::Otherwise;
    };
    let (root, held) = (mirror.root(), counts(shard));
    heap.refuse(request);
    let ended = taken(heap, shard, mirror, &stamp);
    heap.refuse(0);
    let is_as_before = mirror.root() == root && counts(shard) == held;
    match ended {
        Ended::Done if heap.refused() == 0 && !is_as_before => Ended::Done,
        Ended::NoMemory if heap.refused() == 1 && is_as_before => {
            if taken(heap, shard, mirror, &stamp) == Ended::Done {
                Ended::NoMemory
            } else {
                Ended::Otherwise
            }
        }
        _ => Ended::Otherwise,
    }
}

/// The same of a new mirror in this memory, which ends afterwards.
fn tried_anew<'h, R: Abort>(rt: &R, heap: Heap<'h>, request: u64) -> Ended {
    let mut shard: Shard<Sha256, Heap<'h>> = Shard::new(heap, 100, TableKey::known());
    let mut mirror = Core::<Sha256, 2, Heap<'h>>::open(
        heap,
        &mut LentShard::new(&mut shard),
        0,
        1000,
    ).expect(rt, "a core");
    let _ = apply_steps(heap, &mut shard, &mut mirror, 0, FIRST);
    let ended = tried(heap, &mut shard, &mut mirror, request);
    end(&mut shard, mirror);
    if counts(&shard) == (0, 0) {
        ended
    } else {
        Ended::Otherwise
    }
}

/// The same in memory that is all back afterwards.
fn end_without<R: Abort>(rt: &R, alloc: Global, request: u64) -> Ended {
    let heap = Refusing::new(alloc);
    let ended = tried_anew(rt, &heap, request);
    if heap.live() == 0 {
        ended
    } else {
        Ended::Otherwise
    }
}

/// Whether each request that is refused is told, up to one that isn't made.
fn tells_each<R: Abort>(rt: &R, alloc: Global) -> bool {
    for request in 1..2_000u64 {
        match end_without(rt, alloc, request) {
            Ended::NoMemory => {}
            Ended::Done => return 40 < request,
            Ended::Otherwise => return false,
        }
    }
    false
}

#[test]
fn a_difference_taken_without_memory(rt: HostRuntime) {
    assert!(rt; tells_each(&rt, rt.alloc()));
}
