//! Batches one after the other on two repositories of one store. Each is tried with each of its requests for memory refused
//! in turn, and ends at last as it is to.

ghost use Rattle.std.specs.Prelude.{◌≤◌};

use crate::stores::{Heap, Store, both_stores};
use cid::{Cid, Digest};
use refusing::Refusing;
use repo::Core;
use repo_fixtures::batch::{Batch, Step, batch_at};
use repo_fixtures::ends::Ended::{Accepted, Refused, Unmade};
use repo_fixtures::ends::{Ended, Why};
use repo_fixtures::trees::is_of;
use std::alloc::{AllocError, Global};
use std::process::Abort;
use std::sync::Wait;

/// A batch, how it ends, and what is left after it.
pub(crate) struct Turn {
    /// Whether the batch is for the second repository.
    pub(crate) second: bool,
    /// How many timestamp identifiers its own comes after the first one.
    pub(crate) rev: u16,
    pub(crate) batch: &'static [Step<'static>],
    pub(crate) ended: Ended,
    /// The records that the repository has.
    pub(crate) records: &'static [(&'static [u8], &'static [u8])],
    /// How many blocks the first and the second repository have, and how many the store.
    pub(crate) blocks: (u64, u64, u64),
}

/// What is seen of a core and its store.
#[derive(Clone, Copy, PartialEq, Eq)]
struct Seen {
    root: Cid,
    commit: Option<Cid>,
    writes: (u64, usize, usize),
    held: Option<u64>,
    counts: (u64, u64),
}

/// What is seen of a core and its store.
fn see<'h, R: Wait, D: Digest, const B: u8>(
    store: &Store<'_, 'h, R, D>,
    core: &Core<D, B, &'h Heap>,
) -> Seen {
    Seen {
        root: core.root(),
        commit: core.commit(),
        writes: (core.number(), core.accepted().len(), core.stamps().len()),
        held: store.held(core),
        counts: store.counts(),
    }
}

/// How a batch ends where this request for memory is refused; `None` where it is refused for that. Where it is refused, all
/// that is seen is as before, and where it ends otherwise, it didn't come to the request; else it ends as `Unmade`.
fn end_without<'h, R: Wait, D: Digest, const B: u8>(
    heap: &'h Heap,
    store: &mut Store<'_, 'h, R, D>,
    core: &mut Core<D, B, &'h Heap>,
    batch: &Batch<&'h Heap>,
    request: u64,
) -> Option<Ended> {
    let before = see(store, core);
    let refused = heap.refused();
    heap.refuse(request);
    let ended = store.apply(heap, core, batch);
    heap.refuse(0);
    let came_to_it = heap.refused() != refused;
    match ended {
        Refused(_, _) if see(store, core) != before => Some(Unmade),
        Refused(_, Why::NoMemory) if came_to_it => None,
        _ if came_to_it => Some(Unmade),
        _ => Some(ended),
    }
}

/// The same for four tries. The fourth leaves as many blocks of memory out as the third, since containers keep the room that
/// they made; else it ends as `Unmade`.
fn end_of_four<'h, R: Wait, D: Digest, const B: u8>(
    heap: &'h Heap,
    store: &mut Store<'_, 'h, R, D>,
    core: &mut Core<D, B, &'h Heap>,
    batch: &Batch<&'h Heap>,
    request: u64,
) -> Option<Ended> {
    let mut live = 0;
    for _ in 0..4u8 {
        live = heap.live();
        let ended = end_without(heap, store, core, batch, request);
        if ended.is_some() {
            return ended;
        }
    }
    if heap.live() == live {
        None
    } else {
        Some(Unmade)
    }
}

/// How a batch ends at last, after each of its requests was refused in turn. One that is accepted has some; else it ends as
/// `Unmade`.
fn end_at_last<'h, R: Wait, D: Digest, const B: u8>(
    heap: &'h Heap,
    store: &mut Store<'_, 'h, R, D>,
    core: &mut Core<D, B, &'h Heap>,
    batch: &Batch<&'h Heap>,
) -> Ended {
    for request in 1..2000u64 {
        match end_of_four(heap, store, core, batch, request) {
            None => {}
            Some(Accepted(_)) if request == 1 => return Unmade,
            Some(ended) => return ended,
        }
    }
    Unmade
}

/// The pairs of these keys and records.
pub(crate) fn pairs_of<D: Digest>(
    alloc: Global,
    records: &[(&[u8], &[u8])],
) -> Result<Vec<(Vec<u8>, Cid)>, AllocError> {
    let mut pairs = Vec::new(alloc);
    for (key, record) in records {
        pairs.push((Vec::from_slice(alloc, key)?, Cid::of::<D>(record)))?;
    }
    Ok(pairs)
}

/// Whether a core has these records and no others.
fn has_records<'h, D: Digest, const B: u8>(
    alloc: Global,
    core: &Core<D, B, &'h Heap>,
    records: &[(&[u8], &[u8])],
) -> bool
    requires least { 1 ≤ B }
    requires most { B ≤ 8 }
{
    match pairs_of::<D>(alloc, records) {
        Ok(pairs) => is_of(alloc, core, &pairs, core.commit()),
        Err(_) => false,
    }
}

/// Whether a batch ends at last as its turn says, and leaves its records.
fn is_turn<'h, R: Wait, D: Digest, const B: u8>(
    alloc: Global,
    heap: &'h Heap,
    store: &mut Store<'_, 'h, R, D>,
    core: &mut Core<D, B, &'h Heap>,
    turn: &Turn,
) -> bool
    requires least { 1 ≤ B }
    requires most { B ≤ 8 }
{
    match batch_at(heap, turn.rev, turn.batch) {
        Ok(batch) => {
            end_at_last(heap, store, core, &batch) == turn.ended
                && has_records(alloc, core, turn.records)
        }
        Err(_) => false,
    }
}

/// Whether both repositories and the store have so many blocks, and the store no other holds.
fn are_held<'h, R: Wait, D: Digest, const B: u8>(
    store: &Store<'_, 'h, R, D>,
    first: &Core<D, B, &'h Heap>,
    second: &Core<D, B, &'h Heap>,
    blocks: (u64, u64, u64),
) -> bool {
    let (ones, others, all) = blocks;
    store.held(first) == Some(ones)
        && store.held(second) == Some(others)
        && store.counts() == (all, ones.saturating_add(others))
}

/// Whether neither repository has writes.
fn are_fresh<'h, R: Wait, D: Digest, const B: u8>(
    alloc: Global,
    store: &Store<'_, 'h, R, D>,
    first: &Core<D, B, &'h Heap>,
    second: &Core<D, B, &'h Heap>,
) -> bool
    requires least { 1 ≤ B }
    requires most { B ≤ 8 }
{
    is_of::<_, _, _, &[u8]>(alloc, first, &[], None)
        && is_of::<_, _, _, &[u8]>(alloc, second, &[], None)
        && are_held(store, first, second, (1, 1, 1))
}

/// Whether the batches of these turns end as they say, on repositories without writes.
fn are_taken<'h, R: Wait, D: Digest, const B: u8>(
    alloc: Global,
    heap: &'h Heap,
    store: &mut Store<'_, 'h, R, D>,
    first: &mut Core<D, B, &'h Heap>,
    second: &mut Core<D, B, &'h Heap>,
    turns: &[Turn],
) -> bool
    requires least { 1 ≤ B }
    requires most { B ≤ 8 }
{
    if !are_fresh(alloc, store, first, second) {
        return false;
    }
    for turn in turns {
        let is_so = if turn.second {
            is_turn(alloc, heap, store, second, turn)
        } else {
            is_turn(alloc, heap, store, first, turn)
        };
        if !is_so || !are_held(store, first, second, turn.blocks) {
            return false;
        }
    }
    true
}

/// Whether this is so in a store. The second repository then still has its blocks when the first is gone.
fn are_turns_in<'h, R: Wait + Abort, D: Digest>(
    rt: &R,
    alloc: Global,
    heap: &'h Heap,
    mut store: Store<'_, 'h, R, D>,
    turns: &[Turn],
) -> bool {
    let mut first: Core<D, 2, &Heap> = store.open(heap, 0).expect(rt, "a core");
    let mut second: Core<D, 2, &Heap> = store.open(heap, 1023).expect(rt, "a core");
    let are_taken = are_taken(alloc, heap, &mut store, &mut first, &mut second, turns);
    store.end(first);
    let left = store.held(&second).unwrap_or(0);
    let is_left = store.counts() == (left, left);
    store.end(second);
    are_taken && is_left && store.counts() == (0, 0)
}

/// Whether this is so in one shard and in the sixteen locked ones, with room for so many blocks beside the one of repositories
/// without writes. All memory is given back in the end.
pub(crate) fn are_turns<R: Wait + Abort, D: Digest>(
    rt: &R,
    alloc: Global,
    spare: u8,
    turns: &[Turn],
) -> bool {
    let heap = Refusing::new(alloc);
    let mut are_so = true;
    for store in both_stores::<R, D>(rt, &heap, 1 + usize::from(spare)) {
        are_so = are_turns_in(rt, alloc, &heap, store, turns) && are_so;
    }
    are_so && heap.live() == 0
}
