//! A full store that one repository has for itself.

use crate::stores::{Heap, Store, both_stores};
use cid::Cid;
use cid::digests::Toy;
use refusing::Refusing;
use repo::Core;
use repo_fixtures::batch::Step::Put;
use repo_fixtures::batch::{EMPTY, EMPTY_NODE, ONE, batch_at};
use repo_fixtures::ends::Ended::Refused;
use repo_fixtures::ends::Why;
use std::process::Abort;
use std::sync::Wait;

/// Whether a store with room for two blocks in a shard refuses a record and its node beside the node without entries, which
/// then is its one block, held by one core.
fn is_refused<'h, R: Wait + Abort>(
    rt: &R,
    heap: &'h Heap,
    mut store: Store<'_, 'h, R, Toy>,
) -> bool {
    let batch = batch_at(heap, 0, &[Put(b"a/b0", EMPTY), Put(b"a/c0", ONE)]).expect(rt, "a batch");
    let mut core: Core<Toy, 2, &Heap> = store.open(heap, 0).expect(rt, "a core");
    let ended = store.apply(heap, &mut core, &batch);
    let left = (store.counts(), store.count(&Cid::of::<Toy>(EMPTY_NODE)));
    store.end(core);
    ended == Refused(1, Why::StoreFull) && left == ((1, 1), 1) && store.counts() == (0, 0)
}

#[test]
fn one_repository_in_a_full_store(rt: HostRuntime) {
    let heap = Refusing::new(rt.alloc());
    for store in both_stores(&rt, &heap, 2) {
        assert!(rt; is_refused(&rt, &heap, store));
    }
    assert!(rt; heap.live() == 0);
}
