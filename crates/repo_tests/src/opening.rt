//! Opening: where memory is refused, where the store has other bytes under the CID, and where it is full.

ghost use Rattle.std.specs.Prelude.{◌≤◌, ◌<◌};

use crate::stores::{Heap, Store, both_stores};
use block::Block;
use cid::Digest;
use cid::digests::{Clash, Toy};
use refusing::Refusing;
use repo::Core;
use repo_fixtures::batch::{EMPTY, ONE};
use repo_fixtures::ends::{Why, why_of};
use std::alloc::AllocError;
use std::process::Abort;
use std::sync::{Arc, Wait};
use store::Hold;

/// Opens a core where this request for memory is refused; `None` where it is refused for that and the store has what it had.
fn opened_without<'h, R: Wait, D: Digest, const B: u8>(
    heap: &'h Heap,
    store: &mut Store<'_, 'h, R, D>,
    me: u32,
    request: u64,
) -> Option<Result<Core<D, B, &'h Heap>, Why>>
    requires small { me < 1024 }
    requires least { 1 ≤ B }
    requires most { B ≤ 8 }
{
    let before = store.counts();
    let refused = heap.refused();
    heap.refuse(request);
    let answer = store.open(heap, me);
    heap.refuse(0);
    match answer {
        Ok(core) => Some(Ok(core)),
        Err(fault) => match why_of(&fault) {
            Why::NoMemory if heap.refused() != refused && store.counts() == before => None,
            why => Some(Err(why)),
        },
    }
}

/// Opens a core at last, after each of its requests was refused twice in turn, or says why none is opened. The second time
/// left as many blocks of memory out as the first; else it is refused for want of memory.
fn opened_at_last<'h, R: Wait, D: Digest, const B: u8>(
    heap: &'h Heap,
    store: &mut Store<'_, 'h, R, D>,
    me: u32,
) -> Result<Core<D, B, &'h Heap>, Why>
    requires small { me < 1024 }
    requires least { 1 ≤ B }
    requires most { B ≤ 8 }
{
    let mut live = 0;
    for turn in 2..100u64 {
        if let Some(answer) = opened_without(heap, store, me, turn / 2) {
            return answer;
        }
        if turn % 2 == 1 && heap.live() != live {
            return Err(Why::NoMemory);
        }
        live = heap.live();
    }
    Err(Why::NoMemory)
}

/// Whether two cores are opened at last. The second one has no block of its own.
fn are_opened<'h, R: Wait + Abort>(
    rt: &R,
    heap: &'h Heap,
    mut store: Store<'_, 'h, R, Toy>,
) -> bool {
    let refused = heap.refused();
    let first: Core<Toy, 2, &Heap> = opened_at_last(heap, &mut store, 0)
        .ok()
        .expect(rt, "a core");
    let refused_first = heap.refused();
    let has_first = store.held(&first) == Some(1);
    let second: Core<Toy, 2, &Heap> = opened_at_last(heap, &mut store, 1)
        .ok()
        .expect(rt, "a core");
    let are_refused = refused_first > refused && heap.refused() > refused_first;
    let has_second = store.counts() == (1, 2) && store.count(&second.root()) == 2;
    store.end(first);
    store.end(second);
    has_first && has_second && are_refused
}

#[test]
fn opens(rt: HostRuntime) {
    let heap = Refusing::new(rt.alloc());
    for store in both_stores(&rt, &heap, 9) {
        assert!(rt; are_opened(&rt, &heap, store));
    }
    assert!(rt; heap.live() == 0);
}

/// The hold of core 5 on the block of these bytes.
fn held_by_another<'h, R: Wait + Abort, D: Digest>(
    rt: &R,
    heap: &'h Heap,
    store: &mut Store<'_, 'h, R, D>,
    bytes: &[u8],
) -> Hold<D, &'h Heap> {
    let block = block_of(heap, bytes).expect(rt, "a block");
    store.acquire(5, block).expect(rt, "a hold")
}

/// The block of these bytes.
fn block_of<'h, D: Digest>(
    heap: &'h Heap,
    bytes: &[u8],
) -> Result<Arc<Block<D, &'h Heap>, &'h Heap>, AllocError> {
    let bytes = Vec::from_slice(heap, bytes)?;
    Ok(Arc::new(heap, Block::of(bytes))?)
}

/// Why a core isn't opened in a store where another has the block of these bytes, which stays as it is; `None` where it is
/// opened or the store changes.
fn why_not_opened<'h, R: Wait + Abort, D: Digest>(
    rt: &R,
    heap: &'h Heap,
    mut store: Store<'_, 'h, R, D>,
    bytes: &[u8],
) -> Option<Why> {
    let hold = held_by_another(rt, heap, &mut store, bytes);
    let answer: Result<Core<D, 2, &Heap>, Why> = opened_at_last(heap, &mut store, 0);
    let is_left = store.counts() == (1, 1) && store.count(&hold.cid()) == 1;
    store.release(hold);
    match answer {
        Ok(core) => {
            store.end(core);
            None
        }
        Err(why) => if is_left { Some(why) } else { None },
    }
}

/// Whether both kinds of store, with so much room in a shard, refuse it so, and all memory is given back.
fn is_refused<R: Wait + Abort, D: Digest>(
    rt: &R,
    heap: &Heap,
    limit: usize,
    bytes: &[u8],
    wanted: Why,
) -> bool
    requires least { 1 ≤ limit }
    requires most { limit ≤ 9 }
{
    let mut is_so = true;
    for store in both_stores::<R, D>(rt, heap, limit) {
        is_so = why_not_opened(rt, heap, store, bytes) == Some(wanted) && is_so;
    }
    is_so && heap.live() == 0
}

/// Under `Clash` the map has the CID of the node without entries. Under `Toy` it stands in the same shard.
#[test]
fn is_not_opened(rt: HostRuntime) {
    let heap = Refusing::new(rt.alloc());
    assert!(rt; is_refused::<_, Clash>(&rt, &heap, 9, EMPTY, Why::Collision));
    assert!(rt; is_refused::<_, Toy>(&rt, &heap, 1, ONE, Why::StoreFull));
}
