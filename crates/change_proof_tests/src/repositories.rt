//! Proofs of changes that a repository gives.

use crate::fixtures::Both;
use crate::random::{Sides, both_of, is_proof, sides_of};
use crate::refusals::{Part, with_altered};
use block::Block;
use change_proofs::{
    KeyChange, ProvingFault, are_key_changes, prove_inversion, verify_inversion_blocks,
};
use cid::Cid;
use cid::digests::Toy;
use refusing::Refusing;
use repo::Core;
use repo_fixtures::batch::{ONE, Step, TWO};
use repo_fixtures::cores::{apply_steps, end};
use repo_fixtures::ends::Ended;
use std::alloc::Global;
use std::process::Abort;
use std::sync::Arc;
use store::{LentShard, Shard, TableKey};

/// The batch before the changes.
const FIRST: [Step<'static>; 3] = [
    Step::Put(b"a/p0", ONE),
    Step::Put(b"a/q2", ONE),
    Step::Put(b"a/r0", ONE),
];

/// The batch of the changes.
const SECOND: [Step<'static>; 4] = [
    Step::Put(b"a/r1", ONE),
    Step::Delete(b"a/p0"),
    Step::Put(b"a/q0", TWO),
    Step::Update(b"a/q2", TWO),
];

/// A batch after them.
const THIRD: [Step<'static>; 1] = [Step::Put(b"a/q0", ONE)];

/// A change from one record to another.
fn change(
    key: &'static [u8],
    before: Option<&'static [u8]>,
    after: Option<&'static [u8]>,
) -> KeyChange<'static> {
    KeyChange {
        key,
        before: before.map(|record| Cid::of::<Toy>(record)),
        after: after.map(|record| Cid::of::<Toy>(record)),
    }
}

/// The changes of the second batch.
fn changes() -> [KeyChange<'static>; 4] {
    [
        change(b"a/p0", Some(ONE), None),
        change(b"a/q0", None, Some(TWO)),
        change(b"a/q2", Some(ONE), Some(TWO)),
        change(b"a/r1", None, Some(ONE)),
    ]
}

/// Memory that refuses requests.
type Heap<'h> = &'h Refusing<Global>;

/// A repository without writes over the shard.
fn opened<'h, R: Abort>(
    rt: &R,
    heap: Heap<'h>,
    shard: &mut Shard<Toy, Heap<'h>>,
) -> Core<Toy, 2, Heap<'h>> {
    Core::open(heap, &mut LentShard::new(shard), 0, 100).expect(rt, "a core")
}

/// Its root between the first two batches, where it takes both.
fn filled<'h>(
    heap: Heap<'h>,
    shard: &mut Shard<Toy, Heap<'h>>,
    core: &mut Core<Toy, 2, Heap<'h>>,
) -> Option<Cid> {
    let first = apply_steps(heap, shard, core, 0, &FIRST);
    let before = core.root();
    let second = apply_steps(heap, shard, core, 1, &SECOND);
    if first == Ended::Accepted(3) && second == Ended::Accepted(7) {
        Some(before)
    } else {
        None
    }
}

/// The nodes that the core gives for these changes. What are no changes is answered as if there were no memory.
fn proof_of<'h>(
    heap: Heap<'h>,
    core: &Core<Toy, 2, Heap<'h>>,
    changes: &[KeyChange<'_>],
) -> Result<Vec<Arc<Block<Toy, Heap<'h>>, Heap<'h>>, Heap<'h>>, ProvingFault> {
    if !are_key_changes(changes) {
        return Err(ProvingFault::NoMemory);
    }
    prove_inversion(heap, core, changes)
}

/// Whether these are four nodes, which show the changes from a root to the core's.
fn are_shown<'h>(
    heap: Heap<'h>,
    core: &Core<Toy, 2, Heap<'h>>,
    before: Cid,
    nodes: &[Arc<Block<Toy, Heap<'h>>, Heap<'h>>],
) -> bool {
    let changes = changes();
    if !are_key_changes(&changes) || nodes.len() != 4 {
        return false;
    }
    verify_inversion_blocks::<Toy, 2, _>(heap, before, core.root(), nodes, &changes).is_ok()
}

/// Whether the core proves the changes from this root.
fn proves<'h>(heap: Heap<'h>, core: &Core<Toy, 2, Heap<'h>>, before: Cid) -> bool {
    match proof_of(heap, core, &changes()) {
        Ok(nodes) => are_shown(heap, core, before, &nodes),
        Err(_) => false,
    }
}

/// Whether it doesn't any more once a later batch came, and tells the place of the key that this one changed.
fn tells_the_later_one<'h>(
    heap: Heap<'h>,
    shard: &mut Shard<Toy, Heap<'h>>,
    core: &mut Core<Toy, 2, Heap<'h>>,
) -> bool {
    let third = apply_steps(heap, shard, core, 2, &THIRD);
    match proof_of(heap, core, &changes()) {
        Ok(_) => false,
        Err(fault) => third == Ended::Accepted(8) && fault == ProvingFault::OtherValue(1),
    }
}

#[test]
fn a_repository_proves_its_last_batch(rt: HostRuntime) {
    let heap = Refusing::new(rt.alloc());
    let mut shard = Shard::new(&heap, 20, TableKey::known());
    let mut core = opened(&rt, &heap, &mut shard);
    let right = match filled(&heap, &mut shard, &mut core) {
        Some(before) => proves(&heap, &core, before),
        None => false,
    };
    let later = tells_the_later_one(&heap, &mut shard, &mut core);
    end(&mut shard, core);
    assert!(rt; right && later);
}

/// Whether the core proves the changes where this request is refused; none where it answers anything else than that memory
/// is wanted.
fn is_proved_without<'h>(
    heap: Heap<'h>,
    core: &Core<Toy, 2, Heap<'h>>,
    before: Cid,
    request: u64,
) -> Option<bool> {
    heap.refuse(request);
    let proof = proof_of(heap, core, &changes());
    heap.refuse(0);
    match proof {
        Ok(nodes) if are_shown(heap, core, before, &nodes) => Some(true),
        Err(ProvingFault::NoMemory) => Some(false),
        _ => None,
    }
}

/// Whether each of its requests was refused, one in turn, until the changes were proved. Each time all memory was given back.
fn is_proved_at_last<'h>(heap: Heap<'h>, core: &Core<Toy, 2, Heap<'h>>, before: Cid) -> bool {
    let live = heap.live();
    for request in 1..999u64 {
        let proved = is_proved_without(heap, core, before, request);
        if heap.live() != live {
            return false;
        }
        match proved {
            Some(true) => return 20 < request && heap.refused() == request - 1,
            Some(false) if heap.refused() == request => {}
            _ => return false,
        }
    }
    false
}

#[test]
fn a_repository_proves_without_memory(rt: HostRuntime) {
    let heap = Refusing::new(rt.alloc());
    let mut shard = Shard::new(&heap, 20, TableKey::known());
    let mut core = opened(&rt, &heap, &mut shard);
    let right = match filled(&heap, &mut shard, &mut core) {
        Some(before) => is_proved_at_last(&heap, &core, before),
        None => false,
    };
    end(&mut shard, core);
    drop(shard);
    assert!(rt; right && heap.live() == 0);
}

/// Whether a repository without writes has the trees' roots after the batches.
fn takes(
    alloc: Global,
    shard: &mut Shard<Toy>,
    core: &mut Core<Toy, 2>,
    both: &Both,
    sides: &Sides,
) -> bool {
    apply_steps(alloc, shard, core, 0, &sides.first);
    let before = core.root();
    apply_steps(alloc, shard, core, 1, &sides.second);
    before == both.before.root && core.root() == both.after.root
}

/// Whether the core tells the place of a change that is told with another value after it.
fn tells_other(alloc: Global, core: &Core<Toy, 2>, both: &Both, place: usize) -> bool {
    let Ok(changes) = with_altered(alloc, &both.changes, place, Part::After) else {
        return false;
    };
    if !are_key_changes(&changes) {
        return false;
    }
    match prove_inversion(alloc, core, &changes) {
        Ok(_) => false,
        Err(fault) => fault == ProvingFault::OtherValue(place),
    }
}

/// Whether it does so of each change.
fn tells_each_other(alloc: Global, core: &Core<Toy, 2>, both: &Both) -> bool {
    for place in 0..both.changes.len() {
        if !tells_other(alloc, core, both, place) {
            return false;
        }
    }
    true
}

/// Whether the core's proof shows the changes, with none of its blocks left out, and no others.
fn gives_proof(alloc: Global, core: &Core<Toy, 2>, both: &Both) -> bool {
    if !are_key_changes(&both.changes) {
        return false;
    }
    match prove_inversion(alloc, core, &both.changes) {
        Ok(proof) => is_proof(alloc, both, &proof),
        Err(_) => false,
    }
}

/// Whether a repository proves the random changes of a seed so.
fn are_proved<R: Abort>(rt: &R, alloc: Global, seed: u64) -> bool {
    let (Some(both), Ok(sides)) = (both_of(alloc, seed), sides_of(alloc, seed)) else {
        return false;
    };
    let mut shard = Shard::new(alloc, 200, TableKey::known());
    let opened = Core::<Toy, 2>::open(alloc, &mut LentShard::new(&mut shard), 0, 100);
    let mut core = opened.expect(rt, "a core");
    let right = takes(alloc, &mut shard, &mut core, &both, &sides)
        && gives_proof(alloc, &core, &both)
        && tells_each_other(alloc, &core, &both);
    end(&mut shard, core);
    right
}

/// Whether it proves those of all seeds below a bound.
fn all_are_proved<R: Abort>(rt: &R, alloc: Global, seeds: u64) -> bool {
    for seed in 1..seeds {
        if !are_proved(rt, alloc, seed) {
            return false;
        }
    }
    true
}

#[test]
fn repositories_prove_random_batches(rt: HostRuntime) {
    assert!(rt; all_are_proved(&rt, rt.alloc(), 20));
}
