//! Batches in two steps: what one tells before it is accepted, beside trees from scratch and beside the edit over just the nodes
//! that it read, and that nothing stays of one that is let go or refused. Each request for memory is refused in turn.

ghost use Rattle.std.specs.Prelude.{◌≡◌, ◌≤◌};

use crate::opened::opened;
use crate::stores::Heap;
use crate::turns::pairs_of;
use batches::{RepoFault, commit_bytes};
use block::Block;
use cid::digests::{Size, Toy};
use cid::{Cid, Digest};
use edit::{Change, are_changes, preview};
use lookups::{BlockMap, Source};
use refusing::Refusing;
use repo::{Core, PreparedBatch};
use repo_fixtures::batch::Step::{Create, Delete, Put, Update};
use repo_fixtures::batch::{Batch, EMPTY, ONE, Step, TWO, batch_at};
use repo_fixtures::cores::{apply_steps, counts, end, held};
use repo_fixtures::ends::Ended::{Accepted, Refused, Unmade};
use repo_fixtures::ends::{Ended, Why, end_of, why_of};
use repo_fixtures::trees::{is_of, tree_of};
use scratch::Built;
use std::alloc::{AllocError, Allocator, Global};
use std::process::Abort;
use std::sync::Arc;
use store::{LentShard, Shard, TableKey};

/// A key with its record.
type Record = (&'static [u8], &'static [u8]);

/// What is accepted first.
const FIRST: [Step<'static>; 4] = [
    Put(b"a/p0", ONE),
    Create(b"a/q2", ONE),
    Put(b"a/s1", TWO),
    Put(b"a/t0", EMPTY),
];

const BEFORE: [Record; 4] = [
    (b"a/p0", ONE),
    (b"a/q2", ONE),
    (b"a/s1", TWO),
    (b"a/t0", EMPTY),
];

/// What is prepared on it: one write that changes nothing, and two of one key.
const THEN: [Step<'static>; 5] = [
    Update(b"a/q2", TWO),
    Delete(b"a/s1"),
    Put(b"a/r0", EMPTY),
    Put(b"a/p0", ONE),
    Update(b"a/r0", ONE),
];

const AFTER: [Record; 4] = [
    (b"a/p0", ONE),
    (b"a/q2", TWO),
    (b"a/r0", ONE),
    (b"a/t0", EMPTY),
];

/// The keys that it changes, with their records before and after.
const CHANGED: [(&[u8], Option<&[u8]>, Option<&[u8]>); 4] = [
    (b"a/p0", Some(ONE), Some(ONE)),
    (b"a/q2", Some(ONE), Some(TWO)),
    (b"a/r0", None, Some(ONE)),
    (b"a/s1", Some(TWO), None),
];

/// The records that it brings.
const BROUGHT: [&[u8]; 3] = [ONE, TWO, ONE];

/// The tree from scratch of some records.
fn tree_from(alloc: Global, records: &[Record]) -> Option<Built<Toy>> {
    match pairs_of::<Toy>(alloc, records) {
        Ok(pairs) => tree_of::<Toy, 2, _>(alloc, &pairs),
        Err(_) => None,
    }
}

/// The CID of a record, where there is one.
fn cid_of<D: Digest>(record: Option<&[u8]>) -> Option<Cid> {
    match record {
        Some(bytes) => Some(Cid::of::<D>(bytes)),
        None => None,
    }
}

/// Whether one of these blocks has this CID.
fn has<D: Digest, A: Allocator>(blocks: &[Arc<Block<D, A>, A>], cid: Cid) -> bool {
    for block in blocks {
        if block.cid() == cid {
            return true;
        }
    }
    false
}

/// The CIDs of some blocks.
fn cids_of<D: Digest, A: Allocator>(
    alloc: Global,
    blocks: &[Arc<Block<D, A>, A>],
) -> Result<Vec<Cid>, AllocError> {
    let mut cids = Vec::new(alloc);
    for block in blocks {
        cids.push(block.cid())?;
    }
    Ok(cids)
}

/// Whether these are the CIDs of the blocks of the one list that the other lacks, each once.
fn are_lacking<D: Digest>(
    cids: &[Cid],
    blocks: &[Arc<Block<D>>],
    others: &[Arc<Block<D>>],
) -> bool {
    let mut count = 0usize;
    for block in blocks {
        let cid = block.cid();
        let is_new = !has(others, cid);
        if cids.contains(&cid) != is_new {
            return false;
        }
        if is_new {
            count = count.saturating_add(1);
        }
    }
    count == cids.len()
}

/// Whether the roots are those of the trees from scratch before and after, and the nodes that come and go those by which they
/// differ.
fn has_trees(alloc: Global, prepared: &PreparedBatch<Toy, 2>) -> bool {
    let Some(old) = tree_from(alloc, &BEFORE) else {
        return false;
    };
    let Some(new) = tree_from(alloc, &AFTER) else {
        return false;
    };
    let Ok(come) = cids_of(alloc, prepared.nodes_added()) else {
        return false;
    };
    prepared.previous() == old.root
        && prepared.root() == new.root
        && are_lacking(&come, &new.blocks, &old.blocks)
        && are_lacking(prepared.nodes_dropped(), &old.blocks, &new.blocks)
}

/// Whether its commit is that of its stamp and the root after it, and its records are those that it brings.
fn has_blocks(
    alloc: Global,
    batch: &Batch<Global>,
    prepared: &PreparedBatch<Toy, 2>,
) -> Result<bool, AllocError> {
    let commit = commit_bytes(alloc, &batch.stamp, prepared.root())?;
    let mut wanted = BROUGHT.iter();
    for record in prepared.records() {
        match wanted.next() {
            Some(bytes) if record.bytes() == *bytes => {}
            _ => return Ok(false),
        }
    }
    Ok(
        wanted.next().is_none()
            && prepared.commit_block().bytes() == commit.as_slice()
            && prepared.stamp().rev.as_slice() == batch.stamp.rev.as_slice()
            && prepared.writes().len() == batch.writes.len(),
    )
}

/// Whether it tells the keys that it changes.
fn has_changes(alloc: Global, prepared: &PreparedBatch<Toy, 2>) -> Result<bool, AllocError> {
    let mut wanted = CHANGED.iter();
    for change in &prepared.changes(alloc)? {
        match wanted.next() {
            Some((key, before, after))
                if change.key == *key
                    && change.before == cid_of::<Toy>(*before)
                    && change.after == cid_of::<Toy>(*after) => {}
            _ => return Ok(false),
        }
    }
    Ok(wanted.next().is_none())
}

/// Whether the edit over just the nodes that it read comes to the root after it, and reads them in their order.
fn is_read(alloc: Global, prepared: &PreparedBatch<Toy, 2>) -> Result<bool, AllocError> {
    let mut changes = Vec::new(alloc);
    for (key, _, after) in &CHANGED {
        changes.push(Change {
            key,
            value: cid_of::<Toy>(*after),
        })?;
    }
    let mut map = BlockMap::new(alloc, prepared.nodes_read())?;
    if !are_changes(&changes) {
        return Ok(false);
    }
    match preview::<Toy, 2, _, _>(alloc, &mut map, prepared.previous(), &changes) {
        Ok(found) => Ok(
            found.root == prepared.root()
                && cids_of(alloc, &found.read)? == cids_of(alloc, prepared.nodes_read())?,
        ),
        Err(_) => Ok(false),
    }
}

/// Whether a block is found, with these bytes.
fn is_block(found: Option<&Arc<Block<Toy>>>, bytes: &[u8]) -> bool {
    match found {
        Some(block) => block.bytes() == bytes,
        None => false,
    }
}

/// Whether each node is lent of the tree from scratch of the repository as it will be.
fn lends_tree<'a>(
    alloc: Global,
    core: &'a Core<Toy, 2>,
    prepared: &'a PreparedBatch<Toy, 2>,
) -> bool
    requires same { prepared.now.before ≡ core.now }
{
    let Some(tree) = tree_from(alloc, &AFTER) else {
        return false;
    };
    let Ok(mut lender) = core.lender_with(alloc, prepared) else {
        return false;
    };
    for block in &tree.blocks {
        if !is_block(lender.get(&block.cid()), block.bytes()) {
            return false;
        }
    }
    true
}

/// Whether its records are lent, where look-ups over what is lent find them, and its commit.
fn lends_records<'a>(
    alloc: Global,
    core: &'a Core<Toy, 2>,
    prepared: &'a PreparedBatch<Toy, 2>,
) -> bool
    requires same { prepared.now.before ≡ core.now }
{
    let Ok(mut lender) = core.lender_with(alloc, prepared) else {
        return false;
    };
    let root = prepared.root();
    for (key, record) in &AFTER {
        let Some(value) = lookups::get::<Toy, 2, Global, _>(&mut lender, root, key) else {
            return false;
        };
        if !is_block(lender.get(&value), record) {
            return false;
        }
    }
    let commit = prepared.commit_block();
    is_block(lender.get(&commit.cid()), commit.bytes())
}

/// Whether what a prepared batch tells by itself is so.
fn is_told(
    alloc: Global,
    batch: &Batch<Global>,
    prepared: &PreparedBatch<Toy, 2>,
) -> Result<bool, AllocError> {
    Ok(
        has_trees(alloc, prepared)
            && has_blocks(alloc, batch, prepared)?
            && has_changes(alloc, prepared)?
            && is_read(alloc, prepared)?,
    )
}

/// What is seen of a core and its store.
#[derive(Clone, Copy, PartialEq, Eq)]
struct Seen {
    commit: Option<Cid>,
    number: u64,
    held: Option<u64>,
    counts: (u64, u64),
}

/// What is seen of a core and its store.
fn see<D: Digest, const B: u8, A: Allocator>(shard: &Shard<D, A>, core: &Core<D, B, A>) -> Seen {
    Seen {
        commit: core.commit(),
        number: core.number(),
        held: held(shard, core),
        counts: counts(shard),
    }
}

/// Whether all that is seen is as before, and the core has the records of the first batch and no others.
fn is_first<D: Digest, const B: u8, A: Allocator>(
    alloc: Global,
    shard: &Shard<D, A>,
    core: &Core<D, B, A>,
    before: &Seen,
) -> bool
    requires least { 1 ≤ B }
    requires most { B ≤ 8 }
{
    match pairs_of::<D>(alloc, &BEFORE) {
        Ok(pairs) => {
            see(shard, core) == *before
                && core.number() == 4
                && is_of(alloc, core, &pairs, core.commit())
        }
        Err(_) => false,
    }
}

/// What is known of a batch before it is accepted is so once it was: its roots, its nodes, its records, its commit.
#[test]
fn a_batch_is_told_before_it_is_accepted(rt: HostRuntime) {
    let alloc = rt.alloc();
    let batch = batch_at(alloc, 1, &THEN).expect(&rt, "a batch");
    let after = pairs_of::<Toy>(alloc, &AFTER).expect(&rt, "pairs");
    let mut shard: Shard<Toy> = Shard::new(alloc, 100, TableKey::known());
    let mut core: Core<Toy, 2> = opened(&rt, alloc, &mut shard, 0);
    assert!(rt; apply_steps(alloc, &mut shard, &mut core, 0, &FIRST) == Accepted(4));
    let before = see(&shard, &core);

    let prepared = core
        .prepare(alloc, &batch.stamp, &batch.writes)
        .expect(&rt, "a prepared batch");
    assert!(rt; is_told(alloc, &batch, &prepared).unwrap_or(false));
    assert!(rt; lends_tree(alloc, &core, &prepared) && lends_records(alloc, &core, &prepared));
    assert!(rt; is_first(alloc, &shard, &core, &before));

    let (root, signed) = (prepared.root(), prepared.commit_block().cid());
    let applied = core
        .accept(&mut LentShard::new(&mut shard), prepared)
        .expect(&rt, "an accepted batch");
    assert!(rt; (applied.number, applied.root, applied.commit) == (9, root, signed));
    assert!(rt; is_of::<Toy, 2, _, _>(alloc, &core, &after, Some(signed)));
    end(&mut shard, core);
    assert!(rt; counts(&shard) == (0, 0));
}

/// One that is let go leaves the repository, its store and the memory as they were.
#[test]
fn nothing_stays_of_one_that_is_let_go(rt: HostRuntime) {
    let heap = Refusing::new(rt.alloc());
    let batch = batch_at(&heap, 1, &THEN).expect(&rt, "a batch");
    let mut shard: Shard<Toy, &Heap> = Shard::new(&heap, 100, TableKey::known());
    let mut core: Core<Toy, 2, &Heap> = opened(&rt, &heap, &mut shard, 0);
    assert!(rt; apply_steps(&heap, &mut shard, &mut core, 0, &FIRST) == Accepted(4));
    let (before, live) = (see(&shard, &core), heap.live());
    let is_made = core.prepare(&heap, &batch.stamp, &batch.writes).is_ok();
    assert!(rt; is_made && heap.live() == live);
    assert!(rt; is_first(rt.alloc(), &shard, &core, &before));
    end(&mut shard, core);
}

/// Whether there is memory to tell its changes.
fn tells_changes<'h>(heap: &'h Heap, prepared: &PreparedBatch<Toy, 2, &'h Heap>) -> bool {
    match prepared.changes(heap) {
        Ok(changes) => changes.len() == CHANGED.len(),
        Err(_) => false,
    }
}

/// Prepares the batch, tells its changes, lends the repository as it will be, and accepts it, where this request for memory is
/// refused: how the batch ends.
fn ended_without<'h>(
    heap: &'h Heap,
    shard: &mut Shard<Toy, &'h Heap>,
    core: &mut Core<Toy, 2, &'h Heap>,
    batch: &Batch<&'h Heap>,
    request: u64,
) -> Ended {
    heap.refuse(request);
    let prepared = match core.prepare(heap, &batch.stamp, &batch.writes) {
        Ok(prepared) => prepared,
        Err((place, fault)) => return Refused(place, why_of(&fault)),
    };
    if !tells_changes(heap, &prepared) {
        return Unmade;
    }
    match core.lender_with(heap, &prepared) {
        Ok(_) => {}
        Err(fault) => return Refused(0, why_of(&fault)),
    }
    end_of(core.accept(&mut LentShard::new(shard), prepared))
}

/// Whether a batch ended for want of memory.
fn is_want(ended: Ended) -> bool {
    matches!(ended, Unmade | Refused(_, Why::NoMemory))
}

/// At which request for memory the batch is accepted first, where all is as before after each refusal; else 0.
fn requests<'h>(
    alloc: Global,
    heap: &'h Heap,
    shard: &mut Shard<Toy, &'h Heap>,
    core: &mut Core<Toy, 2, &'h Heap>,
    batch: &Batch<&'h Heap>,
) -> u64 {
    let before = see(shard, core);
    for request in 1..400u64 {
        let ended = ended_without(heap, shard, core, batch, request);
        heap.refuse(0);
        if ended == Accepted(9) {
            return request;
        }
        if !is_want(ended) || !is_first(alloc, shard, core, &before) {
            return 0;
        }
    }
    0
}

/// Where memory is refused all is as before, at each of the requests.
#[test]
fn want_of_memory_changes_nothing(rt: HostRuntime) {
    let heap = Refusing::new(rt.alloc());
    let batch = batch_at(&heap, 1, &THEN).expect(&rt, "a batch");
    let mut shard: Shard<Toy, &Heap> = Shard::new(&heap, 100, TableKey::known());
    let mut core: Core<Toy, 2, &Heap> = opened(&rt, &heap, &mut shard, 0);
    assert!(rt; apply_steps(&heap, &mut shard, &mut core, 0, &FIRST) == Accepted(4));
    let count = requests(rt.alloc(), &heap, &mut shard, &mut core, &batch);
    end(&mut shard, core);
    assert!(rt; count > 60 && counts(&shard) == (0, 0), "{count}");
}

/// A store that is full is told where the batch is accepted, at its last write, and not before.
#[test]
fn a_full_store_is_told_at_last(rt: HostRuntime) {
    let alloc = rt.alloc();
    let batch = batch_at(alloc, 1, &THEN).expect(&rt, "a batch");
    let mut shard: Shard<Toy> = Shard::new(alloc, 10, TableKey::known());
    let mut core: Core<Toy, 2> = opened(&rt, alloc, &mut shard, 0);
    assert!(rt; apply_steps(alloc, &mut shard, &mut core, 0, &FIRST) == Accepted(4));
    let before = see(&shard, &core);
    let prepared = core
        .prepare(alloc, &batch.stamp, &batch.writes)
        .expect(&rt, "a prepared batch");
    assert!(rt; is_told(alloc, &batch, &prepared).unwrap_or(false));
    let ended = end_of(core.accept(&mut LentShard::new(&mut shard), prepared));
    assert!(rt; ended == Refused(4, Why::StoreFull));
    assert!(rt; is_first(alloc, &shard, &core, &before));
    end(&mut shard, core);
}

/// Batches on a repository without writes, with the place at which each is refused, and why.
static REFUSED: [(&[Step<'static>], usize, Why); 3] = [
    (&[], 0, Why::EmptyBatch),
    (
        &[Put(b"a/b0", ONE), Create(b"a/b0", TWO)],
        1,
        Why::KeyExists,
    ),
    (
        &[Put(b"a/b0", ONE), Delete(b"a/b0"), Update(b"a/b0", TWO)],
        2,
        Why::NoSuchKey,
    ),
];

/// Whether a batch is refused at this place, and why.
fn is_refused(
    made: Result<PreparedBatch<Toy, 2>, (usize, RepoFault<Toy>)>,
    place: usize,
    why: Why,
) -> bool {
    match made {
        Ok(_) => false,
        Err((at, fault)) => at == place && why_of(&fault) == why,
    }
}

/// Whether each batch of the table is refused so.
fn are_refused<R: Abort>(rt: &R, alloc: Global, core: &Core<Toy, 2>) -> bool {
    for (steps, place, why) in &REFUSED {
        let batch = batch_at(alloc, 0, steps).expect(rt, "a batch");
        let made = core.prepare(alloc, &batch.stamp, &batch.writes);
        if !is_refused(made, *place, *why) {
            return false;
        }
    }
    true
}

/// What a test refuses is refused at its place before the store is asked, which has no room.
#[test]
fn a_test_refuses_what_is_prepared(rt: HostRuntime) {
    let alloc = rt.alloc();
    let mut shard: Shard<Toy> = Shard::new(alloc, 1, TableKey::known());
    let core: Core<Toy, 2> = opened(&rt, alloc, &mut shard, 0);
    assert!(rt; are_refused(&rt, alloc, &core) && core.number() == 0);
    end(&mut shard, core);
}

/// Of two records of one CID, one held and one to come, a lender shows both, as an exchange does.
#[test]
fn blocks_that_clash_are_not_lent(rt: HostRuntime) {
    let alloc = rt.alloc();
    let batch = batch_at(alloc, 1, &[Put(b"a/c0", TWO)]).expect(&rt, "a batch");
    let mut shard: Shard<Size> = Shard::new(alloc, 100, TableKey::known());
    let mut core: Core<Size, 2> = opened(&rt, alloc, &mut shard, 0);
    assert!(rt; apply_steps(alloc, &mut shard, &mut core, 0, &[Put(b"a/b0", ONE)]) == Accepted(1));
    let prepared = core
        .prepare(alloc, &batch.stamp, &batch.writes)
        .expect(&rt, "a prepared batch");
    let is_shown = match core.lender_with(alloc, &prepared) {
        Ok(_) => false,
        Err(fault) => why_of(&fault) == Why::CollisionOfRecords,
    };
    let ended = end_of(core.accept(&mut LentShard::new(&mut shard), prepared));
    assert!(rt; is_shown && ended == Refused(0, Why::CollisionOfRecords));
    end(&mut shard, core);
}
