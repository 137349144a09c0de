//! Repositories over the sixteen locked shards. No contract can say what stands behind a lock.

ghost use Rattle.std.specs.Prelude.{◌≤◌, ◌<◌};

use cid::Cid;
use cid::digests::Toy;
use repo::{Core, Repository};
use repo_fixtures::batch::Step::{Delete, Put};
use repo_fixtures::batch::{Batch, EMPTY_NODE, Step, batch_at};
use repo_fixtures::cores::counts;
use repo_fixtures::ends::Ended::{Accepted, Refused, Unmade};
use repo_fixtures::ends::{Ended, Why, end_of};
use std::alloc::Global;
use std::process::Abort;
use std::sync::{RwLock, Wait};
use store::{LockedShards, Shards, TableKey, shard_number};

/// The DAG-CBOR bytes of the map of "a" to the integer -20. The digit 3, their last byte as ASCII, has `Toy` put them into
/// shard 3.
const THREE: &[u8] = b"\xa1\x61a\x33";

/// The write of that record.
const PUT: Step<'static> = Put(b"a/b0", THREE);

/// A core without writes.
fn opened<R: Wait + Abort>(rt: &R, alloc: Global, shards: &Shards<Toy>, me: u32) -> Core<Toy, 2>
    requires { me < 1024 }
{
    Core::open(alloc, &mut LockedShards::new(rt, shards), me, 9).expect(rt, "a core")
}

/// How a batch ends.
fn ended<R: Wait>(
    rt: &R,
    alloc: Global,
    shards: &Shards<Toy>,
    core: &mut Core<Toy, 2>,
    turn: u16,
    steps: &[Step<'_>],
) -> Ended {
    let mut store = LockedShards::new(rt, shards);
    match batch_at(alloc, turn, steps) {
        Ok(Batch { stamp, writes }) => end_of(core.apply(alloc, &mut store, &stamp, &writes)),
        Err(_) => Unmade,
    }
}

/// Whether the block of this CID stands in the shard of this number, held by so many cores.
fn stands<R: Wait>(rt: &R, shards: &Shards<Toy>, cid: Cid, shard: usize, count: u64) -> bool {
    shard_number(&cid) == shard && shards.shard(&cid).lock(rt).count(&cid) == count
}

/// Whether the record stands in shard 3, and node and commit in shard 15, where the node without entries stood.
fn stand_apart<R: Wait>(rt: &R, shards: &Shards<Toy>, core: &Core<Toy, 2>) -> bool {
    let Some(commit) = core.commit() else {
        return false;
    };
    stands(rt, shards, Cid::of::<Toy>(THREE), 3, 1)
        && stands(rt, shards, core.root(), 15, 1)
        && stands(rt, shards, commit, 15, 1)
        && stands(rt, shards, Cid::of::<Toy>(EMPTY_NODE), 15, 0)
}

/// Whether no shard has a block.
fn are_empty(shards: Shards<Toy>) -> bool {
    for table in &shards.tables() {
        if counts(table) != (0, 0) {
            return false;
        }
    }
    true
}

/// Whether a batch on a repository behind its lock ends so, in shards with so much room, and a reader then sees what it left.
fn is_seen<R: Wait>(
    rt: &R,
    alloc: Global,
    shards: &Shards<Toy>,
    repository: &Repository<Toy, 2>,
    steps: &[Step<'_>],
    wanted: Ended,
) -> bool {
    if ended(rt, alloc, shards, &mut repository.lock.write(rt), 0, steps) != wanted {
        return false;
    }
    let core = repository.lock.read(rt);
    match wanted {
        Accepted(number) => core.number() == number && stand_apart(rt, shards, &core),
        _ => core.number() == 0 && stands(rt, shards, core.root(), 15, 1),
    }
}

/// Whether this is so for a repository without writes, whose blocks all go back.
fn is_so<R: Wait + Abort>(
    rt: &R,
    alloc: Global,
    room: usize,
    steps: &[Step<'_>],
    wanted: Ended,
) -> bool
    requires least { 1 ≤ room }
    requires most { room ≤ 9 }
{
    let shards: Shards<Toy> = Shards::open(alloc, room, TableKey::known());
    let repository = Repository {
        lock: RwLock::new(opened(rt, alloc, &shards, 0)),
    };
    let is_right = is_seen(rt, alloc, &shards, &repository, steps, wanted);
    let Repository { lock } = repository;
    lock.into_inner().end(&mut LockedShards::new(rt, &shards));
    is_right && are_empty(shards)
}

/// The node before, the node and the commit are in one shard, the record in another: where the first is full, the batch is
/// refused at its last write, though the second has room.
#[test]
fn a_repository_behind_its_lock(rt: HostRuntime) {
    assert!(rt; is_so(&rt, rt.alloc(), 3, &[PUT], Accepted(1)));
    assert!(rt; is_so(&rt, rt.alloc(), 2, &[PUT], Refused(0, Why::StoreFull)));
    assert!(rt; is_so(&rt, rt.alloc(), 3, &[PUT, PUT], Accepted(2)));
    assert!(rt; is_so(&rt, rt.alloc(), 2, &[PUT, PUT], Refused(1, Why::StoreFull)));
    // the tree after three writes has a node more
    let writes = [PUT, Put(b"a/b1", THREE), PUT];
    assert!(rt; is_so(&rt, rt.alloc(), 2, &writes, Refused(2, Why::StoreFull)));
}

/// Whether each block of the core is held by so many cores, each in its shard.
fn have_count<R: Wait>(rt: &R, shards: &Shards<Toy>, core: &Core<Toy, 2>, count: u64) -> bool {
    for block in core.blocks() {
        let cid = block.cid();
        if shards.shard(&cid).lock(rt).count(&cid) != count {
            return false;
        }
    }
    true
}

/// Whether two cores share all blocks by the same batch.
fn share_blocks<R: Wait>(
    rt: &R,
    alloc: Global,
    shards: &Shards<Toy>,
    first: &mut Core<Toy, 2>,
    second: &mut Core<Toy, 2>,
) -> bool {
    ended(rt, alloc, shards, first, 0, &[PUT]) == Accepted(1)
        && ended(rt, alloc, shards, second, 0, &[PUT]) == Accepted(1)
        && have_count(rt, shards, first, 2)
}

/// Whether they share none once the second takes the key away.
fn share_none<R: Wait>(
    rt: &R,
    alloc: Global,
    shards: &Shards<Toy>,
    first: &Core<Toy, 2>,
    second: &mut Core<Toy, 2>,
) -> bool {
    ended(rt, alloc, shards, second, 1, &[Delete(b"a/b0")]) == Accepted(2)
        && have_count(rt, shards, first, 1)
        && have_count(rt, shards, second, 1)
}

#[test]
fn two_repositories_in_the_shards(rt: HostRuntime) {
    let shards: Shards<Toy> = Shards::open(rt.alloc(), 5, TableKey::known());
    let mut first = opened(&rt, rt.alloc(), &shards, 0);
    let mut second = opened(&rt, rt.alloc(), &shards, 1);
    let is_right = share_blocks(&rt, rt.alloc(), &shards, &mut first, &mut second)
        && share_none(&rt, rt.alloc(), &shards, &first, &mut second);
    first.end(&mut LockedShards::new(&rt, &shards));
    let is_left = have_count(&rt, &shards, &second, 1);
    second.end(&mut LockedShards::new(&rt, &shards));
    assert!(rt; is_right && is_left && are_empty(shards));
}
