//! Batches that are accepted signed.

ghost use Rattle.std.specs.Prelude.{◌≤◌};

use crate::fixtures::{
    A, DID, FIRST, Posts, REV, SECOND, SINCE, keys, opened, record, shard, told,
};
use crate::worked_bytes::WORKED;
use batches::RepoFault;
use cid::{Cid, Digest, Sha256};
use event_format::FormFault;
use event_writing::{SigningFault, Told, UntoldFault, apply_signed, prepared_event};
use refusing::Refusing;
use repo::Core;
use repo_fixtures::batch::{Batch, Step, stamped};
use repo_fixtures::cores::{apply_made, end};
use std::alloc::{AllocError, Allocator, Global};
use store::{LentShard, Shard, TableKey};

/// How a batch ends.
#[derive(Clone, Copy, PartialEq, Eq)]
enum End {
    /// It is accepted, so many writes are there then, and the message is the worked one or another.
    Accepted(u64, bool),
    RootMoved,
    KeyExists(usize),
    StoreFull(usize),
    Refused,
    Untold(UntoldFault),
    NoMemory,
    Unmade,
}

/// How a batch that is accepted signed over a root ends.
fn end_of<M: Allocator + Copy, G: Digest, const BITS: u8>(
    alloc: M,
    shard: &mut Shard<G, M>,
    core: &mut Core<G, BITS, M>,
    previous: Cid,
    batch: Result<Batch<M>, AllocError>,
    told: &Told<'_>,
) -> End
    requires { 1 ≤ BITS }
{
    let Ok(batch) = batch else {
        return End::Unmade;
    };
    let mut store = LentShard::new(shard);
    match apply_signed(
        alloc,
        &mut store,
        core,
        previous,
        &batch.stamp,
        &batch.writes,
        told,
    ) {
        Ok(signed) => End::Accepted(signed.applied.number, signed.message.as_slice() == WORKED),
        Err(SigningFault::RootMoved) => End::RootMoved,
        Err(SigningFault::Refused(place, RepoFault::KeyExists)) => End::KeyExists(place),
        Err(SigningFault::Refused(place, RepoFault::StoreFull)) => End::StoreFull(place),
        Err(SigningFault::Refused(_, _)) => End::Refused,
        Err(SigningFault::Untold(fault)) => End::Untold(fault),
        Err(SigningFault::NoMemory) => End::NoMemory,
    }
}

/// How a batch of these steps ends that is signed over a root.
fn end_of_steps(
    alloc: Global,
    shard: &mut Shard<Sha256>,
    core: &mut Posts<Global>,
    previous: Cid,
    steps: &[Step<'_>],
    told: &Told<'_>,
) -> End {
    end_of(
        alloc,
        shard,
        core,
        previous,
        stamped(alloc, DID, REV, steps),
        told,
    )
}

/// Whether a batch that ends so leaves the repository as it was.
fn is_left(
    alloc: Global,
    shard: &mut Shard<Sha256>,
    core: &mut Posts<Global>,
    wanted: End,
    steps: &[Step<'_>],
    told: &Told<'_>,
) -> bool {
    let (root, number) = (core.root(), core.number());
    end_of_steps(alloc, shard, core, root, steps, told) == wanted
        && core.root() == root
        && core.number() == number
}

/// Whether a record that can't be told is refused before its batch is accepted.
fn long_is_left(alloc: Global, shard: &mut Shard<Sha256>, core: &mut Posts<Global>) -> bool {
    let Ok(record) = record(alloc, 999_990) else {
        return false;
    };
    let steps = [
        Step::Create(b"posts/10", A),
        Step::Create(b"posts/16", &record),
    ];
    is_left(
        alloc,
        shard,
        core,
        End::Untold(UntoldFault::RecordSize(1)),
        &steps,
        &told(),
    )
}

/// The creation of a record under each of these keys.
fn creates<'k>(alloc: Global, keys: &'k [[u8; 9]]) -> Result<Vec<Step<'k>>, AllocError> {
    let mut steps = Vec::new(alloc);
    for key in keys {
        steps.push(Step::Create(key, A))?;
    }
    Ok(steps)
}

/// Whether a batch of 201 creates, which can't be told, is refused before it is accepted.
fn many_are_left(alloc: Global, shard: &mut Shard<Sha256>, core: &mut Posts<Global>) -> bool {
    let Ok(keys) = keys(alloc, 201) else {
        return false;
    };
    let many = End::Untold(UntoldFault::Form(FormFault::TooManyOps));
    match creates(alloc, &keys) {
        Ok(steps) => is_left(alloc, shard, core, many, &steps, &told()),
        Err(_) => false,
    }
}

/// Whether each refusal leaves the repository as it was.
fn refusals(alloc: Global, shard: &mut Shard<Sha256>, core: &mut Posts<Global>) -> bool {
    let mut no_time = told();
    no_time.time = b"";
    let twice = [Step::Create(b"posts/10", A), Step::Create(b"posts/11", A)];
    is_left(alloc, shard, core, End::KeyExists(1), &twice, &told())
        && is_left(
            alloc,
            shard,
            core,
            End::Untold(UntoldFault::Form(FormFault::BadTime)),
            &SECOND,
            &no_time,
        )
        && is_left(alloc, shard, core, End::Refused, &[], &told())
        && long_is_left(alloc, shard, core)
        && many_are_left(alloc, shard, core)
}

/// Whether the batch before the worked one is accepted.
fn begins<M: Allocator + Copy, G: Digest, const BITS: u8>(
    alloc: M,
    shard: &mut Shard<G, M>,
    core: &mut Core<G, BITS, M>,
) -> bool {
    matches!(
        apply_made(alloc, shard, core, stamped(alloc, DID, SINCE, &FIRST)),
        repo_fixtures::ends::Ended::Accepted(4)
    )
}

#[test]
fn the_worked_batch_signed(rt: HostRuntime) {
    let alloc = rt.alloc();
    let mut shard = shard(alloc);
    let mut core = opened(&rt, alloc, &mut shard);
    let empty = core.root();
    let right = begins(alloc, &mut shard, &mut core) && refusals(alloc, &mut shard, &mut core);
    let before = core.root();
    let moved = end_of_steps(alloc, &mut shard, &mut core, empty, &SECOND, &told());
    let signed = end_of_steps(alloc, &mut shard, &mut core, before, &SECOND, &told());
    let late = end_of_steps(alloc, &mut shard, &mut core, before, &SECOND, &told());
    end(&mut shard, core);
    assert!(rt; right && moved == End::RootMoved && late == End::RootMoved);
    assert!(rt; signed == End::Accepted(8, true));
}

#[test]
fn a_full_store(rt: HostRuntime) {
    let alloc = rt.alloc();
    let mut shard = Shard::new(alloc, 14, TableKey::known());
    let mut core = opened(&rt, alloc, &mut shard);
    let begun = begins(alloc, &mut shard, &mut core);
    let full = is_left(
        alloc,
        &mut shard,
        &mut core,
        End::StoreFull(3),
        &SECOND,
        &told(),
    );
    end(&mut shard, core);
    assert!(rt; begun && full);
}

/// Whether the worked batch has the worked message once it is prepared, and is accepted then.
fn is_told_ahead(alloc: Global, shard: &mut Shard<Sha256>, core: &mut Posts<Global>) -> bool {
    let Ok(batch) = stamped(alloc, DID, REV, &SECOND) else {
        return false;
    };
    let Ok(prepared) = core.prepare(alloc, &batch.stamp, &batch.writes) else {
        return false;
    };
    match prepared_event(alloc, core, &prepared, &told()) {
        Ok(message) => {
            message.as_slice() == WORKED
                && core.number() == 4
                && core.accept(&mut LentShard::new(shard), prepared).is_ok()
        }
        Err(_) => false,
    }
}

#[test]
fn the_worked_batch_ahead(rt: HostRuntime) {
    let alloc = rt.alloc();
    let mut shard = shard(alloc);
    let mut core = opened(&rt, alloc, &mut shard);
    let begun = begins(alloc, &mut shard, &mut core);
    let told = begun && is_told_ahead(alloc, &mut shard, &mut core);
    let number = core.number();
    end(&mut shard, core);
    assert!(rt; told && number == 8);
}

/// Memory that refuses requests.
type Heap<'h> = &'h Refusing<Global>;

/// The end of the worked batch, where the request of this number is refused, and whether the repository is as it was.
fn tried<'h>(
    heap: Heap<'h>,
    shard: &mut Shard<Sha256, Heap<'h>>,
    core: &mut Posts<Heap<'h>>,
    number: u64,
) -> (End, bool) {
    let batch = stamped(heap, DID, REV, &SECOND);
    let root = core.root();
    heap.refuse(number);
    let end = end_of(heap, shard, core, root, batch, &told());
    heap.refuse(0);
    (end, core.root() == root)
}

/// Whether each request that is refused is told and leaves the repository as it was, up to the batch that is accepted.
fn tells_each<'h>(
    heap: Heap<'h>,
    shard: &mut Shard<Sha256, Heap<'h>>,
    core: &mut Posts<Heap<'h>>,
) -> bool {
    for number in 1..5_000u64 {
        match tried(heap, shard, core, number) {
            (End::NoMemory, true) => {}
            (End::Accepted(8, true), false) => return number > 50,
            _ => return false,
        }
    }
    false
}

#[test]
fn refuses_each_want_of_memory(rt: HostRuntime) {
    let heap = Refusing::new(rt.alloc());
    let right = {
        let mut shard = shard(&heap);
        let mut core = opened(&rt, &heap, &mut shard);
        let begun = begins(&heap, &mut shard, &mut core);
        let right = begun && tells_each(&heap, &mut shard, &mut core);
        end(&mut shard, core);
        right
    };
    assert!(rt; right);
}
