//! A repository: writes by batches beside edits of its tree alone, its exports, and messages of its batches.

use crate::desks::Desk;
use crate::edits::{Change, Tree};
use crate::exports::{self, Exported};
use crate::hashing::Hashed;
use crate::messages::{self, Messages};
use crate::plans::{Plan, stamp};
use crate::watch::Meter;
use batches::commit_bytes;
use cid::{Cid, Sha256};
use repo::Core;
use std::alloc::{AllocError, Global};
use std::fs;
use std::rt::Files;
use std::sync::Wait;
use std::time::CpuClock;
use store::{LockedShards, Shards, TableKey};

/// Nanoseconds of processor time of the quickest round: by edits of the tree alone, by batches that a repository applies, and by
/// hashing alone what these hash.
#[derive(Clone, Copy, Drop)]
pub struct Took {
    pub alone: u128,
    pub applied: u128,
    pub hash: u128,
}

impl Took {
    fn none() -> Took {
        Took {
            alone: u128::MAX,
            applied: u128::MAX,
            hash: u128::MAX,
        }
    }
}

/// What the puts of a round hash, and its deletes.
#[derive(Drop)]
struct Hashing {
    puts: Hashed,
    deletes: Hashed,
}

/// What was measured of a repository.
#[derive(Clone, Copy, Drop)]
pub struct Measured {
    pub puts: Took,
    pub deletes: Took,
    /// How many bytes the process grew by while the repository was made, where the system tells it and no key went again.
    pub grown: Option<u64>,
    /// How many nodes all puts of a round add, one by one.
    pub added: u64,
    /// How many nodes the batches of these puts leave that weren't there before.
    pub left: u64,
    /// The last commit, which the records and all batches determine.
    pub commit: Option<Cid>,
}

/// Makes the repository of a plan in a store of sixteen shards, and then so many times puts its new keys and deletes them,
/// `size` a batch, in turns with the same edits of the tree alone. `None` where a batch was refused or the roots differ.
pub fn measure<R: Wait + CpuClock + Files>(
    rt: &R,
    alloc: Global,
    plan: &Plan,
    size: usize,
    rounds: u32,
) -> Option<Measured> {
    let mut tree = plan.tree(alloc)?;
    let shards = Shards::open(alloc, 1_048_576, TableKey::known());
    let mut store = LockedShards::new(rt, &shards);
    match Core::open(alloc, &mut store, 0, 1_048_576) {
        Ok(mut core) => {
            let mut desk = Desk {
                core: &mut core,
                store: &mut store,
                last: 0,
            };
            let measured = measure_at(rt, alloc, plan, &mut desk, &mut tree, size, rounds);
            core.end(&mut store);
            measured
        }
        Err(_) => None,
    }
}

/// Makes the repository of a plan in a store of sixteen shards, and then so many times writes its CAR, and proves and verifies
/// its first 10,000 keys. `None` where a batch was refused or a proof was wrong.
pub fn export<R: Wait + CpuClock>(
    rt: &R,
    alloc: Global,
    plan: &Plan,
    rounds: u32,
) -> Option<Exported> {
    let shards = Shards::open(alloc, 1_048_576, TableKey::known());
    let mut store = LockedShards::new(rt, &shards);
    match Core::open(alloc, &mut store, 0, 1_048_576) {
        Ok(mut core) => {
            let mut desk = Desk {
                core: &mut core,
                store: &mut store,
                last: 0,
            };
            let exported = export_at(rt, alloc, plan, &mut desk, rounds);
            core.end(&mut store);
            exported
        }
        Err(_) => None,
    }
}

/// The same for a repository without writes.
fn export_at<R: Wait + CpuClock>(
    rt: &R,
    alloc: Global,
    plan: &Plan,
    desk: &mut Desk<'_, '_, R>,
    rounds: u32,
) -> Option<Exported> {
    if !desk.fill_in_order(alloc, plan) {
        return None;
    }
    let first = &plan.places.first;
    let (places, _) = first.split_at(first.len().min(10_000));
    exports::measure(rt, alloc, desk.core, &plan.pairs, places, rounds)
}

/// Makes the repository of a plan in a store of sixteen shards, and then so many times puts its new keys, one a batch, and writes
/// and checks the message of each. `None` where a batch was refused or there is no message of it.
pub fn messages<R: Wait + CpuClock>(
    rt: &R,
    alloc: Global,
    plan: &Plan,
    rounds: u32,
) -> Option<Messages> {
    let shards = Shards::open(alloc, 1_048_576, TableKey::known());
    let mut store = LockedShards::new(rt, &shards);
    match Core::open(alloc, &mut store, 0, 1_048_576) {
        Ok(mut core) => {
            let mut desk = Desk {
                core: &mut core,
                store: &mut store,
                last: 0,
            };
            let measured = if desk.fill(alloc, plan) {
                messages::measure(rt, alloc, plan, &mut desk, rounds)
            } else {
                None
            };
            core.end(&mut store);
            measured
        }
        Err(_) => None,
    }
}

/// The same for a repository without writes and the tree alone.
fn measure_at<R: Wait + CpuClock + Files>(
    rt: &R,
    alloc: Global,
    plan: &Plan,
    desk: &mut Desk<'_, '_, R>,
    tree: &mut Tree,
    size: usize,
    rounds: u32,
) -> Option<Measured> {
    let before = if plan.places.gone.is_empty() {
        resident(rt, alloc)
    } else {
        None
    };
    if !desk.fill(alloc, plan) || desk.core.root() != tree.root {
        return None;
    }
    let after = resident(rt, alloc);
    let hashing = hashing_of(alloc, plan, tree, size)?;
    let (mut puts, mut deletes) = (Took::none(), Took::none());
    let mut added = 0;
    for _ in 0..rounds {
        added = turn(rt, alloc, plan, Change::Put, desk, tree, size, &mut puts)?;
        turn(
            rt,
            alloc,
            plan,
            Change::Delete,
            desk,
            tree,
            size,
            &mut deletes,
        )?;
        puts.hash = puts.hash.min(hashing.puts.nanos(rt));
        deletes.hash = deletes.hash.min(hashing.deletes.nanos(rt));
    }
    let left = tree
        .put_batches(alloc, &plan.pairs, &plan.places.new, size)
        .ok()?;
    Some(Measured {
        puts,
        deletes,
        grown: grown(before, after),
        added,
        left,
        commit: desk.core.commit(),
    })
}

/// What puts of the new keys of a plan and their deletes hash, so many a batch. The tree is the same again then.
fn hashing_of(alloc: Global, plan: &Plan, tree: &mut Tree, size: usize) -> Option<Hashing> {
    let puts = hashed(alloc, plan, Change::Put, tree, size)?;
    let deletes = hashed(alloc, plan, Change::Delete, tree, size)?;
    Some(Hashing { puts, deletes })
}

/// What a change at each new place of a plan hashes, so many a batch: keys, nodes, records and commits.
fn hashed(
    alloc: Global,
    plan: &Plan,
    change: Change,
    tree: &mut Tree,
    size: usize,
) -> Option<Hashed> {
    let mut hashed = tree.hashed(alloc, change, plan, &plan.places.new, size)?;
    for some in plan.places.new.chunks(size.max(1)) {
        push_rest(alloc, plan, change, some, tree.root, &mut hashed).ok()?;
    }
    Some(hashed)
}

/// Adds the records of the changes at these places, if they have any, and a commit.
fn push_rest(
    alloc: Global,
    plan: &Plan,
    change: Change,
    places: &[usize],
    root: Cid,
    hashed: &mut Hashed,
) -> Result<(), AllocError> {
    for write in &plan.writes(alloc, change, places)? {
        if let Some(record) = write.record() {
            hashed.push(alloc, record)?;
        }
    }
    let stamp = stamp(alloc, 0)?;
    hashed.push(alloc, &commit_bytes(alloc, &stamp, root)?)
}

/// Makes a change at each new place of a plan, to the tree alone and then by batches, and answers how many nodes it adds.
fn turn<R: Wait + CpuClock>(
    rt: &R,
    alloc: Global,
    plan: &Plan,
    change: Change,
    desk: &mut Desk<'_, '_, R>,
    tree: &mut Tree,
    size: usize,
    took: &mut Took,
) -> Option<u64> {
    let Ok(batches) = desk.batches(alloc, plan, change, &plan.places.new, size) else {
        return None;
    };
    let meter = Meter::start(rt);
    let done = tree.change_all(alloc, change, &plan.pairs, &plan.places.new);
    took.alone = took.alone.min(meter.nanos(rt));
    let meter = Meter::start(rt);
    let are_accepted = desk.apply_all(alloc, &batches);
    took.applied = took.applied.min(meter.nanos(rt));
    match done {
        Ok(done) if are_accepted && desk.core.root() == tree.root => Some(done.added),
        _ => None,
    }
}

/// How many bytes the process has in memory, where the system tells it as Linux does, in pages of 4,096 bytes.
fn resident<R: Files>(rt: &R, alloc: Global) -> Option<u64> {
    let text = fs::read_to_string(&(rt, alloc), "/proc/self/statm").ok()?;
    let pages: u64 = text.split(' ').nth(1)?.parse().ok()?;
    pages.checked_mul(4096)
}

fn grown(before: Option<u64>, after: Option<u64>) -> Option<u64> {
    after?.checked_sub(before?)
}
