//! The same records in other orders.

use crate::opened::opened;
use cid::Cid;
use cid::digests::Toy;
use repo::Core;
use repo_fixtures::batch::Step::Put;
use repo_fixtures::batch::{EMPTY, ONE, Step};
use repo_fixtures::cores::{apply_steps, counts, end, held};
use repo_fixtures::ends::Ended::Accepted;
use repo_fixtures::trees::is_of;
use std::alloc::Global;
use std::process::Abort;
use store::{Shard, TableKey};

/// The writes of the tree of five nodes, with two records, in each of their six orders.
const ORDERS: [[Step<'static>; 3]; 6] = [
    [Put(b"a/p0", ONE), Put(b"a/q2", ONE), Put(b"a/r0", EMPTY)],
    [Put(b"a/p0", ONE), Put(b"a/r0", EMPTY), Put(b"a/q2", ONE)],
    [Put(b"a/q2", ONE), Put(b"a/p0", ONE), Put(b"a/r0", EMPTY)],
    [Put(b"a/q2", ONE), Put(b"a/r0", EMPTY), Put(b"a/p0", ONE)],
    [Put(b"a/r0", EMPTY), Put(b"a/p0", ONE), Put(b"a/q2", ONE)],
    [Put(b"a/r0", EMPTY), Put(b"a/q2", ONE), Put(b"a/p0", ONE)],
];

/// Whether a repository has the tree of five nodes, with its two records and its commit.
fn is_tree_of_five_nodes(alloc: Global, shard: &Shard<Toy>, core: &Core<Toy, 2>) -> bool {
    let (one, empty) = (Cid::of::<Toy>(ONE), Cid::of::<Toy>(EMPTY));
    let pairs: [(&[u8], Cid); 3] = [(b"a/p0", one), (b"a/q2", one), (b"a/r0", empty)];
    is_of(alloc, core, &pairs, core.commit()) && held(shard, core) == Some(8)
}

/// Whether each of these writes is accepted, in a batch of its own, and all leave the tree of five nodes.
fn are_taken(
    alloc: Global,
    shard: &mut Shard<Toy>,
    core: &mut Core<Toy, 2>,
    order: &[Step<'static>; 3],
) -> bool {
    for turn in 0..3u16 {
        let step = order[usize::from(turn)];
        if apply_steps(alloc, shard, core, turn, &[step]) != Accepted(u64::from(turn) + 1) {
            return false;
        }
    }
    is_tree_of_five_nodes(alloc, shard, core)
}

/// Whether two repositories share all their blocks after the writes in the first order and in this one. With equal stamps the
/// commits are one block, too.
fn leaves_the_same<R: Abort>(rt: &R, alloc: Global, order: &[Step<'static>; 3]) -> bool {
    let mut shard = Shard::new(alloc, 100, TableKey::known());
    let mut first = opened(rt, alloc, &mut shard, 0);
    let mut second = opened(rt, alloc, &mut shard, 1);
    let is_right = are_taken(alloc, &mut shard, &mut first, &ORDERS[0])
        && are_taken(alloc, &mut shard, &mut second, order)
        && counts(&shard) == (8, 16);
    end(&mut shard, first);
    end(&mut shard, second);
    is_right
}

#[test]
fn six_orders_one_tree(rt: HostRuntime) {
    for order in &ORDERS {
        assert!(rt; leaves_the_same(&rt, rt.alloc(), order));
    }
}
