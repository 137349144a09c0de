//! Proofs of changes of small trees, beside nodes that are written here by hand.

use crate::fixtures::{Blocks, proved, value, verified};
use crate::refusals::missing_in;
use block::Block;
use change_proofs::KeyChange;
use cid::digests::Toy;
use cid::{Cid, CidRef};
use node::NodeWriter;
use std::alloc::{AllocError, Global};
use std::sync::Arc;

/// A key of a node, the number of its value, and the place of the node after it.
type Entry = (&'static [u8], u8, Option<usize>);

/// The place of the node before the keys of a node, and its keys.
type Node = (Option<usize>, &'static [Entry]);

/// The nodes of all trees of the rows, each after those that it links to.
const NODES: [Node; 17] = [
    // 0 to 4: the tree of `a/p0`, `a/q2` and `a/r0`
    (None, &[(b"a/p0", 1, None)]),
    (Some(0), &[]),
    (None, &[(b"a/r0", 1, None)]),
    (Some(2), &[]),
    (Some(1), &[(b"a/q2", 1, Some(3))]),
    // 5 to 7: with 2 and 3 the tree of `a/p0`, `a/q0`, `a/q2` and `a/r0`
    (None, &[(b"a/p0", 1, None), (b"a/q0", 1, None)]),
    (Some(5), &[]),
    (Some(6), &[(b"a/q2", 1, Some(3))]),
    // 8: the tree of `a/p0` and `a/r0`
    (None, &[(b"a/p0", 1, None), (b"a/r0", 1, None)]),
    // 9: over 0 to 3, the top with another value of `a/q2`
    (Some(1), &[(b"a/q2", 2, Some(3))]),
    // 10: the tree of `a/q2`; 11: with it the tree of `a/q2` and `a/r3`
    (None, &[(b"a/q2", 1, None)]),
    (Some(10), &[(b"a/r3", 1, None)]),
    // 12 to 16: with 2 the tree of `a/q0`, `a/q2`, `a/r0`, `a/r1` and `a/s3`
    (None, &[(b"a/q0", 2, None)]),
    (Some(12), &[]),
    (Some(2), &[(b"a/r1", 3, None)]),
    (Some(13), &[(b"a/q2", 2, Some(14))]),
    (Some(15), &[(b"a/s3", 1, None)]),
];

/// A row of the table: the places of the nodes of the tree after, its top last; the changes, each a key and the numbers of its
/// values before and after; the places of the nodes of the proof, in the order in which they are read; and the place of the
/// top before.
#[derive(Drop)]
struct Row {
    after: &'static [usize],
    changes: &'static [(&'static [u8], Option<u8>, Option<u8>)],
    proof: &'static [usize],
    before: usize,
}

/// Changes that leave the height of the tree.
const LEVEL: [Row; 4] = [
    // a key came: where it goes again its path is read
    Row {
        after: &[2, 3, 5, 6, 7],
        changes: &[(b"a/q0", None, Some(1))],
        proof: &[7, 6, 5],
        before: 4,
    },
    // a key went
    Row {
        after: &[0, 1, 2, 3, 4],
        changes: &[(b"a/q0", Some(1), None)],
        proof: &[4, 1, 0],
        before: 7,
    },
    // a key has another value: nothing below its node is read
    Row {
        after: &[0, 1, 2, 3, 9],
        changes: &[(b"a/q2", Some(1), Some(2))],
        proof: &[9],
        before: 4,
    },
    // no change: the top alone says which tree it is
    Row {
        after: &[0, 1, 2, 3, 4],
        changes: &[],
        proof: &[4],
        before: 4,
    },
];

/// Changes that raise the tree, and that prune it.
const RISING: [Row; 3] = [
    // the new top goes again: the node that is the top then is read, to see that it has a key
    Row {
        after: &[10, 11],
        changes: &[(b"a/r3", None, Some(1))],
        proof: &[11, 10],
        before: 10,
    },
    // the old top comes again over the new one
    Row {
        after: &[10],
        changes: &[(b"a/r3", Some(1), None)],
        proof: &[10],
        before: 11,
    },
    // a key parted two nodes of each layer: where it goes they meet, and its neighbours' nodes are read
    Row {
        after: &[0, 1, 2, 3, 4],
        changes: &[(b"a/q2", None, Some(1))],
        proof: &[4, 1, 3, 0, 2],
        before: 8,
    },
];

/// All of it at once: one went, one came, one has another value, one came on a layer between, and one raised the tree.
const MIXED: [Row; 1] = [Row {
    after: &[2, 12, 13, 14, 15, 16],
    changes: &[
        (b"a/p0", Some(1), None),
        (b"a/q0", None, Some(2)),
        (b"a/q2", Some(1), Some(2)),
        (b"a/r1", None, Some(3)),
        (b"a/s3", None, Some(1)),
    ],
    proof: &[16, 15, 13, 12, 14],
    before: 4,
}];

/// The CID of the node at a place.
fn cid_at(nodes: &[Arc<Block<Toy>>], place: Option<usize>) -> Option<Cid> {
    match nodes.get(place?) {
        Some(block) => Some(block.cid()),
        None => None,
    }
}

/// The bytes of a node over these.
fn bytes_of(alloc: Global, nodes: &[Arc<Block<Toy>>], node: &Node) -> Result<Vec<u8>, AllocError> {
    let (before, entries) = node;
    let mut writer = NodeWriter::begin(alloc, cid_at(nodes, *before))?;
    for (key, number, after) in *entries {
        if writer.is_next(key) {
            let value = value(*number);
            writer.entry(key, CidRef::from(&value), cid_at(nodes, *after))?;
        }
    }
    writer.finish()
}

/// The nodes of the rows.
fn nodes(alloc: Global) -> Result<Blocks, AllocError> {
    let mut nodes = Vec::new(alloc);
    for node in &NODES {
        let bytes = bytes_of(alloc, &nodes, node)?;
        nodes.push(Arc::new(alloc, Block::of(bytes))?)?;
    }
    Ok(nodes)
}

/// Those at some places.
fn nodes_at(
    alloc: Global,
    nodes: &[Arc<Block<Toy>>],
    places: &[usize],
) -> Result<Blocks, AllocError> {
    let mut blocks = Vec::new(alloc);
    for place in places {
        if let Some(block) = nodes.get(*place) {
            blocks.push(Arc::try_clone(block)?)?;
        }
    }
    Ok(blocks)
}

/// The changes of a row.
fn changes_of(alloc: Global, row: &Row) -> Result<Vec<KeyChange<'static>>, AllocError> {
    let mut changes = Vec::new(alloc);
    for (key, before, after) in row.changes {
        changes.push(KeyChange {
            key,
            before: before.map(value),
            after: after.map(value),
        })?;
    }
    Ok(changes)
}

/// Whether a proof has the bytes of the nodes at these places, in this order, and no others.
fn are_at(nodes: &[Arc<Block<Toy>>], places: &[usize], proof: &[Arc<Block<Toy>>]) -> bool {
    for (number, block) in proof.iter().enumerate() {
        let Some(place) = places.get(number) else {
            return false;
        };
        match nodes.get(*place) {
            Some(node) if node.bytes() == block.bytes() => {}
            _ => return false,
        }
    }
    places.len() == proof.len()
}

/// The roots of a row's trees, and its changes.
#[derive(Drop)]
struct Told {
    before: Cid,
    after: Cid,
    changes: Vec<KeyChange<'static>>,
}

/// Those of a row.
fn told_of(alloc: Global, nodes: &[Arc<Block<Toy>>], row: &Row) -> Option<Told> {
    Some(Told {
        before: cid_at(nodes, Some(row.before))?,
        after: cid_at(nodes, row.after.last().copied())?,
        changes: changes_of(alloc, row).ok()?,
    })
}

/// Whether these nodes show the changes.
fn show(alloc: Global, told: &Told, proof: &[Arc<Block<Toy>>]) -> bool {
    verified(alloc, told.before, told.after, proof, &told.changes).is_ok()
}

/// Whether the block at a place of a proof is missing where it is left out.
fn lacks(alloc: Global, told: &Told, proof: &[Arc<Block<Toy>>], place: usize) -> bool {
    let mut fewer = Vec::new(alloc);
    for (number, block) in proof.iter().enumerate() {
        if number == place {
            continue;
        }
        let Ok(block) = Arc::try_clone(block) else {
            return false;
        };
        if fewer.push(block).is_err() {
            return false;
        }
    }
    let answer = verified(alloc, told.before, told.after, &fewer, &told.changes);
    missing_in(&answer).is_some() && missing_in(&answer) == cid_at(proof, Some(place))
}

/// Whether each of them is.
fn lacks_each(alloc: Global, told: &Told, proof: &[Arc<Block<Toy>>]) -> bool {
    for place in 0..proof.len() {
        if !lacks(alloc, told, proof, place) {
            return false;
        }
    }
    true
}

/// Whether the next one is missing where only the first few are given.
fn lacks_the_next(alloc: Global, told: &Told, proof: &[Arc<Block<Toy>>]) -> bool {
    for count in 0..proof.len() {
        let answer = verified(
            alloc,
            told.before,
            told.after,
            &proof[..count],
            &told.changes,
        );
        if missing_in(&answer).is_none() || missing_in(&answer) != cid_at(proof, Some(count)) {
            return false;
        }
    }
    true
}

/// Whether a row is proved by its nodes, in their order, and by no fewer.
fn is_proved(alloc: Global, nodes: &[Arc<Block<Toy>>], row: &Row) -> bool {
    let (Some(told), Ok(blocks)) = (
        told_of(alloc, nodes, row),
        nodes_at(alloc, nodes, row.after),
    ) else {
        return false;
    };
    match proved(alloc, &blocks, told.after, &told.changes) {
        Ok(proof) => {
            are_at(nodes, row.proof, &proof)
                && show(alloc, &told, &proof)
                && lacks_each(alloc, &told, &proof)
                && lacks_the_next(alloc, &told, &proof)
        }
        Err(_) => false,
    }
}

/// Whether these rows are.
fn all_are_proved(alloc: Global, nodes: &[Arc<Block<Toy>>], rows: &[Row]) -> bool {
    for row in rows {
        if !is_proved(alloc, nodes, row) {
            return false;
        }
    }
    true
}

#[test]
fn changes_that_leave_the_height(rt: HostRuntime) {
    let nodes = nodes(rt.alloc()).expect(&rt, "nodes");
    assert!(rt; all_are_proved(rt.alloc(), &nodes, &LEVEL));
}

#[test]
fn changes_that_raise_and_prune(rt: HostRuntime) {
    let nodes = nodes(rt.alloc()).expect(&rt, "nodes");
    assert!(rt; all_are_proved(rt.alloc(), &nodes, &RISING));
}

#[test]
fn changes_of_every_kind_at_once(rt: HostRuntime) {
    let nodes = nodes(rt.alloc()).expect(&rt, "nodes");
    assert!(rt; all_are_proved(rt.alloc(), &nodes, &MIXED));
}
