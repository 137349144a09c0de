//! Batches over small trees, beside nodes that are written here by hand.

use crate::fixtures::{Blocks, applied, value};
use block::Block;
use cid::digests::Toy;
use cid::{Cid, CidRef, Digest};
use edit::{BatchEdit, Change};
use node::NodeWriter;
use std::alloc::{AllocError, Global};
use std::sync::Arc;

/// A key of a node, the number of its value, and the place of the node after it.
type Entry = (&'static [u8], u8, Option<usize>);

/// The place of the node before the keys of a node, and its keys.
type Node = (Option<usize>, &'static [Entry]);

/// The nodes of all trees of the rows, each after those that it links to.
const NODES: [Node; 23] = [
    // 0 to 4: the tree of `a/p0`, `a/q2` and `a/r0`
    (None, &[(b"a/p0", 1, None)]),
    (Some(0), &[]),
    (None, &[(b"a/r0", 1, None)]),
    (Some(2), &[]),
    (Some(1), &[(b"a/q2", 1, Some(3))]),
    // 5: the tree of no keys
    (None, &[]),
    // 6: the tree of `a/b0`
    (None, &[(b"a/b0", 1, None)]),
    // 7 to 9: with 2 and 3 the tree of `a/p0`, `a/q0`, `a/q2` and `a/r0`
    (None, &[(b"a/p0", 1, None), (b"a/q0", 1, None)]),
    (Some(7), &[]),
    (Some(8), &[(b"a/q2", 1, Some(3))]),
    // 10: the tree of `a/p0` and `a/r0`
    (None, &[(b"a/p0", 1, None), (b"a/r0", 1, None)]),
    // 11: over 0 to 3, the top with another value of `a/q2`
    (Some(1), &[(b"a/q2", 2, Some(3))]),
    // 12: the tree of `a/q2`; 13: with it the tree of `a/q2` and `a/r3`
    (None, &[(b"a/q2", 1, None)]),
    (Some(12), &[(b"a/r3", 1, None)]),
    // 14 to 16: over 0 to 3, the tree of `a/p0`, `a/q3` and `a/r0`
    (Some(1), &[]),
    (Some(3), &[]),
    (Some(14), &[(b"a/q3", 1, Some(15))]),
    // 17 to 20: with 2 the tree of `a/q0`, `a/q2`, `a/r0` and `a/r1`
    (None, &[(b"a/q0", 2, None)]),
    (Some(17), &[]),
    (Some(2), &[(b"a/r1", 3, None)]),
    (Some(18), &[(b"a/q2", 2, Some(19))]),
    // 21 and 22: over 0 and 1, the tree of `a/p0`, `a/q2`, `a/s1` and `a/s2`
    (None, &[(b"a/s1", 1, None)]),
    (Some(1), &[(b"a/q2", 1, Some(21)), (b"a/s2", 1, None)]),
];

/// A row of the table of batches: the places of the nodes of the tree before, its top last; the changes, each a key and the
/// number of its new value; the places of the nodes that come, of those that go, and of the new top; and the numbers of the
/// values before.
#[derive(Drop)]
struct Row {
    before: &'static [usize],
    changes: &'static [(&'static [u8], Option<u8>)],
    add: &'static [usize],
    drop: &'static [usize],
    top: usize,
    previous: &'static [Option<u8>],
}

/// Nothing, or next to nothing.
const SMALL: [Row; 5] = [
    // no changes, over a tree and over the empty one
    Row {
        before: &[0, 1, 2, 3, 4],
        changes: &[],
        add: &[],
        drop: &[],
        top: 4,
        previous: &[],
    },
    Row {
        before: &[5],
        changes: &[],
        add: &[],
        drop: &[],
        top: 5,
        previous: &[],
    },
    // keys go that aren't there
    Row {
        before: &[0, 1, 2, 3, 4],
        changes: &[(b"a/a3", None), (b"a/q1", None), (b"b", None)],
        add: &[],
        drop: &[],
        top: 4,
        previous: &[None, None, None],
    },
    Row {
        before: &[5],
        changes: &[(b"a/q3", None)],
        add: &[],
        drop: &[],
        top: 5,
        previous: &[None],
    },
    // the same values again
    Row {
        before: &[0, 1, 2, 3, 4],
        changes: &[(b"a/p0", Some(1)), (b"a/q2", Some(1)), (b"a/r0", Some(1))],
        add: &[],
        drop: &[],
        top: 4,
        previous: &[Some(1), Some(1), Some(1)],
    },
];

/// One key.
const SINGLE: [Row; 5] = [
    Row {
        before: &[5],
        changes: &[(b"a/b0", Some(1))],
        add: &[6],
        drop: &[5],
        top: 6,
        previous: &[None],
    },
    Row {
        before: &[0, 1, 2, 3, 4],
        changes: &[(b"a/q0", Some(1))],
        add: &[7, 8, 9],
        drop: &[0, 1, 4],
        top: 9,
        previous: &[None],
    },
    Row {
        before: &[2, 3, 7, 8, 9],
        changes: &[(b"a/q0", None)],
        add: &[0, 1, 4],
        drop: &[7, 8, 9],
        top: 4,
        previous: &[Some(1)],
    },
    Row {
        before: &[0, 1, 2, 3, 4],
        changes: &[(b"a/q2", Some(2))],
        add: &[11],
        drop: &[4],
        top: 11,
        previous: &[Some(1)],
    },
    Row {
        before: &[6],
        changes: &[(b"a/b0", None)],
        add: &[5],
        drop: &[6],
        top: 5,
        previous: &[Some(1)],
    },
];

/// Trees that rise and are pruned.
const RISING: [Row; 5] = [
    // the old top goes below the new one
    Row {
        before: &[12],
        changes: &[(b"a/r3", Some(1))],
        add: &[13],
        drop: &[],
        top: 13,
        previous: &[None],
    },
    // and is the top again
    Row {
        before: &[12, 13],
        changes: &[(b"a/r3", None)],
        add: &[],
        drop: &[13],
        top: 12,
        previous: &[Some(1)],
    },
    // the only node is split, and its halves go below three layers
    Row {
        before: &[10],
        changes: &[(b"a/q3", Some(1))],
        add: &[0, 1, 2, 3, 14, 15, 16],
        drop: &[10],
        top: 16,
        previous: &[None],
    },
    // and meet again
    Row {
        before: &[0, 1, 2, 3, 14, 15, 16],
        changes: &[(b"a/q3", None)],
        add: &[10],
        drop: &[0, 1, 2, 3, 14, 15, 16],
        top: 10,
        previous: &[Some(1)],
    },
    // one top goes, another one comes
    Row {
        before: &[0, 1, 2, 3, 14, 15, 16],
        changes: &[(b"a/q2", Some(1)), (b"a/q3", None)],
        add: &[4],
        drop: &[14, 15, 16],
        top: 4,
        previous: &[None, Some(1)],
    },
];

/// Several keys.
const MIXED: [Row; 4] = [
    // one goes, one comes, one isn't there, one has another value, one the same, one comes on a layer between
    Row {
        before: &[0, 1, 2, 3, 4],
        changes: &[
            (b"a/p0", None),
            (b"a/q0", Some(2)),
            (b"a/q1", None),
            (b"a/q2", Some(2)),
            (b"a/r0", Some(1)),
            (b"a/r1", Some(3)),
        ],
        add: &[17, 18, 19, 20],
        drop: &[0, 1, 3, 4],
        top: 20,
        previous: &[Some(1), None, None, Some(1), Some(1), None],
    },
    // the right side goes, and two layers come in its place
    Row {
        before: &[0, 1, 2, 3, 4],
        changes: &[(b"a/r0", None), (b"a/s1", Some(1)), (b"a/s2", Some(1))],
        add: &[21, 22],
        drop: &[2, 3, 4],
        top: 22,
        previous: &[Some(1), None, None],
    },
    // all keys go
    Row {
        before: &[0, 1, 2, 3, 4],
        changes: &[(b"a/p0", None), (b"a/q2", None), (b"a/r0", None)],
        add: &[5],
        drop: &[0, 1, 2, 3, 4],
        top: 5,
        previous: &[Some(1), Some(1), Some(1)],
    },
    // all keys come
    Row {
        before: &[5],
        changes: &[(b"a/p0", Some(1)), (b"a/q2", Some(1)), (b"a/r0", Some(1))],
        add: &[0, 1, 2, 3, 4],
        drop: &[5],
        top: 4,
        previous: &[None, None, None],
    },
];

/// The CID of the node at a place.
fn cid_at(blocks: &[Arc<Block<Toy>>], place: Option<usize>) -> Option<Cid> {
    match blocks.get(place?) {
        Some(block) => Some(block.cid()),
        None => None,
    }
}

/// The bytes of a node over these.
fn bytes_of(alloc: Global, blocks: &[Arc<Block<Toy>>], node: &Node) -> Result<Vec<u8>, AllocError> {
    let (before, entries) = node;
    let mut writer = NodeWriter::begin(alloc, cid_at(blocks, *before))?;
    for (key, number, after) in *entries {
        if writer.is_next(key) {
            let value = value(*number);
            writer.entry(key, CidRef::from(&value), cid_at(blocks, *after))?;
        }
    }
    writer.finish()
}

/// The nodes of the rows.
fn nodes(alloc: Global) -> Result<Blocks<Toy>, AllocError> {
    let mut blocks = Vec::new(alloc);
    for node in &NODES {
        let bytes = bytes_of(alloc, &blocks, node)?;
        blocks.push(Arc::new(alloc, Block::of(bytes))?)?;
    }
    Ok(blocks)
}

/// Those at some places.
fn nodes_at(
    alloc: Global,
    nodes: &[Arc<Block<Toy>>],
    places: &[usize],
) -> Result<Blocks<Toy>, AllocError> {
    let mut blocks = Vec::new(alloc);
    for place in places {
        if let Some(block) = nodes.get(*place) {
            blocks.push(Arc::try_clone(block)?)?;
        }
    }
    Ok(blocks)
}

/// The changes of a row.
fn changes_of(alloc: Global, row: &Row) -> Result<Vec<Change<'static>>, AllocError> {
    let mut changes = Vec::new(alloc);
    for (key, number) in row.changes {
        changes.push(Change {
            key,
            value: number.map(value),
        })?;
    }
    Ok(changes)
}

/// Whether the list has the CIDs of the nodes at these places, in any order, and no others.
fn are_at(nodes: &[Arc<Block<Toy>>], places: &[usize], cids: &[Cid]) -> bool {
    for place in places {
        match cid_at(nodes, Some(*place)) {
            Some(cid) if cids.contains(&cid) => {}
            _ => return false,
        }
    }
    places.len() == cids.len()
}

/// The CIDs of the blocks that come.
fn cids_of(alloc: Global, edit: &BatchEdit<Toy>) -> Result<Vec<Cid>, AllocError> {
    let mut cids = Vec::new(alloc);
    for block in &edit.add {
        cids.push(block.cid())?;
    }
    Ok(cids)
}

/// Whether the blocks that come are the row's, a top that comes last.
fn come_as(alloc: Global, nodes: &[Arc<Block<Toy>>], row: &Row, edit: &BatchEdit<Toy>) -> bool {
    let Ok(come) = cids_of(alloc, edit) else {
        return false;
    };
    let is_top_last = !row.add.contains(&row.top) || come.last() == Some(&edit.root);
    are_at(nodes, row.add, &come) && is_top_last
}

/// Whether the values before are the row's.
fn are_previous(row: &Row, previous: &[Option<Cid>]) -> bool {
    for (place, found) in previous.iter().enumerate() {
        match row.previous.get(place) {
            Some(number) if number.map(value) == *found => {}
            _ => return false,
        }
    }
    row.previous.len() == previous.len()
}

/// Whether an edit is as the row says.
fn is_of_row(alloc: Global, nodes: &[Arc<Block<Toy>>], row: &Row, edit: &BatchEdit<Toy>) -> bool {
    cid_at(nodes, Some(row.top)) == Some(edit.root)
        && come_as(alloc, nodes, row, edit)
        && are_at(nodes, row.drop, &edit.drop)
        && are_previous(row, &edit.previous)
}

/// Whether the batch of a row does so over its blocks.
fn edits_as(
    alloc: Global,
    nodes: &[Arc<Block<Toy>>],
    row: &Row,
    blocks: &[Arc<Block<Toy>>],
) -> bool {
    let (Some(root), Ok(changes)) = (
        cid_at(nodes, row.before.last().copied()),
        changes_of(alloc, row),
    ) else {
        return false;
    };
    let (answer, _) = applied::<Toy, 2>(alloc, blocks, root, &changes);
    match answer {
        Ok(edit) => is_of_row(alloc, nodes, row, &edit),
        Err(_) => false,
    }
}

/// Whether the batches of these rows do.
fn all_edit_as(alloc: Global, nodes: &[Arc<Block<Toy>>], rows: &[Row]) -> bool {
    for row in rows {
        match nodes_at(alloc, nodes, row.before) {
            Ok(blocks) if edits_as(alloc, nodes, row, &blocks) => {}
            _ => return false,
        }
    }
    true
}

#[test]
fn batches_that_change_nothing(rt: HostRuntime) {
    let nodes = nodes(rt.alloc()).expect(&rt, "nodes");
    assert!(rt; all_edit_as(rt.alloc(), &nodes, &SMALL));
}

#[test]
fn batches_of_one_change(rt: HostRuntime) {
    let nodes = nodes(rt.alloc()).expect(&rt, "nodes");
    assert!(rt; all_edit_as(rt.alloc(), &nodes, &SINGLE));
}

#[test]
fn batches_that_raise_and_prune(rt: HostRuntime) {
    let nodes = nodes(rt.alloc()).expect(&rt, "nodes");
    assert!(rt; all_edit_as(rt.alloc(), &nodes, &RISING));
}

#[test]
fn batches_of_several_changes(rt: HostRuntime) {
    let nodes = nodes(rt.alloc()).expect(&rt, "nodes");
    assert!(rt; all_edit_as(rt.alloc(), &nodes, &MIXED));
}
