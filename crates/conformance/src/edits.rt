//! Puts and deletes over whole trees, beside the trees from scratch of the pairs that they leave.

use crate::fixtures::{are_of, edited, tree, tree_of, value};
use block::{Block, Collided};
use cid::Cid;
use cid::digests::{Size, Toy};
use edit::{Edit, EditFault};
use scratch::Built;
use std::alloc::{AllocError, Global};
use std::sync::Arc;

type Keys = &'static [&'static [u8]];

/// The keys of the tree of five nodes.
const FIVE: Keys = &[b"a/p0", b"a/q2", b"a/r0"];

/// How many blocks an edit adds and drops, and how many bytes the added ones have.
fn sizes(edit: &Edit<Toy>) -> (usize, usize, usize) {
    let mut bytes = 0usize;
    for block in &edit.add {
        bytes = bytes.saturating_add(block.bytes().len());
    }
    (edit.add.len(), edit.drop.len(), bytes)
}

/// Adds the blocks that come by an edit to others.
fn add_come(blocks: &mut Vec<Arc<Block<Toy>>>, come: &[Arc<Block<Toy>>]) -> Result<(), AllocError> {
    for block in come {
        blocks.push(Arc::try_clone(block)?)?;
    }
    Ok(())
}

/// Adds some blocks to others, but for those of these CIDs.
fn add_others(
    blocks: &mut Vec<Arc<Block<Toy>>>,
    more: &[Arc<Block<Toy>>],
    cids: &[Cid],
) -> Result<(), AllocError> {
    for block in more {
        if !cids.contains(&block.cid()) {
            blocks.push(Arc::try_clone(block)?)?;
        }
    }
    Ok(())
}

/// Whether an edit leaves this tree: its root, and of the blocks before those that it doesn't drop with those that it adds,
/// and no others.
fn leaves(alloc: Global, before: &Built<Toy>, edit: &Edit<Toy>, after: &Built<Toy>) -> bool {
    let mut blocks = Vec::new(alloc);
    add_others(&mut blocks, &before.blocks, &edit.drop).is_ok()
        && add_come(&mut blocks, &edit.add).is_ok()
        && are_of(alloc, edit.root, &blocks, after)
}

/// A row of the table of edits.
#[derive(Drop)]
struct Row {
    before: Keys,
    key: &'static [u8],
    after: Keys,
    most_reads: u64,
    /// Blocks added, blocks dropped, and bytes of the added blocks.
    sizes: (usize, usize, usize),
}

const PUTS: [Row; 5] = [
    Row {
        before: &[],
        key: b"a/b0",
        after: &[b"a/b0"],
        most_reads: 1,
        sizes: (1, 1, 64),
    },
    Row {
        before: &[b"a/p0", b"a/r0"],
        key: b"a/q3",
        after: &[b"a/p0", b"a/q3", b"a/r0"],
        most_reads: 4,
        sizes: (7, 1, 460),
    },
    Row {
        before: &[b"a/q2"],
        key: b"a/p0",
        after: &[b"a/p0", b"a/q2"],
        most_reads: 3,
        sizes: (3, 1, 215),
    },
    Row {
        before: FIVE,
        key: b"a/q0",
        after: &[b"a/p0", b"a/q0", b"a/q2", b"a/r0"],
        most_reads: 3,
        sizes: (3, 3, 310),
    },
    Row {
        before: &[b"a/r0"],
        key: b"a/p3",
        after: &[b"a/p3", b"a/r0"],
        most_reads: 4,
        sizes: (3, 0, 198),
    },
];

const DELETES: [Row; 3] = [
    Row {
        before: FIVE,
        key: b"a/q2",
        after: &[b"a/p0", b"a/r0"],
        most_reads: 6,
        sizes: (1, 5, 119),
    },
    Row {
        before: FIVE,
        key: b"a/p0",
        after: &[b"a/q2", b"a/r0"],
        most_reads: 6,
        sizes: (1, 3, 104),
    },
    Row {
        before: &[b"a/q2"],
        key: b"a/q2",
        after: &[],
        most_reads: 6,
        sizes: (1, 1, 7),
    },
];

/// Whether an edit of a row is as it says, found this value, and leaves the tree after it.
fn is_of_row(
    alloc: Global,
    row: &Row,
    [before, after]: [&Built<Toy>; 2],
    edit: &Edit<Toy>,
    previous: Option<Cid>,
) -> bool {
    leaves(alloc, before, edit, after) && sizes(edit) == row.sizes && edit.previous == previous
}

/// Whether the row's key is put or deleted as the row says, and had this value before.
fn edits_as(alloc: Global, row: &Row, value: Option<Cid>, previous: Option<Cid>) -> bool {
    let (Some(before), Some(after)) = (tree(alloc, row.before), tree(alloc, row.after)) else {
        return false;
    };
    let (answer, reads) = edited::<Toy, 2>(alloc, &before.blocks, before.root, row.key, value);
    match answer {
        Ok(edit) => {
            reads <= row.most_reads && is_of_row(alloc, row, [&before, &after], &edit, previous)
        }
        Err(_) => false,
    }
}

#[test]
fn puts_by_their_sizes(rt: HostRuntime) {
    for row in &PUTS {
        assert!(rt; edits_as(rt.alloc(), row, Some(value()), None));
    }
}

#[test]
fn deletes_by_their_sizes(rt: HostRuntime) {
    for row in &DELETES {
        assert!(rt; edits_as(rt.alloc(), row, None, Some(value())));
    }
}

/// Whether an edit has no effect on the tree with this root, and found the value.
fn has_no_effect(edit: &Edit<Toy>, root: Cid) -> bool {
    sizes(edit) == (0, 0, 0) && edit.root == root && edit.previous == Some(value())
}

/// Whether a put of a key with the value that it has changes nothing.
fn changes_nothing(alloc: Global, keys: &[&[u8]], key: &[u8], most_reads: u64) -> bool {
    let Some(before) = tree(alloc, keys) else {
        return false;
    };
    let value = Some(value());
    let (answer, reads) = edited::<Toy, 2>(alloc, &before.blocks, before.root, key, value);
    match answer {
        Ok(edit) => reads <= most_reads && has_no_effect(&edit, before.root),
        Err(_) => false,
    }
}

/// The keys of a tree, one of them, and in how many reads at most it is found.
const KEYS_AGAIN: [(Keys, &[u8], u64); 3] = [
    (&[b"a/b0"], b"a/b0", 1),
    (FIVE, b"a/q2", 3),
    (FIVE, b"a/p0", 3),
];

#[test]
fn the_same_put_twice(rt: HostRuntime) {
    for (keys, key, most_reads) in &KEYS_AGAIN {
        assert!(rt; changes_nothing(rt.alloc(), keys, key, *most_reads));
    }
}

/// Whether an edit puts one new block, the root's, in the place of the root before.
fn replaces_the_root(edit: &Edit<Toy>, root: Cid) -> bool {
    match (edit.add.as_slice(), edit.drop.as_slice()) {
        ([added], [dropped]) => {
            (added.cid(), *dropped) == (edit.root, root)
                && added.bytes().len() == 144
                && edit.previous == Some(value())
        }
        _ => false,
    }
}

/// Whether a put of another value of `a/q2` over the tree before leaves the tree after.
fn leaves_the_other(alloc: Global, before: &Built<Toy>, after: &Built<Toy>, other: Cid) -> bool {
    let (answer, reads) = edited::<Toy, 2>(
        alloc,
        &before.blocks,
        before.root,
        b"a/q2",
        Some(other),
    );
    match answer {
        Ok(edit) => {
            reads <= 3
                && replaces_the_root(&edit, before.root)
                && leaves(alloc, before, &edit, after)
        }
        Err(_) => false,
    }
}

/// Whether that is so of the tree of five nodes.
fn leaves_the_other_of_three(alloc: Global, other: Cid) -> bool {
    let pairs: [(&[u8], Cid); 3] = [(b"a/p0", value()), (b"a/q2", other), (b"a/r0", value())];
    match (tree(alloc, FIVE), tree_of::<Toy, 2, _>(alloc, &pairs)) {
        (Some(before), Some(after)) => leaves_the_other(alloc, &before, &after, other),
        _ => false,
    }
}

#[test]
fn another_value_of_a_key(rt: HostRuntime) {
    let other = Cid::of::<Toy>(b"another record");
    assert!(rt; leaves_the_other_of_three(rt.alloc(), other));
}

/// Whether a delete of a key misses it in the tree of five nodes, in so many reads at most.
fn delete_is_missed(alloc: Global, key: &[u8], most_reads: u64) -> bool {
    let Some(before) = tree::<Toy>(alloc, FIVE) else {
        return false;
    };
    let (answer, reads) = edited::<Toy, 2>(alloc, &before.blocks, before.root, key, None);
    match answer {
        Err(EditFault::NoSuchKey) => reads <= most_reads,
        _ => false,
    }
}

#[test]
fn delete_of_a_key_that_is_not_there(rt: HostRuntime) {
    assert!(rt; delete_is_missed(rt.alloc(), b"a/q1", 6));
}

/// Whether a put of a value, or a delete, misses a block of a tree of which there are only these; none where it had another
/// fault.
fn misses(
    alloc: Global,
    blocks: &[Arc<Block<Toy>>],
    root: Cid,
    key: &[u8],
    value: Option<Cid>,
) -> Option<bool> {
    let (answer, _) = edited::<Toy, 2>(alloc, blocks, root, key, value);
    match answer {
        Ok(_) => Some(false),
        Err(EditFault::Missing(_)) => Some(true),
        Err(_) => None,
    }
}

/// Whether the edits miss a block of the tree: a put of `a/p1` and a delete of `a/p0` where it stands on the way to the left,
/// a put of `a/q2` where it is the top, and a delete of `a/q2` in any case.
fn edits_miss(alloc: Global, others: &[Arc<Block<Toy>>], root: Cid, left: bool, top: bool) -> bool {
    misses(alloc, others, root, b"a/p1", Some(value())) == Some(left)
        && misses(alloc, others, root, b"a/q2", Some(value())) == Some(top)
        && misses(alloc, others, root, b"a/p0", None) == Some(left)
        && misses(alloc, others, root, b"a/q2", None) == Some(true)
}

/// Whether they miss the block at a place.
fn edits_miss_the_block(
    alloc: Global,
    before: &Built<Toy>,
    missing: usize,
    left: bool,
    top: bool,
) -> bool {
    let Some(block) = before.blocks.get(missing) else {
        return false;
    };
    let mut others = Vec::new(alloc);
    add_others(&mut others, &before.blocks, &[block.cid()]).is_ok()
        && edits_miss(alloc, &others, before.root, left, top)
}

/// The places of the blocks of the tree of five nodes, each with whether it stands on the way to the left and whether it is
/// the top: the top, the two nodes before its key, and the two after it.
const MISSING: [(usize, bool, bool); 5] = [
    (0, true, true),
    (1, true, false),
    (2, true, false),
    (3, false, false),
    (4, false, false),
];

/// Whether the edits miss each block of the tree.
fn edits_miss_each_block(alloc: Global, before: &Built<Toy>) -> bool {
    for (missing, left, top) in &MISSING {
        if !edits_miss_the_block(alloc, before, *missing, *left, *top) {
            return false;
        }
    }
    true
}

#[test]
fn edits_over_a_source_that_lacks_a_block(rt: HostRuntime) {
    let before = tree(rt.alloc(), FIVE).expect(&rt, "a tree");
    assert!(rt; edits_miss_each_block(rt.alloc(), &before));
}

/// The two blocks of the clash that an edit of the tree of these keys meets.
fn clash_of(
    alloc: Global,
    keys: &[&[u8]],
    key: &[u8],
    value: Option<Cid>,
) -> Option<Collided<Size>> {
    let before = tree::<Size>(alloc, keys)?;
    let (answer, _) = edited::<Size, 2>(alloc, &before.blocks, before.root, key, value);
    match answer {
        Err(EditFault::Clash(pair)) => Some(pair),
        _ => None,
    }
}

/// Whether the tree of a key is of one node, of these bytes, 64 in all.
fn is_lone(alloc: Global, key: &[u8], bytes: &[u8]) -> bool {
    let Some(tree) = tree::<Size>(alloc, &[key]) else {
        return false;
    };
    match tree.blocks.as_slice() {
        [block] => block.bytes() == bytes && bytes.len() == 64,
        _ => false,
    }
}

/// Whether two blocks are the nodes of one key each, `a/p0` and `a/r0`, in this order.
fn are_both_sides(alloc: Global, one: &[u8], other: &[u8]) -> bool {
    is_lone(alloc, b"a/p0", one) && is_lone(alloc, b"a/r0", other)
}

/// Whether a clash is of these two, in either order.
fn is_of_both_sides(alloc: Global, clash: Option<Collided<Size>>) -> bool {
    match clash {
        Some(pair) => {
            let (one, other) = (pair.one().bytes(), pair.other().bytes());
            are_both_sides(alloc, one, other) || are_both_sides(alloc, other, one)
        }
        None => false,
    }
}

#[test]
fn clash_of_the_two_sides_of_a_put(rt: HostRuntime) {
    let clash = clash_of(rt.alloc(), &[b"a/p0", b"a/r0"], b"a/q2", Some(value()));
    assert!(rt; is_of_both_sides(rt.alloc(), clash));
}

/// Whether a clash is of two blocks of 104 bytes that differ.
fn is_of_two_tops(clash: Option<Collided<Size>>) -> bool {
    match clash {
        Some(pair) => {
            let (one, other) = (pair.one().bytes(), pair.other().bytes());
            one.len() == 104 && other.len() == 104 && one != other
        }
        None => false,
    }
}

#[test]
fn clash_of_the_tops_before_and_after_a_delete(rt: HostRuntime) {
    let clash = clash_of(rt.alloc(), &[b"a/p0", b"a/p00", b"a/q1"], b"a/p00", None);
    assert!(rt; is_of_two_tops(clash));
}
