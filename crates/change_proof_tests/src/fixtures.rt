//! A change of twenty keys, and the trees before and after it.

use block::Block;
use change_proofs::{
    ChangeFault, KeyChange, are_key_changes, prove_inversion_over, verify_inversion_blocks,
};
use cid::Cid;
use cid::digests::Toy;
use lookups::BlockMap;
use scratch::{Built, build, is_ascending};
use std::alloc::{AllocError, Allocator, Global};
use std::sync::Arc;

pub(crate) type Blocks = Vec<Arc<Block<Toy>>>;

/// Keys, four for each of 12 places, whose last digit is from 0 to 3: under the toy digest with two zero bits a layer, the
/// key's layer.
pub(crate) static KEYS: [&[u8]; 48] = [
    b"k/000", b"k/001", b"k/002", b"k/003", b"k/010", b"k/011", b"k/012", b"k/013", b"k/020",
    b"k/021", b"k/022", b"k/023", b"k/030", b"k/031", b"k/032", b"k/033", b"k/040", b"k/041",
    b"k/042", b"k/043", b"k/050", b"k/051", b"k/052", b"k/053", b"k/060", b"k/061", b"k/062",
    b"k/063", b"k/070", b"k/071", b"k/072", b"k/073", b"k/080", b"k/081", b"k/082", b"k/083",
    b"k/090", b"k/091", b"k/092", b"k/093", b"k/100", b"k/101", b"k/102", b"k/103", b"k/110",
    b"k/111", b"k/112", b"k/113",
];

/// One of two trees.
#[derive(Clone, Copy)]
pub(crate) enum Side {
    Before,
    After,
}

/// The value of this number.
pub(crate) fn value(number: u8) -> Cid {
    Cid::of::<Toy>(&[number])
}

/// The value of the key at a place: before, every third has one; after, one in five of all has another one, or none.
pub(crate) fn value_at(side: Side, place: usize) -> Option<Cid> {
    match side {
        Side::After if place % 5 == 0 && place % 4 == 0 => None,
        Side::After if place % 5 == 0 => Some(value(2)),
        _ if place % 3 == 0 => Some(value(1)),
        _ => None,
    }
}

/// The pairs of a side.
fn pairs_of(alloc: Global, side: Side) -> Result<Vec<(Vec<u8>, Cid)>, AllocError> {
    let mut pairs = Vec::new(alloc);
    for place in 0..48usize {
        if let Some(value) = value_at(side, place) {
            pairs.push((Vec::from_slice(alloc, KEYS[place])?, value))?;
        }
    }
    Ok(pairs)
}

/// The tree of these pairs from scratch.
pub(crate) fn built(alloc: Global, pairs: &[(Vec<u8>, Cid)]) -> Option<Built<Toy>> {
    if !is_ascending(pairs) {
        return None;
    }
    build::<Toy, 2, Vec<u8>, _>(alloc, pairs).ok()
}

/// The tree of a side from scratch.
pub(crate) fn tree_of(alloc: Global, side: Side) -> Option<Built<Toy>> {
    let pairs = pairs_of(alloc, side).ok()?;
    built(alloc, &pairs)
}

/// The changes between them.
pub(crate) fn changes<A: Allocator>(alloc: A) -> Result<Vec<KeyChange<'static>, A>, AllocError> {
    let mut changes = Vec::new(alloc);
    for number in 0..10usize {
        let place = 5 * number;
        changes.push(KeyChange {
            key: KEYS[place],
            before: value_at(Side::Before, place),
            after: value_at(Side::After, place),
        })?;
    }
    Ok(changes)
}

/// Both trees, and the changes.
#[derive(Drop)]
pub(crate) struct Both {
    pub(crate) before: Built<Toy>,
    pub(crate) after: Built<Toy>,
    pub(crate) changes: Vec<KeyChange<'static>>,
}

/// Both, where there is memory.
pub(crate) fn two_trees(alloc: Global) -> Option<Both> {
    Some(Both {
        before: tree_of(alloc, Side::Before)?,
        after: tree_of(alloc, Side::After)?,
        changes: changes(alloc).ok()?,
    })
}

/// What these blocks show of these changes between two roots. What are no changes is answered as if there were no memory.
pub(crate) fn verified(
    alloc: Global,
    before: Cid,
    after: Cid,
    blocks: &[Arc<Block<Toy>>],
    changes: &[KeyChange<'_>],
) -> Result<(), ChangeFault> {
    if !are_key_changes(changes) {
        return Err(ChangeFault::NoMemory);
    }
    verify_inversion_blocks::<Toy, 2, _>(alloc, before, after, blocks, changes)
}

/// The nodes that show these changes in the tree with this root over these blocks. What are no changes is answered as if there
/// were no memory.
pub(crate) fn proved(
    alloc: Global,
    blocks: &[Arc<Block<Toy>>],
    after: Cid,
    changes: &[KeyChange<'_>],
) -> Result<Blocks, ChangeFault> {
    if !are_key_changes(changes) {
        return Err(ChangeFault::NoMemory);
    }
    let mut map = BlockMap::new(alloc, blocks)?;
    prove_inversion_over::<Toy, 2, _, _>(alloc, &mut map, after, changes)
}

/// Adds some blocks to others, but for the one of this CID.
pub(crate) fn add_others(
    blocks: &mut Blocks,
    more: &[Arc<Block<Toy>>],
    cid: Option<Cid>,
) -> Result<(), AllocError> {
    for block in more {
        if Some(block.cid()) != cid {
            blocks.push(Arc::try_clone(block)?)?;
        }
    }
    Ok(())
}
