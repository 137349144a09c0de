//! Keys, values and changes, trees from scratch, and batches over blocks.

ghost use Rattle.std.specs.Prelude.{◌≤◌};

use block::Block;
use cid::digests::Toy;
use cid::{Cid, Digest};
use edit::{BatchEdit, Change, EditFault, apply, are_changes};
use lookups::BlockMap;
use scratch::{Built, build, is_ascending};
use std::alloc::{AllocError, Allocator, Global};
use std::sync::Arc;

pub(crate) type Pairs = Vec<(Vec<u8>, Cid)>;

pub(crate) type Blocks<D> = Vec<Arc<Block<D>>>;

/// Keys, four for each of 24 places, whose last digit is from 0 to 3: under the toy digest with two zero bits a layer, the
/// key's layer.
pub(crate) static KEYS: [&[u8]; 96] = [
    b"k/000", b"k/001", b"k/002", b"k/003", b"k/010", b"k/011", b"k/012", b"k/013", b"k/020",
    b"k/021", b"k/022", b"k/023", b"k/030", b"k/031", b"k/032", b"k/033", b"k/040", b"k/041",
    b"k/042", b"k/043", b"k/050", b"k/051", b"k/052", b"k/053", b"k/060", b"k/061", b"k/062",
    b"k/063", b"k/070", b"k/071", b"k/072", b"k/073", b"k/080", b"k/081", b"k/082", b"k/083",
    b"k/090", b"k/091", b"k/092", b"k/093", b"k/100", b"k/101", b"k/102", b"k/103", b"k/110",
    b"k/111", b"k/112", b"k/113", b"k/120", b"k/121", b"k/122", b"k/123", b"k/130", b"k/131",
    b"k/132", b"k/133", b"k/140", b"k/141", b"k/142", b"k/143", b"k/150", b"k/151", b"k/152",
    b"k/153", b"k/160", b"k/161", b"k/162", b"k/163", b"k/170", b"k/171", b"k/172", b"k/173",
    b"k/180", b"k/181", b"k/182", b"k/183", b"k/190", b"k/191", b"k/192", b"k/193", b"k/200",
    b"k/201", b"k/202", b"k/203", b"k/210", b"k/211", b"k/212", b"k/213", b"k/220", b"k/221",
    b"k/222", b"k/223", b"k/230", b"k/231", b"k/232", b"k/233",
];

/// The value of this number.
pub(crate) fn value(number: u8) -> Cid {
    Cid::of::<Toy>(&[number])
}

/// The pairs of every third key.
fn pairs_of_every_third(alloc: Global) -> Result<Pairs, AllocError> {
    let mut pairs = Vec::new(alloc);
    for place in 0..32usize {
        pairs.push((Vec::from_slice(alloc, KEYS[3 * place])?, value(1)))?;
    }
    Ok(pairs)
}

/// The same, where there is memory.
pub(crate) fn thirty_two_pairs(alloc: Global) -> Option<Pairs> {
    pairs_of_every_third(alloc).ok()
}

/// Changes of every fifth key, one in four of which takes it away. Of the keys some are in the tree of every third one.
pub(crate) fn twenty_changes<A: Allocator>(
    alloc: A,
) -> Result<Vec<Change<'static>, A>, AllocError> {
    let mut changes = Vec::new(alloc);
    for place in 0..20usize {
        let value = match place % 4 {
            0 => None,
            number => Some(value(number as u8)),
        };
        let key = KEYS[(5 * place) % 96];
        changes.push(Change { key, value })?;
    }
    Ok(changes)
}

/// The tree of these pairs from scratch, where it can be built.
pub(crate) fn tree_of<D: Digest, const B: u8>(
    alloc: Global,
    pairs: &[(Vec<u8>, Cid)],
) -> Option<Built<D>>
    requires least { 1 ≤ B }
    requires most { B ≤ 8 }
{
    if !is_ascending(pairs) {
        return None;
    }
    build::<D, B, Vec<u8>, _>(alloc, pairs).ok()
}

/// What a batch over these blocks answers, and how many of them were read for it. What are no changes is answered as if there
/// were no memory.
pub(crate) fn applied<D: Digest, const B: u8>(
    alloc: Global,
    blocks: &[Arc<Block<D>>],
    root: Cid,
    changes: &[Change<'_>],
) -> (Result<BatchEdit<D>, EditFault<D>>, u64)
    requires least { 1 ≤ B }
    requires most { B ≤ 8 }
{
    if !are_changes(changes) {
        return (Err(EditFault::NoMemory), 0);
    }
    let Ok(mut map) = BlockMap::new(alloc, blocks) else {
        return (Err(EditFault::NoMemory), 0);
    };
    let answer = apply::<D, B, _, _>(alloc, &mut map, root, changes);
    (answer, map.reads())
}

/// The CIDs of some blocks, sorted.
fn cids_of<D: Digest>(alloc: Global, blocks: &[Arc<Block<D>>]) -> Result<Vec<Cid>, AllocError> {
    let mut cids = Vec::new(alloc);
    for block in blocks {
        cids.push(block.cid())?;
    }
    cids.sort()?;
    Ok(cids)
}

/// Whether these are the root and the blocks of a tree, and no others, in any order.
pub(crate) fn are_of<D: Digest>(
    alloc: Global,
    root: Cid,
    blocks: &[Arc<Block<D>>],
    tree: &Built<D>,
) -> bool {
    match (cids_of(alloc, blocks), cids_of(alloc, &tree.blocks)) {
        (Ok(cids), Ok(wanted)) => root == tree.root && cids == wanted,
        _ => false,
    }
}

/// Adds some blocks to others, but for those of these CIDs.
pub(crate) fn add_others<D: Digest>(
    blocks: &mut Blocks<D>,
    more: &[Arc<Block<D>>],
    cids: &[Cid],
) -> Result<(), AllocError> {
    for block in more {
        if !cids.contains(&block.cid()) {
            blocks.push(Arc::try_clone(block)?)?;
        }
    }
    Ok(())
}

/// Adds the blocks that come by a batch.
fn add_come<D: Digest>(blocks: &mut Blocks<D>, come: &[Arc<Block<D>>]) -> Result<(), AllocError> {
    for block in come {
        blocks.push(Arc::try_clone(block)?)?;
    }
    Ok(())
}

/// Whether there is a block with this CID.
pub(crate) fn have<D: Digest>(blocks: &[Arc<Block<D>>], cid: &Cid) -> bool {
    for block in blocks {
        if block.cid() == *cid {
            return true;
        }
    }
    false
}

/// Whether some of the blocks that come were there before.
fn have_some<D: Digest>(blocks: &[Arc<Block<D>>], come: &[Arc<Block<D>>]) -> bool {
    for block in come {
        if have(blocks, &block.cid()) {
            return true;
        }
    }
    false
}

/// The blocks after a batch; or none where it drops one that wasn't there, or adds one that was.
pub(crate) fn blocks_after<D: Digest>(
    alloc: Global,
    blocks: &[Arc<Block<D>>],
    edit: &BatchEdit<D>,
) -> Option<Blocks<D>> {
    let mut after = Vec::new(alloc);
    let is_kept = add_others(&mut after, blocks, &edit.drop).is_ok();
    if after.len().saturating_add(edit.drop.len()) != blocks.len() {
        return None;
    }
    if is_kept && !have_some(blocks, &edit.add) && add_come(&mut after, &edit.add).is_ok() {
        return Some(after);
    }
    None
}

/// Whether a batch over these blocks leaves this tree: its root, its blocks, and no others.
pub(crate) fn leaves<D: Digest>(
    alloc: Global,
    blocks: &[Arc<Block<D>>],
    edit: &BatchEdit<D>,
    tree: &Built<D>,
) -> bool {
    match blocks_after(alloc, blocks, edit) {
        Some(after) => are_of(alloc, edit.root, &after, tree),
        None => false,
    }
}
