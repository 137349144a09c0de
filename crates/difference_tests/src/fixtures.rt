//! Keys with their values in two trees, the trees from scratch, and what a comparison answers.

ghost use Rattle.std.specs.Prelude.{◌≤◌};

use block::Block;
use cid::digests::Toy;
use cid::{Cid, Digest};
use difference::{Difference, DifferenceFault, difference, missing};
use lookups::BlockMap;
use scratch::{Built, build, is_ascending};
use std::alloc::{AllocError, Global};
use std::sync::Arc;

/// The place of a key among all, and the number of its value in both trees, or 0 where the key isn't there.
#[derive(Clone, Copy)]
pub(crate) struct Known {
    pub(crate) place: u8,
    pub(crate) before: u8,
    pub(crate) after: u8,
}

pub(crate) type Pairs = Vec<(Vec<u8>, Cid)>;

pub(crate) type Blocks<D> = Vec<Arc<Block<D>>>;

/// Keys, four for each of 24 places, whose last digit is from 0 to 3: under the toy digest with two zero bits a layer, the
/// key's layer.
static KEYS: [&[u8]; 96] = [
    b"k/000", b"k/001", b"k/002", b"k/003", b"k/010", b"k/011", b"k/012", b"k/013", b"k/020",
    b"k/021", b"k/022", b"k/023", b"k/030", b"k/031", b"k/032", b"k/033", b"k/040", b"k/041",
    b"k/042", b"k/043", b"k/050", b"k/051", b"k/052", b"k/053", b"k/060", b"k/061", b"k/062",
    b"k/063", b"k/070", b"k/071", b"k/072", b"k/073", b"k/080", b"k/081", b"k/082", b"k/083",
    b"k/090", b"k/091", b"k/092", b"k/093", b"k/100", b"k/101", b"k/102", b"k/103", b"k/110",
    b"k/111", b"k/112", b"k/113", b"k/120", b"k/121", b"k/122", b"k/123", b"k/130", b"k/131",
    b"k/132", b"k/133", b"k/140", b"k/141", b"k/142", b"k/143", b"k/150", b"k/151", b"k/152",
    b"k/153", b"k/160", b"k/161", b"k/162", b"k/163", b"k/170", b"k/171", b"k/172", b"k/173",
    b"k/180", b"k/181", b"k/182", b"k/183", b"k/190", b"k/191", b"k/192", b"k/193", b"k/200",
    b"k/201", b"k/202", b"k/203", b"k/210", b"k/211", b"k/212", b"k/213", b"k/220", b"k/221",
    b"k/222", b"k/223", b"k/230", b"k/231", b"k/232", b"k/233",
];

/// The key at this place.
pub(crate) fn key_at(place: u8) -> &'static [u8] {
    KEYS[usize::from(place) % 96]
}

/// The value of this number.
pub(crate) fn value(number: u8) -> Cid {
    Cid::of::<Toy>(&[number])
}

/// The value of this number, and none for 0.
pub(crate) fn value_of(number: u8) -> Option<Cid> {
    if number == 0 {
        return None;
    }
    Some(value(number))
}

/// The pairs of the old tree, or of the new one.
fn pairs_of(alloc: Global, all: &[Known], is_old: bool) -> Result<Pairs, AllocError> {
    let mut pairs = Vec::new(alloc);
    for known in all {
        let number = if is_old { known.before } else { known.after };
        if let Some(value) = value_of(number) {
            pairs.push((Vec::from_slice(alloc, key_at(known.place))?, value))?;
        }
    }
    Ok(pairs)
}

/// The old tree from scratch, or the new one.
fn tree_of<D: Digest, const B: u8>(alloc: Global, all: &[Known], is_old: bool) -> Option<Built<D>>
    requires least { 1 ≤ B }
    requires most { B ≤ 8 }
{
    let pairs = pairs_of(alloc, all, is_old).ok()?;
    if !is_ascending(&pairs) {
        return None;
    }
    build::<D, B, Vec<u8>, _>(alloc, &pairs).ok()
}

/// Two trees.
#[derive(Drop)]
pub(crate) struct Trees<D: Digest> {
    pub(crate) old: Built<D>,
    pub(crate) new: Built<D>,
}

/// The trees of these keys.
pub(crate) fn trees_of<D: Digest, const B: u8>(alloc: Global, all: &[Known]) -> Option<Trees<D>>
    requires least { 1 ≤ B }
    requires most { B ≤ 8 }
{
    let old = tree_of::<D, B>(alloc, all, true)?;
    let new = tree_of::<D, B>(alloc, all, false)?;
    Some(Trees { old, new })
}

/// The blocks but those with one CID.
fn add_others<D: Digest>(
    others: &mut Blocks<D>,
    blocks: &[Arc<Block<D>>],
    cid: Cid,
) -> Result<(), AllocError> {
    for block in blocks {
        if block.cid() != cid {
            others.push(Arc::try_clone(block)?)?;
        }
    }
    Ok(())
}

/// The blocks of both trees, without those with this CID.
pub(crate) fn blocks_without<D: Digest>(
    alloc: Global,
    trees: &Trees<D>,
    cid: Cid,
) -> Result<Blocks<D>, AllocError> {
    let mut blocks = Vec::new(alloc);
    add_others(&mut blocks, &trees.old.blocks, cid)?;
    add_others(&mut blocks, &trees.new.blocks, cid)?;
    Ok(blocks)
}

/// What a comparison over these blocks answers, and how many of them were read for it.
pub(crate) fn compared<D: Digest, const B: u8>(
    alloc: Global,
    blocks: &[Arc<Block<D>>],
    old: Cid,
    new: Cid,
) -> (Result<Difference<D>, DifferenceFault>, u64)
    requires { 1 ≤ B }
{
    let Ok(mut map) = BlockMap::new(alloc, blocks) else {
        return (Err(DifferenceFault::NoMemory), 0);
    };
    let answer = difference::<D, B, _, _>(alloc, &mut map, old, new);
    (answer, map.reads())
}

/// What is missing over these blocks.
pub(crate) fn missing_over<D: Digest, const B: u8>(
    alloc: Global,
    blocks: &[Arc<Block<D>>],
    old: Cid,
    new: Cid,
) -> Result<Vec<Cid>, DifferenceFault>
    requires { 1 ≤ B }
{
    let mut map = BlockMap::new(alloc, blocks)?;
    missing::<D, B, _, _>(alloc, &mut map, old, new)
}
