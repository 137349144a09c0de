//! Random histories of puts and deletes, each step beside the tree from scratch of the pairs that it leaves.

ghost use Rattle.std.specs.Prelude.{◌≤◌, ◌<◌};

use crate::fixtures::{are_of, edited, tree_of, value};
use block::Block;
use cid::digests::Toy;
use cid::{Cid, Digest, Sha256};
use edit::{Edit, EditFault};
use std::alloc::{AllocError, Global};
use std::cmp::Ordering;
use std::sync::Arc;

pub(crate) type Pairs = Vec<(Vec<u8>, Cid)>;

pub(crate) type Blocks<D> = Vec<Arc<Block<D>>>;

/// A write of a key: a value to put, or `None` to delete it.
#[derive(Clone, Copy)]
pub(crate) struct Write {
    pub(crate) key: &'static [u8],
    pub(crate) value: Option<Cid>,
}

/// Numbers that look random, the same in each run.
#[derive(Drop)]
struct Numbers {
    state: u64,
}

impl Numbers {
    /// The next number below `bound`.
    fn below(&mut self, bound: usize) -> usize
        requires { 1 ≤ bound }
        ensures { result < bound }
    {
        self.state ^= self.state << 13;
        self.state ^= self.state >> 7;
        self.state ^= self.state << 17;
        (self.state >> 16) as usize % bound
    }
}

/// Keys, four for each of twelve places, whose last digit is from 0 to 3.
static KEYS: [&[u8]; 48] = [
    b"k/000", b"k/001", b"k/002", b"k/003", b"k/010", b"k/011", b"k/012", b"k/013", b"k/020",
    b"k/021", b"k/022", b"k/023", b"k/030", b"k/031", b"k/032", b"k/033", b"k/040", b"k/041",
    b"k/042", b"k/043", b"k/050", b"k/051", b"k/052", b"k/053", b"k/060", b"k/061", b"k/062",
    b"k/063", b"k/070", b"k/071", b"k/072", b"k/073", b"k/080", b"k/081", b"k/082", b"k/083",
    b"k/090", b"k/091", b"k/092", b"k/093", b"k/100", b"k/101", b"k/102", b"k/103", b"k/110",
    b"k/111", b"k/112", b"k/113",
];

/// A write of one of the keys; one in three deletes.
fn random_write<D: Digest>(numbers: &mut Numbers) -> Write {
    let place = numbers.below(12);
    let key = KEYS[4 * place + numbers.below(4)];
    let value = match numbers.below(3) {
        0 => None,
        kind => Some(Cid::of::<D>(&(kind as u64).to_be_bytes())),
    };
    Write { key, value }
}

/// The put of a key.
pub(crate) fn put_of(key: &'static [u8]) -> Write {
    Write {
        key,
        value: Some(value()),
    }
}

/// The place of a key among the pairs, and its value where it is there.
pub(crate) fn place_of(pairs: &Pairs, key: &[u8]) -> (usize, Option<Cid>) {
    for (place, (other, value)) in pairs.iter().enumerate() {
        match other.as_slice().cmp(key) {
            Ordering::Less => {}
            Ordering::Equal => return (place, Some(*value)),
            Ordering::Greater => return (place, None),
        }
    }
    (pairs.len(), None)
}

/// Puts a pair at a place among the pairs.
fn insert(
    alloc: Global,
    pairs: &mut Pairs,
    place: usize,
    key: &[u8],
    value: Cid,
) -> Result<(), AllocError> {
    let key = Vec::from_slice(alloc, key)?;
    if place <= pairs.len() {
        pairs.insert(place, (key, value))?;
    }
    Ok(())
}

/// Does a write to the pairs, and answers the key's value before.
fn write_pairs(alloc: Global, pairs: &mut Pairs, write: &Write) -> Result<Option<Cid>, AllocError> {
    let (place, previous) = place_of(pairs, write.key);
    if previous.is_some() && place < pairs.len() {
        pairs.remove(place);
    }
    if let Some(value) = write.value {
        insert(alloc, pairs, place, write.key, value)?;
    }
    Ok(previous)
}

/// The pairs that some writes left, and the root and the blocks that the same edits left.
#[derive(Drop)]
pub(crate) struct History<D: Digest> {
    pub(crate) pairs: Pairs,
    pub(crate) root: Cid,
    pub(crate) blocks: Blocks<D>,
}

/// The history of no writes.
pub(crate) fn begin<D: Digest, const B: u8>(alloc: Global) -> Option<History<D>>
    requires least { 1 ≤ B }
    requires most { B ≤ 8 }
{
    match tree_of::<D, B, Vec<u8>>(alloc, &[]) {
        Some(empty) => Some(History {
            pairs: Vec::new(alloc),
            root: empty.root,
            blocks: empty.blocks,
        }),
        None => None,
    }
}

impl<D: Digest> History<D> {
    /// Takes out the blocks that an edit drops and adds those that it adds, and answers whether there was memory for it.
    fn take(&mut self, edit: Edit<D>) -> bool {
        let Edit {
            root,
            add,
            drop,
            ..
        } = edit;
        self.root = root;
        self.blocks.retain(|block| !drop.contains(&block.cid()));
        self.push_each(add).is_ok()
    }

    /// Adds the blocks that come by an edit.
    fn push_each(&mut self, add: Vec<Arc<Block<D>>>) -> Result<(), AllocError> {
        for block in add {
            self.blocks.push(block)?;
        }
        Ok(())
    }

    /// Does a write to the tree, and answers whether the key had this value before in it, too.
    fn write_tree<const B: u8>(
        &mut self,
        alloc: Global,
        write: &Write,
        previous: Option<Cid>,
    ) -> bool
        requires least { 1 ≤ B }
        requires most { B ≤ 8 }
    {
        let Write { key, value } = *write;
        let (answer, _) = edited::<D, B>(alloc, &self.blocks, self.root, key, value);
        match answer {
            Ok(edit) => {
                edit.previous == previous
                    && (value.is_some() || previous.is_some())
                    && self.take(edit)
            }
            Err(EditFault::NoSuchKey) => value.is_none() && previous.is_none(),
            Err(_) => false,
        }
    }

    /// Does a write to the pairs and to the tree, and answers whether both had the same value before.
    pub(crate) fn write<const B: u8>(&mut self, alloc: Global, write: &Write) -> bool
        requires least { 1 ≤ B }
        requires most { B ≤ 8 }
    {
        match write_pairs(alloc, &mut self.pairs, write) {
            Ok(previous) => self.write_tree::<B>(alloc, write, previous),
            Err(_) => false,
        }
    }

    /// Whether the root and the blocks are those of the tree from scratch of the pairs.
    pub(crate) fn is_of_its_pairs<const B: u8>(&self, alloc: Global) -> bool
        requires least { 1 ≤ B }
        requires most { B ≤ 8 }
    {
        match tree_of::<D, B, _>(alloc, &self.pairs) {
            Some(built) => are_of(alloc, self.root, &self.blocks, &built),
            None => false,
        }
    }
}

impl<D: Digest> History<D> {
    /// Does so many writes, and answers whether each left the root and the blocks of the tree from scratch, and the value
    /// before.
    fn agrees<const B: u8>(&mut self, alloc: Global, seed: u64, writes: u32) -> bool
        requires least { 1 ≤ B }
        requires most { B ≤ 8 }
    {
        let mut numbers = Numbers { state: seed };
        for _ in 0..writes {
            let write = random_write::<D>(&mut numbers);
            if !self.write::<B>(alloc, &write) || !self.is_of_its_pairs::<B>(alloc) {
                return false;
            }
        }
        true
    }

    /// Whether puts of these keys in this order leave their tree, of five nodes.
    fn leaves_five_nodes<const B: u8>(&mut self, alloc: Global, order: &[&'static [u8]; 3]) -> bool
        requires least { 1 ≤ B }
        requires most { B ≤ 8 }
    {
        for place in 0..3usize {
            let write = put_of(order[place]);
            if !self.write::<B>(alloc, &write) {
                return false;
            }
        }
        self.blocks.len() == 5 && self.is_of_its_pairs::<B>(alloc)
    }
}

/// Whether a history of so many writes does.
fn agrees<D: Digest, const B: u8>(alloc: Global, seed: u64, writes: u32) -> bool
    requires least { 1 ≤ B }
    requires most { B ≤ 8 }
{
    match begin::<D, B>(alloc) {
        Some(mut history) => history.agrees::<B>(alloc, seed, writes),
        None => false,
    }
}

#[test]
fn histories_under_the_toy_digest(rt: HostRuntime) {
    let ones = agrees::<Toy, 1>(rt.alloc(), 1, 500);
    let twos = agrees::<Toy, 2>(rt.alloc(), 2, 1_000);
    assert!(rt; ones && twos && agrees::<Toy, 8>(rt.alloc(), 3, 500));
}

#[test]
fn histories_under_sha_256(rt: HostRuntime) {
    let ones = agrees::<Sha256, 1>(rt.alloc(), 4, 500);
    let twos = agrees::<Sha256, 2>(rt.alloc(), 5, 1_000);
    assert!(rt; ones && twos && agrees::<Sha256, 8>(rt.alloc(), 6, 500));
}

/// The keys of the tree of five nodes in each of their six orders.
const ORDERS: [[&[u8]; 3]; 6] = [
    [b"a/p0", b"a/q2", b"a/r0"],
    [b"a/p0", b"a/r0", b"a/q2"],
    [b"a/q2", b"a/p0", b"a/r0"],
    [b"a/q2", b"a/r0", b"a/p0"],
    [b"a/r0", b"a/p0", b"a/q2"],
    [b"a/r0", b"a/q2", b"a/p0"],
];

/// Whether puts of these keys in this order leave their tree, of five nodes.
fn leave_five_nodes(alloc: Global, order: &[&'static [u8]; 3]) -> bool {
    match begin::<Toy, 2>(alloc) {
        Some(mut history) => history.leaves_five_nodes::<2>(alloc, order),
        None => false,
    }
}

#[test]
fn six_orders_leave_one_tree(rt: HostRuntime) {
    for order in &ORDERS {
        assert!(rt; leave_five_nodes(rt.alloc(), order));
    }
}
