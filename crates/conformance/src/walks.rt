//! Walks over trees of a few hundred keys, beside the sorted list of their pairs.

ghost use Rattle.std.specs.Prelude.{◌≤◌};

use crate::fixtures::{three_pairs, tree_of};
use cid::digests::Toy;
use cid::{Cid, Digest, Sha256};
use lookups::{BlockMap, walk};
use scratch::Built;
use std::alloc::{AllocError, Global};

type Pairs = Vec<(Vec<u8>, Cid)>;

/// How many keys a tree has.
const COUNT: u16 = 300;

/// The key `a/000` of the number 0, and so on to `a/999`.
fn key_of(number: u16) -> [u8; 5] {
    [
        b'a',
        b'/',
        last_digit(number / 100),
        last_digit(number / 10),
        last_digit(number),
    ]
}

fn last_digit(number: u16) -> u8 {
    b'0' + (number % 10) as u8
}

/// The keys `a/000` to `a/299` in their order, each with a value of its own.
fn pairs(alloc: Global) -> Result<Pairs, AllocError> {
    let mut pairs = Vec::new(alloc);
    for number in 0..COUNT {
        let key = key_of(number);
        pairs.push((Vec::from_slice(alloc, &key)?, Cid::of::<Toy>(&key)))?;
    }
    Ok(pairs)
}

/// Whether these are the first `limit` pairs whose key isn't below `from`, out of the sorted list.
fn are_first(walked: &Pairs, pairs: &Pairs, from: &[u8], limit: usize) -> bool {
    let mut count = 0usize;
    for pair in pairs {
        if count < limit && pair.0.as_slice() >= from {
            match walked.get(count) {
                Some(found) if found == pair => count += 1,
                _ => return false,
            }
        }
    }
    count == walked.len()
}

const STARTS: [&[u8]; 9] = [
    b"", b"a", b"a/000", b"a/0000", b"a/123", b"a/199", b"a/25", b"a/299", b"b",
];

const LIMITS: [usize; 7] = [0, 1, 2, 7, 64, 300, usize::MAX];

/// A walk's pairs, and how many blocks were read for it.
#[derive(Drop)]
struct Walked {
    pairs: Pairs,
    reads: u64,
}

/// A walk over a tree, where there was memory for it.
fn walk_of<D: Digest, const B: u8>(
    alloc: Global,
    tree: &Built<D>,
    from: &[u8],
    limit: usize,
) -> Option<Walked>
    requires { 1 ≤ B }
{
    let Ok(mut map) = BlockMap::new(alloc, &tree.blocks) else {
        return None;
    };
    match walk::<D, B, _, _>(alloc, &mut map, tree.root, from, limit) {
        Ok(pairs) => Some(Walked {
            pairs,
            reads: map.reads(),
        }),
        Err(_) => None,
    }
}

/// Whether a walk gives the sorted list, and reads each node once at most.
fn is_listed<D: Digest, const B: u8>(
    alloc: Global,
    pairs: &Pairs,
    tree: &Built<D>,
    from: &[u8],
    limit: usize,
) -> bool
    requires { 1 ≤ B }
{
    match walk_of::<D, B>(alloc, tree, from, limit) {
        Some(walked) => {
            are_first(&walked.pairs, pairs, from, limit) && walked.reads <= tree.blocks.len() as u64
        }
        None => false,
    }
}

/// Whether each walk of the table from one key on gives the sorted list.
fn are_listed<D: Digest, const B: u8>(
    alloc: Global,
    pairs: &Pairs,
    tree: &Built<D>,
    from: &[u8],
) -> bool
    requires { 1 ≤ B }
{
    for limit in &LIMITS {
        if !is_listed::<D, B>(alloc, pairs, tree, from, *limit) {
            return false;
        }
    }
    true
}

/// Whether each walk of the table gives the sorted list.
fn are_all_listed<D: Digest, const B: u8>(alloc: Global, pairs: &Pairs, tree: &Built<D>) -> bool
    requires { 1 ≤ B }
{
    for from in &STARTS {
        if !are_listed::<D, B>(alloc, pairs, tree, from) {
            return false;
        }
    }
    true
}

/// Whether a walk of all keys gives so many, and reads each node once.
fn reads_all<D: Digest, const B: u8>(alloc: Global, tree: &Built<D>, count: usize) -> bool
    requires { 1 ≤ B }
{
    match walk_of::<D, B>(alloc, tree, b"", usize::MAX) {
        Some(all) => all.pairs.len() == count && all.reads == tree.blocks.len() as u64,
        None => false,
    }
}

/// Whether all this is so of the tree of these pairs.
fn agrees<D: Digest, const B: u8>(alloc: Global, pairs: &Pairs) -> bool
    requires least { 1 ≤ B }
    requires most { B ≤ 8 }
{
    match tree_of::<D, B, _>(alloc, pairs) {
        Some(tree) => {
            are_all_listed::<D, B>(alloc, pairs, &tree)
                && reads_all::<D, B>(alloc, &tree, pairs.len())
        }
        None => false,
    }
}

#[test]
fn walks_over_a_tree_of_the_toy_digest(rt: HostRuntime) {
    let pairs = pairs(rt.alloc()).expect(&rt, "the pairs");
    assert!(rt; agrees::<Toy, 2>(rt.alloc(), &pairs) && agrees::<Toy, 1>(rt.alloc(), &pairs));
}

#[test]
fn walks_over_a_tree_of_sha_256(rt: HostRuntime) {
    let pairs = pairs(rt.alloc()).expect(&rt, "the pairs");
    assert!(rt; agrees::<Sha256, 2>(rt.alloc(), &pairs) && agrees::<Sha256, 4>(rt.alloc(), &pairs));
}

/// Whether these are the pairs of `a/q2` and `a/r0`.
fn are_the_last_two(pairs: &[(Vec<u8>, Cid)]) -> bool {
    let [(first, _), (second, _)] = pairs else {
        return false;
    };
    first.as_slice() == b"a/q2".as_slice() && second.as_slice() == b"a/r0".as_slice()
}

/// Whether a walk of two pairs from `a/q` on gives them, and reads all five nodes.
fn ends_with_two(alloc: Global, tree: &Built<Toy>) -> bool {
    match walk_of::<Toy, 2>(alloc, tree, b"a/q", 2) {
        Some(walked) => are_the_last_two(&walked.pairs) && walked.reads == 5,
        None => false,
    }
}

#[test]
fn walk_over_a_tree_of_five_nodes(rt: HostRuntime) {
    let tree = tree_of::<Toy, 2, _>(rt.alloc(), &three_pairs()).expect(&rt, "a tree");
    assert!(rt; ends_with_two(rt.alloc(), &tree));
}
