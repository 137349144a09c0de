//! Trees of worked examples, and what no clause says.

ghost use Rattle.std.specs.Prelude.{◌≤◌};

use crate::fixtures::value;
use crate::plain;
use block::{Block, Collided};
use cid::digests::{Clash, Size, Toy};
use cid::{Cid, Digest, Sha256};
use refusing::Refusing;
use scratch::{Built, ScratchFault, build, is_ascending};
use std::alloc::{AllocError, Allocator, Global};

/// The keys of the tree of five nodes, with one value.
fn three_keys() -> [(&'static [u8], Cid); 3] {
    let value = value();
    [(b"a/p0", value), (b"a/q2", value), (b"a/r0", value)]
}

/// Whether the first node is the root's, and these are the lengths of the nodes in their order.
fn have_lengths<D: Digest>(built: &Built<D>, lengths: &[usize]) -> bool {
    let mut place = 0usize;
    for length in lengths {
        match built.blocks.get(place) {
            Some(block) if block.bytes().len() == *length => {}
            _ => return false,
        }
        place = place.saturating_add(1);
    }
    match built.blocks.first() {
        Some(top) => place == built.blocks.len() && top.cid() == built.root,
        None => false,
    }
}

/// Whether the tree of these pairs is built, with nodes of these lengths in their order, the root's first.
fn has_lengths<D: Digest, const B: u8>(
    alloc: Global,
    pairs: &[(&[u8], Cid)],
    lengths: &[usize],
) -> bool
    requires least { 1 ≤ B }
    requires most { B ≤ 8 }
{
    if !is_ascending(pairs) {
        return false;
    }
    match build::<D, B, &[u8], Global>(alloc, pairs) {
        Ok(built) => have_lengths(&built, lengths),
        Err(_) => false,
    }
}

/// Whether the tree is the one without keys, by its root and the bytes of its node.
fn is_empty_tree(built: &Built<Sha256>) -> bool {
    let text = b"bafyreie5737gdxlw5i64vzichcalba3z2v5n6icifvx5xytvske7mr3hpm";
    built.blocks.len() == 1
        && built.blocks[0].bytes() == [0xa2, 0x61, 0x65, 0x80, 0x61, 0x6c, 0xf6].as_slice()
        && built.root.text() == *text
}

/// Whether the tree of no pairs is built.
fn is_built_of_none(alloc: Global, none: &[(&[u8], Cid)]) -> bool {
    if !is_ascending(none) {
        return false;
    }
    match build::<Sha256, 2, &[u8], _>(alloc, none) {
        Ok(built) => is_empty_tree(&built),
        Err(_) => false,
    }
}

#[test]
fn empty_tree(rt: HostRuntime) {
    assert!(rt; is_built_of_none(rt.alloc(), &[]));
}

/// Whether the trees of the three keys have these nodes with one, two, four and eight zero bits a layer, and under a digest
/// by which all keys are on one layer.
fn are_five_nodes(alloc: Global, pairs: &[(&[u8], Cid)]) -> bool {
    has_lengths::<Toy, 1>(alloc, pairs, &[144, 47, 47, 47, 64, 47, 47, 47, 64])
        && has_lengths::<Toy, 2>(alloc, pairs, &[144, 47, 64, 47, 64])
        && has_lengths::<Toy, 4>(alloc, pairs, &[144, 64, 64])
        && has_lengths::<Toy, 8>(alloc, pairs, &[174])
        && has_lengths::<Clash, 2>(alloc, pairs, &[174])
}

#[test]
fn tree_of_five_nodes(rt: HostRuntime) {
    assert!(rt; are_five_nodes(rt.alloc(), &three_keys()));
}

#[test]
fn raised_top(rt: HostRuntime) {
    let pairs: [(&[u8], Cid); 2] = [(b"a/p3", value()), (b"a/r0", value())];
    assert!(rt; has_lengths::<Toy, 2>(rt.alloc(), &pairs, &[104, 47, 47, 64]));
}

/// Whether a block is the node of this key alone.
fn is_node_of(block: &Block<Size>, key: &[u8]) -> bool {
    block.bytes().len() == 64 && block.bytes().get(8..12) == Some(key)
}

/// Whether the two nodes have one CID, the first is of `a/p0` and the second of `a/r0`, each its only key.
fn is_of_both_sides(pair: &Collided<Size>) -> bool {
    let (one, other) = (pair.one(), pair.other());
    one.cid() == other.cid() && is_node_of(one, b"a/p0") && is_node_of(other, b"a/r0")
}

/// Whether the tree of the three keys isn't built, since the nodes of the first and the last clash.
fn is_clash(alloc: Global, pairs: &[(&[u8], Cid)]) -> bool {
    if !is_ascending(pairs) {
        return false;
    }
    match build::<Size, 2, &[u8], Global>(alloc, pairs) {
        Err(ScratchFault::Clash(pair)) => is_of_both_sides(&pair),
        _ => false,
    }
}

#[test]
fn clash_of_two_nodes(rt: HostRuntime) {
    assert!(rt; is_clash(rt.alloc(), &three_keys()));
}

/// Whether a lone key may stand in a tree.
fn is_lone(key: &[u8]) -> bool {
    let pairs: [(&[u8], Cid); 1] = [(key, value())];
    is_ascending(&pairs)
}

/// Whether two keys may stand in a tree in this order.
fn are_two(one: &[u8], other: &[u8]) -> bool {
    let pairs: [(&[u8], Cid); 2] = [(one, value()), (other, value())];
    is_ascending(&pairs)
}

/// The longest key there is, and one that is longer.
const LONGEST: [u8; 1024] = [b'a'; 1024];

const LONGER: [u8; 1025] = [b'a'; 1025];

/// Whether keys of 1 to 1,024 bytes may stand in a tree, and no others.
fn have_right_lengths() -> bool {
    is_lone(b"a") && is_lone(&LONGEST) && !is_lone(b"") && !is_lone(&LONGER)
}

/// Whether two keys may stand in a tree where they ascend, and not else.
fn are_in_right_order() -> bool {
    are_two(b"a", b"b")
        && are_two(b"a", b"aa")
        && !are_two(b"a", b"a")
        && !are_two(b"b", b"a")
        && !are_two(b"aa", b"a")
}

#[test]
fn conditions_of_keys(rt: HostRuntime) {
    assert!(rt; have_right_lengths() && are_in_right_order());
}

/// Whether the tree of a lone key has one node of this length.
fn has_length(alloc: Global, key: &[u8], length: usize) -> bool {
    has_lengths::<Sha256, 8>(alloc, &[(key, value())], &[length])
}

#[test]
fn shortest_and_longest_key(rt: HostRuntime) {
    assert!(rt; has_length(rt.alloc(), b"a", 61) && has_length(rt.alloc(), b"a/b", 63));
    assert!(rt; has_length(rt.alloc(), &LONGEST, 1086));
}

/// How a tree's building ended.
#[derive(Clone, Copy, PartialEq, Eq)]
enum Outcome {
    /// It has so many nodes.
    Built(usize),
    /// The first of two nodes that clash has so many bytes.
    Clash(usize),
    NoMemory,
}

/// How the building of the tree of the three keys ends in this memory, where they ascend.
fn outcome_of<D: Digest, A: Allocator + Copy>(alloc: A) -> Option<Outcome> {
    let pairs = three_keys();
    if !is_ascending(&pairs) {
        return None;
    }
    Some(match build::<D, 2, &[u8], A>(alloc, &pairs) {
        Ok(built) => Outcome::Built(built.blocks.len()),
        Err(ScratchFault::Clash(pair)) => Outcome::Clash(pair.one().bytes().len()),
        Err(ScratchFault::NoMemory) => Outcome::NoMemory,
    })
}

/// Whether the building ends so or, where a request was refused, for want of memory, with each of 79 requests refused in
/// turn; and gives all memory back each time. In the end it wants fewer requests than were to be refused.
fn is_so_or_refused<D: Digest>(alloc: Global, wanted: Outcome) -> bool {
    let heap = Refusing::new(alloc);
    for request in 1..80u64 {
        heap.refuse(request);
        let is_right = match outcome_of::<D, _>(&heap) {
            Some(Outcome::NoMemory) => heap.refused() == request,
            Some(other) => other == wanted,
            None => false,
        };
        if !is_right || heap.live() != 0 {
            return false;
        }
    }
    heap.refused() < 79
}

#[test]
fn memory_refused(rt: HostRuntime) {
    assert!(rt; is_so_or_refused::<Toy>(rt.alloc(), Outcome::Built(5)));
}

#[test]
fn memory_refused_at_a_clash(rt: HostRuntime) {
    assert!(rt; is_so_or_refused::<Size>(rt.alloc(), Outcome::Clash(64)));
}

/// So many pairs, with owned keys.
fn many(alloc: Global, count: u32) -> Result<Vec<plain::Pair>, AllocError> {
    let value = value();
    let mut pairs = Vec::new(alloc);
    for number in 0..count {
        let name = format!(in alloc; "app.bsky.feed.post/{number:06}")?;
        pairs.push((name.into_bytes(), value))?;
    }
    Ok(pairs)
}

/// Whether these are the tree's nodes in their order, the root's first.
fn are_nodes(plain: &[Block<Sha256>], built: &Built<Sha256>) -> bool {
    let mut place = 0usize;
    for node in plain {
        match built.blocks.get(place) {
            Some(block) if block.bytes() == node.bytes() => {}
            _ => return false,
        }
        place = place.saturating_add(1);
    }
    match plain.first() {
        Some(top) => place == built.blocks.len() && top.cid() == built.root,
        None => false,
    }
}

/// Whether the plain nodes are those of the tree, but for nodes of a link alone above them: the definition's node of a
/// layer above the top stands above it, link by link.
fn are_nodes_under_links(plain: &[Block<Sha256>], built: &Built<Sha256>) -> bool {
    let mut above = 0usize;
    for node in plain {
        if node.bytes().len() != 47 {
            break;
        }
        above = above.saturating_add(1);
    }
    match plain.get(above..) {
        Some(nodes) => are_nodes(nodes, built),
        None => false,
    }
}

/// Whether the tree of these pairs is built as the plain nodes.
fn is_as_plain(alloc: Global, pairs: &[plain::Pair], plain: &[Block<Sha256>]) -> bool {
    if !is_ascending(pairs) {
        return false;
    }
    match build::<Sha256, 2, Vec<u8>, _>(alloc, pairs) {
        Ok(built) => are_nodes_under_links(plain, &built),
        Err(_) => false,
    }
}

#[test]
fn as_the_plain_body(rt: HostRuntime) {
    let pairs = many(rt.alloc(), 3000).expect(&rt, "pairs");
    let plain = plain::nodes::<Sha256>(rt.alloc(), 20, &pairs).expect(&rt, "nodes");
    assert!(rt; is_as_plain(rt.alloc(), &pairs, &plain));
}
