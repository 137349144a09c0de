//! Chains of nodes without pairs, each with a link to the one before, as deep as a proof may be and deeper, with all memory
//! refused while they are read.

ghost use Rattle.std.specs.Prelude.{◌≤◌};

use crate::fixtures::{Proof, add};
use cid::{Cid, Sha256};
use export::{ProofFault, verify};
use refusing::Refusing;
use std::alloc::{AllocError, Allocator, Global};

/// The block of the node without pairs and without a link.
const LAST: &[u8] = b"\xa2\x61\x65\x80\x61\x6c\xf6";

/// The block of the node without pairs and with this link.
fn node_above(link: &Cid) -> [u8; 47] {
    let mut bytes = [0u8; 47];
    bytes[..11].copy_from_slice(b"\xa2\x61\x65\x80\x61\x6c\xd8\x2a\x58\x25\x00");
    bytes[11..].copy_from_slice(link.as_bytes());
    bytes
}

/// So many nodes and one more, the one without a link first.
fn chain<A: Allocator + Copy>(alloc: A, more: usize) -> Result<Proof<A>, AllocError> {
    let mut nodes = Vec::new(alloc);
    add(alloc, &mut nodes, LAST)?;
    let mut top = Cid::of::<Sha256>(LAST);
    for _ in 0..more {
        let node = node_above(&top);
        top = Cid::of::<Sha256>(&node);
        add(alloc, &mut nodes, &node)?;
    }
    Ok(nodes)
}

/// Adds a node twice, and after each time another block.
fn add_twice<A: Allocator + Copy>(
    alloc: A,
    blocks: &mut Proof<A>,
    node: &[u8],
) -> Result<(), AllocError> {
    add(alloc, blocks, node)?;
    add(alloc, blocks, b"other")?;
    add(alloc, blocks, node)?;
    add(alloc, blocks, b"\xa0")
}

/// Each node twice, and after each time another block.
fn twice<A: Allocator + Copy>(alloc: A, nodes: &[Vec<u8, A>]) -> Result<Proof<A>, AllocError> {
    let mut blocks = Vec::new(alloc);
    for node in nodes {
        add_twice(alloc, &mut blocks, node)?;
    }
    Ok(blocks)
}

/// What these blocks prove of the key `a` under the CID of the block at a place.
fn answer<const B: u8, A: Allocator>(
    nodes: &[Vec<u8, A>],
    root: usize,
) -> Option<Result<Option<Cid>, ProofFault>>
    requires { 1 ≤ B }
{
    let root = Cid::of::<Sha256>(nodes.get(root)?);
    Some(verify::<Sha256, B, Vec<u8, A>>(&root, nodes, b"a"))
}

/// A place of a root, and what is proved under it.
type Row = (usize, Result<Option<Cid>, ProofFault>);

/// Whether these blocks prove so.
fn are_answered<const B: u8, A: Allocator>(nodes: &[Vec<u8, A>], rows: &[Row]) -> bool
    requires { 1 ≤ B }
{
    for (root, wanted) in rows {
        if answer::<B, A>(nodes, *root) != Some(*wanted) {
            return false;
        }
    }
    true
}

const ABSENT: Result<Option<Cid>, ProofFault> = Ok(None);

const TOO_DEEP: Result<Option<Cid>, ProofFault> = Err(ProofFault::TooDeep);

const MISSING: Result<Option<Cid>, ProofFault> = Err(ProofFault::BlockMissing);

/// Whether 130 nodes prove what they are to prove: all of them, without the first, without the last, and among others.
fn are_right<A: Allocator>(nodes: &[Vec<u8, A>], mixed: &[Vec<u8, A>]) -> bool {
    if nodes.len() != 130 {
        return false;
    }
    are_answered::<2, A>(nodes, &[(128, ABSENT), (129, TOO_DEEP)])
        && are_answered::<8, A>(nodes, &[(32, ABSENT), (33, TOO_DEEP)])
        && are_answered::<2, A>(&nodes[1..], &[(128, TOO_DEEP)])
        && are_answered::<2, A>(&nodes[1..129], &[(127, MISSING)])
        && are_answered::<2, A>(mixed, &[(4 * 128, ABSENT), (4 * 129, TOO_DEEP)])
}

#[test]
fn the_deepest_proof_and_deeper(rt: HostRuntime) {
    let heap: Refusing<Global> = Refusing::new(rt.alloc());
    let mut nodes = chain(&heap, 129).expect(&rt, "a chain");
    let mixed = twice(&heap, &nodes).expect(&rt, "a chain among others");
    heap.refuse_from(1);
    let right = are_right(&nodes, &mixed);
    nodes.reverse();
    let reversed = are_answered::<2, _>(&nodes, &[(1, ABSENT), (0, TOO_DEEP)]);
    assert!(rt; right && reversed && heap.refused() == 0);
}
