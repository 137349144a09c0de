//! Proofs that a repository gives, verified again.

ghost use Rattle.std.specs.Prelude.{◌≤◌};

use crate::fixtures::{EMPTY_NODE, FIVE_NODES, Proof, accepts, copies_of, end, opened, takes};
use batches::Write;
use cid::digests::Toy;
use cid::{Cid, Digest, Sha256};
use export::{ProofFault, prove, verify};
use repo::Core;
use std::alloc::{AllocError, Global};
use store::{Shard, TableKey};

/// The proof that a core gives of a key.
fn proof_of<D: Digest, const B: u8>(
    alloc: Global,
    core: &Core<D, B>,
    key: &[u8],
) -> Result<Proof, AllocError>
    requires { 1 ≤ B }
{
    copies_of(alloc, &prove(alloc, core, key)?)
}

/// Whether a core proves that a key has this value, or none.
fn is_proved<D: Digest, const B: u8>(
    alloc: Global,
    core: &Core<D, B>,
    key: &[u8],
    value: Option<Cid>,
) -> bool
    requires { 1 ≤ B }
{
    match proof_of(alloc, core, key) {
        Ok(proof) => verify::<D, B, Vec<u8>>(&core.root(), &proof, key) == Ok(value),
        Err(_) => false,
    }
}

/// Whether a proof shows this value of a key, or none.
fn shows(root: &Cid, proof: &Proof, key: &[u8], value: Option<Cid>) -> bool {
    verify::<Sha256, 2, Vec<u8>>(root, proof, key) == Ok(value)
}

/// Whether a proof is one node of so many bytes, which shows `a/b` and its neighbours.
fn is_node_of(root: &Cid, proof: &Proof, size: usize, value: Option<Cid>) -> bool {
    match proof.as_slice() {
        [node] => {
            node.len() == size
                && shows(root, proof, b"a/a", None)
                && shows(root, proof, b"a/b", value)
                && shows(root, proof, b"a/c", None)
        }
        _ => false,
    }
}

/// Whether the proof of `a/b` is such a node.
fn is_one_node(alloc: Global, core: &Core<Sha256, 2>, size: usize, value: Option<Cid>) -> bool {
    match proof_of(alloc, core, b"a/b") {
        Ok(proof) => is_node_of(&core.root(), &proof, size, value),
        Err(_) => false,
    }
}

#[test]
fn no_record_and_one(rt: HostRuntime) {
    let mut shard = Shard::new(rt.alloc(), 9, TableKey::known());
    let mut core = opened(&rt, rt.alloc(), &mut shard);
    let none = is_one_node(rt.alloc(), &core, EMPTY_NODE.len(), None);
    let taken = takes(rt.alloc(), &mut shard, &mut core, &[(b"a/b", b"\xa0")]);
    let one = is_one_node(rt.alloc(), &core, 63, Some(Cid::of::<Sha256>(b"\xa0")));
    end(&mut shard, core);
    assert!(rt; none && taken && one);
}

/// The key of a number, with this behind it.
fn key_of(alloc: Global, number: u16, behind: &str) -> Result<Vec<u8>, AllocError> {
    Ok(format!(in alloc; "k/{number:03}{behind}")?.into_bytes())
}

/// The record of a number.
fn record_of(number: u16) -> [u8; 6] {
    let [high, low] = number.to_be_bytes();
    [0xa1, 0x61, b'n', 0x42, high, low]
}

/// The put of a number's record.
fn put(alloc: Global, number: u16) -> Result<Write, AllocError> {
    let key = key_of(alloc, number, "")?;
    Ok(Write::Put(key, Vec::from_slice(alloc, &record_of(number))?))
}

/// The puts of the first so many numbers.
fn puts(alloc: Global, count: u16) -> Result<Vec<Write>, AllocError> {
    let mut writes = Vec::new(alloc);
    for number in 0..count {
        writes.push(put(alloc, number)?)?;
    }
    Ok(writes)
}

/// Whether a core takes these puts.
fn is_filled(alloc: Global, shard: &mut Shard<Toy>, core: &mut Core<Toy, 2>, count: u16) -> bool {
    match puts(alloc, count) {
        Ok(writes) => accepts(alloc, shard, core, &writes),
        Err(_) => false,
    }
}

/// Whether the key of a number, with this behind it, is proved to have this value, or none.
fn is_key_proved(
    alloc: Global,
    core: &Core<Toy, 2>,
    number: u16,
    behind: &str,
    value: Option<Cid>,
) -> bool {
    match key_of(alloc, number, behind) {
        Ok(key) => is_proved(alloc, core, &key, value),
        Err(_) => false,
    }
}

/// Whether the record of a number is proved, and that a key right behind has none.
fn is_number_proved(alloc: Global, core: &Core<Toy, 2>, number: u16) -> bool {
    let record = Cid::of::<Toy>(&record_of(number));
    is_key_proved(alloc, core, number, "", Some(record))
        && is_key_proved(alloc, core, number, "x", None)
}

/// Whether this is so for the first so many numbers.
fn are_numbers_proved(alloc: Global, core: &Core<Toy, 2>, count: u16) -> bool {
    for number in 0..count {
        if !is_number_proved(alloc, core, number) {
            return false;
        }
    }
    true
}

#[test]
fn five_hundred_records_and_as_many_absent_keys(rt: HostRuntime) {
    let mut shard = Shard::new(rt.alloc(), 3000, TableKey::known());
    let mut core = opened(&rt, rt.alloc(), &mut shard);
    let filled = is_filled(rt.alloc(), &mut shard, &mut core, 500);
    let right = are_numbers_proved(rt.alloc(), &core, 500);
    end(&mut shard, core);
    assert!(rt; filled && right);
}

/// Whether each key of five nodes is proved, and one beside them that has no record.
fn are_proved<const B: u8>(alloc: Global, core: &Core<Toy, B>) -> bool
    requires { 1 ≤ B }
{
    for (key, record) in FIVE_NODES {
        if !is_proved(alloc, core, key, Some(Cid::of::<Toy>(record))) {
            return false;
        }
    }
    is_proved(alloc, core, b"a/q3", None)
}

#[test]
fn layers_of_one_bit_and_of_eight(rt: HostRuntime) {
    let mut shard = Shard::new(rt.alloc(), 50, TableKey::known());
    let mut low = opened::<_, Toy, 8, _>(&rt, rt.alloc(), &mut shard);
    let mut deep = opened::<_, Toy, 1, _>(&rt, rt.alloc(), &mut shard);
    let taken = takes(rt.alloc(), &mut shard, &mut low, FIVE_NODES)
        && takes(rt.alloc(), &mut shard, &mut deep, FIVE_NODES);
    let right = are_proved(rt.alloc(), &low) && are_proved(rt.alloc(), &deep);
    end(&mut shard, low);
    end(&mut shard, deep);
    assert!(rt; taken && right);
}

/// Whether a proof lacks a node.
fn lacks(root: &Cid, proof: &Proof, key: &[u8]) -> bool {
    verify::<Toy, 2, Vec<u8>>(root, proof, key) == Err(ProofFault::BlockMissing)
}

/// Changes one bit of a byte of a proof's node.
fn flip(proof: &mut Proof, place: usize, at: usize, bit: u8) {
    if let Some(node) = proof.get_mut(place) {
        if let Some(byte) = node.get_mut(at) {
            *byte ^= bit;
        }
    }
}

/// Whether a proof lacks a node where this bit of a byte of this node is changed.
fn lacks_the_bit(
    root: &Cid,
    proof: &mut Proof,
    key: &[u8],
    place: usize,
    at: usize,
    bit: u8,
) -> bool {
    flip(proof, place, at, bit);
    let is_right = lacks(root, proof, key);
    flip(proof, place, at, bit);
    is_right
}

/// The value of each bit of a byte.
const BITS: [u8; 8] = [1, 2, 4, 8, 16, 32, 64, 128];

/// Whether it does for each bit of this byte.
fn lacks_each_bit_of(root: &Cid, proof: &mut Proof, key: &[u8], place: usize, at: usize) -> bool {
    for bit in &BITS {
        if !lacks_the_bit(root, proof, key, place, at, *bit) {
            return false;
        }
    }
    true
}

/// How many bytes this node of a proof has.
fn size_of(proof: &Proof, place: usize) -> usize {
    match proof.get(place) {
        Some(node) => node.len(),
        None => 0,
    }
}

/// Whether it does for each bit of each byte of this node.
fn lacks_each_bit(root: &Cid, proof: &mut Proof, key: &[u8], place: usize) -> bool {
    for at in 0..size_of(proof, place) {
        if !lacks_each_bit_of(root, proof, key, place, at) {
            return false;
        }
    }
    true
}

/// Whether it does for each bit of each of its nodes, of which there are some.
fn lacks_any_bit(root: &Cid, proof: &mut Proof, key: &[u8]) -> bool {
    for place in 0..proof.len() {
        if !lacks_each_bit(root, proof, key, place) {
            return false;
        }
    }
    !proof.is_empty()
}

/// Whether a proof that a core gives of a key lacks a node where this one is taken away.
fn lacks_the_node(alloc: Global, core: &Core<Toy, 2>, key: &[u8], place: usize) -> bool {
    match proof_of(alloc, core, key) {
        Ok(mut proof) if place < proof.len() => {
            proof.remove(place);
            lacks(&core.root(), &proof, key)
        }
        _ => false,
    }
}

/// Whether it does for each of so many nodes, of which there are some.
fn lacks_any_node(alloc: Global, core: &Core<Toy, 2>, key: &[u8], count: usize) -> bool {
    for place in 0..count {
        if !lacks_the_node(alloc, core, key, place) {
            return false;
        }
    }
    0 < count
}

/// How many nodes the proof of a key has.
fn node_count(alloc: Global, core: &Core<Toy, 2>, key: &[u8]) -> usize {
    match prove(alloc, core, key) {
        Ok(nodes) => nodes.len(),
        Err(_) => 0,
    }
}

/// Whether the proof of a number's key lacks a node without any one of its nodes.
fn needs_each_node(alloc: Global, core: &Core<Toy, 2>, number: u16) -> bool {
    match key_of(alloc, number, "") {
        Ok(key) => lacks_any_node(alloc, core, &key, node_count(alloc, core, &key)),
        Err(_) => false,
    }
}

/// Whether the proof of a key lacks a node with any one bit changed.
fn needs_each_bit_of(alloc: Global, core: &Core<Toy, 2>, key: &[u8]) -> bool {
    match proof_of(alloc, core, key) {
        Ok(mut proof) => lacks_any_bit(&core.root(), &mut proof, key),
        Err(_) => false,
    }
}

/// Whether that of a number's key does.
fn needs_each_bit(alloc: Global, core: &Core<Toy, 2>, number: u16) -> bool {
    match key_of(alloc, number, "") {
        Ok(key) => needs_each_bit_of(alloc, core, &key),
        Err(_) => false,
    }
}

/// Whether those of the first so many numbers need each of their nodes, and each bit.
fn need_all(alloc: Global, core: &Core<Toy, 2>, count: u16) -> bool {
    for number in 0..count {
        if !needs_each_node(alloc, core, number) || !needs_each_bit(alloc, core, number) {
            return false;
        }
    }
    true
}

#[test]
fn proofs_without_a_node_or_with_a_bit_changed(rt: HostRuntime) {
    let mut shard = Shard::new(rt.alloc(), 100, TableKey::known());
    let mut core = opened(&rt, rt.alloc(), &mut shard);
    let filled = is_filled(rt.alloc(), &mut shard, &mut core, 20);
    let are_needed = need_all(rt.alloc(), &core, 20);
    end(&mut shard, core);
    assert!(rt; filled && are_needed);
}
