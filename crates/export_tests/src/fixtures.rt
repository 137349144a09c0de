//! Repositories of a few records, and an output that is told what to expect.

ghost use Rattle.std.specs.Prelude.{◌≤◌};

use batches::{Stamp, Write};
use block::Block;
use cid::Digest;
use counts::Count;
use export::{Failed, Out, Taken, ToMemory, car};
use repo::Core;
use std::alloc::{AllocError, Allocator, Global};
use std::process::Abort;
use std::sync::Arc;
use store::{LentShard, Shard};

/// A key and its record.
pub(crate) type Record<'a> = (&'a [u8], &'a [u8]);

/// The DAG-CBOR bytes of the node without entries and without a left link.
pub(crate) const EMPTY_NODE: &[u8] = b"\xa2\x61e\x80\x61l\xf6";

/// The DAG-CBOR bytes of the map of "a" to 1.
pub(crate) const ONE: &[u8] = b"\xa1\x61a\x01";

/// The DAG-CBOR bytes of the map of "a" to 2.
pub(crate) const TWO: &[u8] = b"\xa1\x61a\x02";

/// The DAG-CBOR bytes of the map of "a" to 3.
pub(crate) const THREE: &[u8] = b"\xa1\x61a\x03";

/// Records whose tree has five nodes under the digest `Toy`.
pub(crate) const FIVE_NODES: &[Record<'static>] = &[
    (b"a/p0", ONE),
    (b"a/q2", TWO),
    (b"a/r0", THREE),
];

/// One record under the first key and the third.
pub(crate) const ONE_RECORD_TWICE: &[Record<'static>] = &[
    (b"a/p0", ONE),
    (b"a/q2", TWO),
    (b"a/r0", ONE),
];

/// The core of a repository without records, the only one of its store.
pub(crate) fn opened<R: Abort, D: Digest, const B: u8, A: Allocator + Copy>(
    rt: &R,
    alloc: A,
    shard: &mut Shard<D, A>,
) -> Core<D, B, A>
    requires least { 1 ≤ B }
    requires most { B ≤ 8 }
{
    Core::open(alloc, &mut LentShard::new(shard), 0, 2000).expect(rt, "a core")
}

/// Gives the core's blocks back.
pub(crate) fn end<D: Digest, const B: u8, A: Allocator + Clone>(
    shard: &mut Shard<D, A>,
    core: Core<D, B, A>,
) {
    core.end(&mut LentShard::new(shard));
}

/// A put of this record.
fn put_of<A: Allocator + Copy>(
    alloc: A,
    key: &[u8],
    record: &[u8],
) -> Result<Write<A>, AllocError> {
    let key = Vec::from_slice(alloc, key)?;
    Ok(Write::Put(key, Vec::from_slice(alloc, record)?))
}

/// Puts of these records.
pub(crate) fn puts_of<A: Allocator + Copy>(
    alloc: A,
    records: &[Record<'_>],
) -> Result<Vec<Write<A>, A>, AllocError> {
    let mut puts = Vec::new(alloc);
    for (key, record) in records {
        puts.push(put_of(alloc, key, record)?)?;
    }
    Ok(puts)
}

/// The stamp of every batch.
pub(crate) fn stamp<A: Allocator + Copy>(alloc: A) -> Result<Stamp<A>, AllocError> {
    let did = Vec::from_slice(alloc, b"did:web:a.b")?;
    let rev = Vec::from_slice(alloc, b"3jzfcijpj2z2a")?;
    Ok(Stamp { did, rev })
}

/// Whether a batch of these writes is accepted.
pub(crate) fn accepts<D: Digest, const B: u8, A: Allocator + Copy>(
    alloc: A,
    shard: &mut Shard<D, A>,
    core: &mut Core<D, B, A>,
    writes: &[Write<A>],
) -> bool {
    match stamp(alloc) {
        Ok(stamp) => core
            .apply(alloc, &mut LentShard::new(shard), &stamp, writes)
            .is_ok(),
        Err(_) => false,
    }
}

/// Whether a batch of puts of these records is.
pub(crate) fn takes<D: Digest, const B: u8, A: Allocator + Copy>(
    alloc: A,
    shard: &mut Shard<D, A>,
    core: &mut Core<D, B, A>,
    records: &[Record<'_>],
) -> bool {
    match puts_of(alloc, records) {
        Ok(puts) => accepts(alloc, shard, core, &puts),
        Err(_) => false,
    }
}

/// The bytes of a core's CAR, where it is answered with their number.
pub(crate) fn file_of<D: Digest, const B: u8, A: Allocator + Clone>(
    global: Global,
    alloc: A,
    core: &Core<D, B, A>,
) -> Option<Vec<u8>>
    requires { 1 ≤ B }
{
    let mut out = ToMemory::new(global);
    match car(alloc, core, &mut out) {
        Ok(length) if length == out.bytes().len() as u64 => Some(out.into_bytes()),
        _ => None,
    }
}

/// The blocks of a proof.
pub(crate) type Proof<A = Global> = Vec<Vec<u8, A>, A>;

/// Adds a block of these bytes.
pub(crate) fn add<A: Allocator + Copy>(
    alloc: A,
    blocks: &mut Proof<A>,
    bytes: &[u8],
) -> Result<(), AllocError> {
    blocks.push(Vec::from_slice(alloc, bytes)?)?;
    Ok(())
}

/// Copies of the nodes that a core gives for a proof.
pub(crate) fn copies_of<D: Digest, A: Allocator + Copy>(
    alloc: A,
    nodes: &[Arc<Block<D, A>, A>],
) -> Result<Proof<A>, AllocError> {
    let mut proof = Vec::new(alloc);
    for node in nodes {
        add(alloc, &mut proof, node.bytes())?;
    }
    Ok(proof)
}

/// An output that compares what it takes with what it is to be, takes so many bytes at most in a call and in all, and fails
/// from then on.
#[derive(Drop)]
pub(crate) struct Checked<'a> {
    rest: &'a [u8],
    a_call: usize,
    in_all: usize,
    is_right: bool,
    taken: Taken,
    failures: Count,
}

impl<'a> Checked<'a> {
    pub(crate) fn new(wanted: &'a [u8], a_call: usize, in_all: usize) -> Checked<'a> {
        Checked {
            rest: wanted,
            a_call,
            in_all,
            is_right: true,
            taken: Taken::nothing(),
            failures: Count::never(),
        }
    }

    /// How many of the wanted bytes were not taken, where what was taken was right.
    pub(crate) fn left(&self) -> Option<usize> {
        if self.is_right {
            Some(self.rest.len())
        } else {
            None
        }
    }
}

impl<'a> Out for Checked<'a> {
    ghost taken = { λ c. c.taken.bytes };

    ghost failures = { λ c. c.failures.times };

    fn write(&mut self, bytes: &[u8]) -> Result<usize, Failed> {
        let count = bytes.len().min(self.a_call).min(self.in_all);
        if count == 0 && !bytes.is_empty() {
            self.failures = self.failures.once_more();
            return Err(Failed);
        }
        let part = &bytes[..count];
        match self.rest.strip_prefix(part) {
            Some(rest) => self.rest = rest,
            None => self.is_right = false,
        }
        self.in_all -= count;
        self.taken = self.taken.with(part);
        Ok(count)
    }
}
