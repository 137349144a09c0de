//! The CAR of a repository, and proofs of its keys.

use crate::hashing::are_hashed;
use crate::watch::Meter;
use block::Block;
use cid::{Cid, Sha256};
use export::{ToMemory, car, prove, verify};
use repo::Core;
use std::alloc::{AllocError, Global};
use std::mem;
use std::sync::Arc;
use std::time::CpuClock;

/// What was measured of a repository's exports, in nanoseconds of processor time of the quickest round.
#[derive(Clone, Copy, Drop)]
pub struct Exported {
    /// How many bytes its CAR has.
    pub bytes: u64,
    pub car: u128,
    pub proofs: Proofs,
}

/// What was measured of the proofs of some keys together.
#[derive(Clone, Copy, Drop)]
pub struct Proofs {
    pub keys: u64,
    pub nodes: u64,
    pub prove: u128,
    pub verify: u128,
    /// The digests of these nodes alone.
    pub hash: u128,
}

impl Proofs {
    /// No keys, and this in place of each time.
    fn none(nanos: u128) -> Proofs {
        Proofs {
            keys: 0,
            nodes: 0,
            prove: nanos,
            verify: nanos,
            hash: nanos,
        }
    }

    fn quickest(&self, other: Proofs) -> Proofs {
        Proofs {
            keys: other.keys,
            nodes: other.nodes,
            prove: self.prove.min(other.prove),
            verify: self.verify.min(other.verify),
            hash: self.hash.min(other.hash),
        }
    }

    /// The same without so many nanoseconds of each key's times, in which nothing was done.
    fn without(&self, nothing: u128) -> Proofs {
        let nothing = nothing.saturating_mul(u128::from(self.keys));
        Proofs {
            prove: self.prove.saturating_sub(nothing),
            verify: self.verify.saturating_sub(nothing),
            hash: self.hash.saturating_sub(nothing),
            ..*self
        }
    }

    /// Makes the proof of one key, and answers whether it shows the key's value.
    fn add<R: CpuClock>(
        &mut self,
        rt: &R,
        alloc: Global,
        core: &Core<Sha256, 2>,
        key: &[u8],
        value: Cid,
    ) -> bool {
        let meter = Meter::start(rt);
        let made = prove(alloc, core, key);
        self.prove = self.prove.saturating_add(meter.nanos(rt));
        match made {
            Ok(nodes) => self.check(rt, alloc, core.root(), &nodes, key, value),
            Err(_) => false,
        }
    }

    /// Verifies a proof of one key, and answers whether it shows this value.
    fn check<R: CpuClock>(
        &mut self,
        rt: &R,
        alloc: Global,
        root: Cid,
        nodes: &[Arc<Block<Sha256>>],
        key: &[u8],
        value: Cid,
    ) -> bool {
        let Ok(blocks) = bytes_of(alloc, nodes) else {
            return false;
        };
        let meter = Meter::start(rt);
        let answer = verify::<Sha256, 2, &[u8]>(&root, &blocks, key);
        self.verify = self.verify.saturating_add(meter.nanos(rt));
        let meter = Meter::start(rt);
        let are_hashed = are_hashed(nodes);
        self.hash = self.hash.saturating_add(meter.nanos(rt));
        self.keys = self.keys.saturating_add(1);
        self.nodes = self.nodes.saturating_add(nodes.len() as u64);
        answer == Ok(Some(value)) && are_hashed
    }
}

/// Writes a repository's CAR to memory, and proves and verifies the keys at these places, so many times. `None` where memory
/// was refused or a proof doesn't show its value.
pub fn measure<R: CpuClock>(
    rt: &R,
    alloc: Global,
    core: &Core<Sha256, 2>,
    pairs: &[(Vec<u8>, Cid)],
    places: &[usize],
    rounds: u32,
) -> Option<Exported> {
    let mut exported = Exported {
        bytes: 0,
        car: u128::MAX,
        proofs: Proofs::none(u128::MAX),
    };
    let nothing = Meter::of_nothing(rt);
    let mut room = Vec::new(alloc);
    for _ in 0..rounds {
        let (bytes, nanos) = written(rt, alloc, core, &mut room)?;
        let proofs = proofs_of(rt, alloc, core, pairs, places)?;
        exported.bytes = bytes;
        exported.car = exported.car.min(nanos);
        exported.proofs = exported.proofs.quickest(proofs.without(nothing));
    }
    Some(exported)
}

/// How many bytes the CAR has, and how long it took to write it to memory, into room that is there from the second round on.
fn written<R: CpuClock>(
    rt: &R,
    alloc: Global,
    core: &Core<Sha256, 2>,
    room: &mut Vec<u8>,
) -> Option<(u64, u128)> {
    let mut bytes = mem::replace(room, Vec::new(alloc));
    bytes.clear();
    let mut out = ToMemory::over(bytes);
    let meter = Meter::start(rt);
    let answer = car(alloc, core, &mut out);
    let nanos = meter.nanos(rt);
    *room = out.into_bytes();
    match answer {
        Ok(bytes) => Some((bytes, nanos)),
        Err(_) => None,
    }
}

/// The proofs of the keys at these places, one after the other.
fn proofs_of<R: CpuClock>(
    rt: &R,
    alloc: Global,
    core: &Core<Sha256, 2>,
    pairs: &[(Vec<u8>, Cid)],
    places: &[usize],
) -> Option<Proofs> {
    let mut proofs = Proofs::none(0);
    for place in places {
        let (key, value) = pairs.get(*place)?;
        if !proofs.add(rt, alloc, core, key, *value) {
            return None;
        }
    }
    Some(proofs)
}

/// The bytes of these nodes.
fn bytes_of<'a>(
    alloc: Global,
    nodes: &'a [Arc<Block<Sha256>>],
) -> Result<Vec<&'a [u8]>, AllocError> {
    let mut blocks = Vec::new(alloc);
    for node in nodes {
        blocks.push(node.bytes())?;
    }
    Ok(blocks)
}
