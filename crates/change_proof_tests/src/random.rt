//! Random changes between random trees: each proof shows them, and nothing less does.

ghost use Rattle.std.specs.Prelude.{◌≤◌, ◌<◌};

use crate::fixtures::{Blocks, Both, KEYS, add_others, built, proved, verified};
use crate::refusals::{Part, is_other_root, missing_in, other_value_in, with_altered};
use block::Block;
use change_proofs::{ChangeFault, KeyChange};
use cid::Cid;
use cid::digests::Toy;
use repo_fixtures::batch::{ONE, Step, TWO};
use std::alloc::{AllocError, Global};
use std::sync::Arc;

/// Numbers that look random, the same in each run.
#[derive(Drop)]
struct Numbers {
    state: u64,
}

impl Numbers {
    /// The next number below `bound`.
    fn below(&mut self, bound: u8) -> u8
        requires { 1 ≤ bound }
        ensures { result < bound }
    {
        self.state ^= self.state << 13;
        self.state ^= self.state >> 7;
        self.state ^= self.state << 17;
        ((self.state >> 16) % u64::from(bound)) as u8
    }

    /// A record, or none in one of three.
    fn record(&mut self) -> Option<&'static [u8]> {
        match self.below(3) {
            0 => None,
            1 => Some(ONE),
            _ => Some(TWO),
        }
    }

    /// What a key with this record has after the changes: in two of three the same.
    fn record_after(&mut self, before: Option<&'static [u8]>) -> Option<&'static [u8]> {
        match self.below(3) {
            0 => self.record(),
            _ => before,
        }
    }
}

/// The pairs before and after some changes, and the batches that lead to them.
#[derive(Drop)]
pub(crate) struct Sides {
    old: Vec<(Vec<u8>, Cid)>,
    new: Vec<(Vec<u8>, Cid)>,
    changes: Vec<KeyChange<'static>>,
    pub(crate) first: Vec<Step<'static>>,
    pub(crate) second: Vec<Step<'static>>,
}

/// The CID of a record.
fn value_of(record: Option<&[u8]>) -> Option<Cid> {
    match record {
        Some(record) => Some(Cid::of::<Toy>(record)),
        None => None,
    }
}

/// The pair of a key and a record.
fn pair(alloc: Global, key: &[u8], record: &[u8]) -> Result<(Vec<u8>, Cid), AllocError> {
    let key = Vec::from_slice(alloc, key)?;
    Ok((key, Cid::of::<Toy>(record)))
}

/// The write that gives a key a record, or takes it away.
fn step(key: &'static [u8], record: Option<&'static [u8]>) -> Step<'static> {
    match record {
        Some(record) => Step::Put(key, record),
        None => Step::Delete(key),
    }
}

impl Sides {
    /// No pairs.
    fn none(alloc: Global) -> Sides {
        Sides {
            old: Vec::new(alloc),
            new: Vec::new(alloc),
            changes: Vec::new(alloc),
            first: Vec::new(alloc),
            second: Vec::new(alloc),
        }
    }

    /// Gives a key a record before.
    fn put_before(
        &mut self,
        alloc: Global,
        key: &'static [u8],
        record: &'static [u8],
    ) -> Result<(), AllocError> {
        self.old.push(pair(alloc, key, record)?)?;
        self.first.push(Step::Put(key, record))?;
        Ok(())
    }

    /// Gives a key a record after.
    fn put_after(
        &mut self,
        alloc: Global,
        key: &'static [u8],
        record: &'static [u8],
    ) -> Result<(), AllocError> {
        self.new.push(pair(alloc, key, record)?)?;
        Ok(())
    }

    /// Changes a key's record.
    fn change(
        &mut self,
        key: &'static [u8],
        before: Option<&'static [u8]>,
        after: Option<&'static [u8]>,
    ) -> Result<(), AllocError> {
        self.changes.push(KeyChange {
            key,
            before: value_of(before),
            after: value_of(after),
        })?;
        self.second.push(step(key, after))?;
        Ok(())
    }

    /// Gives a key a record before and after.
    fn take(
        &mut self,
        alloc: Global,
        key: &'static [u8],
        before: Option<&'static [u8]>,
        after: Option<&'static [u8]>,
    ) -> Result<(), AllocError> {
        if let Some(record) = before {
            self.put_before(alloc, key, record)?;
        }
        if let Some(record) = after {
            self.put_after(alloc, key, record)?;
        }
        if before != after {
            self.change(key, before, after)?;
        }
        Ok(())
    }
}

/// Random pairs and changes of a seed.
pub(crate) fn sides_of(alloc: Global, seed: u64) -> Result<Sides, AllocError> {
    let mut numbers = Numbers { state: seed };
    let mut sides = Sides::none(alloc);
    for key in &KEYS {
        let before = numbers.record();
        let after = numbers.record_after(before);
        sides.take(alloc, key, before, after)?;
    }
    Ok(sides)
}

/// The trees of them.
pub(crate) fn both_of(alloc: Global, seed: u64) -> Option<Both> {
    let Sides {
        old,
        new,
        changes,
        ..
    } = sides_of(alloc, seed).ok()?;
    Some(Both {
        before: built(alloc, &old)?,
        after: built(alloc, &new)?,
        changes,
    })
}

/// What these blocks show of the changes.
fn told(
    alloc: Global,
    both: &Both,
    blocks: &[Arc<Block<Toy>>],
    changes: &[KeyChange<'_>],
) -> Result<(), ChangeFault> {
    verified(alloc, both.before.root, both.after.root, blocks, changes)
}

/// The blocks of a proof between those of the tree before.
fn among_others(alloc: Global, both: &Both, proof: &Blocks) -> Result<Blocks, AllocError> {
    let mut blocks = Vec::new(alloc);
    add_others(&mut blocks, &both.before.blocks, None)?;
    add_others(&mut blocks, proof, None)?;
    add_others(&mut blocks, &both.before.blocks, None)?;
    Ok(blocks)
}

/// Whether a proof shows the changes, among blocks of strangers too.
fn shows(alloc: Global, both: &Both, proof: &Blocks) -> bool {
    let Ok(more) = among_others(alloc, both, proof) else {
        return false;
    };
    told(alloc, both, proof, &both.changes).is_ok()
        && told(alloc, both, &more, &both.changes).is_ok()
}

/// A proof without the block of this CID.
pub(crate) fn without(alloc: Global, proof: &Blocks, cid: Cid) -> Result<Blocks, AllocError> {
    let mut blocks = Vec::new(alloc);
    add_others(&mut blocks, proof, Some(cid))?;
    Ok(blocks)
}

/// Whether each block of a proof is missing where it is left out.
fn needs_each(alloc: Global, both: &Both, proof: &Blocks) -> bool {
    for block in proof {
        let Ok(fewer) = without(alloc, proof, block.cid()) else {
            return false;
        };
        if missing_in(&told(alloc, both, &fewer, &both.changes)) != Some(block.cid()) {
            return false;
        }
    }
    true
}

/// Whether the change at a place is refused by the proof where it is altered, and isn't proved where its value after is.
fn refuses(alloc: Global, both: &Both, proof: &Blocks, place: usize) -> bool {
    let (Ok(later), Ok(earlier)) = (
        with_altered(alloc, &both.changes, place, Part::After),
        with_altered(alloc, &both.changes, place, Part::Before),
    ) else {
        return false;
    };
    let unproved = match proved(alloc, &both.after.blocks, both.after.root, &later) {
        Err(ChangeFault::OtherValue(place)) => Some(place),
        _ => None,
    };
    unproved == Some(place)
        && other_value_in(&told(alloc, both, proof, &later)) == Some(place)
        && is_not_shown(&told(alloc, both, proof, &earlier))
}

/// Whether another root comes out, or a block is missing, as undoing other changes may read other nodes.
pub(crate) fn is_not_shown(told: &Result<(), ChangeFault>) -> bool {
    is_other_root(told) || missing_in(told).is_some()
}

/// Whether the change at each place is.
fn refuses_each(alloc: Global, both: &Both, proof: &Blocks) -> bool {
    for place in 0..both.changes.len() {
        if !refuses(alloc, both, proof, place) {
            return false;
        }
    }
    true
}

/// Whether a proof shows the changes, with none of its blocks left out, and no others.
pub(crate) fn is_proof(alloc: Global, both: &Both, proof: &Blocks) -> bool {
    shows(alloc, both, proof) && needs_each(alloc, both, proof) && refuses_each(alloc, both, proof)
}

/// Whether the changes of a seed are proved so.
fn are_proved(alloc: Global, seed: u64) -> bool {
    let Some(both) = both_of(alloc, seed) else {
        return false;
    };
    match proved(alloc, &both.after.blocks, both.after.root, &both.changes) {
        Ok(proof) => is_proof(alloc, &both, &proof),
        Err(_) => false,
    }
}

/// Whether those of all seeds below a bound are.
fn all_are_proved(alloc: Global, seeds: u64) -> bool {
    for seed in 1..seeds {
        if !are_proved(alloc, seed) {
            return false;
        }
    }
    true
}

#[test]
fn random_changes_are_proved(rt: HostRuntime) {
    assert!(rt; all_are_proved(rt.alloc(), 40));
}
