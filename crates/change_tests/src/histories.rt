//! Random histories of batches, each step beside the tree from scratch of the pairs that it leaves.

ghost use Rattle.std.specs.Prelude.{◌≤◌, ◌<◌};

use crate::fixtures::{KEYS, value};
use crate::history::begin;
use crate::plain::place_of;
use cid::digests::Toy;
use cid::{Cid, Digest, Sha256};
use edit::Change;
use std::alloc::{AllocError, Global};

/// Numbers that look random, the same in each run.
#[derive(Drop)]
pub(crate) struct Numbers {
    state: u64,
}

impl Numbers {
    /// The numbers of a seed.
    pub(crate) fn of(seed: u64) -> Numbers {
        Numbers { state: seed }
    }

    /// The next number below `bound`.
    fn below(&mut self, bound: usize) -> usize
        requires { 1 ≤ bound }
        ensures { result < bound }
    {
        self.state ^= self.state << 13;
        self.state ^= self.state >> 7;
        self.state ^= self.state << 17;
        (self.state >> 16) as usize % bound
    }
}

/// What a batch does.
#[derive(Clone, Copy, PartialEq, Eq)]
enum Kind {
    /// Takes all keys away.
    Clear,
    /// Gives keys the values that they have.
    Again,
    /// Puts and deletes keys whose last digit is 3: these raise the tree and prune it.
    High,
    /// Puts and deletes keys.
    Mixed,
}

/// One batch in ten clears the tree, two give the same values, two change high keys.
fn random_kind(numbers: &mut Numbers) -> Kind {
    match numbers.below(10) {
        0 => Kind::Clear,
        1 | 2 => Kind::Again,
        3 | 4 => Kind::High,
        _ => Kind::Mixed,
    }
}

/// Whether a batch of this kind changes the key, where so many of 32 keys are changed.
fn takes(numbers: &mut Numbers, kind: Kind, odds: usize, key: &[u8]) -> bool {
    match kind {
        Kind::Clear => true,
        Kind::Again | Kind::Mixed => numbers.below(32) < odds,
        Kind::High => key.ends_with(b"3") && numbers.below(2) == 0,
    }
}

/// What a batch of this kind makes of a value; one in three changes deletes.
fn random_value(numbers: &mut Numbers, kind: Kind, old: Option<Cid>) -> Option<Cid> {
    match kind {
        Kind::Clear => None,
        Kind::Again => old,
        Kind::High | Kind::Mixed => match numbers.below(3) {
            0 => None,
            number => Some(value(number as u8)),
        },
    }
}

/// A batch over these pairs: no changes, or up to 60 or so; or of all keys.
pub(crate) fn random_batch(
    alloc: Global,
    numbers: &mut Numbers,
    pairs: &[(Vec<u8>, Cid)],
) -> Result<Vec<Change<'static>>, AllocError> {
    let kind = random_kind(numbers);
    let odds = numbers.below(21);
    let mut changes = Vec::new(alloc);
    for key in KEYS {
        if takes(numbers, kind, odds, key) {
            let (_, old) = place_of(pairs, key);
            let value = random_value(numbers, kind, old);
            changes.push(Change { key, value })?;
        }
    }
    Ok(changes)
}

/// Whether so many batches leave the tree from scratch, each.
fn agrees<D: Digest, const B: u8>(alloc: Global, seed: u64, batches: u32) -> bool
    requires least { 1 ≤ B }
    requires most { B ≤ 8 }
{
    let mut numbers = Numbers::of(seed);
    let Some(mut history) = begin::<D, B>(alloc, Vec::new(alloc)) else {
        return false;
    };
    for _ in 0..batches {
        match random_batch(alloc, &mut numbers, &history.pairs) {
            Ok(changes) if history.batch::<B>(alloc, &changes) => {}
            _ => return false,
        }
    }
    true
}

#[test]
fn histories_under_the_toy_digest(rt: HostRuntime) {
    let ones = agrees::<Toy, 1>(rt.alloc(), 1, 80);
    let twos = agrees::<Toy, 2>(rt.alloc(), 2, 80);
    assert!(rt; ones && twos && agrees::<Toy, 8>(rt.alloc(), 3, 80));
}

#[test]
fn histories_under_sha_256(rt: HostRuntime) {
    let ones = agrees::<Sha256, 1>(rt.alloc(), 4, 80);
    let twos = agrees::<Sha256, 2>(rt.alloc(), 5, 80);
    assert!(rt; ones && twos && agrees::<Sha256, 8>(rt.alloc(), 6, 80));
}
