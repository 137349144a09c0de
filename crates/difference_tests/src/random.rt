//! Pairs of trees of keys and values that look random.

ghost use Rattle.std.specs.Prelude.{◌≤◌};

use crate::fixtures::{Known, Trees, blocks_without, compared, trees_of, value};
use crate::plain::is_difference_of;
use cid::digests::Toy;
use cid::{Digest, Sha256};
use std::alloc::{AllocError, Global};

/// Numbers that look random, the same in each run.
#[derive(Drop)]
pub(crate) struct Numbers {
    state: u64,
}

impl Numbers {
    /// From this number on.
    pub(crate) fn of(seed: u64) -> Numbers {
        Numbers { state: seed | 1 }
    }

    /// The next number, below 256.
    pub(crate) fn next(&mut self) -> u8 {
        self.state ^= self.state << 13;
        self.state ^= self.state >> 7;
        self.state ^= self.state << 17;
        let [_, _, _, byte, ..] = self.state.to_be_bytes();
        byte
    }

    /// The number of one of three values, or of none, as often.
    fn some_value(&mut self) -> u8 {
        self.next() & 3
    }

    /// The key at a place, in both trees: its values differ where a number is below this one.
    fn known(&mut self, place: u8, often: u8) -> Known {
        let before = self.some_value();
        let after = if self.next() < often {
            self.some_value()
        } else {
            before
        };
        Known {
            place,
            before,
            after,
        }
    }
}

/// Keys of two trees: those for which a number is below `dense`; their values differ where one is below `often`.
pub(crate) fn random_keys(
    alloc: Global,
    numbers: &mut Numbers,
    dense: u8,
    often: u8,
) -> Result<Vec<Known>, AllocError> {
    let mut all = Vec::new(alloc);
    for place in 0..96u8 {
        if numbers.next() < dense {
            all.push(numbers.known(place, often))?;
        }
    }
    Ok(all)
}

/// Whether these trees are compared rightly.
fn are_compared<D: Digest, const B: u8>(alloc: Global, all: &[Known], trees: &Trees<D>) -> bool
    requires { 1 ≤ B }
{
    let Ok(blocks) = blocks_without(alloc, trees, value(9)) else {
        return false;
    };
    let (answer, reads) = compared::<D, B>(alloc, &blocks, trees.old.root, trees.new.root);
    match answer {
        Ok(found) => is_difference_of(&found, reads, all, trees),
        Err(_) => false,
    }
}

/// Whether the trees of these keys are compared rightly.
pub(crate) fn is_right<D: Digest, const B: u8>(alloc: Global, all: &[Known]) -> bool
    requires least { 1 ≤ B }
    requires most { B ≤ 8 }
{
    let Some(trees) = trees_of::<D, B>(alloc, all) else {
        return false;
    };
    are_compared::<D, B>(alloc, all, &trees)
}

/// Whether some pairs of trees of each kind are compared rightly: with few and many keys, and few and many changes.
fn are_right<D: Digest, const B: u8>(alloc: Global, seed: u64) -> bool
    requires least { 1 ≤ B }
    requires most { B ≤ 8 }
{
    let mut numbers = Numbers::of(seed);
    for turn in 0..40u8 {
        let dense = [10, 60, 140, 255][usize::from(turn % 4)];
        let often = [4, 20, 90, 255][usize::from(turn / 4 % 4)];
        let Ok(all) = random_keys(alloc, &mut numbers, dense, often) else {
            return false;
        };
        if !is_right::<D, B>(alloc, &all) {
            return false;
        }
    }
    true
}

#[test]
fn one_bit(rt: HostRuntime) {
    assert!(rt; are_right::<Toy, 1>(rt.alloc(), 88_172_645_463_325_252));
}

#[test]
fn two_bits(rt: HostRuntime) {
    assert!(rt; are_right::<Toy, 2>(rt.alloc(), 88_172_645_463_325_253));
}

#[test]
fn eight_bits(rt: HostRuntime) {
    assert!(rt; are_right::<Toy, 8>(rt.alloc(), 88_172_645_463_325_254));
}

#[test]
fn sha256(rt: HostRuntime) {
    assert!(rt; are_right::<Sha256, 2>(rt.alloc(), 88_172_645_463_325_255));
}

#[test]
fn empty_trees(rt: HostRuntime) {
    assert!(rt; is_right::<Toy, 2>(rt.alloc(), &[]));
}

/// The key at a place, with these values.
fn known(place: u8, before: u8, after: u8) -> Known {
    Known {
        place,
        before,
        after,
    }
}

#[test]
fn one_empty_tree(rt: HostRuntime) {
    let comes = [known(1, 0, 1), known(7, 0, 2)];
    let goes = [known(1, 1, 0), known(7, 2, 0)];
    assert!(rt; is_right::<Toy, 2>(rt.alloc(), &comes) && is_right::<Toy, 2>(rt.alloc(), &goes));
}

/// Between two keys that stay each other key comes, and goes, so that the two trees differ in height wherever its layer is higher.
#[test]
fn each_key_comes_and_goes(rt: HostRuntime) {
    let alloc = rt.alloc();
    for place in 1..95u8 {
        let comes = [known(0, 1, 1), known(place, 0, 1), known(95, 1, 1)];
        let goes = [known(0, 1, 1), known(place, 1, 0), known(95, 1, 1)];
        assert!(rt; is_right::<Toy, 1>(alloc, &comes) && is_right::<Toy, 1>(alloc, &goes));
    }
}
