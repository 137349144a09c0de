//! Two repositories compared.

ghost use Rattle.std.specs.Prelude.{◌≡◌, ◌≤◌, IfOk, IfErr};
ghost use Rattle.spec.specs.States.{IsLawful, state_root};
ghost use Rattle.difference.specs.Differences.{IsNothing, IsWant};
ghost use Rattle.core_differences.specs.Between.{AreApart, IsDifferenceBetween};

use crate::both::BothCores;
use cid::Digest;
use difference::{Difference, DifferenceFault};
use repo::Core;
use std::alloc::Allocator;
use std::clone::Clone;

/// What makes the tree of the one repository that of the other: the keys that differ, with the CIDs of their records in both; the
/// nodes that come, shared with the new one, and the CIDs of those that go (AT Protocol repository v3, MST structure).
///
/// It reads both roots, where they differ, and of each tree those nodes that the other lacks. Where no block of the one has the
/// CID of another block of the other, nothing but `DifferenceFault::NoMemory` comes. Both stay as they are.
pub fn difference<D: Digest, const B: u8, A: Allocator + Clone>(
    alloc: A,
    old: &Core<D, B, A>,
    new: &Core<D, B, A>,
) -> Result<Difference<D, A>, DifferenceFault>
    requires least { 1 ≤ B }
    ensures difference { AreApart D.digest_of B old.now new.now
        → IfOk result (IsDifferenceBetween D.digest_of B old.now new.now) }
    ensures fault { AreApart D.digest_of B old.now new.now → IfErr result IsWant }
    ensures equal { state_root D.digest_of B old.now ≡ state_root D.digest_of B new.now
        → IfOk result IsNothing }
    ensures lawful { IsLawful old.now }
{
    let before = old.root();
    let after = new.root();
    let earlier = old.lender();
    let later = new.lender();
    let mut blocks = BothCores::new(later, earlier);
    difference::difference::<D, B, A, BothCores<'_, D, A>>(alloc, &mut blocks, before, after)
}
