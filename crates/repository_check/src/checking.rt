//! The check of a whole file.

ghost use Rattle.std.specs.Prelude.{◌≡◌, ◌≤◌, IfOk, IfErr, IfSome};
ghost use Rattle.spec.specs.Blocks.{pairs};
ghost use Rattle.spec.specs.Exports.{IsExport, IsFirstFault};
ghost use Rattle.signed_commits.specs.Views.{commit_of};
ghost use Rattle.repository_check.specs.Views.{check_fault_of, listed_pairs, records_of};

use crate::fault::CheckFault;
use crate::opening::{commit_with, named_car};
use crate::records::{records_in, with_records};
use crate::repository::Repository;
use crate::tree::tree_in;
use car_reader::Places;
use cid::Digest;
use std::alloc::Allocator;

/// The repository that a file is the export of, or the first fault, in the order in which `CheckFault` lists them.
///
/// The file is a CAR with one root (`CheckFault::Car`), each section is named by its block (`CheckFault::Misnamed`), the root
/// is there (`CheckFault::NoCommit`) and is a signed commit (`CheckFault::Commit`), the file has each node of the tree that
/// the commit names (`CheckFault::NotTheTree`), and each record of it (`CheckFault::Record`). Sections stand in any order,
/// any number of times, and beside others. Each block is hashed once, and the nodes once more, as the tree is built anew.
/// `CheckFault::NoMemory` comes wherever memory was refused.
///
/// `B` is the number of zero bits of a digest that count for one layer, 2 in the AT Protocol.
pub fn check<'f, D: Digest, const B: u8, A: Allocator + Copy>(
    alloc: A,
    file: &'f [u8],
) -> Result<Repository<'f, A>, CheckFault>
    requires least { 1 ≤ B }
    requires most { B ≤ 8 }

    // What is answered is what the file is the export of.
    ensures export { IfOk result (λ r.
        IsExport D.digest_of B file.now (commit_of r.commit) (records_of r)) }

    // Each record has its CID beside it.
    ensures cids { IfOk result (λ r. listed_pairs r ≡ pairs D.digest_of (records_of r)) }

    // A fault is the first one.
    ensures fault { IfErr result (λ e. IfSome (check_fault_of e)
        (IsFirstFault D.digest_of B file.now)) }
{
    let car = named_car::<D, A>(alloc, file)?;
    let places = Places::new(alloc, &car.sections)?;
    let commit = commit_with(&places, &car.root.to_cid())?;
    let sections = car.sections.len();
    let pairs = tree_in::<D, B, A>(alloc, &places, &commit.root.to_cid(), sections)?;
    let lent = records_in(alloc, &places, &pairs)?;
    let records = with_records(alloc, pairs, lent)?;
    Ok(Repository { commit, records })
}
