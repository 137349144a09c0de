//! The sections of a file and its commit.

ghost use Rattle.std.specs.Prelude.{◌<◌, ◌^◌, length, IfOk};
ghost use Rattle.spec.specs.Reading.{Gives, IsBytes};
ghost use Rattle.spec.specs.Exports.{named_file, commit_with};
ghost use Rattle.car_reader.specs.Views.{car_of};
ghost use Rattle.signed_commits.specs.Views.{commit_of};
ghost use Rattle.repository_check.specs.Parts.{IsNamedCar, IsCommitAt};
ghost use Rattle.repository_check.specs.Views.{check_fault_of};

use crate::fault::CheckFault;
use car_reader::{Car, CarFault, Places, are_named, read_car};
use cid::{Cid, Digest};
use signed_commits::{SignedCommit, read_commit};
use std::alloc::Allocator;

/// What holds of any bytes in memory. This is a statement for proofs alone: it does nothing.
fn are_bytes(bytes: &[u8])
    ensures bytes { IsBytes bytes.now }
    ensures short { length bytes.now < 2 ^ 63 }
{}

/// The root and the sections of a file, each named by its block.
pub(crate) fn named_car<'f, D: Digest, A: Allocator + Clone>(
    alloc: A,
    file: &'f [u8],
) -> Result<Car<'f, A>, CheckFault>
    ensures read { Gives car_of check_fault_of result (named_file D.digest_of file.now) }
    ensures spelled { IfOk result (λ car. IsNamedCar D.digest_of file.now (car_of car)) }
{
    are_bytes(file);
    match read_car(alloc.clone()?, file) {
        Ok(car) => {
            if !are_named::<D, A>(alloc, &car.sections)? {
                return Err(CheckFault::Misnamed);
            }
            Ok(car)
        }
        Err(CarFault::NoMemory) => Err(CheckFault::NoMemory),
        Err(fault) => Err(CheckFault::Car(fault)),
    }
}

/// The commit with this CID.
pub(crate) fn commit_with<'f, A: Allocator>(
    places: &Places<'_, 'f, A>,
    root: &Cid,
) -> Result<SignedCommit<'f>, CheckFault>
    ensures read { Gives commit_of check_fault_of result (commit_with root.now places.now) }
    ensures spelled { IfOk result (λ commit. IsCommitAt root.now places.now (commit_of commit)) }
{
    let Some(block) = places.find(root) else {
        return Err(CheckFault::NoCommit);
    };
    are_bytes(block);
    match read_commit(block) {
        Ok(commit) => Ok(commit),
        Err(fault) => Err(CheckFault::Commit(fault)),
    }
}
