//! The CAR file of a message.

ghost use Rattle.spec.specs.Reading.{Gives};
ghost use Rattle.spec.specs.CarReading.{read_car as reading};
ghost use Rattle.cid.specs.CidRef.{bytes_of};
ghost use Rattle.car_reader.specs.Views.{car_of, sections_of};
ghost use Rattle.event_laws.specs.Verdict.{of_car, sections_of as sections_in};
ghost use Rattle.event_blocks.specs.Views.{blocks_fault_of};

use crate::fault::BlocksFault;
use car_reader::{Car, CarFault, Section, are_named, read_car};
use cid::{CidRef, Digest};
use std::alloc::Allocator;

/// The root and the sections of a file.
fn car<A: Allocator>(alloc: A, file: &[u8]) -> Result<Car<'_, A>, BlocksFault>
    ensures { Gives car_of blocks_fault_of result (of_car (reading file.now)) }
{
    match read_car(alloc, file) {
        Ok(car) => Ok(car),
        Err(CarFault::NoMemory) => Err(BlocksFault::NoMemory),
        Err(fault) => Err(BlocksFault::Car(fault)),
    }
}

/// The sections of a message's file, whose root is this commit; all blocks are hashed, and each has the CID that its section
/// states. `BlocksFault::Car`, `NotTheRoot` or `Misnamed` where it isn't so, or `NoMemory`.
#[tactic(auto, unfolding(event_laws::specs::Verdict::sections_of))]
pub fn read_blocks<'f, D: Digest, A: Allocator + Clone>(
    alloc: A,
    commit: CidRef<'_>,
    file: &'f [u8],
) -> Result<Vec<Section<'f>, A>, BlocksFault>
    ensures { Gives (λ ss. sections_of ss.items) blocks_fault_of result
        (sections_in D.digest_of (bytes_of commit.entry) file.now) }
{
    let car = car(alloc.clone()?, file)?;
    if !car.root.is_same(commit) {
        return Err(BlocksFault::NotTheRoot);
    }
    if !are_named::<D, A>(alloc, &car.sections)? {
        return Err(BlocksFault::Misnamed);
    }
    Ok(car.sections)
}
