//! A whole file.

ghost use Rattle.std.specs.Prelude.{length};
ghost use Rattle.spec.specs.Reading.{Gives};
ghost use Rattle.spec.specs.CarReading.{read_car, sections_within};
ghost use Rattle.car_reader.specs.Views.{car_of, car_fault_of, sections_of};

use crate::fault::CarFault;
use crate::parts::{header, section};
use crate::section::Section;
use cid::CidRef;
use std::alloc::{Allocator, Global};

/// A file as it lies in memory: the root that it names, and its sections in their order.
#[derive(Debug, Drop)]
pub struct Car<'a, A: Allocator = Global> {
    pub root: CidRef<'a>,
    pub sections: Vec<Section<'a>, A>,
}

/// The root and the sections of a file, or its first fault from the left (CARv1).
///
/// The header is that of a file with one root. Each section's length has its shortest form, and each CID is of version 1 with
/// codec dag-cbor and hash SHA-256. So a file that is read is the one spelling of what was read. Nothing is hashed here.
#[tactic(auto, unfolding(spec::specs::CarReading::read_car))]
pub fn read_car<'a, A: Allocator>(alloc: A, file: &'a [u8]) -> Result<Car<'a, A>, CarFault>
    ensures { Gives car_of car_fault_of result (read_car file.now) }
{
    let (root, rest) = header(file)?;
    let sections = sections(alloc, rest)?;
    Ok(Car { root, sections })
}

/// The sections up to the end.
fn sections<'a, A: Allocator>(alloc: A, bytes: &'a [u8]) -> Result<Vec<Section<'a>, A>, CarFault>
    ensures { Gives (λ v. sections_of v.items) car_fault_of result
        (sections_within (length bytes.now) bytes.now) }
{
    let mut found = Vec::new(alloc);
    let mut rest = bytes;
    'sections: while !rest.is_empty() {
        let (next, after) = section(rest)?;
        found.push(next)?;
        rest = after;
    }
    Ok(found)
}
