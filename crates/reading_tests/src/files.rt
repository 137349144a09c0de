//! Files.

use crate::empty::{EMPTY, FOREIGN};
use car_reader::{CarFault, Places, are_named, read_car};
use cid::{Cid, Sha256};
use std::alloc::{AllocError, Global};

/// The place of the commit in the file, behind the header, the length of its section and its CID.
const COMMIT: usize = 97;

/// The first `length` bytes of the file, with another byte at one place.
fn changed(alloc: Global, length: usize, place: usize, byte: u8) -> Result<Vec<u8>, AllocError> {
    let mut bytes = Vec::new(alloc);
    for (at, old) in EMPTY.iter().enumerate() {
        if at < length {
            bytes.push(if at == place { byte } else { *old })?;
        }
    }
    Ok(bytes)
}

/// Where a file is cut, a byte that is changed, what it becomes, and the fault.
const FAULTS: [(usize, usize, u8, CarFault); 6] = [
    (58, 0, 0x3a, CarFault::BadHeader),
    (329, 8, 0x82, CarFault::BadHeader),
    (60, 0, 0x3a, CarFault::BadLength),
    (329, 60, 0x00, CarFault::BadLength),
    (328, 0, 0x3a, CarFault::Truncated),
    (329, 61, 0x02, CarFault::BadCid),
];

#[test]
fn reads_the_empty_repository(rt: HostRuntime) {
    let car = read_car(rt.alloc(), &EMPTY).expect(&rt, "a CAR");
    assert_eq!(rt; car.sections.len(), 2);
    let named = are_named::<Sha256, Global>(rt.alloc(), &car.sections).expect(&rt, "memory");
    assert!(rt; named);
    let places = Places::new(rt.alloc(), &car.sections).expect(&rt, "memory for places");
    let commit = places.find(&car.root.to_cid()).expect(&rt, "the commit");
    assert!(rt; commit == &EMPTY[COMMIT..285]);
    let node = places
        .find(&Cid::of::<Sha256>(b"\xa2\x61e\x80\x61l\xf6"))
        .expect(&rt, "the node");
    assert!(rt; node == b"\xa2\x61e\x80\x61l\xf6".as_slice());
    assert!(rt; places.find(&Cid::of::<Sha256>(b"\x07")).is_none());
}

#[test]
fn takes_blocks_twice_and_blocks_of_others(rt: HostRuntime) {
    let mut file = Vec::from_slice(rt.alloc(), &EMPTY).expect(&rt, "memory");
    file.extend_from_slice(&FOREIGN).expect(&rt, "memory");
    file.extend_from_slice(&FOREIGN).expect(&rt, "memory");
    let car = read_car(rt.alloc(), &file).expect(&rt, "a CAR");
    assert_eq!(rt; car.sections.len(), 4);
    let named = are_named::<Sha256, Global>(rt.alloc(), &car.sections).expect(&rt, "memory");
    assert!(rt; named);
    let places = Places::new(rt.alloc(), &car.sections).expect(&rt, "memory for places");
    let foreign = places.find(&Cid::of::<Sha256>(b"\x07"));
    assert!(rt; foreign.expect(&rt, "the block") == b"\x07".as_slice());
}

#[test]
fn names_each_fault(rt: HostRuntime) {
    for (length, place, byte, wanted) in &FAULTS {
        let bytes = changed(rt.alloc(), *length, *place, *byte).expect(&rt, "memory");
        let fault = read_car(rt.alloc(), &bytes).err();
        assert!(rt; fault == Some(*wanted), "{length} bytes, {byte} at {place}");
    }
}

#[test]
fn tells_a_block_under_another_cid(rt: HostRuntime) {
    let bytes = changed(rt.alloc(), 329, 328, 0xf5).expect(&rt, "memory");
    let car = read_car(rt.alloc(), &bytes).expect(&rt, "a CAR");
    let named = are_named::<Sha256, Global>(rt.alloc(), &car.sections).expect(&rt, "memory");
    assert!(rt; !named);
}
