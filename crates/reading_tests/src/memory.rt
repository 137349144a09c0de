//! Want of memory.

use crate::empty::EMPTY;
use crate::one::ONE;
use car_reader::{CarFault, Places, are_named, read_car};
use cid::Sha256;
use refusing::Refusing;
use repository_check::{CheckFault, check};
use std::alloc::Global;

/// Reads the file, tests its names and makes a table of its places: how many blocks it finds.
fn read_whole(heap: &Refusing<Global>) -> Result<usize, CarFault> {
    let car = read_car(heap, &EMPTY)?;
    if !are_named::<Sha256, &Refusing<Global>>(heap, &car.sections)? {
        return Ok(0);
    }
    let places = Places::new(heap, &car.sections)?;
    let mut found = 0usize;
    for section in &car.sections {
        if places.find(&section.cid.to_cid()).is_some() {
            found = found.saturating_add(1);
        }
    }
    Ok(found)
}

#[test]
fn answers_each_refusal_of_memory(rt: HostRuntime) {
    let heap = Refusing::new(rt.alloc());
    let mut whole = false;
    for number in 1..20u64 {
        heap.refuse(number);
        let before = heap.refused();
        let answer = read_whole(&heap);
        let refused = heap.refused() != before;
        let right = if refused {
            answer == Err(CarFault::NoMemory)
        } else {
            answer == Ok(2)
        };
        assert!(rt; right && heap.live() == 0, "at request {number}");
        whole = !refused;
    }
    assert!(rt; whole);
}

/// Checks the file with one record: how many it finds.
fn check_whole(heap: &Refusing<Global>) -> Result<usize, CheckFault> {
    let found = check::<Sha256, 2, &Refusing<Global>>(heap, &ONE)?;
    Ok(found.records.len())
}

#[test]
fn a_check_answers_each_refusal_of_memory(rt: HostRuntime) {
    let heap = Refusing::new(rt.alloc());
    let mut whole = false;
    for number in 1..80u64 {
        heap.refuse(number);
        let before = heap.refused();
        let answer = check_whole(&heap);
        let refused = heap.refused() != before;
        let right = if refused {
            answer == Err(CheckFault::NoMemory)
        } else {
            answer == Ok(1)
        };
        assert!(rt; right && heap.live() == 0, "at request {number}");
        whole = !refused;
    }
    assert!(rt; whole);
}
