//! The allocator for tests: what it grants, refuses and counts.

use refusing::Refusing;
use std::alloc::{AllocError, Allocator, Global};

/// A list of one number, in a block of its own.
fn list_of<A: Allocator>(alloc: A, number: u8) -> Result<Vec<u8, A>, AllocError> {
    let mut list = Vec::new(alloc);
    list.push(number)?;
    Ok(list)
}

/// Takes three blocks that live at once: two lists and a box.
fn three_blocks<A: Allocator + Copy>(alloc: A) -> Result<u8, AllocError> {
    let _ones = list_of(alloc, 1)?;
    let _twos = list_of(alloc, 2)?;
    let boxed = Box::new(alloc, 4u8)?;
    Ok(Box::into_inner(boxed))
}

/// Whether three blocks are granted.
fn grants_three(heap: &Refusing<Global>) -> bool {
    matches!(three_blocks(heap), Ok(4))
}

/// Whether so many requests were refused, and so many blocks are out.
fn has_counts(heap: &Refusing<Global>, refused: u64, live: u64) -> bool {
    heap.refused() == refused && heap.live() == live
}

#[test]
fn grants_what_it_was_not_told_to_refuse(rt: HostRuntime) {
    let heap = Refusing::new(rt.alloc());
    assert!(rt; grants_three(&heap) && has_counts(&heap, 0, 0));
}

#[test]
fn refuses_each_request_in_turn(rt: HostRuntime) {
    for number in 1..=3u64 {
        let heap = Refusing::new(rt.alloc());
        heap.refuse(number);
        assert!(rt;
            three_blocks(&heap).is_err() && has_counts(&heap, 1, 0),
            "at request {number}"
        );
    }
    let heap = Refusing::new(rt.alloc());
    heap.refuse(4);
    assert!(rt; grants_three(&heap) && heap.refused() == 0);
}

/// Whether a list of this heap's memory gets its block at the second request.
fn refuses_the_first<A: Allocator>(heap: &Refusing<Global>, alloc: A) -> bool {
    let mut list = Vec::new(alloc);
    list.push(1u8).is_err() && list.push(2).is_ok() && has_counts(heap, 1, 1)
}

#[test]
fn refuses_one_request_and_then_grants_again(rt: HostRuntime) {
    let heap = Refusing::new(rt.alloc());
    heap.refuse(1);
    assert!(rt; refuses_the_first(&heap, &heap));
}

/// Whether each of five requests is refused.
fn refuses_five_times(heap: &Refusing<Global>) -> bool {
    for _ in 0..5u8 {
        if three_blocks(heap).is_ok() {
            return false;
        }
    }
    heap.refused() == 5
}

#[test]
fn refuses_from_a_request_on(rt: HostRuntime) {
    let heap = Refusing::new(rt.alloc());
    let mut list = Vec::new(&heap);
    heap.refuse_from(2);
    assert!(rt; list.push(1u8).is_ok() && refuses_five_times(&heap));
    heap.refuse(0);
    assert!(rt; grants_three(&heap) && heap.live() == 1);
}

/// Whether a list of this heap's memory takes a block, can't grow at first and then can, with one block out all the time.
fn grows_at_last<A: Allocator>(heap: &Refusing<Global>, alloc: A) -> bool {
    let Ok(mut list) = Vec::with_capacity(alloc, 1) else {
        return false;
    };
    let pushed = list.push(1u64).is_ok() && heap.live() == 1;
    heap.refuse(1);
    let refused = list.reserve(100).is_err() && heap.live() == 1;
    let grown = list.reserve(100).is_ok() && heap.live() == 1;
    pushed && refused && grown && list.as_slice() == [1].as_slice()
}

#[test]
fn a_growth_takes_a_block_and_gives_one_back(rt: HostRuntime) {
    let heap = Refusing::new(rt.alloc());
    assert!(rt; grows_at_last(&heap, &heap));
}
