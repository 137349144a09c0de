//! Want of memory.

use crate::messages::{check, message_with};
use commit_events::EventFault;
use refusing::Refusing;
use std::alloc::Global;

/// Checks a message: how many sections it has.
fn sections_of(heap: &Refusing<Global>, message: &[u8]) -> Result<usize, EventFault> {
    match check(heap, message) {
        Ok(checked) => Ok(checked.sections.len()),
        Err(fault) => Err(fault),
    }
}

#[test]
fn answers_each_refusal_of_memory(rt: HostRuntime) {
    let message = message_with(rt.alloc(), &[]).expect(&rt, "a message");
    let heap = Refusing::new(rt.alloc());
    let mut whole = false;
    for number in 1..400u64 {
        heap.refuse(number);
        let before = heap.refused();
        let answer = sections_of(&heap, &message);
        let refused = heap.refused() != before;
        let right = if refused {
            answer == Err(EventFault::NoMemory)
        } else {
            answer == Ok(8)
        };
        assert!(rt; right && heap.live() == 0, "at request {number}");
        whole = !refused;
    }
    assert!(rt; whole);
}
