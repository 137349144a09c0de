//! Records where memory is refused.

use crate::records::{fault_of, read_and_write};
use dagcbor::{CborFault, push_head};
use refusing::Refusing;
use std::alloc::{Allocator, Global};
use std::process::Abort;

/// A map with each kind of value: both booleans, null, a number of each sign with a head of nine bytes, a byte string, a
/// text, a link, a list of numbers with the shorter heads, and a map.
const EACH_KIND: &[u8] = b"\xaa\x61a\xf4\x61b\xf5\x61c\xf6\x61d\x1b\x00\x00\x00\x01\x00\x00\x00\x00\
    \x61e\x3b\x00\x00\x00\x01\x00\x00\x00\x00\x61f\x44\x00\x01\x02\xff\x61g\x62\xc3\xa9\
    \x61h\xd8\x2a\x49\x00\x01\x55\x00\x04\x01\x02\x03\x04\
    \x61i\x85\x00\x18\x18\x19\x01\x00\x1a\x00\x01\x00\x00\x20\x61j\xa0";

/// Whether an answer is that memory was refused where it was, else that the same bytes came.
fn is_right(answer: Result<bool, CborFault>, refused: bool) -> bool {
    match answer {
        Ok(same) => same && !refused,
        Err(fault) => fault == CborFault::NoMemory && refused,
    }
}

/// Reads and writes with each request for memory refused in turn: how many requests there are.
fn requests_refused(rt: &impl Abort, heap: &Refusing<Global>, bytes: &[u8]) -> u64 {
    for number in 1..100u64 {
        heap.refuse(number);
        let before = heap.refused();
        let answer = read_and_write(heap, bytes);
        let refused = heap.refused() != before;
        let right = is_right(answer, refused) && heap.live() == 0;
        assert!(rt; right, "at request {number}");
        if !refused {
            return number - 1;
        }
    }
    0
}

/// The map with each kind of value within so many lists.
fn within_lists(rt: &impl Abort, alloc: Global, depth: u8) -> Vec<u8> {
    let mut bytes = Vec::new(alloc);
    bytes
        .resize(usize::from(depth), 0x81)
        .expect(rt, "memory for the lists");
    bytes
        .extend_from_slice(EACH_KIND)
        .expect(rt, "memory for the map");
    bytes
}

// Each list around the map moves it along by one byte, so that what is written grows at each of the map's parts in turn.
// Reading asks once for each list and map of few items: the map, the list in it, and those around it; writing five times
// or more.
#[test]
fn answers_each_refusal_of_memory(rt: HostRuntime) {
    let heap = Refusing::new(rt.alloc());
    for depth in 0..61u8 {
        let bytes = within_lists(&rt, rt.alloc(), depth);
        let requests = requests_refused(&rt, &heap, &bytes);
        assert!(rt; requests >= 7 + u64::from(depth), "{requests} requests");
    }
}

/// The beginnings of lists and maps whose items are missing, each with the number of its items in another length.
const STATED_NUMBERS: [&[u8]; 10] = [
    b"\x9b\xff\xff\xff\xff\xff\xff\xff\xff",
    b"\xbb\x7f\xff\xff\xff\xff\xff\xff\xff",
    b"\x9a\xff\xff\xff\xff",
    b"\xba\xff\xff\xff\xff",
    b"\x99\xff\xff",
    b"\xb9\xff\xff",
    b"\x98\xff",
    b"\xb8\xff",
    b"\x97",
    b"\xb7",
];

/// How many lists can be around these bytes, up to 64, while no room is asked for up to where they end.
fn levels_without_room(
    rt: &impl Abort,
    alloc: Global,
    heap: &Refusing<Global>,
    stated: &[u8],
) -> u8 {
    let mut bytes = Vec::from_slice(alloc, stated).expect(rt, "memory for the beginning");
    for levels in 0..64u8 {
        if fault_of(heap, &bytes) != Some(CborFault::Truncated) || heap.refused() != 0 {
            return levels;
        }
        bytes.insert(0, 0x81).expect(rt, "memory for a level");
    }
    64
}

// A list asks for room only when its first item has been read, so none is asked for up to where the bytes end.
#[test]
fn asks_for_no_room_by_a_stated_number(rt: HostRuntime) {
    let heap = Refusing::new(rt.alloc());
    heap.refuse_from(1);
    for stated in &STATED_NUMBERS {
        let levels = levels_without_room(&rt, rt.alloc(), &heap, stated);
        assert!(rt; levels == 64, "{levels} levels around {stated:?}");
    }
}

/// Puts heads of each length, over a heap that refuses one request: how many bytes there were before the refusal and after it.
fn push_until_refused<A: Allocator>(alloc: A) -> (usize, usize) {
    let mut out = Vec::new(alloc);
    let mut before = 0;
    for _turn in 0..100u32 {
        for n in [0, 24, 0x100, 0x1_0000, 0x1_0000_0000] {
            before = out.len();
            if push_head(&mut out, 2, n).is_err() {
                return (before, out.len());
            }
        }
    }
    (before, 0)
}

/// Whether no byte of a head is put where this request for memory is refused, and no other request is.
fn puts_all_or_none(alloc: Global, number: u64) -> bool {
    let heap = Refusing::new(alloc);
    heap.refuse(number);
    let (before, after) = push_until_refused(&heap);
    before == after && heap.refused() == 1
}

#[test]
fn puts_no_part_of_a_head(rt: HostRuntime) {
    for number in 1..6u64 {
        assert!(rt; puts_all_or_none(rt.alloc(), number), "at request {number}");
    }
    let mut out = Vec::new(rt.alloc());
    assert!(rt;
        push_head(&mut out, 6, 42).is_ok()
            && push_head(&mut out, 1, 0x1_0000_0000).is_ok()
            && out.as_slice() == b"\xd8\x2a\x3b\x00\x00\x00\x01\x00\x00\x00\x00".as_slice()
    );
}
