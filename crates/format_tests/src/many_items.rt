//! Records of many items.

use crate::records::read_and_write;
use std::alloc::{AllocError, Global};

/// The heads of lists and maps, how many items each has, and of how many texts an item is: a pair's value is its key again.
const HEADS: [(&[u8], u16, u8); 4] = [
    (b"\x98\x81", 129, 1),
    (b"\x99\x03\xe8", 1000, 1),
    (b"\xb8\x81", 129, 2),
    (b"\xb9\x03\xe8", 1000, 2),
];

/// The bytes of a value with this head and so many items, each of so many texts: `0000`, and so on in order.
fn with_items(alloc: Global, head: &[u8], count: u16, texts: u8) -> Result<Vec<u8>, AllocError> {
    let mut bytes = Vec::from_slice(alloc, head)?;
    for number in 0..count {
        // the letter is the head of a text of four bytes
        let text = format!(in alloc; "d{number:04}")?;
        for _ in 0..texts {
            bytes.extend_from_slice(text.as_bytes())?;
        }
    }
    Ok(bytes)
}

#[test]
fn lists_and_maps_of_many_items(rt: HostRuntime) {
    for (head, count, texts) in &HEADS {
        let bytes = with_items(rt.alloc(), head, *count, *texts).expect(&rt, "memory for items");
        let same = read_and_write(rt.alloc(), &bytes);
        assert!(rt; same == Ok(true), "{count} items behind {head:?}");
    }
}
