//! Blocks are made of given bytes where all memory is refused.

use crate::fixtures::EMPTY;
use block::Block;
use cid::digests::Toy;
use cid::{Cid, Digest, Sha256};
use refusing::Refusing;
use std::alloc::Global;

/// Whether a block of bytes of this heap shows them and their CID, and asks for no memory.
fn is_made<'h, D: Digest>(heap: &'h Refusing<Global>, bytes: &[u8]) -> bool {
    let Ok(copy) = Vec::from_slice(heap, bytes) else {
        return false;
    };
    heap.refuse_from(1);
    let block: Block<D, &Refusing<Global>> = Block::of(copy);
    let is_so = block.bytes() == bytes && block.cid() == Cid::of::<D>(bytes);
    heap.refuse(0);
    is_so && heap.refused() == 0
}

#[test]
fn a_block_takes_no_memory(rt: HostRuntime) {
    let heap = Refusing::new(rt.alloc());
    assert!(rt; is_made::<Sha256>(&heap, &EMPTY) && is_made::<Toy>(&heap, &EMPTY));
    assert!(rt; heap.live() == 0);
}
