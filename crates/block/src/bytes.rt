//! Where the bytes of a block are.

ghost use Rattle.std.specs.Prelude.{◌≡◌};
ghost use Rattle.block.specs.Bytes.{bytes_in, record_in};

use crate::write::Write;
use std::alloc::Allocator;
use std::sync::Arc;

/// The bytes of a block: its own, or the record of a write that it keeps.
#[derive(Drop)]
#[derive_where(Debug)]
pub(crate) enum Bytes<A: Allocator> {
    Own(Vec<u8, A>),
    OfWrite(Arc<Write<A>, A>),
}

impl<A: Allocator> Bytes<A> {
    pub(crate) fn as_slice(&self) -> &[u8]
        ensures { result.now ≡ bytes_in self.now }
    {
        match self {
            Bytes::Own(bytes) => bytes,
            Bytes::OfWrite(write) => record_in(write),
        }
    }
}

/// The record of a write. That of a delete is taken as empty.
pub(crate) fn record_in<A: Allocator>(write: &Arc<Write<A>, A>) -> &[u8]
    ensures { result.now ≡ record_in write.now }
{
    match write.record() {
        Some(record) => record,
        None => &[],
    }
}
