//! An output in memory.

ghost use Rattle.std.specs.Prelude.{◌≡◌, ◌<◌, []};

use crate::out::{Failed, Out};
use counts::Count;
use std::alloc::{Allocator, Global};
use std::marker::Model;

/// An output that keeps what it takes in memory. It fails where memory is refused.
///
/// A contract sees it as the bytes, and how often it has failed.
#[derive(Drop)]
pub struct ToMemory<A: Allocator = Global> {
    bytes: Vec<u8, A>,
    failures: Count,
}

impl<A: Allocator> Model for ToMemory<A> {
    ghost use Rattle.export.specs.Outs.{Filling};

    ghost Value = { Filling };

    ghost view = { λ m. record { taken = m.bytes.items; failures = m.failures.times } };
}

impl<A: Allocator> ToMemory<A> {
    /// An empty output.
    pub fn new(alloc: A) -> ToMemory<A>
        ensures { result ≡ record { taken = []; failures = 0 } }
    {
        ToMemory::over(Vec::new(alloc))
    }

    /// An output that goes on behind these bytes. The room that the list has is used first, so one that was cleared takes
    /// another file of the same length without asking for memory.
    pub fn over(bytes: Vec<u8, A>) -> ToMemory<A>
        ensures { result ≡ record { taken = bytes.items; failures = 0 } }
    {
        let failures = Count::never();
        ToMemory { bytes, failures }
    }

    /// The bytes that it has taken.
    pub fn bytes(&self) -> &[u8]
        ensures { result.now ≡ self.now.taken }
    {
        &self.bytes
    }

    /// The bytes that it has taken, to keep.
    pub fn into_bytes(self) -> Vec<u8, A>
        ensures { result.items ≡ self.taken }
    {
        self.bytes
    }
}

impl<A: Allocator> Out for ToMemory<A> {
    ghost taken = { λ m. m.taken };

    ghost failures = { λ m. m.failures };

    fn write(&mut self, bytes: &[u8]) -> Result<usize, Failed> {
        match self.bytes.extend_from_slice(bytes) {
            Ok(()) => Ok(bytes.len()),
            Err(_) => {
                self.failures = self.failures.once_more();
                Err(Failed)
            }
        }
    }
}
