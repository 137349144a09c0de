//! An allocator for tests: it refuses a chosen request for memory, and counts the blocks that are out.
//!
//! `&heap` is an allocator too, and `Clone`. So a test hands `&heap` to what it tests, lets each request fail in turn,
//! and asks the heap afterwards:
//!
//! ```text
//! let heap = Refusing::new(rt.alloc());
//! let mut made = Vec::new(&heap);
//! heap.refuse(1);
//! assert!(rt; made.push(7u8).is_err());
//! assert_eq!(rt; heap.live(), 0);
//! ```
//!
//! No contract says what a cell holds, so what the counts are is shown by tests alone. What is proved is that each
//! block that it grants is a block of the allocator below it, as for any allocator.
#![tactic(auto)]

use std::alloc::{AllocError, Allocator};
use std::cell::Cell;

mod tally;

use tally::{Tally, gives_back, refuses};

/// An allocator that passes on what it is asked, but for the requests that it was told to refuse.
///
/// A growth is a request too: it takes another block and gives the old one back.
pub struct Refusing<A: Allocator> {
    inner: A,
    tally: Cell<Tally>,
}

impl<A: Allocator> Refusing<A> {
    /// An allocator over this one that refuses nothing yet.
    pub fn new(inner: A) -> Refusing<A> {
        Refusing {
            inner,
            tally: Cell::new(Tally::default()),
        }
    }

    /// From now on, refuses the request of this number alone: with 1 the next one. With 0, refuses none.
    pub fn refuse(&self, number: u64) {
        let tally = self.tally.get();
        self.tally.set(tally.refusing(number, false));
    }

    /// From now on, refuses the request of this number and each one after it. With 0, refuses none.
    pub fn refuse_from(&self, number: u64) {
        let tally = self.tally.get();
        self.tally.set(tally.refusing(number, true));
    }

    /// How many requests were refused so far.
    pub fn refused(&self) -> u64 {
        self.tally.get().refused
    }

    /// How many blocks are out: granted, and not given back. Where the allocator below refuses a request by itself,
    /// that request is counted as out.
    pub fn live(&self) -> u64 {
        self.tally.get().live
    }
}

impl<A: Allocator> Drop for Refusing<A> {
    fn drop(self) {
        let Self { inner: _, tally: _ } = self;
    }
}

unsafe impl<A: Allocator> Allocator for Refusing<A> {
    ghost dealloc_token = { λ heap ty ptr. A.dealloc_token heap.inner ty ptr };

    fn allocate(&self, size: usize, align: usize) -> Result<*mut u8, AllocError> {
        if refuses(&self.tally) {
            return Err(AllocError);
        }
        self.inner.allocate(size, align)
    }

    unsafe fn deallocate(&self, ptr: *mut u8, size: usize, align: usize) {
        gives_back(&self.tally);
        self.inner.deallocate(ptr, size, align);
    }
}
