//! What is told of two files.
use std::alloc::{Allocator, Global};

/// What is told of two files.
#[derive(Drop)]
pub struct Told<A: Allocator = Global> {
    /// The lines of the changes.
    pub lines: Vec<u8, A>,
    /// The blocks that come by them, as a slice of a CAR file, where they are wanted.
    pub slice: Option<Vec<u8, A>>,
}
