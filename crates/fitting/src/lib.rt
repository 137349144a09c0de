//! Types that fit in memory.
//!
//! A type's size is its allocator's too, and of an allocator that is a parameter none is known. A call that is lent such a
//! value has to show that it fits all the same. It is known of what was tested ([`fits_in_memory`]), of the elements of a
//! list that has one ([`element`]), and of the fields of what fits (`field_fits` of the proofs).
#![tactic(auto)]

ghost use Rattle.std.specs.Prelude.{◌≡◌, ◌<◌, length, slice_index_or, true};
ghost use Rattle.std.specs.Mem.{FitsInMemory};

use std::mem::size_of;

/// Whether a value of the type fits in memory.
pub fn fits_in_memory<T>() -> bool
    ensures { result ≡ true → FitsInMemory T.row }
{
    size_of::<T>() < 0x8000_0000_0000_0000
}

/// The element at a place.
///
/// Its type fits in memory, as a slice of it does. A proof knows that of a slice, and not of the fields of a struct whose
/// size its allocator's decides.
pub fn element<T>(all: &[T], place: usize) -> &T
    requires { place < length all.now }
    ensures value { (d : T) → result.now ≡ slice_index_or all.now place d }
    ensures fits { FitsInMemory T.row }
{
    &all[place]
}
