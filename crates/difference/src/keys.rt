//! A key that a row owns.

ghost use Rattle.std.specs.Prelude.{◌≡◌, IfOk};
ghost use Rattle.difference.specs.Keys.{key_in};

use arrayvec::ArrayVec;
use std::alloc::{AllocError, Allocator};

/// A key's bytes: most keys are short and stand in the row itself.
#[derive(Drop)]
pub(crate) enum Key<A: Allocator> {
    Short(ArrayVec<u8, 40>),
    Long(Vec<u8, A>),
}

impl<A: Allocator> Key<A> {
    /// The key with these bytes.
    pub(crate) fn of(alloc: A, bytes: &[u8]) -> Result<Key<A>, AllocError>
        ensures { IfOk result (λ key. key_in key ≡ bytes.now) }
    {
        let mut short = ArrayVec::new();
        match short.try_extend_from_slice(bytes) {
            Ok(()) => Ok(Key::Short(short)),
            Err(_) => Ok(Key::Long(Vec::from_slice(alloc, bytes)?)),
        }
    }

    /// Its bytes.
    pub(crate) fn bytes(&self) -> &[u8]
        ensures { result.now ≡ key_in self.now }
    {
        match self {
            Key::Short(short) => short.as_slice(),
            Key::Long(long) => long.as_slice(),
        }
    }

    /// Its bytes in a list of their own.
    pub(crate) fn into_vec(self, alloc: A) -> Result<Vec<u8, A>, AllocError>
        ensures { IfOk result (λ bytes. bytes.items ≡ key_in self) }
    {
        match self {
            Key::Short(short) => Vec::from_slice(alloc, short.as_slice()),
            Key::Long(long) => Ok(long),
        }
    }
}
