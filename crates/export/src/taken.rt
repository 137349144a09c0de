//! What an output took, for proofs alone.

ghost use Rattle.std.specs.Prelude.{◌≡◌, ◌++◌, ℕ, List, []};
ghost use Rattle.std.specs.Borrow.{ftrue};

use std::marker::Model;

/// The bytes that an output has taken, which proofs alone read, for the ghost members of an `Out`. It takes no memory, and
/// its methods do nothing when they run.
#[derive(Drop)]
pub struct Taken {
    pub ghost bytes: { List ℕ },
}

impl Model for Taken {
    ghost also_owns = { λ _. ftrue };
}

impl Taken {
    /// Nothing so far.
    pub fn nothing() -> Taken
        ensures { result.bytes ≡ [] }
    {
        Taken {}
    }

    /// These bytes: those that an output holds from the start, which a proof names by what it knows of it.
    pub(crate) fn after<T>(output: &T) -> Taken
        ghost bytes: { List ℕ }
        ensures { result.bytes ≡ bytes }
    {
        Taken {}
    }

    /// With these bytes after the others. They are read by proofs alone.
    pub fn with(&self, bytes: &[u8]) -> Taken
        ensures { result.bytes ≡ self.now.bytes ++ bytes.now }
    {
        Taken {}
    }
}
