//! How often something was done, for proofs alone.

ghost use Rattle.std.specs.Prelude.{◌≡◌, ℕ, suc};
ghost use Rattle.std.specs.Borrow.{ftrue};

use std::marker::Model;

/// How often something was done, as a number of any size that proofs alone read. It takes no memory, and its methods do
/// nothing when they run.
#[derive(Drop)]
pub struct Count {
    pub ghost times: { ℕ },
}

impl Model for Count {
    ghost also_owns = { λ _. ftrue };
}

impl Count {
    /// Not once so far.
    pub fn never() -> Count
        ensures { result.times ≡ 0 }
    {
        Count {}
    }

    /// Once more than before.
    pub fn once_more(&self) -> Count
        ensures { result.times ≡ suc self.now.times }
    {
        Count {}
    }
}
