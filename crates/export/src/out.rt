//! Where an export goes.

ghost use Rattle.std.specs.Prelude.{◌≡◌, ◌<◌, ◌≤◌, ℕ, List, suc, length, IfOk, OnOk, OnErr};
ghost use Rattle.export.specs.Outs.{TakesFirst};

/// A write that was refused: nothing of the bytes was taken.
#[derive(Clone, Copy, Debug, PartialEq, Eq)]
pub struct Failed;

/// What takes bytes, some at a time.
///
/// A contract sees it as the bytes that it has taken, and how often it has failed.
pub trait Out {
    /// The bytes that it has taken so far, with those in front that it held from the start, if it counts them.
    ghost taken: { Self → List ℕ };

    /// How often it has failed so far.
    ghost failures: { Self → ℕ };

    /// Takes some of the bytes, from the first on, and answers how many: at least one where there are any. After
    /// `Failed` none of them was taken.
    fn write(&mut self, bytes: &[u8]) -> Result<usize, Failed>
        ensures some { 0 < length bytes.now → IfOk result (λ count. 0 < count) }
        ensures within { IfOk result (λ count. count ≤ length bytes.now) }
        ensures taken { IfOk result (TakesFirst (taken self.old) (taken self.new) bytes.now) }
        ensures went { OnOk result (failures self.new ≡ failures self.old) }
        ensures refused { OnErr result (taken self.new ≡ taken self.old) }
        ensures failed { OnErr result (failures self.new ≡ suc (failures self.old)) };
}
