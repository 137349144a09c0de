//! Where blocks come from, and how often they were asked for.

ghost use Rattle.std.specs.Prelude.{◌≡◌, ℕ, suc, List, Option, option_map};

use cid::Cid;

/// What a source can give. A contract sees it as a value, without the place where that lies.
pub trait Given {
    /// What a contract sees.
    type Seen;

    /// What is seen of what is given.
    ghost seen: { Self → Self.Seen };
}

/// What is lent is seen as the value that it refers to.
impl<'a, T> Given for &'a T {
    type Seen = T;

    ghost seen = { λ lent. lent.now };
}

/// And so is a slice.
impl<'a, T> Given for &'a [T] {
    type Seen = [T; 0];

    ghost seen = { λ lent. lent.now };
}

/// Blocks by CID, with a count of the reads.
///
/// `T` is how a block is given: `&'a Arc<Block<D, A>, A>`, for longer than the source itself is borrowed. A contract sees the
/// source as what it gives for each CID, and how often it was asked.
pub trait Source<T: Given> {
    /// The block with a CID, or None where the source doesn't have it.
    ghost gives: { Self → List ℕ → Option T.Seen };

    /// How often it was asked for a block.
    ghost reads: { Self → ℕ };

    /// The block with this CID, or `None` where the source doesn't have it. The source goes on to give the same.
    fn get(&mut self, cid: &Cid) -> Option<T>
        ensures found { option_map T.seen result ≡ gives self.old cid.now }
        ensures same { gives self.new ≡ gives self.old }
        ensures counted { reads self.new ≡ suc (reads self.old) };
}
