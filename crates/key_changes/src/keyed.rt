//! Changes whose keys ascend.

ghost use Rattle.std.specs.Prelude.{◌≡◌, ◌∷◌, map, true};
ghost use Rattle.key_changes.specs.Keyed.{are_changes as are_changes_of};
ghost use Rattle.change_laws.specs.Told.{undone};

use crate::change::{Change, KeyChange};
use node::is_key;

/// What changes one key: a [`Change`], or what says more of one.
pub trait Keyed {
    ghost use Rattle.batch_laws.specs.Batch.{Change as Pair};

    /// The change of a batch that it stands for.
    ghost change: { Self → Pair };

    /// The key that it changes.
    fn key(&self) -> &[u8]
        ensures { result.now ≡ (change self.now).0 };
}

/// Whether a batch takes these changes: their keys have 1 to 1,024 bytes and ascend strictly.
pub fn are_changes(changes: &[Change<'_>]) -> bool
    ensures { result ≡ are_changes_of changes.now }
{
    are_keyed(changes)
}

/// Whether a batch takes the changes that these stand for, as [`are_changes`] does.
pub fn are_keyed<C: Keyed>(changes: &[C]) -> bool
    ensures { result ≡ are_changes_of (map C.change changes.now) }
{
    let mut left = changes.len();
    while left > 0 {
        left -= 1;
        if !comes_first(&changes[left], &changes[left + 1..]) {
            return false;
        }
    }
    true
}

/// Whether a change can come before these, which a batch takes.
fn comes_first<C: Keyed>(change: &C, others: &[C]) -> bool
    ensures { are_changes_of (map C.change others.now) ≡ true
        → result ≡ are_changes_of (map C.change (change.now ∷ others.now)) }
{
    if !is_key(change.key()) {
        return false;
    }
    let [next, ..] = others else {
        return true;
    };
    next.key().cmp(change.key()).is_gt()
}

/// Whether proofs of a change and messages take these changes: their keys have 1 to 1,024 bytes and ascend strictly.
pub fn are_key_changes(changes: &[KeyChange<'_>]) -> bool
    ensures { result ≡ are_changes_of (undone changes.now) }
{
    are_keyed(changes)
}
