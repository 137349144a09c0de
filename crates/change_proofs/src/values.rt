//! What the changed keys have in a tree.

ghost use Rattle.std.specs.Prelude.{◌≡◌};
ghost use Rattle.change_laws.specs.Verdict.{are_told};
ghost use Rattle.change_proofs.specs.Verdicts.{told_of};

use cid::Cid;
use key_changes::{KeyChange, is_same};

/// The place of the first change after which another value is told than the one that its key has, or `None`. There is a value
/// for each of the changes.
pub(crate) fn first_other(values: &[Option<Cid>], changes: &[KeyChange<'_>]) -> Option<usize>
    ensures { are_told 0 values.now changes.now ≡ told_of result }
{
    let mut place = 0;
    let mut left = changes;
    let mut rest = values;
    while let [change, later @ ..] = left {
        let [value, others @ ..] = rest else {
            return Some(place);
        };
        if !is_same(*value, change.after()) {
            return Some(place);
        }
        left = later;
        rest = others;
        place += 1;
    }
    None
}
