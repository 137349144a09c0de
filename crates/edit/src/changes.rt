//! Changes by key, where a key stands among them, and how many nodes they may read.

ghost use Rattle.std.specs.Prelude.{◌≡◌, ◌≤◌, true, false, length, drop};
ghost use Rattle.batch_laws.specs.Counts.{most_reads, reads_of};
ghost use Rattle.edit.specs.Places.{is_first_before, IsPlace, IsAround};
ghost use Rattle.key_changes.specs.Keyed.{are_ascending};

use crate::hashed::HashedChange;
use cid::{Cid, Digest};
use key_changes::Change;

/// The changes before a key, what the one at it makes of its value, and the changes after it.
#[derive(Drop)]
pub(crate) struct Around<'c, D: Digest> {
    pub(crate) before: &'c [HashedChange<'c, D>],
    pub(crate) at: Option<Option<Cid>>,
    pub(crate) after: &'c [HashedChange<'c, D>],
}

/// How many of the changes stand before a key.
fn count_before<D: Digest>(changes: &[HashedChange<'_, D>], key: &[u8]) -> usize
    ensures within { result ≤ length changes.now }
    ensures place { IsPlace key.now changes.now result }
    ensures first { is_first_before key.now (drop result changes.now) ≡ false }
{
    let mut count = 0;
    while count < changes.len() {
        if !changes[count].key().cmp(key).is_lt() {
            return count;
        }
        count += 1;
    }
    count
}

/// The changes around a key.
pub(crate) fn changes_around<'c, D: Digest>(
    changes: &'c [HashedChange<'c, D>],
    key: &[u8],
) -> Around<'c, D>
    requires { are_ascending changes.now ≡ true }
    ensures { IsAround key.now changes.now result.before.now
        result.at result.after.now }
{
    let place = count_before(changes, key);
    let (before, rest) = changes.split_at(place);
    let [first, after @ ..] = rest else {
        return Around {
            before,
            at: None,
            after: rest,
        };
    };
    if first.key().cmp(key).is_eq() {
        return Around {
            before,
            at: Some(first.value()),
            after,
        };
    }
    Around {
        before,
        at: None,
        after: rest,
    }
}

/// How many nodes a batch of these changes reads at most below a top of this layer.
pub(crate) fn most_reads_below<D: Digest>(layer: u16, changes: &[HashedChange<'_, D>]) -> u128
    ensures { result ≡ most_reads layer changes.now }
{
    let mut most = 0;
    let mut left = changes.len();
    while left > 0 {
        left -= 1;
        most += reads_below(layer, &changes[left]);
    }
    most
}

/// How many one change reads at most there: a put one node a layer, a delete two.
fn reads_below<D: Digest>(layer: u16, change: &HashedChange<'_, D>) -> u128
    ensures { result ≡ reads_of layer change.now.1 }
{
    match change.value() {
        Some(_) => u128::from(layer),
        None => 2 * u128::from(layer),
    }
}
