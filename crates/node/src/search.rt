//! Keys compared with a key that is sought, without being put together.

ghost use Rattle.std.specs.Prelude.{◌≡◌, ◌≤◌, length};
ghost use Rattle.std.specs.Ordering.{nat_cmp};
ghost use Rattle.std.specs.Cmp.Lexicographic.{slice_cmp};
ghost use Rattle.spec.specs.NodeFormat.{common};
ghost use Rattle.node.specs.Search.{order_after, common_after};
ghost use Rattle.node.specs.Views.{row_of};

use crate::common::common_len;
use crate::entry::EntryView;
use std::cmp::Ordering;

/// How the first bytes compare with the others, and how many they have in common.
fn compare(one: &[u8], other: &[u8]) -> (Ordering, usize)
    ensures order { result.0 ≡ slice_cmp nat_cmp one.now other.now }
    ensures same { result.1 ≡ common one.now other.now }
    ensures within { result.1 ≤ length other.now }
{
    let same = common_len(one, other);
    let order = if same == one.len() {
        if same == other.len() {
            Ordering::Equal
        } else {
            Ordering::Less
        }
    } else if same == other.len() {
        Ordering::Greater
    } else {
        one[same].cmp(&other[same])
    };
    (order, same)
}

/// How an entry's key compares with `key`, and how many bytes they have in common, where the key before is less and has
/// `same` bytes in common with `key`.
///
/// An entry that keeps more than these of the key before is less too. One that keeps fewer is greater, as it is greater
/// than the key before. Else its suffix decides.
pub(crate) fn compare_after(same: usize, key: &[u8], entry: &EntryView<'_>) -> (Ordering, usize)
    requires { same ≤ length key.now }
    ensures order { result.0 ≡ order_after same key.now (row_of entry.now) }
    ensures same { result.1 ≡ common_after same key.now (row_of entry.now) }
    ensures within { result.1 ≤ length key.now }
{
    match entry.prefix.cmp(&same) {
        Ordering::Less => (Ordering::Greater, entry.prefix),
        Ordering::Greater => (Ordering::Less, same),
        Ordering::Equal => {
            let (order, more) = compare(entry.suffix, &key[same..]);
            (order, same + more)
        }
    }
}
