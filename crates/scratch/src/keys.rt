//! The test of the pairs that a tree is built of.

ghost use Rattle.std.specs.Prelude.{◌≡◌, ◌&&◌};
ghost use Rattle.std.specs.Cmp.Lexicographic.{slice_cmp};
ghost use Rattle.std.specs.Ordering.{nat_cmp, is_lt};
ghost use Rattle.spec.specs.NodeFormat.{is_ascending as is_ascending_of, is_key as is_key_of};
ghost use Rattle.scratch.specs.Pairs.{pairs_of};

use cid::Cid;
use node::is_key;
use std::convert::AsSlice;

/// Whether the key has 1 to 1,024 bytes and is greater, bytewise, than the one before it.
fn is_next(before: &[u8], key: &[u8]) -> bool
    ensures { result ≡ is_lt (slice_cmp nat_cmp before.now key.now) && is_key_of key.now }
{
    before < key && is_key(key)
}

/// Whether the keys ascend strictly, bytewise, and each has 1 to 1,024 bytes: what `build` asks of its pairs.
pub fn is_ascending<K: AsSlice<u8>>(pairs: &[(K, Cid)]) -> bool
    ensures { result ≡ is_ascending_of (pairs_of K.items pairs.now) }
{
    let mut before: &[u8] = &[];
    for (key, _) in pairs {
        let key = key.as_slice();
        if !is_next(before, key) {
            return false;
        }
        before = key;
    }
    true
}
