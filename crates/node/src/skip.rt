//! Runs of a node's entries, as they stand in its bytes.

ghost use Rattle.std.specs.Prelude.{◌≡◌, IsOk, Ok};
ghost use Rattle.node.specs.Runs.{after_keys};

use crate::key_buf::KeyBuf;
use crate::tested::tested_entry;
use std::alloc::Allocator;

/// The bytes after so many entries, while `key` goes on from the key before them to the last one of theirs.
pub(crate) fn pass<'a, A: Allocator>(key: &mut KeyBuf<A>, count: u64, bytes: &'a [u8]) -> &'a [u8]
    requires { IsOk (after_keys count key.old bytes.now) }
    ensures { after_keys count key.old bytes.now ≡ Ok (key.new, result.now) }
{
    let mut rest = bytes;
    let mut left = count;
    while left > 0 {
        let (entry, after) = tested_entry(rest);
        key.step(&entry);
        rest = after;
        left -= 1;
    }
    rest
}
