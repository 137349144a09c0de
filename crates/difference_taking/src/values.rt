//! What the changed keys have in a repository.

ghost use Rattle.std.specs.Prelude.{◌≡◌};
ghost use Rattle.spec.specs.Blocks.{pairs, value_of as value_of_key};
ghost use Rattle.spec.specs.States.{records};
ghost use Rattle.difference_taking.specs.Taking.{had_but, had_in};

use cid::{Cid, Digest};
use key_changes::{KeyChange, is_same};
use repo::Core;
use std::alloc::Allocator;

/// The place of the first change whose key has another value in the repository than the one told before it, or `None`. It takes
/// no memory.
pub(crate) fn first_other<D: Digest, const B: u8, A: Allocator>(
    core: &Core<D, B, A>,
    changes: &[KeyChange<'_>],
) -> Option<usize>
    ensures { had_in D.digest_of core.now changes.now ≡ had_but result }
{
    for (place, change) in changes.iter().enumerate() {
        if !is_same(value_of(core, change.key), change.before) {
            return Some(place);
        }
    }
    None
}

/// The CID of a key's record, or `None` where the repository doesn't have the key.
fn value_of<D: Digest, const B: u8, A: Allocator>(core: &Core<D, B, A>, key: &[u8]) -> Option<Cid>
    ensures { result ≡ value_of_key key.now (pairs D.digest_of (records core.now)) }
{
    match core.get(key) {
        Some(record) => Some(record.cid()),
        None => None,
    }
}
