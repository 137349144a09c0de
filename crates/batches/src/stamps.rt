//! The stamp of the last batch.

ghost use Rattle.std.specs.Prelude.{◌≡◌, option_map};
ghost use Rattle.spec.specs.Stamps.{last, stamp_of as stamp_in};
ghost use Rattle.batches.specs.Values.{stamp_of, stamps_of};

use crate::stamp::Stamp;
use std::alloc::Allocator;

/// The last batch's stamp, or `None` before the first one.
pub fn last_stamp<A: Allocator>(stamps: &[(Stamp<A>, u64)]) -> Option<&Stamp<A>>
    ensures { option_map (λ stamp. stamp_of stamp.now) result
        ≡ stamp_in (last (stamps_of stamps.now)) }
{
    match stamps.last() {
        Some((stamp, _)) => Some(stamp),
        None => None,
    }
}
