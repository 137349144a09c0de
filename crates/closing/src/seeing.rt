//! The comparison of cores with what writers have seen.

ghost use Rattle.std.specs.Prelude.{◌≡◌, MatchBool, length, All};
ghost use Rattle.closing.specs.Settling.{IsShort, NoneShort, AreLong, IsTooShort};

use cid::Digest;
use ended::Ended;
use repo::Core;
use std::alloc::Allocator;

/// Whether no core has fewer accepted writes than were seen there.
fn none_short<D: Digest, const B: u8, A: Allocator>(cores: &[Core<D, B, A>], seen: &[u64]) -> bool
    requires { length seen.now ≡ length cores.now }
    ensures { MatchBool result (NoneShort cores.now seen.now) (IsShort cores.now seen.now) }
{
    for (place, core) in cores.iter().enumerate() {
        if core.number() < seen[place] {
            return false;
        }
    }
    true
}

/// Whether no core has fewer accepted writes than some writer has seen there.
pub(crate) fn all_long<D: Digest, const B: u8, A: Allocator>(
    cores: &[Core<D, B, A>],
    ended: &[Ended<A>],
) -> bool
    requires { All (λ e. length e.seen ≡ length cores.now) ended.now }
    ensures { MatchBool result (AreLong cores.now ended.now) (IsTooShort cores.now ended.now) }
{
    for one in ended {
        if !none_short(cores, one.seen()) {
            return false;
        }
    }
    true
}
