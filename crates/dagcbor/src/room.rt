//! Room for the items of lists and the pairs of maps.

ghost use Rattle.std.specs.Prelude.{◌≡◌};

use std::alloc::{AllocError, Allocator};

/// For how many items room is made at once, at most: no more than 6 KB, and most lists of a record take one request.
const MOST_AT_ONCE: u64 = 128;

/// Makes room for the items of a list that is empty as yet, when the first has been read: for as many as are stated, but at
/// most for `MOST_AT_ONCE`, and for no more than it and the bytes that are left can be, as each takes a byte or more. So a
/// short list takes no more memory than it needs, and a stated number by itself takes none.
#[inline(always)]
pub(crate) fn make_room<T, A: Allocator>(
    items: &mut Vec<T, A>,
    stated: u64,
    left: &[u8],
) -> Result<(), AllocError>
    ensures { items.new.items ≡ items.old.items }
{
    if !items.is_empty() {
        return Ok(());
    }
    let more = stated
        .saturating_sub(1)
        .min(left.len() as u64)
        .min(MOST_AT_ONCE - 1);
    items.reserve_exact(1 + more as usize)
}
