//! The order of keys in DAG-CBOR.

ghost use Rattle.std.specs.Prelude.{◌≡◌, map, IsPermutation, IfOk, option_map};
ghost use Rattle.std.specs.List.Sorted.{IsSortedBy};
ghost use Rattle.std.specs.Ordering.{is_lt};
ghost use Rattle.record_json.specs.KeyOrder.{key_cmp, doubled_key};

use json::Value;
use std::alloc::{AllocError, Allocator};
use std::cmp::Ordering;

/// A shorter key stands first, and those of one length bytewise (IPLD DAG-CBOR, strictness).
fn order(one: &str, other: &str) -> Ordering
    ensures { result ≡ key_cmp one.now other.now }
{
    one.len().cmp(&other.len()).then(one.cmp(other))
}

/// The members of an object in the order of their keys.
pub(crate) fn in_order<'m, 'a, A: Allocator>(
    alloc: A,
    members: &'m Vec<(&'a str, Value<'a, A>), A>,
) -> Result<Vec<&'m (&'a str, Value<'a, A>), A>, AllocError>
    ensures same { IfOk result
        (λ sorted. IsPermutation members.now.items (map (λ m. m.now) sorted.items)) }
    ensures ascending { IfOk result
        (λ sorted. IsSortedBy (λ a b. is_lt (key_cmp a.now.0.now b.now.0.now)) sorted.items) }
{
    let mut sorted = Vec::with_capacity(alloc, members.len())?;
    for member in members {
        sorted.push(member)?;
    }
    sorted.sort_unstable_by(|a, b| order(a.0, b.0));
    Ok(sorted)
}

/// The first key that stands twice among members in order.
pub(crate) fn doubled_key<'a, A: Allocator>(
    members: &Vec<&(&'a str, Value<'a, A>), A>,
) -> Option<&'a str>
    ensures { option_map (λ k. k.now) result
        ≡ doubled_key (map (λ m. m.now.0.now) members.now.items) }
{
    for i in 1..members.len() {
        let before = &members[i - 1];
        let member = &members[i];
        if before.0 == member.0 {
            return Some(before.0);
        }
    }
    None
}
