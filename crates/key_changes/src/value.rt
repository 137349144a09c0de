//! What a key has in two trees, compared.

ghost use Rattle.std.specs.Prelude.{◌≡◌};
ghost use Rattle.change_laws.specs.Verdict.{is_same as is_same_of};

use cid::Cid;

/// Whether two values of a key are the same: both none, or the CID of one record.
pub fn is_same(value: Option<Cid>, told: Option<Cid>) -> bool
    ensures { result ≡ is_same_of value told }
{
    match (value, told) {
        (None, None) => true,
        (Some(value), Some(told)) => value == told,
        _ => false,
    }
}
