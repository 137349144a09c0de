//! The order of a map's keys.

ghost use Rattle.std.specs.Prelude.{◌≡◌, option_map};
ghost use Rattle.spec.specs.DagCbor.{is_key_below, is_next_key};

/// Whether one key stands before another: a shorter one first, and those of one length bytewise (IPLD DAG-CBOR, strictness).
#[inline(always)]
fn is_key_below(one: &str, other: &str) -> bool
    ensures { result ≡ is_key_below one.now other.now }
{
    one.len() < other.len() || (one.len() == other.len() && one < other)
}

/// Whether a key may follow the one before it, where there is one.
#[inline(always)]
pub(crate) fn is_next_key(before: Option<&str>, key: &str) -> bool
    ensures { result ≡ is_next_key (option_map (λ s. s.now) before.entry) key.now }
{
    match before {
        None => true,
        Some(before) => is_key_below(before, key),
    }
}
