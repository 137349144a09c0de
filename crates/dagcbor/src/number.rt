//! Numbers as unsigned LEB128 (multiformats, unsigned-varint).

ghost use Rattle.std.specs.Prelude.{◌≡◌, ◌<◌, ◌^◌, length, option_map, IfSome};
ghost use Rattle.spec.specs.Varint.{varint_at, varint_at_within};

/// A number of at most `most` bytes in its shortest form, and the bytes after it.
fn varint_within(most: u8, bytes: &[u8]) -> Option<(u64, &[u8])>
    requires { most < 10 }
    ensures read { option_map (λ x. (x.0, x.1.now)) result ≡ varint_at_within most bytes.now }
    ensures small { IfSome result (λ x. x.0 < 128 ^ most) }
    ensures shorter { IfSome result (λ x. length x.1.now < length bytes.now) }
{
    if most == 0 {
        return None;
    }
    let (first, rest) = bytes.split_first()?;
    if *first < 128 {
        return Some((u64::from(*first), rest));
    }
    let (high, rest) = varint_within(most - 1, rest)?;
    if high == 0 {
        return None;
    }
    Some((u64::from(*first % 128) + 128 * high, rest))
}

/// A number of at most nine bytes, and the bytes after it, by a call.
#[inline(always)]
fn long_varint(bytes: &[u8]) -> Option<(u64, &[u8])>
    ensures read { option_map (λ x. (x.0, x.1.now)) result ≡ varint_at bytes.now }
    ensures shorter { IfSome result (λ x. length x.1.now < length bytes.now) }
{
    let (n, rest) = varint_within(9, bytes)?;
    Some((n, rest))
}

/// A number in unsigned LEB128 of at most nine bytes in its shortest form, and the bytes after it; `None` where there is
/// none. A number of one byte, as nearly all in CIDs are, is read in place.
#[inline(always)]
pub fn varint(bytes: &[u8]) -> Option<(u64, &[u8])>
    ensures read { option_map (λ x. (x.0, x.1.now)) result ≡ varint_at bytes.now }
    ensures shorter { IfSome result (λ x. length x.1.now < length bytes.now) }
{
    match bytes {
        [first, rest @ ..] if *first < 128 => Some((u64::from(*first), rest)),
        _ => long_varint(bytes),
    }
}
