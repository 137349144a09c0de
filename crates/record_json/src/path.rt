//! The way to a fault, which is put together from its end.

ghost use Rattle.std.specs.Prelude.{◌≡◌, ◌<◌, ◌++◌, true, string_bytes, IfOk, OnOk};
ghost use Rattle.std.specs.Fmt.{digit_glyph};
ghost use Rattle.record_json.specs.Reading.{at_key, at_place, is_plain, shown};

use std::alloc::{AllocError, Allocator};

/// Puts the step to a key's value before the way.
pub(crate) fn put_key<A: Allocator>(
    alloc: A,
    path: &mut String<A>,
    key: &str,
) -> Result<(), AllocError>
    ensures { OnOk result (string_bytes path.new ≡ at_key key.now ++ string_bytes path.old) }
{
    let step = key_step(alloc, key.as_bytes())?;
    path.insert_str(0, step.as_str())
}

/// The step to a key's value: `.key`, where each byte that isn't plain stands as `%` and two hexadecimal digits.
fn key_step<A: Allocator>(alloc: A, key: &[u8]) -> Result<String<A>, AllocError>
    ensures { IfOk result (λ step. string_bytes step ≡ at_key key.now) }
{
    let mut step = String::new(alloc);
    step.push('.')?;
    for byte in key {
        push_byte(&mut step, *byte)?;
    }
    Ok(step)
}

/// Puts what is shown of a byte of a key.
fn push_byte<A: Allocator>(step: &mut String<A>, byte: u8) -> Result<(), AllocError>
    ensures { OnOk result (string_bytes step.new ≡ string_bytes step.old ++ shown byte) }
{
    if is_plain(byte) {
        return step.push(byte as char);
    }
    step.push('%')?;
    step.push(digit(byte / 16) as char)?;
    step.push(digit(byte % 16) as char)
}

/// Whether a byte is a graphic character of ASCII that is no sign of a way: not `%`, `.`, `[` or `]`.
fn is_plain(byte: u8) -> bool
    ensures { result ≡ is_plain byte }
{
    byte.is_ascii_graphic() && !matches!(byte, b'%' | b'.' | b'[' | b']')
}

/// A hexadecimal digit.
fn digit(value: u8) -> u8
    requires { value < 16 }
    ensures { result ≡ digit_glyph true value }
{
    if value < 10 {
        b'0' + value
    } else {
        b'A' - 10 + value
    }
}

/// Puts the step to an item before the way.
pub(crate) fn put_place<A: Allocator>(
    alloc: A,
    path: &mut String<A>,
    place: usize,
) -> Result<(), AllocError>
    ensures { OnOk result (string_bytes path.new ≡ at_place place ++ string_bytes path.old) }
{
    let step = format!(in alloc; "[{place}]")?;
    path.insert_str(0, step.as_str())
}
