//! Whole numbers.

ghost use Rattle.std.specs.Prelude.{◌≡◌};
ghost use Rattle.std.specs.List.{list_all};
ghost use Rattle.std.specs.Char.{is_ascii_digit};
ghost use Rattle.spec.specs.Reading.{Gives};
ghost use Rattle.spec.specs.DagCbor.{Integer};
ghost use Rattle.record_json.specs.Kinds.{kind_of};
ghost use Rattle.record_json.specs.Reading.{is_numeral, without_minus, integer_of};

use crate::fault::JsonFaultKind;
use crate::form::is_safe;

/// Whether each byte is a decimal digit.
fn are_digits(bytes: &[u8]) -> bool
    ensures { result ≡ list_all is_ascii_digit bytes.now }
{
    for byte in bytes {
        if !byte.is_ascii_digit() {
            return false;
        }
    }
    true
}

/// Whether these are decimal digits, one at least.
fn is_numeral(bytes: &[u8]) -> bool
    ensures { result ≡ is_numeral bytes.now }
{
    !bytes.is_empty() && are_digits(bytes)
}

/// The digits of a number behind its sign.
fn digits(text: &[u8]) -> &[u8]
    ensures { result.now ≡ without_minus text.now }
{
    match text {
        [b'-', rest @ ..] => rest,
        _ => text,
    }
}

/// The whole number that a number's text is, where it has no point and no exponent and each reader of JSON holds it.
pub(crate) fn integer(text: &str) -> Result<i64, JsonFaultKind>
    ensures { Gives Integer kind_of result (integer_of text.now) }
{
    if !is_numeral(digits(text.as_bytes())) {
        return Err(JsonFaultKind::Float);
    }
    match text.parse::<i64>() {
        Ok(z) if is_safe(z) => Ok(z),
        _ => Err(JsonFaultKind::IntegerRange),
    }
}
