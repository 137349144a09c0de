//! Texts.

ghost use Rattle.std.specs.Prelude.{◌≢◌, Err};
ghost use Rattle.spec.specs.Reading.{Gives};
ghost use Rattle.spec.specs.DagCbor.{text_of};
ghost use Rattle.dagcbor.specs.Fault.{cbor_fault_of};

use crate::fault::CborFault;
use crate::head::front;

/// A text of `n` bytes of UTF-8, and the bytes after it. Most texts are ASCII, which takes a few words of eight bytes to see.
#[inline(always)]
pub(crate) fn text(n: u64, bytes: &[u8]) -> Result<(&str, &[u8]), CborFault>
    ensures read { Gives (λ x. (x.0.now, x.1.now)) cbor_fault_of result (text_of n bytes.now) }
    ensures takes_no_memory { result ≢ Err CborFault.NoMemory }
{
    let (content, rest) = front(n, bytes)?;
    if content.is_ascii() {
        return Ok((unsafe { str::from_utf8_unchecked(content) }, rest));
    }
    match str::from_utf8(content) {
        Ok(text) => Ok((text, rest)),
        Err(_) => Err(CborFault::BadUtf8),
    }
}
