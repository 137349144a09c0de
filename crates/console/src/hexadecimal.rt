//! Words in hexadecimal.
ghost use Rattle.std.specs.Prelude.{◌≡◌, option_map, IfOk};
ghost use Rattle.console.specs.Lines.{bytes_of_hex as bytes_of};

use hex::FromHexError;
use std::alloc::{AllocError, Allocator};

/// The bytes of a word of hexadecimal digits in either case, two a byte; or `None` where it is empty or none.
///
/// `AllocError` comes where memory was refused.
pub fn bytes_of_hex<A: Allocator>(alloc: A, word: &[u8]) -> Result<Option<Vec<u8, A>>, AllocError>
    ensures { IfOk result (λ found. option_map (λ bytes. bytes.items) found ≡ bytes_of word.now) }
{
    if word.is_empty() {
        return Ok(None);
    }
    match hex::decode(alloc, word) {
        Ok(bytes) => Ok(Some(bytes)),
        Err(FromHexError::OutOfMemory) => Err(AllocError),
        Err(_) => Ok(None),
    }
}
