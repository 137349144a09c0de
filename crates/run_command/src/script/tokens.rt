//! The tokens of a line.
ghost use Rattle.std.specs.Prelude.{◌≡◌, ◌<◌, map, IfOk, IfSome};
ghost use Rattle.run_command.specs.Script.{has_empty as has_empty_of, with_digit as with_digit_of, number_of as number_of_word, tokens as tokens_in, worker_of as worker_of_word};

use std::alloc::{AllocError, Global};

/// The tokens of a line, which single spaces part.
pub(crate) fn tokens_of(alloc: Global, line: &[u8]) -> Result<Vec<&[u8]>, AllocError>
    ensures { IfOk result (λ found. map (λ t. t.now) found.items ≡ tokens_in line.now) }
{
    line.split(|c| *c == b' ').collect(alloc)
}

/// Whether one of the tokens is empty.
pub(crate) fn has_empty(tokens: &[&[u8]]) -> bool
    ensures { result ≡ has_empty_of (map (λ t. t.now) tokens.now) }
{
    tokens.iter().any(|token| token.is_empty())
}

/// The number of a word of decimal digits, up to 2^32 - 1, or `None` where it is none.
pub(crate) fn number_of(word: &[u8]) -> Option<u32>
    ensures { result ≡ number_of_word word.now }
{
    if word.is_empty() {
        return None;
    }
    let mut number = 0;
    for c in word {
        number = with_digit(number, *c)?;
    }
    Some(number)
}

/// The number with a digit after its others, or `None` where that is no digit or the number has no room.
fn with_digit(number: u32, c: u8) -> Option<u32>
    ensures { result ≡ with_digit_of number c }
{
    if !c.is_ascii_digit() {
        return None;
    }
    let next = number as u64 * 10 + (c - b'0') as u64;
    if next > u32::MAX as u64 {
        return None;
    }
    Some(next as u32)
}

/// The number of a worker, or `None` where it isn't below their count.
pub(crate) fn worker_of(workers: u32, word: &[u8]) -> Option<u32>
    ensures value { result ≡ worker_of_word workers word.now }
    ensures below { IfSome result (λ worker. worker < workers) }
{
    let worker = number_of(word)?;
    if worker < workers { Some(worker) } else { None }
}
