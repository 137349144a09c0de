//! One line `KEY HEX`.
ghost use Rattle.std.specs.Prelude.{◌≡◌, [], option_map, IfOk};
ghost use Rattle.spec.specs.Reading.{Gives};
ghost use Rattle.spec.specs.Writes.{Put, write_test};
ghost use Rattle.console.specs.Lines.{bytes_of_hex as bytes_of};
ghost use Rattle.difference_commands.specs.Faults.{line_fault_of};
ghost use Rattle.difference_commands.specs.RecordLines.{keyed_bytes, of_write, record_of_line as record_of_line_of, words_of_line as words_of_line_of};

use crate::line_fault::LineFault;
use console::{bytes_of_hex, space_in};
use record_rules::{is_repository_key, test_record};
use std::alloc::{AllocError, Allocator};

/// The key and the record of a line `KEY HEX`, which is taken as a put of it would be.
#[tactic(auto, unfolding(crate::specs::RecordLines::record_of_line))]
pub(crate) fn record_of_line<A: Allocator + Copy>(
    alloc: A,
    line: &[u8],
) -> Result<(&[u8], Vec<u8, A>), LineFault>
    ensures { Gives (λ e. (e.0.now, e.1.items)) line_fault_of result
        (record_of_line_of line.now) }
{
    let Some((key, bytes)) = words_of_line(alloc, line)? else {
        return Err(LineFault::BadLine);
    };
    test_put(key, &bytes)?;
    Ok((key, bytes))
}

/// The key, which is all before the first space, and the bytes behind it, where both are there.
fn words_of_line<A: Allocator + Copy>(
    alloc: A,
    line: &[u8],
) -> Result<Option<(&[u8], Vec<u8, A>)>, AllocError>
    ensures { IfOk result (λ words. option_map (λ e. (e.0.now, e.1.items)) words
        ≡ words_of_line_of line.now) }
{
    let space = space_in(line);
    if space == line.len() {
        return Ok(None);
    }
    with_bytes(alloc, &line[..space], &line[space + 1..])
}

/// A key and the bytes of a word in hexadecimal, where both are there.
fn with_bytes<'f, A: Allocator + Copy>(
    alloc: A,
    key: &'f [u8],
    word: &[u8],
) -> Result<Option<(&'f [u8], Vec<u8, A>)>, AllocError>
    ensures { IfOk result (λ words. option_map (λ e. (e.0.now, e.1.items)) words
        ≡ keyed_bytes key.now (bytes_of word.now)) }
{
    if key.is_empty() {
        return Ok(None);
    }
    let Some(bytes) = bytes_of_hex(alloc, word)? else {
        return Ok(None);
    };
    Ok(Some((key, bytes)))
}

/// Tests a record under its key, as a put of it is tested. Takes no memory.
fn test_put(key: &[u8], bytes: &[u8]) -> Result<(), LineFault>
    ensures { Gives (λ done. done) line_fault_of result
        (of_write (write_test [] (Put key.now bytes.now))) }
{
    if !is_repository_key(key) {
        return Err(LineFault::BadKey);
    }
    match test_record(bytes) {
        Ok(()) => Ok(()),
        Err(fault) => Err(LineFault::Record(fault)),
    }
}
