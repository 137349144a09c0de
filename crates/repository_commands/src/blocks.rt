//! The blocks that the lines of an input give.
ghost use Rattle.std.specs.Prelude.{◌≡◌, false, IfErr, IfSome};
ghost use Rattle.spec.specs.Reading.{Gives};
ghost use Rattle.console.specs.Lines.{numbered_lines as numbered};
ghost use Rattle.repository_commands.specs.Faults.{text_fault_of};
ghost use Rattle.repository_commands.specs.Refusals.{is_refusal};
ghost use Rattle.repository_commands.specs.Texts.{blocks_of_lines};
ghost use Rattle.repository_commands.specs.Views.{blocks_of};

use crate::fault::{LineFault, TextFault};
use cid::Digest;
use console::{bytes_of_hex, numbered_lines, read_all};
use std::alloc::Allocator;
use std::io::Read;

/// The blocks of all that the reader still gives, a line `HEX` each, or the first line that is none.
pub(crate) fn read_blocks<D: Digest, A: Allocator + Copy, R: Read>(
    alloc: A,
    input: &mut R,
) -> Result<Vec<Vec<u8, A>, A>, TextFault<D, A>>
    ensures blocks { IfSome (R.remaining input.old) (λ xs. Gives
        (λ blocks. blocks_of blocks.items) text_fault_of result (blocks_of_lines (numbered xs))) }
    ensures refused { IfErr result (λ e. is_refusal e ≡ false) }
{
    let bytes = read_all(alloc, input)?;
    blocks_of_input(alloc, &bytes)
}

/// The blocks in the order of their lines, or the first line that is none.
fn blocks_of_input<D: Digest, A: Allocator + Copy>(
    alloc: A,
    input: &[u8],
) -> Result<Vec<Vec<u8, A>, A>, TextFault<D, A>>
    ensures blocks { Gives (λ blocks. blocks_of blocks.items) text_fault_of result
        (blocks_of_lines (numbered input.now)) }
    ensures refused { IfErr result (λ e. is_refusal e ≡ false) }
{
    let mut blocks = Vec::new(alloc);
    for (number, line) in numbered_lines(input) {
        match bytes_of_hex(alloc, line)? {
            Some(block) => blocks.push(block)?,
            None => {
                let fault = LineFault::BadLine;
                return Err(TextFault::Line { number, fault });
            }
        }
    }
    Ok(blocks)
}
