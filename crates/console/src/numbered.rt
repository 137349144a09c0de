//! The lines of an input that aren't empty, each with its number.
ghost use Rattle.std.specs.Prelude.{◌≡◌};
ghost use Rattle.console.specs.Lines.{numbered_lines as numbered_lines_of};

use bstr::{ByteSlice, Lines};
use std::marker::Model;

/// The lines of an input that aren't empty, each with its number, from 1. An empty line is passed over, and counted.
pub fn numbered_lines(input: &[u8]) -> NumberedLines<'_>
    ensures { result ≡ numbered_lines_of input.now }
{
    NumberedLines {
        number: 0,
        lines: input.lines(),
    }
}

/// The lines that are left.
#[derive(Drop)]
pub struct NumberedLines<'a> {
    /// The number of the line before them.
    number: u64,
    lines: Lines<'a>,
}

impl<'a> Model for NumberedLines<'a> {
    ghost use Rattle.std.specs.Prelude.{ℕ, List, ◌+◌, ◌<◌, ◌^◌, length};
    ghost use Rattle.console.specs.Lines.{numbered};

    ghost Value = { List (ℕ × List ℕ) };

    ghost view = { λ s. numbered (s.number + 1) s.lines };

    ghost invariant = { λ s. s.number + length s.lines < 2 ^ 64 };
}

impl<'a> Iterator for NumberedLines<'a> {
    ghost use Rattle.std.specs.Iterator.{YieldsFirstBy, item_count};

    type Item = (u64, &'a [u8]);

    ghost next_gives = { YieldsFirstBy (λ line. (line.0, line.1.now)) (λ s. s) };

    ghost remaining = { item_count (λ s. s) };

    fn next(&mut self) -> Option<(u64, &'a [u8])> {
        while let Some(line) = self.lines.next() {
            self.number += 1;
            if !line.is_empty() {
                return Some((self.number, line));
            }
        }
        None
    }
}
