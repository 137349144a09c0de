//! The space between two words of a line.

ghost use Rattle.std.specs.Prelude.{◌≡◌, ◌≤◌, length};
ghost use Rattle.std.specs.List.{position_or_len};
ghost use Rattle.console.specs.Lines.{is_space};

/// The place of the first space, or the length where there is none.
pub fn space_in(line: &[u8]) -> usize
    ensures place { result ≡ position_or_len is_space line.now }
    ensures within { result ≤ length line.now }
{
    line.iter().position(|c| *c == b' ').unwrap_or(line.len())
}
