//! Lines that are written word by word.

ghost use Rattle.hex.specs.Hex.{encode_lower};
ghost use Rattle.console.specs.Written.{Writes};
ghost use Rattle.export_commands.specs.Texts.{ended, spaced};

use console::{WriteFault, write_hex, write_whole};
use std::io::Write;

/// Writes a word and the space behind it.
pub(crate) fn write_spaced<W: Write>(out: &mut W, word: &[u8]) -> Result<(), WriteFault>
    ensures { Writes (W.contents out.old) (W.contents out.new) result (spaced word.now) }
{
    write_whole(out, word)?;
    write_whole(out, b" ")
}

/// Writes the last word of a line and the line's end.
pub(crate) fn write_ended<W: Write>(out: &mut W, word: &[u8]) -> Result<(), WriteFault>
    ensures { Writes (W.contents out.old) (W.contents out.new) result (ended word.now) }
{
    write_whole(out, word)?;
    write_whole(out, b"\n")
}

/// Writes bytes in hexadecimal as the last word of a line, and the line's end.
pub(crate) fn write_hex_ended<W: Write>(out: &mut W, bytes: &[u8]) -> Result<(), WriteFault>
    ensures { Writes (W.contents out.old) (W.contents out.new) result
        (ended (encode_lower bytes.now)) }
{
    write_hex(out, bytes)?;
    write_whole(out, b"\n")
}
