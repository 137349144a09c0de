//! Writing whole runs of bytes, with a word on what was written where it fails.
ghost use Rattle.std.specs.Prelude.{◌≡◌, ◌≢◌, ◌≤◌, ◌*◌, length, Some};
ghost use Rattle.std.specs.IoError.{error_kind};
ghost use Rattle.hex.specs.Hex.{encode_lower};
ghost use Rattle.console.specs.Faults.{write_fault_text, write_status};
ghost use Rattle.console.specs.Written.{Writes};

use crate::status::{IO_FAILED, NO_MEMORY};
use std::error::Error;
use std::fmt;
use std::io::{self, ErrorKind, Write};

/// Why an output can't be written. A beginning of it may have been.
#[derive(Clone, Copy, PartialEq, Eq, Debug)]
pub enum WriteFault {
    /// The writer had no memory.
    NoMemory,
    /// The writer failed.
    Failed,
}

impl WriteFault {
    /// The exit status that says so.
    pub fn status(self) -> u8
        ensures { result ≡ write_status self }
    {
        match self {
            WriteFault::NoMemory => NO_MEMORY,
            WriteFault::Failed => IO_FAILED,
        }
    }
}

impl fmt::Display for WriteFault {
    ghost output = { λ fault. Some (write_fault_text fault) };

    fn fmt<W: fmt::Write>(&self, f: &mut fmt::Formatter<W>) -> fmt::Result {
        match self {
            WriteFault::NoMemory => f.write_str("no memory"),
            WriteFault::Failed => f.write_str("write failed"),
        }
    }
}

impl Error for WriteFault {}

/// Writes all of the bytes, in as many calls as the writer needs. At `Err` a beginning of them was written.
pub fn write_whole<W: Write>(out: &mut W, bytes: &[u8]) -> Result<(), WriteFault>
    ensures { Writes (W.contents out.old) (W.contents out.new) result bytes.now }
{
    let mut rest = bytes;
    'tries: for _ in 0..u64::MAX {
        if rest.is_empty() {
            return Ok(());
        }
        match out.write(rest) {
            Ok(0) => return Err(WriteFault::Failed),
            Ok(n) => rest = &rest[n..],
            Err(e) => {
                if e.kind() != ErrorKind::Interrupted {
                    return Err(write_fault(&e));
                }
            }
        }
    }
    Err(WriteFault::Failed)
}

/// What a failed write is called: want of memory, as of a `Vec` that is written to, has its own name.
fn write_fault(error: &io::Error) -> WriteFault
    ensures memory { error_kind error.now ≡ ErrorKind.OutOfMemory → result ≡ WriteFault.NoMemory }
    ensures other { (error_kind error.now ≢ ErrorKind.OutOfMemory) → result ≡ WriteFault.Failed }
{
    if error.kind() == ErrorKind::OutOfMemory {
        WriteFault::NoMemory
    } else {
        WriteFault::Failed
    }
}

/// How many bytes are turned into digits at a time.
const PIECE: usize = 512;

/// Writes the bytes in hexadecimal, in lower case. At `Err` a beginning of the digits was written.
pub fn write_hex<W: Write>(out: &mut W, bytes: &[u8]) -> Result<(), WriteFault>
    ensures { Writes (W.contents out.old) (W.contents out.new) result (encode_lower bytes.now) }
{
    let mut rest = bytes;
    'pieces: while !rest.is_empty() {
        let (piece, after) = rest.split_at(rest.len().min(PIECE));
        write_piece(out, piece)?;
        rest = after;
    }
    Ok(())
}

/// Writes the digits of a few bytes.
fn write_piece<W: Write>(out: &mut W, piece: &[u8]) -> Result<(), WriteFault>
    requires { length piece.now ≤ PIECE }
    ensures { Writes (W.contents out.old) (W.contents out.new) result (encode_lower piece.now) }
{
    let mut room = [0; 2 * PIECE];
    let digits = &mut room[..2 * piece.len()];
    hex::encode_to_slice(piece, digits).unwrap();
    write_whole(out, digits)
}
