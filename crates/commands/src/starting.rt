//! What a program does that can't have its words or its buffers.
ghost use Rattle.std.specs.Prelude.{◌≡◌, ◌≢◌};
ghost use Rattle.std.specs.IoError.{error_kind};

use console::{USAGE, no_memory};
use std::io::{Error, ErrorKind, Write};

/// The status where the words or room for buffers can't be had, and a line on standard error: there is no memory, or
/// the words aren't UTF-8.
pub fn not_started<X: Write>(error: &Error, err: &mut X) -> u8
    ensures memory { error_kind error.now ≡ ErrorKind.OutOfMemory → result ≡ 3 }
    ensures other { (error_kind error.now ≢ ErrorKind.OutOfMemory) → result ≡ 2 }
{
    if error.kind() == ErrorKind::OutOfMemory {
        return no_memory(err);
    }
    let _ = writeln!(err, "error: the arguments are not UTF-8");
    USAGE
}
