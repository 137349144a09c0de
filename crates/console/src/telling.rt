//! How a command ends: what standard error is told, and the exit status.
ghost use Rattle.std.specs.Prelude.{◌≡◌, ◌⊎◌};
ghost use Rattle.std.specs.Io.KnownBytes.{Keeps};
ghost use Rattle.console.specs.Faults.{write_status};
ghost use Rattle.console.specs.Files.{open_status};
ghost use Rattle.console.specs.Saving.{save_status};

use crate::files::OpenFault;
use crate::save_fault::SaveFault;
use crate::status::{DONE, IO_FAILED, NO_MEMORY};
use crate::writing::WriteFault;
use std::fmt::Display;
use std::io::Write;

/// Writes a line on standard error. Where that can't be written there is nobody to tell.
pub fn tell<F: Display, X: Write>(fault: &F, err: &mut X) {
    let _ = writeln!(err, "msthost: {fault}");
}

/// Ends what has written all of its text: that reaches the writer's end, or it is told that it didn't; and answers the status.
pub fn done<W: Write, X: Write>(out: &mut W, err: &mut X) -> u8
    ensures status { (result ≡ DONE) ⊎ (result ≡ IO_FAILED) }
    ensures kept { Keeps (W.contents out.old) (W.contents out.new) }
    ensures quiet { result ≡ DONE → err.new ≡ err.old }
{
    match out.flush() {
        Ok(()) => DONE,
        Err(_) => write_failed(err),
    }
}

/// Tells that memory is refused, and answers the status.
pub fn no_memory<X: Write>(err: &mut X) -> u8
    ensures { result ≡ NO_MEMORY }
{
    tell(&"no memory", err);
    NO_MEMORY
}

/// Tells that a write failed, and answers the status.
pub fn write_failed<X: Write>(err: &mut X) -> u8
    ensures { result ≡ IO_FAILED }
{
    tell(&"write failed", err);
    IO_FAILED
}

/// Tells that the file of this name can't be opened, and answers the status.
pub fn unopened<X: Write>(name: &str, fault: OpenFault, err: &mut X) -> u8
    ensures { result ≡ open_status fault }
{
    let _ = writeln!(err, "msthost: {name}: {fault}");
    fault.status()
}

/// Tells that the file of this name was not saved, and answers the status.
pub fn unsaved<X: Write>(name: &str, fault: SaveFault, err: &mut X) -> u8
    ensures { result ≡ save_status fault }
{
    let _ = writeln!(err, "msthost: {name}: {fault}");
    fault.status()
}

/// Tells that a text wasn't written, or not all of it, and answers the status.
pub fn unwritten<X: Write>(fault: WriteFault, err: &mut X) -> u8
    ensures { result ≡ write_status fault }
{
    tell(&fault, err);
    fault.status()
}
