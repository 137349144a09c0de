//! Reading all of an input.
ghost use Rattle.std.specs.Prelude.{◌≡◌, ◌≢◌, IfOk, IfSome, OnOk, Some};
ghost use Rattle.std.specs.Io.KnownBytes.{IsAtEnd};
ghost use Rattle.std.specs.IoError.{error_kind};
ghost use Rattle.console.specs.Faults.{read_fault_text, read_status};

use crate::status::{IO_FAILED, NO_MEMORY};
use std::alloc::Allocator;
use std::error::Error;
use std::fmt;
use std::io::{self, ErrorKind, Read};

/// Why an input can't be read.
#[derive(Clone, Copy, PartialEq, Eq, Debug)]
pub enum ReadFault {
    /// The bytes had no room.
    NoMemory,
    /// The reader failed.
    Failed,
}

impl ReadFault {
    /// The exit status that says so.
    pub fn status(self) -> u8
        ensures { result ≡ read_status self }
    {
        match self {
            ReadFault::NoMemory => NO_MEMORY,
            ReadFault::Failed => IO_FAILED,
        }
    }
}

impl fmt::Display for ReadFault {
    ghost output = { λ fault. Some (read_fault_text fault) };

    fn fmt<W: fmt::Write>(&self, f: &mut fmt::Formatter<W>) -> fmt::Result {
        match self {
            ReadFault::NoMemory => f.write_str("no memory"),
            ReadFault::Failed => f.write_str("read failed"),
        }
    }
}

impl Error for ReadFault {}

/// All that the reader still gives.
pub fn read_all<A: Allocator, R: Read>(alloc: A, input: &mut R) -> Result<Vec<u8, A>, ReadFault>
    ensures bytes { IfOk result (λ bytes. IfSome (R.remaining input.old) (λ xs. bytes.items ≡ xs)) }
    ensures end { OnOk result (IsAtEnd (R.remaining input.new)) }
{
    let mut bytes = Vec::new(alloc);
    match input.read_to_end(&mut bytes) {
        Ok(_) => Ok(bytes),
        Err(e) => Err(read_fault(&e)),
    }
}

/// What a failed read is called.
fn read_fault(error: &io::Error) -> ReadFault
    ensures memory { error_kind error.now ≡ ErrorKind.OutOfMemory → result ≡ ReadFault.NoMemory }
    ensures other { (error_kind error.now ≢ ErrorKind.OutOfMemory) → result ≡ ReadFault.Failed }
{
    if error.kind() == ErrorKind::OutOfMemory {
        ReadFault::NoMemory
    } else {
        ReadFault::Failed
    }
}
