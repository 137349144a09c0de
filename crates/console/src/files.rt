//! The files that words of a command line name.
ghost use Rattle.std.specs.Prelude.{◌≡◌, ⊤, ℕ, List, IfOk, None, OnOk, Option, Some};
ghost use Rattle.std.specs.IoError.{error_kind};
ghost use Rattle.console.specs.Files.{open_fault_text, open_status};

use crate::save_fault::SaveFault;
use crate::status::{IO_FAILED, NO_MEMORY};
use std::error::Error;
use std::fmt;
use std::io::{self, ErrorKind, Read};

/// Where a command finds the files that its words name, and makes those that they name for it.
pub trait Files {
    /// What reads a file that was opened.
    type Reader: Read + Drop;

    // What the file of a name holds, where that is known. Nothing is known of the files of an operating system.
    ghost holds: { Self → List ℕ → Option (List ℕ) } = { λ _ _. None };

    // What is known once bytes were saved in the file of a name. Nothing is of those of an operating system.
    ghost saved: { Self → List ℕ → List ℕ → Type 0 } = { λ _ _ _. ⊤ };

    /// Opens the file of this name, to be read from its beginning.
    fn open(&self, name: &str) -> Result<Self::Reader, OpenFault>
        ensures { IfOk result (λ file. Self.Reader.remaining file ≡ holds self.now name.now) };

    /// Makes a file of this name that holds these bytes and no others, whatever it held before.
    ///
    /// `SaveFault::Unopened` says that there is no such file to write to, and then a file that was there is as it was.
    /// `SaveFault::Unwritten` says that writing failed: the file holds a beginning of the bytes.
    fn save(&self, name: &str, bytes: &[u8]) -> Result<(), SaveFault>
        ensures { OnOk result (saved self.now name.now bytes.now) };
}

/// Why a file can't be opened.
#[derive(Clone, Copy, PartialEq, Eq, Debug)]
pub enum OpenFault {
    /// There is none of this name.
    NotFound,
    /// Whoever runs the program may not read it.
    Denied,
    /// The name is that of a directory.
    Directory,
    /// There was no memory for it.
    NoMemory,
    /// It can't be opened for another reason.
    Failed,
}

impl OpenFault {
    /// What an opening is called that failed so.
    pub fn of(error: &io::Error) -> OpenFault
        ensures missing { error_kind error.now ≡ ErrorKind.NotFound → result ≡ OpenFault.NotFound }
        ensures denied { error_kind error.now ≡ ErrorKind.PermissionDenied
            → result ≡ OpenFault.Denied }
        ensures directory { error_kind error.now ≡ ErrorKind.IsADirectory
            → result ≡ OpenFault.Directory }
        ensures memory { error_kind error.now ≡ ErrorKind.OutOfMemory
            → result ≡ OpenFault.NoMemory }
    {
        match error.kind() {
            ErrorKind::NotFound => OpenFault::NotFound,
            ErrorKind::PermissionDenied => OpenFault::Denied,
            ErrorKind::IsADirectory => OpenFault::Directory,
            ErrorKind::OutOfMemory => OpenFault::NoMemory,
            _ => OpenFault::Failed,
        }
    }

    /// The exit status that says so.
    pub fn status(self) -> u8
        ensures { result ≡ open_status self }
    {
        match self {
            OpenFault::NoMemory => NO_MEMORY,
            _ => IO_FAILED,
        }
    }
}

impl fmt::Display for OpenFault {
    ghost output = { λ fault. Some (open_fault_text fault) };

    fn fmt<W: fmt::Write>(&self, f: &mut fmt::Formatter<W>) -> fmt::Result {
        match self {
            OpenFault::NotFound => f.write_str("not found"),
            OpenFault::Denied => f.write_str("permission denied"),
            OpenFault::Directory => f.write_str("is a directory"),
            OpenFault::NoMemory => f.write_str("no memory"),
            OpenFault::Failed => f.write_str("open failed"),
        }
    }
}

impl Error for OpenFault {}
