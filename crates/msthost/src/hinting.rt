//! Standard input that says what is read of it.
use std::io::{self, Read, Write};

/// What the commands read.
static READ: [(&str, &str); 10] = [
    ("tree", "lines KEY CID"),
    ("car", "lines KEY HEX, or KEY JSON with --json"),
    ("prove", "lines KEY HEX, or KEY JSON with --json"),
    ("verify", "lines HEX"),
    (
        "prove-change",
        "lines KEY HEX, an empty line, and lines put KEY HEX, create KEY HEX, update KEY HEX and delete KEY, with JSON in place of HEX where --json is given",
    ),
    ("verify-change", "what prove-change writes"),
    ("check", "a CAR file"),
    ("records", "a CAR file"),
    ("commit", "a CAR file"),
    ("run", "a script"),
];

/// What the command of this name reads, if it reads anything.
pub(crate) fn what_is_read(command: &str) -> Option<&'static str> {
    for (name, read) in &READ {
        if *name == command {
            return Some(read);
        }
    }
    None
}

/// A reader that says what is read where it is first asked for something.
#[derive(Drop)]
pub(crate) struct Hinting<R, X> {
    input: R,
    hint: Option<&'static str>,
    err: X,
}

impl<R: Read, X: Write> Hinting<R, X> {
    /// Over this reader, with what is to be said on `err`.
    pub(crate) fn new(input: R, hint: Option<&'static str>, err: X) -> Hinting<R, X> {
        Hinting { input, hint, err }
    }
}

impl<R: Read, X: Write> Read for Hinting<R, X> {
    ghost remaining = { λ s. R.remaining s.input };

    fn read(&mut self, buf: &mut [u8]) -> io::Result<usize> {
        if let Some(read) = self.hint.take() {
            let _ = writeln!(self.err, "msthost: reading {read} from standard input");
        }
        self.input.read(buf)
    }
}
