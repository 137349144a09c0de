//! The files of the operating system, and its standard input.
use crate::hinting::{Hinting, what_is_read};
use console::{Files, OpenFault, SaveFault, Watched, write_whole};
use std::fs::File;
use std::io::{self, ErrorKind, IsTerminal, Read, Stderr, Stdin};

/// What a command reads: a file, or standard input.
#[derive(Drop)]
pub(crate) enum Source {
    File(File),
    Input(Hinting<Stdin, Stderr>),
}

impl Read for Source {
    fn read(&mut self, buf: &mut [u8]) -> io::Result<usize> {
        match self {
            Source::File(file) => file.read(buf),
            Source::Input(input) => input.read(buf),
        }
    }
}

/// The files of the operating system.
#[derive(Drop)]
pub(crate) struct SystemFiles<'a> {
    rt: &'a HostRuntime,
}

impl<'a> SystemFiles<'a> {
    /// Those of this one.
    pub(crate) fn new(rt: &'a HostRuntime) -> SystemFiles<'a> {
        SystemFiles { rt }
    }
}

impl<'a> Files for SystemFiles<'a> {
    type Reader = Watched<Source, Stderr, &'a HostRuntime>;

    fn open(&self, name: &str) -> Result<Watched<Source, Stderr, &'a HostRuntime>, OpenFault> {
        match opened(self.rt, name) {
            Ok(file) => Ok(Watched::new(Source::File(file), progress(self.rt), self.rt)),
            Err(error) => Err(OpenFault::of(&error)),
        }
    }

    fn save(&self, name: &str, bytes: &[u8]) -> Result<(), SaveFault> {
        match File::create(self.rt, name) {
            Ok(mut file) => Ok(write_whole(&mut file, bytes)?),
            Err(error) => Err(SaveFault::Unopened(OpenFault::of(&error))),
        }
    }
}

/// The file of this name. A directory is refused: the system would open it, and refuse to read it.
fn opened(rt: &HostRuntime, name: &str) -> io::Result<File> {
    let file = File::open(rt, name)?;
    if file.metadata()?.is_dir() {
        return Err(io::Error::from(ErrorKind::IsADirectory));
    }
    Ok(file)
}

/// Standard input for these words: where it is a terminal, a command that reads it says so on standard error.
pub(crate) fn standard_input<'a>(
    rt: &'a HostRuntime,
    words: &[String],
) -> Watched<Source, Stderr, &'a HostRuntime> {
    let input = rt.stdin();
    if input.is_terminal() {
        let hint = match words {
            [_, command, ..] => what_is_read(command),
            _ => None,
        };
        Watched::new(
            Source::Input(Hinting::new(input, hint, rt.stderr())),
            None,
            rt,
        )
    } else {
        Watched::new(
            Source::Input(Hinting::new(input, None, rt.stderr())),
            progress(rt),
            rt,
        )
    }
}

/// Where progress is shown: on standard error, if that is a terminal.
fn progress(rt: &HostRuntime) -> Option<Stderr> {
    let err = rt.stderr();
    if err.is_terminal() { Some(err) } else { None }
}
