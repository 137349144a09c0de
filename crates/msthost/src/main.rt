//! `msthost`: Merkle search trees of AT Protocol repositories, from the command line.
#![tactic(auto)]

mod hinting;
mod system;

use cid::Sha256;
use commands::{not_started, run_words};
use console::Files;
use std::alloc::Global;
use std::env;
use std::io::{self, BufWriter, Read, Write};
use std::process::ExitCode;
use std::random::RandomSource;
use std::sync::Wait;
use std::thread::Threads;
use system::{SystemFiles, standard_input};

fn main(rt: HostRuntime) -> ExitCode {
    let mut err = rt.stderr();
    let ended = match words_of(&rt, rt.alloc()) {
        Ok(words) => {
            let files = SystemFiles::new(&rt);
            let mut input = standard_input(&rt, &words);
            run_on_streams(
                &rt,
                rt.alloc(),
                &words,
                &files,
                &mut input,
                rt.stdout(),
                &mut err,
            )
        }
        Err(error) => Err(error),
    };
    let status = match ended {
        Ok(status) => status,
        Err(error) => not_started(&error, &mut err),
    };
    ExitCode::from(status)
}

/// The words of the command line, the program's name first.
fn words_of(rt: &HostRuntime, alloc: Global) -> io::Result<Vec<String>> {
    Ok(env::args(rt)?.collect(alloc)?)
}

/// The status of these words over these files and streams, or why room for buffers can't be had.
fn run_on_streams<
    T: Threads + Wait + RandomSource + Sync,
    F: Files,
    R: Read,
    W: Write + Drop,
    X: Write,
>(
    rt: &T,
    alloc: Global,
    words: &[String],
    files: &F,
    input: &mut R,
    out: W,
    err: &mut X,
) -> io::Result<u8> {
    let mut lent = Vec::with_capacity(alloc, words.len())?;
    for word in words {
        lent.push(word.as_str())?;
    }
    let mut out = BufWriter::new(alloc, out)?;
    let outcome = run_words::<Sha256, _, _, _, _, _>(rt, alloc, &lent, files, input, &mut out, err);
    Ok(outcome.status)
}
