//! Running a command over memory, and what came of it.
use crate::held_files::NO_FILES;
use cid::{Digest, Sha256};
use commands::run_words;
use std::alloc::{AllocError, Global};
use std::io::Read;
use std::random::RandomSource;
use std::sync::Wait;
use std::thread::Threads;

/// The command line of `tree`.
pub(crate) const TREE: [&str; 2] = ["msthost", "tree"];

/// The text of the CID of the empty tree's node, which serves as the CID of a record too.
pub(crate) const EMPTY: &str = "bafyreie5737gdxlw5i64vzichcalba3z2v5n6icifvx5xytvske7mr3hpm";

/// Lines of three keys in their order, whose tree has five nodes where two zero bits are a layer.
pub(crate) const THREE_KEYS: [&str; 6] = ["a/p0 ", "E", "\na/q2 ", "E", "\na/r0 ", "E"];

/// How a command ended, and what it wrote.
#[derive(Drop)]
pub(crate) struct Ended {
    pub(crate) status: u8,
    pub(crate) out: Vec<u8>,
    pub(crate) err: Vec<u8>,
}

impl Ended {
    /// Whether it ended with this status, and wrote this and nothing else.
    pub(crate) fn is(&self, status: u8, out: &[u8], err: &str) -> bool {
        self.status == status && self.out.as_slice() == out && self.err.as_slice() == err.as_bytes()
    }

    /// Whether it was done, told no fault, and what it wrote begins so.
    pub(crate) fn begins(&self, front: &str) -> bool {
        self.status == 0 && self.out.starts_with(front.as_bytes()) && self.err.is_empty()
    }

    /// Whether it listed a tree with this root, and told no fault.
    pub(crate) fn lists(&self, root: &str) -> bool {
        self.status == 0 && first_line(&self.out) == root.as_bytes() && self.err.is_empty()
    }
}

/// Runs a command over an input in memory.
pub(crate) fn run<T: Threads + Wait + RandomSource + Sync>(
    rt: &T,
    alloc: Global,
    words: &[&str],
    input: &[u8],
) -> Ended {
    let mut input = input;
    run_over(rt, alloc, words, &mut input)
}

/// Runs a command over any reader.
pub(crate) fn run_over<T: Threads + Wait + RandomSource + Sync, R: Read>(
    rt: &T,
    alloc: Global,
    words: &[&str],
    input: &mut R,
) -> Ended {
    let mut out = Vec::new(alloc);
    let mut err = Vec::new(alloc);
    let status = run_words::<Sha256, _, _, _, _, _>(
        rt, alloc, words, &NO_FILES, input, &mut out, &mut err,
    ).status;
    Ended { status, out, err }
}

/// Runs a command over an input in memory, under the digest `D`.
pub(crate) fn run_with<D: Digest + Send + Sync, T: Threads + Wait + RandomSource + Sync>(
    rt: &T,
    alloc: Global,
    words: &[&str],
    input: &[u8],
) -> Ended {
    let mut input = input;
    let mut out = Vec::new(alloc);
    let mut err = Vec::new(alloc);
    let outcome = run_words::<D, _, _, _, _, _>(
        rt, alloc, words, &NO_FILES, &mut input, &mut out, &mut err,
    );
    Ended {
        status: outcome.status,
        out,
        err,
    }
}

/// Whether a command on these texts, one after another, ends with this status, and writes this and nothing else.
pub(crate) fn ends<T: Threads + Wait + RandomSource + Sync>(
    rt: &T,
    alloc: Global,
    words: &[&str],
    parts: &[&str],
    status: u8,
    out: &[u8],
    err: &str,
) -> bool {
    match joined(alloc, parts) {
        Ok(input) => run(rt, alloc, words, &input).is(status, out, err),
        Err(_) => false,
    }
}

/// Whether a command on these texts lists a tree with this root, and tells no fault.
pub(crate) fn lists<T: Threads + Wait + RandomSource + Sync>(
    rt: &T,
    alloc: Global,
    words: &[&str],
    parts: &[&str],
    root: &str,
) -> bool {
    match joined(alloc, parts) {
        Ok(input) => run(rt, alloc, words, &input).lists(root),
        Err(_) => false,
    }
}

/// These texts one after another, with `E` for the text of the CID above.
pub(crate) fn joined(alloc: Global, parts: &[&str]) -> Result<Vec<u8>, AllocError> {
    let mut all = Vec::new(alloc);
    for part in parts {
        let part = if *part == "E" { EMPTY } else { *part };
        all.extend_from_slice(part.as_bytes())?;
    }
    Ok(all)
}

/// The first line, without its end.
fn first_line(text: &[u8]) -> &[u8] {
    match text.iter().position(|byte| *byte == b'\n') {
        Some(end) => &text[..end],
        None => text,
    }
}
