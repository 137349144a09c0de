//! Command lines that are refused, help, the version, and programs that are not started.
use crate::running::{EMPTY, run};
use bstr::ByteSlice;
use commands::not_started;
use std::alloc::Global;
use std::io::{self, ErrorKind};
use std::random::RandomSource;
use std::sync::Wait;
use std::thread::Threads;

/// Wrong command lines.
static WRONG: [&[&str]; 29] = [
    &[],
    &["msthost"],
    &["msthost", "help", "tree"],
    &["msthost", "explain", "BadLine", "BadKey"],
    &["msthost", "check", "a.car", "b.car"],
    &["msthost", "verify-change", EMPTY, EMPTY, "a.txt", "b.txt"],
    &["msthost", "trees"],
    &["msthost", "tree", "a.txt", "b.txt"],
    &["msthost", "tree", "--bits"],
    &["msthost", "tree", "--bits", "0"],
    &["msthost", "tree", "--bits", "9"],
    &["msthost", "tree", "--bits", "two"],
    &["msthost", "car", "a.txt", "b.txt"],
    &["msthost", "car", "--did"],
    &["msthost", "prove"],
    &["msthost", "prove", "a/b", "a.txt", "b.txt"],
    &["msthost", "prove", "a/b", "--did", "did:web:a.b"],
    &["msthost", "verify", EMPTY],
    &["msthost", "verify", EMPTY, "a/b", "a.txt", "b.txt"],
    &["msthost", "run", "a.txt", "b.txt"],
    &["msthost", "run", "--did"],
    &["msthost", "run", "--rev", "2222222222222"],
    &["msthost", "run", "--repos", "0"],
    &["msthost", "run", "--repos", "1025"],
    &["msthost", "run", "--workers", "0"],
    &["msthost", "run", "--workers", "65"],
    &["msthost", "run", "--queue", "0"],
    &["msthost", "run", "--queue", "65537"],
    &["msthost", "run", "--queue", "4294967297"],
];

/// Whether a command line is refused with an error, and nothing is written.
fn is_wrong<T: Threads + Wait + RandomSource + Sync>(
    rt: &T,
    alloc: Global,
    words: &[&str],
) -> bool {
    let ended = run(rt, alloc, words, b"a/b");
    ended.status == 2 && ended.err.starts_with(b"error: ") && ended.out.is_empty()
}

#[test]
fn wrong_command_lines(rt: HostRuntime) {
    for words in &WRONG {
        assert!(rt; is_wrong(&rt, rt.alloc(), words), "at {words:?}");
    }
}

#[test]
fn bits_out_of_range_are_named(rt: HostRuntime) {
    let ended = run(&rt, rt.alloc(), &["msthost", "tree", "--bits", "9"], b"");
    let told =
        "error: invalid value '9' for '--bits <B>': 9 is not in 1..=8\n\nFor more information, try '--help'.\n";
    assert!(rt; ended.is(2, b"", told));
}

/// Command lines that ask for help, and what it shows.
static HELP: [(&[&str], &str); 20] = [
    (&["msthost", "help"], "$ printf '' | msthost tree"),
    (
        &["msthost", "tree", "--help"],
        "Usage: msthost tree [OPTIONS] [FILE]\n",
    ),
    (
        &["msthost", "verify", "--help"],
        "Usage: msthost verify <ROOT> <KEY> [FILE]\n",
    ),
    (
        &["msthost", "run", "--help"],
        "Usage: msthost run [OPTIONS] [FILE]\n",
    ),
    (
        &["msthost", "explain", "--help"],
        "$ msthost explain NotAMap\n  NotAMap\n    the record is not a map\n",
    ),
    (&["msthost", "--help"], "$ printf '' | msthost tree"),
    (&["msthost", "-h"], "$ printf '' | msthost tree"),
    (&["msthost", "tree", "--help"], "--bits <B>"),
    (
        &["msthost", "tree", "--help"],
        "Exit status: 0 done, 1 a faulty line",
    ),
    (
        &["msthost", "tree", "--help"],
        "$ printf '' | msthost tree\n  bafyreie5737gdxlw5i64vzichcalba3z2v5n6icifvx5xytvske7mr3hpm\n  bafyreie5737gdxlw5i64vzichcalba3z2v5n6icifvx5xytvske7mr3hpm a2616580616cf6\n",
    ),
    (
        &["msthost", "car", "--help"],
        "$ printf '' | msthost car | wc -c\n  103\n",
    ),
    (
        &["msthost", "car", "--help"],
        "[default: did:web:localhost]",
    ),
    (
        &["msthost", "car", "--help"],
        "Exit status: 0 done, 1 a faulty line, DID, revision or signature, or no line to sign",
    ),
    (
        &["msthost", "prove", "--help"],
        "$ printf '' | msthost prove a/b\n  bafyreie5737gdxlw5i64vzichcalba3z2v5n6icifvx5xytvske7mr3hpm\n  a2616580616cf6\n",
    ),
    (
        &["msthost", "prove", "--help"],
        "Exit status: 0 done, 1 a faulty line or key",
    ),
    (
        &["msthost", "verify", "--help"],
        "$ printf 'a2616580616cf6' | msthost verify $root a/b\n  absent\n",
    ),
    (
        &["msthost", "verify", "--help"],
        "Exit status: 0 done, 1 a faulty line, root or key, or blocks that show nothing",
    ),
    (
        &["msthost", "run", "--help"],
        "$ printf '0 0 get a/b\\n' | msthost run\n  1 none\n  repo 0 bafyreie5737gdxlw5i64vzichcalba3z2v5n6icifvx5xytvske7mr3hpm 0 none\n  block bafyreie5737gdxlw5i64vzichcalba3z2v5n6icifvx5xytvske7mr3hpm 1\n",
    ),
    (&["msthost", "run", "--help"], "[default: 1024]"),
    (
        &["msthost", "run", "--help"],
        "Exit status: 0 done, 1 a faulty line or DID, or a host that doesn't close",
    ),
];

/// Whether a command line shows this, tells no fault, and is done.
fn shows<T: Threads + Wait + RandomSource + Sync>(
    rt: &T,
    alloc: Global,
    words: &[&str],
    shown: &str,
) -> bool {
    let ended = run(rt, alloc, words, b"a/b");
    ended.status == 0 && ended.out.as_slice().contains_str(shown.as_bytes()) && ended.err.is_empty()
}

#[test]
fn help(rt: HostRuntime) {
    for (words, shown) in &HELP {
        assert!(rt;
            shows(&rt, rt.alloc(), words, shown),
            "at {words:?} for {shown}"
        );
    }
}

#[test]
fn version(rt: HostRuntime) {
    let ended = run(&rt, rt.alloc(), &["msthost", "--version"], b"a/b");
    assert!(rt; ended.is(0, b"msthost 0.3.0\n", ""));
}

/// Whether a program that isn't started for an error of this kind ends with this status, and tells this.
fn is_told(alloc: Global, kind: ErrorKind, status: u8, told: &str) -> bool {
    let mut err = Vec::new(alloc);
    not_started(&io::Error::from(kind), &mut err) == status && err.as_slice() == told.as_bytes()
}

#[test]
fn programs_that_are_not_started(rt: HostRuntime) {
    let no_memory = "msthost: no memory\n";
    let no_text = "error: the arguments are not UTF-8\n";
    assert!(rt; is_told(rt.alloc(), ErrorKind::OutOfMemory, 3, no_memory));
    assert!(rt; is_told(rt.alloc(), ErrorKind::InvalidData, 2, no_text));
}
