//! Commands on files that their words name.
use crate::exports::file;
use crate::held_files::HeldFile;
use crate::running::{EMPTY, Ended, TREE, run};
use cid::Sha256;
use commands::run_words;
use console::OpenFault;
use std::alloc::Global;
use std::random::RandomSource;
use std::sync::Wait;
use std::thread::Threads;

/// What standard input has, which no command on a file reads.
const LEFT: &[u8] = b"a line that no command takes";

/// How a command ended, which file it says that its words name, and how much it left of standard input.
#[derive(Drop)]
struct OnFile<'a> {
    ended: Ended,
    file: Option<&'a str>,
    left: usize,
}

/// Runs a command where there is one file.
fn run_on<'a, T: Threads + Wait + RandomSource + Sync>(
    rt: &T,
    alloc: Global,
    words: &'a [&'a str],
    files: &HeldFile<'_>,
) -> OnFile<'a> {
    let mut input = LEFT;
    let mut out = Vec::new(alloc);
    let mut err = Vec::new(alloc);
    let outcome = run_words::<Sha256, _, _, _, _, _>(
        rt, alloc, words, files, &mut input, &mut out, &mut err,
    );
    OnFile {
        ended: Ended {
            status: outcome.status,
            out,
            err,
        },
        file: outcome.file,
        left: input.len(),
    }
}

/// The file of this name with these bytes.
fn held<'a>(name: &'a str, bytes: &'a [u8]) -> HeldFile<'a> {
    HeldFile {
        name,
        bytes,
        refusal: OpenFault::NotFound,
    }
}

/// Whether a command does the same on a file, which its further words name, as on standard input.
fn does_the_same<T: Threads + Wait + RandomSource + Sync>(
    rt: &T,
    alloc: Global,
    on_input: &[&str],
    on_file: &[&str],
    bytes: &[u8],
) -> bool {
    let wanted = run(rt, alloc, on_input, bytes);
    let found = run_on(rt, alloc, on_file, &held("a.txt", bytes));
    found.ended.status == wanted.status
        && found.ended.out == wanted.out
        && found.ended.err == wanted.err
        && found.file == Some("a.txt")
        && found.left == LEFT.len()
}

/// The words of each command that reads lines, and the same with a file.
static LINES: [(&[&str], &[&str]); 9] = [
    (&TREE, &["msthost", "tree", "a.txt"]),
    (
        &["msthost", "tree", "--bits", "3"],
        &["msthost", "tree", "a.txt", "--bits", "3"],
    ),
    (
        &["msthost", "tree", "--paths"],
        &["msthost", "tree", "--paths", "a.txt"],
    ),
    (&["msthost", "car"], &["msthost", "car", "a.txt"]),
    (
        &["msthost", "prove", "a/b"],
        &["msthost", "prove", "a/b", "a.txt"],
    ),
    (
        &["msthost", "verify", EMPTY, "a/b"],
        &["msthost", "verify", EMPTY, "a/b", "a.txt"],
    ),
    (
        &["msthost", "prove-change"],
        &["msthost", "prove-change", "a.txt"],
    ),
    (
        &["msthost", "verify-change", EMPTY, EMPTY],
        &["msthost", "verify-change", EMPTY, EMPTY, "a.txt"],
    ),
    (&["msthost", "run"], &["msthost", "run", "a.txt"]),
];

/// What is given to each: a text that some of them take and others refuse.
static TEXTS: [&[u8]; 7] = [
    b"",
    b"a/b bafyreie5737gdxlw5i64vzichcalba3z2v5n6icifvx5xytvske7mr3hpm\n",
    b"a/b a0\n",
    b"a/b a0\n\nput a/c a0\n",
    b"a2616580616cf6",
    b"0 0 get a/b\n",
    b"a/b",
];

#[test]
fn each_command_does_the_same_on_a_file(rt: HostRuntime) {
    for (on_input, on_file) in &LINES {
        for text in &TEXTS {
            let same = does_the_same(&rt, rt.alloc(), on_input, on_file, text);
            assert!(rt; same, "of {on_file:?} on {text:?}");
        }
    }
}

/// The words of each command on an export, and the same with a file.
static EXPORTS: [(&[&str], &[&str]); 4] = [
    (&["msthost", "check"], &["msthost", "check", "a.txt"]),
    (&["msthost", "records"], &["msthost", "records", "a.txt"]),
    (
        &["msthost", "records", "--cids"],
        &["msthost", "records", "--cids", "a.txt"],
    ),
    (&["msthost", "commit"], &["msthost", "commit", "a.txt"]),
];

#[test]
fn each_command_on_an_export_does_the_same_on_a_file(rt: HostRuntime) {
    let export = file(&rt, rt.alloc());
    let (part, _) = export
        .split_at_checked(300)
        .expect(&rt, "a file of more than 300 bytes");
    for (on_input, on_file) in &EXPORTS {
        assert!(rt;
            does_the_same(&rt, rt.alloc(), on_input, on_file, &export),
            "of {on_file:?}"
        );
        assert!(rt;
            does_the_same(&rt, rt.alloc(), on_input, on_file, part),
            "of {on_file:?} on a part"
        );
    }
}

/// Why files aren't opened, and how a command on one of them ends.
static REFUSALS: [(OpenFault, u8, &str); 5] = [
    (OpenFault::NotFound, 4, "msthost: b.txt: not found\n"),
    (OpenFault::Denied, 4, "msthost: b.txt: permission denied\n"),
    (OpenFault::Directory, 4, "msthost: b.txt: is a directory\n"),
    (OpenFault::NoMemory, 3, "msthost: b.txt: no memory\n"),
    (OpenFault::Failed, 4, "msthost: b.txt: open failed\n"),
];

/// Whether a command on a file that isn't opened tells that, and neither reads nor writes anything.
fn tells<T: Threads + Wait + RandomSource + Sync>(
    rt: &T,
    alloc: Global,
    words: &[&str],
    refusal: OpenFault,
    status: u8,
    told: &str,
) -> bool {
    let mut files = held("a.txt", b"");
    files.refusal = refusal;
    let found = run_on(rt, alloc, words, &files);
    found.ended.is(status, b"", told) && found.file == Some("b.txt") && found.left == LEFT.len()
}

#[test]
fn a_file_that_is_not_opened_is_told(rt: HostRuntime) {
    let prove: &[&str] = &["msthost", "prove", "a/b", "b.txt"];
    let run: &[&str] = &["msthost", "run", "--did", "no DID", "b.txt"];
    for (refusal, status, told) in &REFUSALS {
        assert!(rt;
            tells(&rt, rt.alloc(), prove, *refusal, *status, told),
            "{told}"
        );
        assert!(rt;
            tells(&rt, rt.alloc(), run, *refusal, *status, told),
            "{told}"
        );
    }
}

#[test]
fn words_without_a_file_name_none(rt: HostRuntime) {
    let files = held("a.txt", b"");
    let explained = run_on(&rt, rt.alloc(), &["msthost", "explain", "a.txt"], &files);
    assert!(rt; explained.file.is_none() && explained.left == LEFT.len());
    let listed = run_on(&rt, rt.alloc(), &TREE, &files);
    assert!(rt; listed.file.is_none() && listed.left == 0);
    let shown = run_on(
        &rt,
        rt.alloc(),
        &["msthost", "tree", "a.txt", "--help"],
        &files,
    );
    assert!(rt; shown.file.is_none() && shown.ended.status == 0);
}

/// The command on two files opens both, and reads nothing else.
#[test]
fn two_files_are_compared(rt: HostRuntime) {
    let files = held("a.txt", b"a/b a0\n");
    let same = run_on(
        &rt,
        rt.alloc(),
        &["msthost", "changes", "a.txt", "a.txt"],
        &files,
    );
    assert!(rt; same.ended.is(0, b"", "") && same.file.is_none() && same.left == LEFT.len());
    let missing = run_on(
        &rt,
        rt.alloc(),
        &["msthost", "changes", "a.txt", "b.txt"],
        &files,
    );
    assert!(rt; missing.ended.is(4, b"", "msthost: b.txt: not found\n"));
    let formless = run_on(
        &rt,
        rt.alloc(),
        &["msthost", "changes", "--form", "tree", "b.txt", "a.txt"],
        &files,
    );
    assert!(rt; formless.ended.is(1, b"", "msthost: BadForm\n"));
}
