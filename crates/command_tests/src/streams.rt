//! Readers and writers that fail, or move few bytes at a time.
ghost use Rattle.std.specs.Prelude.{Some};

use crate::held_files::NO_FILES;
use crate::running::{EMPTY, Ended, TREE, joined, run, run_over};
use cid::Sha256;
use commands::run_words;
use std::alloc::Global;
use std::io::{self, ErrorKind, Read, Write};
use std::random::RandomSource;
use std::sync::Wait;
use std::thread::Threads;

/// Gives these bytes, a few at a time, and fails at their end.
#[derive(Drop)]
struct FailingReader<'a> {
    left: &'a [u8],
    kind: ErrorKind,
}

impl Read for FailingReader<'_> {
    ghost remaining = { λ r. Some r.left.now };

    fn read(&mut self, buf: &mut [u8]) -> io::Result<usize> {
        if self.left.is_empty() {
            return Err(io::Error::from(self.kind));
        }
        let most = buf.len().min(7);
        self.left.read(&mut buf[..most])
    }
}

/// Two lines of a listing, and one that is faulty.
const LINES: &[u8] =
    b"a/b bafyreie5737gdxlw5i64vzichcalba3z2v5n6icifvx5xytvske7mr3hpm\nb/c bafyreie5737gdxlw5i64vzichcalba3z2v5n6icifvx5xytvske7mr3hpm\na/b\n";

/// The commands, each with a short input and with one whose last line is faulty.
static COMMANDS: [(&[&str], &[u8]); 6] = [
    (&TREE, LINES),
    (&["msthost", "car"], b"a/b a0\r\n\na/b a1616100\nx"),
    (&["msthost", "prove", "a/b"], b"a/b a0\r\n\na/b a1616100\nx"),
    (
        &["msthost", "verify", EMPTY, "a/b"],
        b"a2616580616cf6\n\nA0\nx",
    ),
    (&["msthost", "verify", EMPTY, "a/b"], b"a2616580616cf6"),
    (&["msthost", "run"], b"0 0 get a/b\nfaulty\n"),
];

/// Whether a command over a reader that gives these bytes and then fails ends with this, and writes nothing.
fn fails_after<T: Threads + Wait + RandomSource + Sync>(
    rt: &T,
    alloc: Global,
    words: &[&str],
    left: &[u8],
    kind: ErrorKind,
) -> bool {
    let (status, told) = match kind {
        ErrorKind::OutOfMemory => (3, "msthost: no memory\n"),
        _ => (4, "msthost: read failed\n"),
    };
    run_over(rt, alloc, words, &mut FailingReader { left, kind }).is(status, b"", told)
}

/// Whether it does so for each kind of failure.
fn fails_each_way<T: Threads + Wait + RandomSource + Sync>(
    rt: &T,
    alloc: Global,
    words: &[&str],
    left: &[u8],
) -> bool {
    fails_after(rt, alloc, words, left, ErrorKind::Other)
        && fails_after(rt, alloc, words, left, ErrorKind::OutOfMemory)
}

#[test]
fn a_read_that_fails_at_any_byte(rt: HostRuntime) {
    for (words, input) in &COMMANDS {
        for end in 0..=input.len() {
            let fails = fails_each_way(&rt, rt.alloc(), words, &input[..end]);
            assert!(rt; fails, "of {words:?} after {end} bytes");
        }
    }
}

/// Gives these bytes, one at a time, and is interrupted before each.
#[derive(Drop)]
struct InterruptedReader<'a> {
    left: &'a [u8],
    is_interrupted: bool,
}

impl Read for InterruptedReader<'_> {
    ghost remaining = { λ r. Some r.left.now };

    fn read(&mut self, buf: &mut [u8]) -> io::Result<usize> {
        self.is_interrupted = !self.is_interrupted;
        if self.is_interrupted {
            return Err(io::Error::from(ErrorKind::Interrupted));
        }
        let most = buf.len().min(1);
        self.left.read(&mut buf[..most])
    }
}

/// Whether a tree of these lines has this root, and the same comes of them where each read is interrupted first.
fn lists_all_the_same<T: Threads + Wait + RandomSource + Sync>(
    rt: &T,
    alloc: Global,
    lines: &[u8],
    root: &str,
) -> bool {
    let wanted = run(rt, alloc, &TREE, lines);
    let mut input = InterruptedReader {
        left: lines,
        is_interrupted: false,
    };
    let ended = run_over(rt, alloc, &TREE, &mut input);
    wanted.lists(root) && ended.is(0, &wanted.out, "")
}

#[test]
fn a_read_that_is_interrupted(rt: HostRuntime) {
    let parts = ["a/b ", "E", "\nb/c ", "E", "\n"];
    let lines = joined(rt.alloc(), &parts).expect(&rt, "a listing");
    let root = "bafyreih7eb3fragavwgi36466egdtd46zgb37qhjfatkoygoofir4t3mvq";
    assert!(rt; lists_all_the_same(&rt, rt.alloc(), &lines, root));
}

/// What a writer does at its end.
#[derive(Clone, Copy, Drop, PartialEq, Eq)]
enum End {
    /// It has no room for more.
    Fails,
    /// It takes nothing at one write, and from then on all.
    TakesNothing,
    /// It can't flush.
    FailsToFlush,
}

/// Takes a few bytes at a time and is interrupted now and then, until it has so many bytes.
#[derive(Drop)]
struct NarrowWriter {
    written: Vec<u8>,
    room: usize,
    is_interrupted: bool,
    end: End,
}

impl Write for NarrowWriter {
    ghost contents = { λ w. Some w.written.items };

    fn write(&mut self, buf: &[u8]) -> io::Result<usize> {
        self.is_interrupted = !self.is_interrupted;
        if self.is_interrupted {
            return Err(io::Error::from(ErrorKind::Interrupted));
        }
        if self.written.len() >= self.room {
            if self.end == End::TakesNothing {
                self.room = usize::MAX;
                return Ok(0);
            }
            return Err(io::Error::from(ErrorKind::BrokenPipe));
        }
        let most = buf.len().min(11).min(self.room - self.written.len());
        self.written.write(&buf[..most])
    }

    fn flush(&mut self) -> io::Result<()> {
        if self.end == End::FailsToFlush {
            Err(io::Error::from(ErrorKind::BrokenPipe))
        } else {
            Ok(())
        }
    }
}

/// A writer of this room.
fn narrow(alloc: Global, room: usize, end: End) -> NarrowWriter {
    NarrowWriter {
        written: Vec::new(alloc),
        room,
        is_interrupted: false,
        end,
    }
}

/// Runs a command on an input in memory, over such a writer.
fn run_into<T: Threads + Wait + RandomSource + Sync>(
    rt: &T,
    alloc: Global,
    words: &[&str],
    input: &[u8],
    out: NarrowWriter,
) -> Ended {
    let mut input = input;
    let mut out = out;
    let mut err = Vec::new(alloc);
    let status = run_words::<Sha256, _, _, _, _, _>(
        rt, alloc, words, &NO_FILES, &mut input, &mut out, &mut err,
    ).status;
    Ended {
        status,
        out: out.written,
        err,
    }
}

/// Whether a command that writes so many bytes writes all of them, or just what the writer has room for.
fn writes_what_fits<T: Threads + Wait + RandomSource + Sync>(
    rt: &T,
    alloc: Global,
    words: &[&str],
    input: &[u8],
    length: usize,
    room: usize,
) -> bool {
    let whole = run(rt, alloc, words, input);
    let ended = run_into(rt, alloc, words, input, narrow(alloc, room, End::Fails));
    whole.out.len() == length && has_written(&whole, &ended, room)
}

/// Whether a command wrote all of its output, or just what there was room for.
fn has_written(whole: &Ended, ended: &Ended, room: usize) -> bool {
    match whole.out.get(..room) {
        Some(front) if room < whole.out.len() => ended.is(4, front, "msthost: write failed\n"),
        _ => whole.status == 0 && ended.is(0, &whole.out, ""),
    }
}

/// Commands, their inputs, and how many bytes they write.
static LENGTHS: [(&[&str], &[u8], usize); 6] = [
    (&TREE, b"", 135),
    (&["msthost", "car"], b"", 103),
    (&["msthost", "car"], b"a/b a0", 337),
    (&["msthost", "prove", "a/b"], b"a/b a0", 187),
    (&["msthost", "verify", EMPTY, "a/b"], b"a2616580616cf6", 7),
    (&["msthost", "run"], b"0 0 get a/b", 149),
];

#[test]
fn a_writer_that_takes_little_or_fails(rt: HostRuntime) {
    for (words, input, length) in &LENGTHS {
        for room in 0..=*length {
            let fits = writes_what_fits(&rt, rt.alloc(), words, input, *length, room);
            assert!(rt; fits, "of {words:?} at {room}");
        }
    }
}

/// Whether a command fails that can't flush what it has written, all of its output.
fn fails_at_its_flush<T: Threads + Wait + RandomSource + Sync>(
    rt: &T,
    alloc: Global,
    words: &[&str],
    input: &[u8],
) -> bool {
    let whole = run(rt, alloc, words, input);
    let ended = run_into(
        rt,
        alloc,
        words,
        input,
        narrow(alloc, 10000, End::FailsToFlush),
    );
    ended.is(4, &whole.out, "msthost: write failed\n")
}

/// Commands and their inputs.
static FLUSHES: [(&[&str], &[u8]); 6] = [
    (&TREE, b""),
    (&["msthost", "--help"], b""),
    (&["msthost", "car"], b""),
    (&["msthost", "prove", "a/b"], b""),
    (&["msthost", "verify", EMPTY, "a/b"], b"a2616580616cf6"),
    (&["msthost", "run"], b"0 0 get a/b"),
];

#[test]
fn a_flush_that_fails(rt: HostRuntime) {
    for (words, input) in &FLUSHES {
        assert!(rt;
            fails_at_its_flush(&rt, rt.alloc(), words, input),
            "at {words:?}"
        );
    }
}

/// Whether a command ends where nothing is taken: at the first byte, at the seventh, and at the last one.
fn ends_where_nothing_is_taken<T: Threads + Wait + RandomSource + Sync>(
    rt: &T,
    alloc: Global,
    words: &[&str],
    input: &[u8],
) -> bool {
    let whole = run(rt, alloc, words, input);
    for room in [0, 6, whole.out.len().saturating_sub(1)] {
        let ended = run_into(
            rt,
            alloc,
            words,
            input,
            narrow(alloc, room, End::TakesNothing),
        );
        match whole.out.get(..room) {
            Some(front) if ended.is(4, front, "msthost: write failed\n") => {}
            _ => return false,
        }
    }
    true
}

#[test]
fn a_writer_that_takes_nothing(rt: HostRuntime) {
    for (words, input) in &FLUSHES {
        assert!(rt;
            ends_where_nothing_is_taken(&rt, rt.alloc(), words, input),
            "at {words:?}"
        );
    }
}

#[test]
fn standard_error_that_fails(rt: HostRuntime) {
    let mut input: &[u8] = b"a/b";
    let mut out = Vec::new(rt.alloc());
    let mut err = narrow(rt.alloc(), 0, End::Fails);
    let status = run_words::<Sha256, _, _, _, _, _>(
        &rt,
        rt.alloc(),
        &TREE,
        &NO_FILES,
        &mut input,
        &mut out,
        &mut err,
    )
    .status;
    assert!(rt; status == 1 && out.is_empty());
}
