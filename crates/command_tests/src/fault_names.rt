//! Faults that need records, blocks or a digest of their own: each name of what is wrong with a record, and proofs of many
//! nodes.
use crate::running::{joined, run, run_with};
use cid::digests::Size;
use cid::{Cid, Sha256};
use std::alloc::{AllocError, Global};
use std::process::Abort;
use std::random::RandomSource;
use std::sync::Wait;
use std::thread::Threads;

/// The commands that put lines into one repository, and the one that does a script.
const ON_ONE: [&[&str]; 2] = [&["msthost", "car"], &["msthost", "prove", "a/b"]];

const RUN: [&str; 2] = ["msthost", "run"];

/// Thirty-five lists, one in another.
const LISTS: &str = "8181818181818181818181818181818181818181818181818181818181818181818181";

/// Records that are no DAG-CBOR, with what is wrong.
static RECORDS: [(&[&str], &str); 13] = [
    (&["a161"], "BadRecord(Truncated)"),
    (&["b800"], "BadRecord(LongHead)"),
    (&["bfff"], "BadRecord(Indefinite)"),
    (&["c1a0"], "BadRecord(BadTag)"),
    (&["a16161d82a4100"], "BadRecord(BadLink)"),
    (&["a10000"], "BadRecord(KeyNotText)"),
    (&["a2616200616100"], "BadRecord(KeyOrder)"),
    (&["a1616161ff"], "BadRecord(BadUtf8)"),
    (&["a16161fb0000000000000000"], "BadRecord(Float)"),
    (&["a16161f7"], "BadRecord(Simple)"),
    (&["a161611bffffffffffffffff"], "BadRecord(IntegerRange)"),
    (&["a16161", LISTS, LISTS, "80"], "BadRecord(TooDeep)"),
    (&["a000"], "BadRecord(Trailing)"),
];

/// This text, and after it a record in hexadecimal.
fn with_record(alloc: Global, text: &str, record: &[&str]) -> Result<Vec<u8>, AllocError> {
    let mut input = joined(alloc, &[text])?;
    input.extend_from_slice(&joined(alloc, record)?)?;
    Ok(input)
}

/// Whether each command on one repository refuses a record on line 2 by this name.
fn is_refused_on_its_line<T: Threads + Wait + RandomSource + Abort + Sync>(
    rt: &T,
    alloc: Global,
    record: &[&str],
    name: &str,
) -> bool {
    let input = with_record(alloc, "\na/b ", record).expect(rt, "memory");
    let told = format!(in alloc; "msthost: line 2: {name}\n").expect(rt, "memory");
    are_refused(rt, alloc, &input, &told)
}

/// Whether each command on one repository refuses this input, and tells no more than this.
fn are_refused<T: Threads + Wait + RandomSource + Sync>(
    rt: &T,
    alloc: Global,
    input: &[u8],
    told: &str,
) -> bool {
    run(rt, alloc, ON_ONE[0], input).is(1, b"", told)
        && run(rt, alloc, ON_ONE[1], input).is(1, b"", told)
}

/// Whether a script refuses a record on line 2 by this name.
fn is_refused_in_a_script<T: Threads + Wait + RandomSource + Abort + Sync>(
    rt: &T,
    alloc: Global,
    record: &[&str],
    name: &str,
) -> bool {
    let script = with_record(alloc, "\n0 0 2222222222222 put a/b ", record).expect(rt, "memory");
    let front = format!(in alloc; "2 refused 0 {name}\n").expect(rt, "memory");
    run(rt, alloc, &RUN, &script).begins(&front)
}

/// Whether each command refuses a record on line 2 by this name.
fn is_refused<T: Threads + Wait + RandomSource + Abort + Sync>(
    rt: &T,
    alloc: Global,
    record: &[&str],
    name: &str,
) -> bool {
    is_refused_on_its_line(rt, alloc, record, name)
        && is_refused_in_a_script(rt, alloc, record, name)
}

#[test]
fn records(rt: HostRuntime) {
    for (record, name) in &RECORDS {
        assert!(rt; is_refused(&rt, rt.alloc(), record, name), "at {name}");
    }
}

/// Whether a record with these digits behind it is too long.
fn is_too_long<T: Threads + Wait + RandomSource + Abort + Sync>(
    rt: &T,
    alloc: Global,
    digits: &[u8],
) -> bool {
    match str::from_utf8(digits) {
        Ok(digits) => is_refused(rt, alloc, &["a161615a00100000", digits], "RecordSize"),
        Err(_) => false,
    }
}

#[test]
fn a_record_that_is_too_long(rt: HostRuntime) {
    let digits = vec![in rt.alloc(); b'0'; 0x20_0000].expect(&rt, "memory");
    assert!(rt; is_too_long(&rt, rt.alloc(), &digits));
}

/// Whether a command on one repository tells that the records of two lines clash.
fn clash_in<T: Threads + Wait + RandomSource + Sync>(
    rt: &T,
    alloc: Global,
    words: &[&str],
) -> bool {
    let ended = run_with::<Size, _>(rt, alloc, words, b"a/b a1616100\n\na/c a1616101");
    ended.is(1, b"", "msthost: line 3: Collision\n")
}

/// Whether each command tells it.
fn clash<T: Threads + Wait + RandomSource + Sync>(rt: &T, alloc: Global) -> bool {
    let script = b"0 0 2222222222222 put a/b a1616100 ; put a/c a1616101";
    clash_in(rt, alloc, ON_ONE[0])
        && clash_in(rt, alloc, ON_ONE[1])
        && run_with::<Size, _>(rt, alloc, &RUN, script).begins("1 refused 1 Collision\n")
}

#[test]
fn records_that_clash(rt: HostRuntime) {
    assert!(rt; clash(&rt, rt.alloc()));
}

/// The nodes of a chain, a line each, and the CID of its top.
#[derive(Drop)]
struct Chain {
    lines: Vec<u8>,
    top: Cid,
}

impl Chain {
    /// Adds the line of a node, which becomes the top.
    fn add(&mut self, alloc: Global, node: &[u8]) -> Result<(), AllocError> {
        let digits = hex::encode(alloc, node)?;
        self.lines.extend_from_slice(digits.as_bytes())?;
        self.lines.push(b'\n')?;
        self.top = Cid::of::<Sha256>(node);
        Ok(())
    }
}

/// A chain of so many nodes and one more: each but the first has no more than a link to the one before.
fn chain_of(alloc: Global, more: u8) -> Result<Chain, AllocError> {
    let mut chain = Chain {
        lines: joined(alloc, &["a2616580616cf6\n"])?,
        top: Cid::of::<Sha256>(b"\xa2ae\x80al\xf6"),
    };
    for _ in 0..more {
        let node = node_above(&chain.top);
        chain.add(alloc, &node)?;
    }
    Ok(chain)
}

/// The node that has no more than this link.
fn node_above(link: &Cid) -> [u8; 47] {
    let mut node = [0u8; 47];
    node[..11].copy_from_slice(b"\xa2ae\x80al\xd8\x2a\x58\x25\x00");
    node[11..].copy_from_slice(link.as_bytes());
    node
}

/// A status, and what is written to standard output and standard error.
type Wanted = (u8, &'static [u8], &'static str);

/// Whether the nodes on these lines show this of the key `a` under a root.
fn shows<T: Threads + Wait + RandomSource + Sync>(
    rt: &T,
    alloc: Global,
    root: &[u8],
    lines: &[u8],
    wanted: Wanted,
) -> bool {
    let (status, out, err) = wanted;
    match str::from_utf8(root) {
        Ok(root) => {
            run(rt, alloc, &["msthost", "verify", root, "a"], lines).is(status, out, err)
        }
        Err(_) => false,
    }
}

/// Whether the nodes of a chain of so many and one more, from a place of its lines on, show this under its top.
fn chain_shows<T: Threads + Wait + RandomSource + Sync>(
    rt: &T,
    alloc: Global,
    more: u8,
    from: usize,
    wanted: Wanted,
) -> bool {
    let Ok(chain) = chain_of(alloc, more) else {
        return false;
    };
    match chain.lines.get(from..) {
        Some(lines) => shows(rt, alloc, &chain.top.text(), lines, wanted),
        None => false,
    }
}

/// How many nodes a chain has beside one, from which place its lines are given, and what they show.
static CHAINS: [(u8, usize, Wanted); 4] = [
    (128, 0, (0, b"absent\n", "")),
    (128, 15, (1, b"", "msthost: BlockMissing\n")),
    (129, 0, (1, b"", "msthost: TooDeep\n")),
    (129, 15, (1, b"", "msthost: TooDeep\n")),
];

#[test]
fn chains_of_nodes(rt: HostRuntime) {
    for (more, from, wanted) in &CHAINS {
        let shown = chain_shows(&rt, rt.alloc(), *more, *from, *wanted);
        assert!(rt; shown, "of {more} from {from}");
    }
}
