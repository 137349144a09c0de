//! Roots of listings, and how long they are.
use crate::running::{Ended, THREE_KEYS, TREE, joined, lists, run, run_with};
use cid::digests::Toy;
use std::alloc::Global;
use std::random::RandomSource;
use std::sync::Wait;
use std::thread::Threads;

/// The record of every key of the published trees.
const RECORD: &str = "bafyreie5cvv4h45feadgeuwhbcutmh6t2ceseocckahdoe6uat64zmz454";

/// The lines of the published trees of one key, and their roots.
static ONE_KEY: [(&[&str], &str); 2] = [
    (
        &["com.example.record/3jqfcqzm3fo2j ", RECORD, "\n"],
        "bafyreibj4lsc3aqnrvphp5xmrnfoorvru4wynt6lwidqbm2623a6tatzdu",
    ),
    (
        &["com.example.record/3jqfcqzm3fx2j ", RECORD, "\n"],
        "bafyreih7wfei65pxzhauoibu3ls7jgmkju4bspy4t2ha2qdjnzqvoy33ai",
    ),
];

#[test]
fn published_roots_of_one_key(rt: HostRuntime) {
    for (parts, root) in &ONE_KEY {
        assert!(rt; lists(&rt, rt.alloc(), &TREE, parts, root), "at {root}");
    }
}

/// The lines of the published tree of five keys, in no order.
const FIVE_KEYS: [&str; 11] = [
    "com.example.record/3jqfcqzm3fs2j ",
    RECORD,
    "\ncom.example.record/3jqfcqzm4fc2j ",
    RECORD,
    "\ncom.example.record/3jqfcqzm3fp2j ",
    RECORD,
    "\ncom.example.record/3jqfcqzm3ft2j ",
    RECORD,
    "\ncom.example.record/3jqfcqzm3fr2j ",
    RECORD,
    "\n",
];

/// The roots of that tree with one zero bit a layer, with two, as published, or three, and with more.
const ROOT_OF_ONE: &str = "bafyreia4lg7qsow5oi3fenr4ckrvedywso6f4etz5djo6hvptd3kyw3n6i";

const PUBLISHED: &str = "bafyreicmahysq4n6wfuxo522m6dpiy7z7qzym3dzs756t5n7nfdgccwq7m";

const ROOT_OF_MORE: &str = "bafyreibxytyffxyzrfc7h7envv3e3go6cavhtyw4h6eywhs6zqf7v2vs2i";

/// Command lines, and the roots of that tree.
static BITS: [(&[&str], &str); 9] = [
    (&["msthost", "tree"], PUBLISHED),
    (&["msthost", "tree", "--bits", "1"], ROOT_OF_ONE),
    (&["msthost", "tree", "--bits", "2"], PUBLISHED),
    (&["msthost", "tree", "--bits", "3"], PUBLISHED),
    (&["msthost", "tree", "--bits", "4"], ROOT_OF_MORE),
    (&["msthost", "tree", "--bits", "5"], ROOT_OF_MORE),
    (&["msthost", "tree", "--bits", "6"], ROOT_OF_MORE),
    (&["msthost", "tree", "--bits", "7"], ROOT_OF_MORE),
    (&["msthost", "tree", "--bits", "8"], ROOT_OF_MORE),
];

#[test]
fn each_number_of_bits(rt: HostRuntime) {
    for (words, root) in &BITS {
        assert!(rt;
            lists(&rt, rt.alloc(), words, &FIVE_KEYS, root),
            "at {words:?}"
        );
    }
}

/// Lines of two keys with a record each, and lines of which the last of each key are these.
const ONCE: [&str; 4] = ["a/1 ", "E", "\nb/1 ", RECORD];

const TWICE: [&str; 11] = [
    "b/1 ", "E", "\na/1 ", "E", "\nb/1 ", RECORD, "\n\na/1 ", RECORD, "\na/1 ", "E", "\n",
];

/// What `tree` on these texts comes to.
fn tree_of<T: Threads + Wait + RandomSource + Sync>(
    rt: &T,
    alloc: Global,
    parts: &[&str],
) -> Option<Ended> {
    match joined(alloc, parts) {
        Ok(input) => Some(run(rt, alloc, &TREE, &input)),
        Err(_) => None,
    }
}

/// Whether a tree with this root was listed, and the same again.
fn list_the_same(one: &Ended, other: &Ended, root: &str) -> bool {
    one.lists(root) && other.is(0, &one.out, "")
}

#[test]
fn the_last_line_of_a_key_decides(rt: HostRuntime) {
    let root = "bafyreiafwufgom6kgt2oj43ilqgnilld6ypuu7wj2qsot5z5wonconecta";
    let once = tree_of(&rt, rt.alloc(), &ONCE).expect(&rt, "a tree");
    let twice = tree_of(&rt, rt.alloc(), &TWICE).expect(&rt, "a tree");
    assert!(rt; list_the_same(&once, &twice, root));
}

/// Keys that differ in their 33rd byte alone, and such that differ in zero bytes at their end, neither kind in the order
/// of the keys or the other way round.
const ALIKE: [&str; 12] = [
    "app.bsky.graph.block/3jqfcqzm3fo2 ",
    "E",
    "\napp.bsky.graph.block/3jqfcqzm3fo4 ",
    "E",
    "\napp.bsky.graph.block/3jqfcqzm3fo3 ",
    "E",
    "\na ",
    "E",
    "\na\0\0 ",
    "E",
    "\na\0 ",
    "E",
];

/// The root where keys have spaces in them, where they have carriage returns, and where they are alike.
const SPACES: &str = "bafyreidbsrnnag75pwuth7flro4phz2hod6uxnc62xzszhx74kptcyihby";

const RETURNS: &str = "bafyreihmtk6sjdmr7p2y3wrwx6c54vipkm6ngkq3o7bkcvvmxapklwclva";

const ROOT_OF_ALIKE: &str = "bafyreic6whpft2y2kaglm65dnjdc5hkbdxf3biydxs24q52q35l4ef4a4i";

/// Lines of such keys, and their roots.
static ANY_BYTES: [(&[&str], &str); 5] = [
    (&["a b  c ", "E"], SPACES),
    (&["a\rb ", "E", "\rc/d ", "E"], RETURNS),
    (&["a\rb ", "E", "\rc/d ", "E", "\n"], RETURNS),
    (&["a\rb ", "E", "\rc/d ", "E", "\r\n"], RETURNS),
    (&ALIKE, ROOT_OF_ALIKE),
];

#[test]
fn keys_of_any_bytes(rt: HostRuntime) {
    for (parts, root) in &ANY_BYTES {
        assert!(rt; lists(&rt, rt.alloc(), &TREE, parts, root), "at {parts:?}");
    }
}

/// The lines of the three keys in another order.
const MIXED: [&str; 6] = ["a/r0 ", "E", "\na/p0 ", "E", "\na/q2 ", "E"];

/// How many lines end in a text.
fn line_count(text: &[u8]) -> usize {
    let mut count = 0usize;
    for byte in text {
        if *byte == b'\n' {
            count = count.saturating_add(1);
        }
    }
    count
}

/// A number of zero bits a layer, and how many lines and bytes the tree of three keys has then.
static SIZES: [(&str, usize, usize); 4] = [
    // 9 nodes of 554 bytes, 5 of 366, 3 of 272, one of 174: a line of 60 for the root, and of 61 and two digits a byte
    ("1", 10, 1717),
    ("2", 6, 1097),
    ("4", 4, 787),
    ("8", 2, 469),
];

/// Whether the tree of the three keys has so many lines and bytes.
fn has_size<T: Threads + Wait + RandomSource + Sync>(
    rt: &T,
    alloc: Global,
    bits: &str,
    lines: usize,
    length: usize,
) -> bool {
    let Ok(input) = joined(alloc, &MIXED) else {
        return false;
    };
    let words = ["msthost", "tree", "--bits", bits];
    let ended = run_with::<Toy, _>(rt, alloc, &words, &input);
    line_count(&ended.out) == lines && ended.out.len() == length
}

#[test]
fn nodes_and_bytes_of_each_number_of_bits(rt: HostRuntime) {
    for (bits, lines, length) in &SIZES {
        assert!(rt;
            has_size(&rt, rt.alloc(), bits, *lines, *length),
            "at {bits}"
        );
    }
}

/// Whether the lines of a text have these lengths, each with an end behind it, and nothing stands after the last one's end.
fn have_lengths(text: &[u8], lengths: &[usize]) -> bool {
    let mut rest = text;
    for length in lengths {
        match rest.split_at_checked(*length) {
            Some((line, [b'\n', behind @ ..])) if line_count(line) == 0 => rest = behind,
            _ => return false,
        }
    }
    rest.is_empty()
}

#[test]
fn nodes_without_keys(rt: HostRuntime) {
    let input = joined(rt.alloc(), &THREE_KEYS).expect(&rt, "a listing");
    let ended = run_with::<Toy, _>(&rt, rt.alloc(), &TREE, &input);
    // the root, and a node of 144 bytes over two of 47, each over one of 64
    assert!(rt; have_lengths(&ended.out, &[59, 348, 154, 188, 154, 188]));
}
