//! Inputs and words that are refused, by what standard error is told.
use crate::running::{EMPTY, THREE_KEYS, TREE, ends, joined, lists, run_with};
use cid::digests::Size;
use std::alloc::Global;
use std::random::RandomSource;
use std::sync::Wait;
use std::thread::Threads;

/// Whether the command is refused with just this on standard error, and nothing is written.
fn are_refused<T: Threads + Wait + RandomSource + Sync>(
    rt: &T,
    alloc: Global,
    words: &[&str],
    parts: &[&str],
    told: &str,
) -> bool {
    ends(rt, alloc, words, parts, 1, b"", told)
}

/// Nodes of two entries and of one: their first entry, `a/b`, what stands in an entry after its prefix, and the node's end.
const ENTRY: &str =
    "a4616b43612f626170006174f66176d82a58250001711220c19a797fa1fd590cd2e5b42d1cf5f246e29b91684e2f87404b81dc345c7a56a0";

const END: &str =
    "6174f66176d82a58250001711220c19a797fa1fd590cd2e5b42d1cf5f246e29b91684e2f87404b81dc345c7a56a0616cf6";

/// The roots of such nodes with a prefix that isn't the greatest, keys that descend, and a key without bytes.
const BAD_PREFIX: &str = "bafyreicsvq2gjh2aohvdo3zp2lymfmtphqrhhqxrdgm2z7o5gzayv6f7cy";

const KEY_ORDER: &str = "bafyreihbhjazmaso7qu5zsoanvhqtr7ztvcth3q7tuvqkkv4qsdwvci3le";

const KEY_LENGTH: &str = "bafyreicf5p7qa3ofxouz2twx7guefw5i3ner22emkoskuusnfzvkte4miu";

/// The CID of the tree of the key `a/b` with the record `a0`, and the CID of that record, which is no node.
const ROOT: &str = "bafyreihkkefvij2yxd6vkifr7342uvsineepfcevg2pduv3e4idaxosycu";

const RECORD: &str = "bafyreigbtj4x7ip5legnfznufuopl4sg4knzc2cof6duas4b3q2fy6swua";

/// `car` under a revision that is none, and under a DID that is none either.
const CAR: &[&str] = &["msthost", "car", "--rev", "2222222222221"];

const CAR_OF_NOBODY: &[&str] = &["msthost", "car", "--rev", "", "--did", ""];

/// `car` with a signature that is none, of nobody, and with one that is hexadecimal.
const SIGNED_BY_LETTERS: &[&str] = &["msthost", "car", "--sig", "0g"];

const SIGNED_BY_NOTHING: &[&str] = &["msthost", "car", "--sig", ""];

const SIGNED_OF_NOBODY: &[&str] = &["msthost", "car", "--sig", "0", "--did", ""];

const SIGNED: &[&str] = &["msthost", "car", "--sig", "00fF"];

/// Command lines, inputs, and what is told of them. `E` stands for the text of the CID of the empty tree's node.
static FAULTS: [(&[&str], &[&str], &str); 19] = [
    (&TREE, &["a/b"], "msthost: line 1: BadLine\n"),
    (&TREE, &["a/b\n"], "msthost: line 1: BadLine\n"),
    (&TREE, &[" ", "E"], "msthost: line 1: BadKey\n"),
    (&TREE, &["a/b "], "msthost: line 1: BadCid\n"),
    (&TREE, &["\n", "a/b"], "msthost: line 2: BadLine\n"),
    (&TREE, &["\n\r\n\n", "a/b"], "msthost: line 4: BadLine\n"),
    (&TREE, &["a/b ", "E", "\n\r"], "msthost: line 2: BadLine\n"),
    (&TREE, &["\r\r\n"], "msthost: line 1: BadLine\n"),
    (&TREE, &["a/b ", "E", "\r"], "msthost: line 1: BadCid\n"),
    (&TREE, &["a/b ", "E", " "], "msthost: line 1: BadCid\n"),
    (
        &TREE,
        &["a/b ", "E", "\nx\n", " y"],
        "msthost: line 2: BadLine\n",
    ),
    (CAR, &["x"], "msthost: BadRev\n"),
    (CAR_OF_NOBODY, &["x"], "msthost: BadDid\n"),
    (SIGNED_BY_LETTERS, &["x"], "msthost: BadSig\n"),
    (SIGNED_BY_NOTHING, &["x"], "msthost: BadSig\n"),
    (SIGNED_OF_NOBODY, &["x"], "msthost: BadDid\n"),
    (SIGNED, &["\n"], "msthost: NothingToSign\n"),
    (SIGNED, &["a/b"], "msthost: line 1: BadLine\n"),
    (&["msthost", "prove", ""], &["x"], "msthost: KeyLength\n"),
];

#[test]
fn faults(rt: HostRuntime) {
    for (words, parts, told) in &FAULTS {
        assert!(rt;
            are_refused(&rt, rt.alloc(), words, parts, told),
            "at {words:?} of {parts:?}"
        );
    }
}

/// Texts that are no DIDs.
static NO_DIDS: [&str; 4] = ["", "did:web:", "did:Web:a", "localhost"];

/// Whether a command refuses a DID.
fn is_no_did<T: Threads + Wait + RandomSource + Sync>(
    rt: &T,
    alloc: Global,
    command: &str,
    did: &str,
) -> bool {
    let words = ["msthost", command, "--did", did];
    are_refused(rt, alloc, &words, &["x"], "msthost: BadDid\n")
}

#[test]
fn faulty_dids(rt: HostRuntime) {
    for did in &NO_DIDS {
        assert!(rt; is_no_did(&rt, rt.alloc(), "car", did), "car of {did:?}");
        assert!(rt; is_no_did(&rt, rt.alloc(), "run", did), "run of {did:?}");
    }
}

/// Texts that are no roots, and why.
static NO_ROOTS: [(&str, &str); 7] = [
    ("", "msthost: BadLength\n"),
    ("b", "msthost: BadLength\n"),
    (
        "bafyreie5737gdxlw5i64vzichcalba3z2v5n6icifvx5xytvske7mr3hp",
        "msthost: BadLength\n",
    ),
    (
        "zafyreie5737gdxlw5i64vzichcalba3z2v5n6icifvx5xytvske7mr3hpm",
        "msthost: BadPrefix\n",
    ),
    (
        "b1fyreie5737gdxlw5i64vzichcalba3z2v5n6icifvx5xytvske7mr3hpm",
        "msthost: BadLetter\n",
    ),
    (
        "bafyreie5737gdxlw5i64vzichcalba3z2v5n6icifvx5xytvske7mr3hpn",
        "msthost: BadBits\n",
    ),
    (
        "bajyreie5737gdxlw5i64vzichcalba3z2v5n6icifvx5xytvske7mr3hpm",
        "msthost: NotThisProfile\n",
    ),
];

/// Whether blocks prove nothing of a key under this root, and this is told.
fn shows_nothing<T: Threads + Wait + RandomSource + Sync>(
    rt: &T,
    alloc: Global,
    root: &str,
    key: &str,
    parts: &[&str],
    told: &str,
) -> bool {
    are_refused(rt, alloc, &["msthost", "verify", root, key], parts, told)
}

#[test]
fn faulty_roots(rt: HostRuntime) {
    for (root, told) in &NO_ROOTS {
        let of_no_key = shows_nothing(&rt, rt.alloc(), root, "", &["x"], told);
        let of_a_key = shows_nothing(&rt, rt.alloc(), root, "a/b", &["x"], told);
        assert!(rt; of_no_key && of_a_key, "at {root:?}");
    }
}

/// Roots, keys, and blocks that show nothing.
static PROOFS: [(&str, &str, &[&str], &str); 10] = [
    (EMPTY, "", &["x"], "msthost: KeyLength\n"),
    (EMPTY, "a/b", &["x"], "msthost: line 1: BadLine\n"),
    (EMPTY, "a/b", &["\na0\na0 a0"], "msthost: line 3: BadLine\n"),
    (EMPTY, "a/b", &[], "msthost: BlockMissing\n"),
    (EMPTY, "a/b", &["a2"], "msthost: BlockMissing\n"),
    (ROOT, "a/b", &["a2616580616cf6"], "msthost: BlockMissing\n"),
    (RECORD, "a/b", &["a0"], "msthost: BadNode(NotNode)\n"),
    (
        BAD_PREFIX,
        "a/b",
        &["a2616582", ENTRY, "a4616b432f6364617001", END],
        "msthost: BadNode(BadPrefix)\n",
    ),
    (
        KEY_ORDER,
        "a/b",
        &["a2616582", ENTRY, "a4616b4161617002", END],
        "msthost: BadNode(KeyOrder)\n",
    ),
    (
        KEY_LENGTH,
        "a/b",
        &["a2616581a4616b40617000", END],
        "msthost: BadNode(KeyLength)\n",
    ),
];

#[test]
fn proofs_that_show_nothing(rt: HostRuntime) {
    for (root, key, parts, told) in &PROOFS {
        assert!(rt;
            shows_nothing(&rt, rt.alloc(), root, key, parts, told),
            "at {told}"
        );
    }
}

/// Inputs of `car` and `prove` with a faulty line, and what is told of them.
static PUTS: [(&str, &str); 15] = [
    ("a/b", "msthost: line 1: BadLine\n"),
    ("a/b ", "msthost: line 1: BadLine\n"),
    (" a0", "msthost: line 1: BadLine\n"),
    ("a/b a0 a0", "msthost: line 1: BadLine\n"),
    ("a/b  a0", "msthost: line 1: BadLine\n"),
    ("a/b a", "msthost: line 1: BadLine\n"),
    ("a/b xy", "msthost: line 1: BadLine\n"),
    ("\na/b a0\r\nx", "msthost: line 3: BadLine\n"),
    ("a a0", "msthost: line 1: BadKey\n"),
    ("a/b 80", "msthost: line 1: NotAMap\n"),
    ("a/b b800", "msthost: line 1: BadRecord(LongHead)\n"),
    (
        "a/b a0\n\na/c a161\na/d 80",
        "msthost: line 3: BadRecord(Truncated)\n",
    ),
    ("a/b 80\nx", "msthost: line 1: NotAMap\n"),
    ("x\na/b 80", "msthost: line 1: BadLine\n"),
    ("a/b a0\nx\na/b 80", "msthost: line 2: BadLine\n"),
];

#[test]
fn faulty_puts(rt: HostRuntime) {
    let prove = ["msthost", "prove", "a/b"];
    for (input, told) in &PUTS {
        let in_car = are_refused(&rt, rt.alloc(), &["msthost", "car"], &[*input], told);
        let in_proof = are_refused(&rt, rt.alloc(), &prove, &[*input], told);
        assert!(rt; in_car && in_proof, "at {input:?}");
    }
}

/// What is told of a script whose line of this number is faulty.
const FIRST: &str = "msthost: line 1: BadScript\n";

const THIRD: &str = "msthost: line 3: BadScript\n";

/// Scripts with a faulty line, and what is told of them.
static SCRIPTS: [(&str, &str); 27] = [
    ("0 0 put a/b", FIRST),
    ("1 0 get a/b", FIRST),
    ("0 0 2222222222222 get a/b", FIRST),
    ("0 0 get a/b\n\nx\n0", THIRD),
    ("0", FIRST),
    ("0 0", FIRST),
    ("0 0 get", FIRST),
    ("0 0 look a/b", FIRST),
    (" 0 0 get a/b", FIRST),
    ("0  0 get a/b", FIRST),
    ("0 0 get a/b ", FIRST),
    ("0 0 get ", FIRST),
    ("0 0\tget a/b", FIRST),
    ("-0 0 get a/b", FIRST),
    ("+0 0 get a/b", FIRST),
    ("0 4294967296 get a/b", FIRST),
    ("0 18446744073709551616 get a/b", FIRST),
    ("0 0 2222222222222 put a/b", FIRST),
    ("0 0 2222222222222 put a/b a", FIRST),
    ("0 0 2222222222222 put a/b a0 a0", FIRST),
    ("0 0 2222222222222 put a/b g0", FIRST),
    ("0 0 2222222222222 delete a/b a0", FIRST),
    ("0 0 2222222222222 Delete a/b", FIRST),
    ("0 0 2222222222222 delete a/b ;", FIRST),
    ("0 0 2222222222222 ; delete a/b", FIRST),
    ("0 0 2222222222222 delete a/b ; ; delete a/b", FIRST),
    ("0 0 2222222222222 delete a/b; delete a/b", FIRST),
];

#[test]
fn faulty_scripts(rt: HostRuntime) {
    for (script, told) in &SCRIPTS {
        assert!(rt;
            are_refused(&rt, rt.alloc(), &["msthost", "run"], &[*script], told),
            "at {script:?}"
        );
    }
}

/// Commands, and what is told where line 1,000 is the first that isn't empty, and faulty.
static THOUSANDTH: [(&[&str], &str); 5] = [
    (&TREE, "msthost: line 1000: BadLine\n"),
    (&["msthost", "car"], "msthost: line 1000: BadLine\n"),
    (
        &["msthost", "prove", "a/b"],
        "msthost: line 1000: BadLine\n",
    ),
    (
        &["msthost", "verify", EMPTY, "a/b"],
        "msthost: line 1000: BadLine\n",
    ),
    (&["msthost", "run"], "msthost: line 1000: BadScript\n"),
];

/// Whether a command tells this of a faulty line after these empty ones.
fn tells_after<T: Threads + Wait + RandomSource + Sync>(
    rt: &T,
    alloc: Global,
    words: &[&str],
    empty: &[u8],
    told: &str,
) -> bool {
    match str::from_utf8(empty) {
        Ok(empty) => are_refused(rt, alloc, words, &[empty, "x"], told),
        Err(_) => false,
    }
}

#[test]
fn a_thousandth_line(rt: HostRuntime) {
    for (words, told) in &THOUSANDTH {
        assert!(rt;
            tells_after(&rt, rt.alloc(), words, &[b'\n'; 999], told),
            "at {words:?}"
        );
    }
}

/// Texts that are no CID: nothing; too short; too long; another multibase; no letter of base32; a capital; bits after the
/// last byte; another version; another codec; another hash; another length of it.
static NO_CIDS: [&str; 11] = [
    "",
    "bafyreie5737gdxlw5i64vzichcalba3z2v5n6icifvx5xytvske7mr3hp",
    "bafyreie5737gdxlw5i64vzichcalba3z2v5n6icifvx5xytvske7mr3hpmm",
    "zafyreie5737gdxlw5i64vzichcalba3z2v5n6icifvx5xytvske7mr3hpm",
    "b1fyreie5737gdxlw5i64vzichcalba3z2v5n6icifvx5xytvske7mr3hpm",
    "bAfyreie5737gdxlw5i64vzichcalba3z2v5n6icifvx5xytvske7mr3hpm",
    "bafyreie5737gdxlw5i64vzichcalba3z2v5n6icifvx5xytvske7mr3hpn",
    "bajyreie5737gdxlw5i64vzichcalba3z2v5n6icifvx5xytvske7mr3hpm",
    "bafkreie5737gdxlw5i64vzichcalba3z2v5n6icifvx5xytvske7mr3hpm",
    "bafyrgie5737gdxlw5i64vzichcalba3z2v5n6icifvx5xytvske7mr3hpm",
    "bafyreim5737gdxlw5i64vzichcalba3z2v5n6icifvx5xytvske7mr3hpm",
];

/// Whether such a text is refused on the first line, which has an end, and on the second, which has none.
fn is_no_cid<T: Threads + Wait + RandomSource + Sync>(rt: &T, alloc: Global, text: &str) -> bool {
    let first = ["a/b ", text, "\n"];
    let second = ["\r\n", "a/b ", text];
    are_refused(rt, alloc, &TREE, &first, "msthost: line 1: BadCid\n")
        && are_refused(rt, alloc, &TREE, &second, "msthost: line 2: BadCid\n")
}

#[test]
fn faulty_cids(rt: HostRuntime) {
    for text in &NO_CIDS {
        assert!(rt; is_no_cid(&rt, rt.alloc(), text), "at {text:?}");
    }
}

/// Whether this key has the greatest length there is: a tree of it has this root.
fn is_longest<T: Threads + Wait + RandomSource + Sync>(rt: &T, alloc: Global, key: &[u8]) -> bool {
    let root = "bafyreig37hu6jop2zw2hyng2t7crys3wo7c2cro6hmyvtygf5foi2v3xni";
    match str::from_utf8(key) {
        Ok(key) => lists(rt, alloc, &TREE, &[key, " ", "E"], root),
        Err(_) => false,
    }
}

/// Whether this key is too long, be the rest of its line right or not.
fn is_too_long<T: Threads + Wait + RandomSource + Sync>(rt: &T, alloc: Global, key: &[u8]) -> bool {
    let told = "msthost: line 1: BadKey\n";
    match str::from_utf8(key) {
        Ok(key) => {
            are_refused(rt, alloc, &TREE, &[key, " ", "E"], told)
                && are_refused(rt, alloc, &TREE, &[key, " x", "\na"], told)
        }
        Err(_) => false,
    }
}

#[test]
fn the_longest_key(rt: HostRuntime) {
    assert!(rt; is_longest(&rt, rt.alloc(), &[b'k'; 1024]));
}

#[test]
fn keys_that_are_longer(rt: HostRuntime) {
    assert!(rt; is_too_long(&rt, rt.alloc(), &[b'k'; 1025]));
}

#[test]
fn nodes_that_clash(rt: HostRuntime) {
    let input = joined(rt.alloc(), &THREE_KEYS).expect(&rt, "a listing");
    let ended = run_with::<Size, _>(&rt, rt.alloc(), &TREE, &input);
    assert!(rt; ended.is(1, b"", "msthost: Clash\n"));
}
