//! `prove-change` and `verify-change`, by their values, forward. Roots, nodes and CIDs come from a program in another language.
use crate::running::{EMPTY, ends};
use std::alloc::Global;
use std::random::RandomSource;
use std::sync::Wait;
use std::thread::Threads;

const PROVE: &[&str] = &["msthost", "prove-change"];

/// Verifying changes between the empty tree and that of one key.
const PUTTING: &[&str] = &["msthost", "verify-change", EMPTY, ROOT];

const DELETING: &[&str] = &["msthost", "verify-change", ROOT, EMPTY];

const EMPTY_STAYS: &[&str] = &["msthost", "verify-change", EMPTY, EMPTY];

const KEY_STAYS: &[&str] = &["msthost", "verify-change", ROOT, ROOT];

/// The text of the root's CID of the tree of the key `a/b` with the record `a0`, its one node, and the CID of the record.
pub(crate) const ROOT: &str = "bafyreihkkefvij2yxd6vkifr7342uvsineepfcevg2pduv3e4idaxosycu";

pub(crate) const NODE: &str =
    "a2616581a4616b43612f626170006174f66176d82a58250001711220c19a797fa1fd590cd2e5b42d1cf5f246e29b91684e2f87404b81dc345c7a56a0616cf6";

pub(crate) const RECORD: &str = "bafyreigbtj4x7ip5legnfznufuopl4sg4knzc2cof6duas4b3q2fy6swua";

/// The node of the empty tree.
pub(crate) const EMPTY_NODE: &str = "a2616580616cf6";

/// The text of the change from the empty tree, of that back to it, and of none: with the node before.
const PUT: &str = "\
bafyreie5737gdxlw5i64vzichcalba3z2v5n6icifvx5xytvske7mr3hpm
bafyreihkkefvij2yxd6vkifr7342uvsineepfcevg2pduv3e4idaxosycu
change a/b - bafyreigbtj4x7ip5legnfznufuopl4sg4knzc2cof6duas4b3q2fy6swua
a2616580616cf6
";

const DELETE: &str = "\
bafyreihkkefvij2yxd6vkifr7342uvsineepfcevg2pduv3e4idaxosycu
bafyreie5737gdxlw5i64vzichcalba3z2v5n6icifvx5xytvske7mr3hpm
change a/b bafyreigbtj4x7ip5legnfznufuopl4sg4knzc2cof6duas4b3q2fy6swua -
a2616581a4616b43612f626170006174f66176d82a58250001711220c19a797fa1fd590cd2e5b42d1cf5f246e29b91684e2f87404b81dc345c7a56a0616cf6
";

pub(crate) const NOTHING: &str = "\
bafyreie5737gdxlw5i64vzichcalba3z2v5n6icifvx5xytvske7mr3hpm
bafyreie5737gdxlw5i64vzichcalba3z2v5n6icifvx5xytvske7mr3hpm
a2616580616cf6
";

/// A key that is put again with the record that it has, and one that comes and goes.
pub(crate) const SAME: &str = "\
bafyreihkkefvij2yxd6vkifr7342uvsineepfcevg2pduv3e4idaxosycu
bafyreihkkefvij2yxd6vkifr7342uvsineepfcevg2pduv3e4idaxosycu
change a/b bafyreigbtj4x7ip5legnfznufuopl4sg4knzc2cof6duas4b3q2fy6swua bafyreigbtj4x7ip5legnfznufuopl4sg4knzc2cof6duas4b3q2fy6swua
change a/c - -
a2616581a4616b43612f626170006174f66176d82a58250001711220c19a797fa1fd590cd2e5b42d1cf5f246e29b91684e2f87404b81dc345c7a56a0616cf6
";

/// Command lines, inputs, and what they write.
static WRITTEN: [(&[&str], &[&str], &str); 13] = [
    (PROVE, &[""], NOTHING),
    (PROVE, &["\n\n\n"], NOTHING),
    (PROVE, &["\nput a/b a0"], PUT),
    (PROVE, &["\ncreate a/b a0"], PUT),
    (PROVE, &["\r\n\r\nput a/b A0\r\n"], PUT),
    (PROVE, &["a/b a0\n\ndelete a/b\n"], DELETE),
    (
        PROVE,
        &["a/b a0\n\nput a/c a0\nput a/b a0\n\ndelete a/c\n"],
        SAME,
    ),
    (
        PROVE,
        &["a/b a0\n\ncreate a/c a0\nupdate a/b A0\nupdate a/c a0\ndelete a/c"],
        SAME,
    ),
    (PUTTING, &[PUT], "shown\n"),
    (DELETING, &[DELETE], "shown\n"),
    (EMPTY_STAYS, &[NOTHING], "shown\n"),
    (KEY_STAYS, &["\n", SAME, "\n", EMPTY_NODE], "shown\n"),
    (
        EMPTY_STAYS,
        &["E", "\n", "E", "\r\n", EMPTY_NODE],
        "shown\n",
    ),
];

/// Inputs that `prove-change` refuses, and what is told of them.
static UNPROVED: [(&str, &str); 20] = [
    ("a/b", "msthost: line 1: BadLine\n"),
    ("put a/b a0", "msthost: line 1: BadLine\n"),
    ("a/b a0\n\na/c a0", "msthost: line 3: BadLine\n"),
    ("\nput a/b", "msthost: line 2: BadLine\n"),
    ("\nput a/b a0 a0", "msthost: line 2: BadLine\n"),
    ("\ncreate a/b", "msthost: line 2: BadLine\n"),
    ("\nupdate a/b a", "msthost: line 2: BadLine\n"),
    ("\nupdate  a0", "msthost: line 2: BadLine\n"),
    ("\nCreate a/b a0", "msthost: line 2: BadLine\n"),
    ("\ndelete a/b a0", "msthost: line 2: BadLine\n"),
    ("\ndelete ", "msthost: line 2: BadLine\n"),
    ("\ndelete", "msthost: line 2: BadLine\n"),
    ("a a0\n\nput a/b", "msthost: line 1: BadKey\n"),
    ("\nput a a0", "msthost: line 2: BadKey\n"),
    ("\nput a/b 80\nx", "msthost: line 2: NotAMap\n"),
    ("a/b a0\n\ncreate a/b a0", "msthost: line 3: KeyExists\n"),
    (
        "\ncreate a/b a0\n\ncreate a/b a0",
        "msthost: line 4: KeyExists\n",
    ),
    ("\nupdate a/b a0", "msthost: line 2: NoSuchKey\n"),
    (
        "a/b a0\n\ndelete a/b\n\nupdate a/b a0",
        "msthost: line 5: NoSuchKey\n",
    ),
    (
        "a/b a0\n\ndelete a/b\n\ndelete a/b",
        "msthost: line 5: NoSuchKey\n",
    ),
];

/// Command lines, inputs that `verify-change` refuses, and what is told of them.
static UNSHOWN: [(&[&str], &[&str], &str); 22] = [
    (EMPTY_STAYS, &[""], "msthost: line 1: BadLine\n"),
    (EMPTY_STAYS, &["E", "\n"], "msthost: line 2: BadLine\n"),
    (EMPTY_STAYS, &["E", "\nx\n"], "msthost: line 2: BadLine\n"),
    (
        EMPTY_STAYS,
        &["E", "\n", "E", "\nx"],
        "msthost: line 3: BadLine\n",
    ),
    (
        EMPTY_STAYS,
        &["E", "\n", "E", "\nchange a - -\nchange a - -"],
        "msthost: line 4: BadLine\n",
    ),
    (
        EMPTY_STAYS,
        &["E", "\n", "E", "\n", EMPTY_NODE, "\nchange a - -"],
        "msthost: line 4: BadLine\n",
    ),
    (
        EMPTY_STAYS,
        &["E", "\n", "E", "\nchange a - - -"],
        "msthost: line 3: BadLine\n",
    ),
    // The roots of a text are compared, and not believed: behind its lines, and before its changes.
    (PUTTING, &[NOTHING], "msthost: OtherAfter\n"),
    (PUTTING, &[SAME], "msthost: OtherBefore\n"),
    (PUTTING, &[DELETE], "msthost: OtherBefore\n"),
    (KEY_STAYS, &[NOTHING], "msthost: OtherBefore\n"),
    (DELETING, &["E", "\nx"], "msthost: line 2: BadLine\n"),
    (
        DELETING,
        &[ROOT, "\n", ROOT, "\n", NODE],
        "msthost: OtherAfter\n",
    ),
    (
        EMPTY_STAYS,
        &["E", "\n", "E"],
        "msthost: BlockMissing(bafyreie5737gdxlw5i64vzichcalba3z2v5n6icifvx5xytvske7mr3hpm)\n",
    ),
    (
        PUTTING,
        &["E", "\n", ROOT, "\n", EMPTY_NODE],
        "msthost: OtherRoot\n",
    ),
    // The value after a change is in no tree that is read: done, another root comes out.
    (
        PUTTING,
        &["E", "\n", ROOT, "\nchange a/b - ", "E", "\n", EMPTY_NODE],
        "msthost: OtherRoot\n",
    ),
    (
        PUTTING,
        &[
            "E",
            "\n",
            ROOT,
            "\nchange a/b ",
            "E",
            " ",
            RECORD,
            "\n",
            EMPTY_NODE,
        ],
        "msthost: line 3: OtherValue\n",
    ),
    // The nodes of the tree after are not those that are asked for.
    (
        PUTTING,
        &["E", "\n", ROOT, "\nchange a/b - ", RECORD, "\n", NODE],
        "msthost: BlockMissing(bafyreie5737gdxlw5i64vzichcalba3z2v5n6icifvx5xytvske7mr3hpm)\n",
    ),
    (
        DELETING,
        &[ROOT, "\n", "E", "\nchange a/b ", RECORD, " -\n", EMPTY_NODE],
        "msthost: BlockMissing(bafyreihkkefvij2yxd6vkifr7342uvsineepfcevg2pduv3e4idaxosycu)\n",
    ),
    (
        &["msthost", "verify-change", RECORD, EMPTY],
        &[RECORD, "\n", "E", "\na0"],
        "msthost: BadNode(bafyreigbtj4x7ip5legnfznufuopl4sg4knzc2cof6duas4b3q2fy6swua)\n",
    ),
    (
        &["msthost", "verify-change", "x", "y"],
        &["E", "\nx"],
        "msthost: BadBefore(BadLength)\n",
    ),
    (
        &["msthost", "verify-change", EMPTY, "bafk"],
        &["E", "\nx"],
        "msthost: BadAfter(BadLength)\n",
    ),
];

/// Whether a command on these texts writes this.
pub(crate) fn writes<T: Threads + Wait + RandomSource + Sync>(
    rt: &T,
    alloc: Global,
    words: &[&str],
    parts: &[&str],
    wanted: &str,
) -> bool {
    ends(rt, alloc, words, parts, 0, wanted.as_bytes(), "")
}

#[test]
fn changes_are_written_and_shown(rt: HostRuntime) {
    for (words, parts, wanted) in &WRITTEN {
        assert!(rt; writes(&rt, rt.alloc(), words, parts, wanted), "{parts:?}");
    }
}

#[test]
fn batches_that_are_refused_are_told(rt: HostRuntime) {
    for (input, told) in &UNPROVED {
        assert!(rt;
            ends(&rt, rt.alloc(), PROVE, &[*input], 1, b"", told),
            "{input}"
        );
    }
}

#[test]
fn what_is_not_shown_is_told(rt: HostRuntime) {
    for (words, parts, told) in &UNSHOWN {
        assert!(rt;
            ends(&rt, rt.alloc(), words, parts, 1, b"", told),
            "{parts:?}"
        );
    }
}
