//! `prove-change --inversion` and `verify-change --inversion`, by their values. Roots, nodes and CIDs come from a program in
//! another language.
use crate::changes::{EMPTY_NODE, NODE, NOTHING, RECORD, ROOT, SAME, writes};
use crate::running::{EMPTY, ends};

const PROVE: &[&str] = &["msthost", "prove-change", "--inversion"];

/// Verifying changes between the empty tree and that of one key.
const PUTTING: &[&str] = &["msthost", "verify-change", "--inversion", EMPTY, ROOT];

const DELETING: &[&str] = &["msthost", "verify-change", ROOT, EMPTY, "--inversion"];

const EMPTY_STAYS: &[&str] = &["msthost", "verify-change", "--inversion", EMPTY, EMPTY];

const KEY_STAYS: &[&str] = &["msthost", "verify-change", "--inversion", ROOT, ROOT];

/// The text of the change from the empty tree, and of that back to it: with the node after.
const PUT: &str = "\
bafyreie5737gdxlw5i64vzichcalba3z2v5n6icifvx5xytvske7mr3hpm
bafyreihkkefvij2yxd6vkifr7342uvsineepfcevg2pduv3e4idaxosycu
change a/b - bafyreigbtj4x7ip5legnfznufuopl4sg4knzc2cof6duas4b3q2fy6swua
a2616581a4616b43612f626170006174f66176d82a58250001711220c19a797fa1fd590cd2e5b42d1cf5f246e29b91684e2f87404b81dc345c7a56a0616cf6
";

const DELETE: &str = "\
bafyreihkkefvij2yxd6vkifr7342uvsineepfcevg2pduv3e4idaxosycu
bafyreie5737gdxlw5i64vzichcalba3z2v5n6icifvx5xytvske7mr3hpm
change a/b bafyreigbtj4x7ip5legnfznufuopl4sg4knzc2cof6duas4b3q2fy6swua -
a2616580616cf6
";

/// Command lines, inputs, and what they write.
static WRITTEN: [(&[&str], &[&str], &str); 12] = [
    (PROVE, &[""], NOTHING),
    (PROVE, &["\n\n\n"], NOTHING),
    (PROVE, &["\nput a/b a0"], PUT),
    (PROVE, &["\r\n\r\nput a/b A0\r\n"], PUT),
    (PROVE, &["a/b a0\n\ndelete a/b\n"], DELETE),
    (
        PROVE,
        &["a/b a0\n\nput a/c a0\nput a/b a0\n\ndelete a/c\n"],
        SAME,
    ),
    (
        &["msthost", "prove-change", "--json", "--inversion"],
        &["\nput a/b {}"],
        PUT,
    ),
    (PUTTING, &[PUT], "shown\n"),
    (DELETING, &[DELETE], "shown\n"),
    (EMPTY_STAYS, &[NOTHING], "shown\n"),
    (KEY_STAYS, &["\n", SAME, "\n", EMPTY_NODE], "shown\n"),
    (
        EMPTY_STAYS,
        &["E", "\n", "E", "\r\n", EMPTY_NODE],
        "shown\n",
    ),
];

/// Command lines, inputs that are refused, and what is told of them.
static UNSHOWN: [(&[&str], &[&str], &str); 11] = [
    (PROVE, &["\nput a a0"], "msthost: line 2: BadKey\n"),
    (EMPTY_STAYS, &[""], "msthost: line 1: BadLine\n"),
    (PUTTING, &[NOTHING], "msthost: OtherAfter\n"),
    (PUTTING, &[DELETE], "msthost: OtherBefore\n"),
    (
        EMPTY_STAYS,
        &["E", "\n", "E"],
        "msthost: BlockMissing(bafyreie5737gdxlw5i64vzichcalba3z2v5n6icifvx5xytvske7mr3hpm)\n",
    ),
    (
        PUTTING,
        &["E", "\n", ROOT, "\n", NODE],
        "msthost: OtherRoot\n",
    ),
    // The value before a change is in no tree that is read: undone, another root comes out.
    (
        PUTTING,
        &[
            "E",
            "\n",
            ROOT,
            "\nchange a/b ",
            "E",
            " ",
            RECORD,
            "\n",
            NODE,
        ],
        "msthost: OtherRoot\n",
    ),
    (
        PUTTING,
        &["E", "\n", ROOT, "\nchange a/b - ", "E", "\n", NODE],
        "msthost: line 3: OtherValue\n",
    ),
    // The nodes of the tree before are not those that are asked for.
    (
        PUTTING,
        &["E", "\n", ROOT, "\nchange a/b - ", RECORD, "\n", EMPTY_NODE],
        "msthost: BlockMissing(bafyreihkkefvij2yxd6vkifr7342uvsineepfcevg2pduv3e4idaxosycu)\n",
    ),
    (
        &["msthost", "verify-change", "--inversion", EMPTY, RECORD],
        &["E", "\n", RECORD, "\na0"],
        "msthost: BadNode(bafyreigbtj4x7ip5legnfznufuopl4sg4knzc2cof6duas4b3q2fy6swua)\n",
    ),
    (
        &["msthost", "verify-change", "--inversion", "x", "y"],
        &["E", "\nx"],
        "msthost: BadBefore(BadLength)\n",
    ),
];

#[test]
fn inversions_are_written_and_shown(rt: HostRuntime) {
    for (words, parts, wanted) in &WRITTEN {
        assert!(rt; writes(&rt, rt.alloc(), words, parts, wanted), "{parts:?}");
    }
}

#[test]
fn inversions_that_are_not_shown_are_told(rt: HostRuntime) {
    for (words, parts, told) in &UNSHOWN {
        assert!(rt;
            ends(&rt, rt.alloc(), words, parts, 1, b"", told),
            "{parts:?}"
        );
    }
}
