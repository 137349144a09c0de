//! What commands write, by its values. Roots, nodes and CIDs come from a program in another language.
use crate::running::{EMPTY, TREE, ends, joined};
use std::alloc::Global;
use std::random::RandomSource;
use std::sync::Wait;
use std::thread::Threads;

/// The text of the root's CID of the tree of the key `a/b` with the record `a0`.
const ROOT: &str = "bafyreihkkefvij2yxd6vkifr7342uvsineepfcevg2pduv3e4idaxosycu";

/// Its one node.
const NODE: &str =
    "a2616581a4616b43612f626170006174f66176d82a58250001711220c19a797fa1fd590cd2e5b42d1cf5f246e29b91684e2f87404b81dc345c7a56a0616cf6";

/// The text of the CID of the record `a0`.
const RECORD: &str = "bafyreigbtj4x7ip5legnfznufuopl4sg4knzc2cof6duas4b3q2fy6swua";

/// The text of the root's CID of the tree of the key `a/b` with the CID `E`, its node, and what `tree` writes of it.
const OTHER_ROOT: &str = "bafyreifuhkx5lbdj4wnqqsagcm57l5xtrofgmpdykv332q7b5hyqccjeoi";

const OTHER_NODE: &str =
    "a2616581a4616b43612f626170006174f66176d82a582500017112209dfefe61dd76ea3dcae5023880b08379d57adf20482d6fdbe2759289f647677b616cf6";

const ONE_LINE: &[&str] = &[OTHER_ROOT, "\n", OTHER_ROOT, " ", OTHER_NODE, "\n"];

/// `run` with two repositories, with a worker more, and with a queue that keeps all notices but one with their writers.
const RUN: &[&str] = &["msthost", "run"];

const TWO: &[&str] = &["msthost", "run", "--repos", "2"];

const BOTH: &[&str] = &["msthost", "run", "--repos", "2", "--workers", "2"];

const RUN_NARROW: &[&str] = &["msthost", "run", "--queue", "1"];

const BOTH_NARROW: &[&str] = &[
    "msthost",
    "run",
    "--queue",
    "1",
    "--workers",
    "2",
    "--repos",
    "2",
];

const OF_ANOTHER: &[&str] = &["msthost", "run", "--did", "did:plc:x"];

/// The report of one put under another DID than the program's own, which the commit names.
const REPORT_OF_ANOTHER: &str = "\
1 ok 1
repo 0 bafyreihkkefvij2yxd6vkifr7342uvsineepfcevg2pduv3e4idaxosycu 1 bafyreibrf6xo6mhi4kcjgoylrginhca5yf5dmj2mwmf5vre66xeevxi3m4
block bafyreibrf6xo6mhi4kcjgoylrginhca5yf5dmj2mwmf5vre66xeevxi3m4 1
block bafyreigbtj4x7ip5legnfznufuopl4sg4knzc2cof6duas4b3q2fy6swua 1
block bafyreihkkefvij2yxd6vkifr7342uvsineepfcevg2pduv3e4idaxosycu 1
notice 0 1 0 1 bafyreihkkefvij2yxd6vkifr7342uvsineepfcevg2pduv3e4idaxosycu
";

/// The lines of one repository without writes.
const UNWRITTEN: &str = "\
repo 0 bafyreie5737gdxlw5i64vzichcalba3z2v5n6icifvx5xytvske7mr3hpm 0 none
block bafyreie5737gdxlw5i64vzichcalba3z2v5n6icifvx5xytvske7mr3hpm 1
";

const NOTHING: &str = "\
repo 0 bafyreie5737gdxlw5i64vzichcalba3z2v5n6icifvx5xytvske7mr3hpm 0 none
repo 1 bafyreie5737gdxlw5i64vzichcalba3z2v5n6icifvx5xytvske7mr3hpm 0 none
block bafyreie5737gdxlw5i64vzichcalba3z2v5n6icifvx5xytvske7mr3hpm 2
";

const LOOK: &str = "\
1 none
repo 0 bafyreie5737gdxlw5i64vzichcalba3z2v5n6icifvx5xytvske7mr3hpm 0 none
block bafyreie5737gdxlw5i64vzichcalba3z2v5n6icifvx5xytvske7mr3hpm 1
";

const FIVE_LINES: &str = "\
0 0 2222222222222 put a/b a2616580616cf6
0 0 get a/b
0 0 2222222222223 create a/b a0
0 0 2222222222222 delete a/b
0 0 2222222222223 delete a/b
";

const REPORT_OF_FIVE_LINES: &str = "\
1 ok 1
2 found a2616580616cf6
3 refused 0 KeyExists
4 refused 0 RevOrder
5 ok 2
repo 0 bafyreie5737gdxlw5i64vzichcalba3z2v5n6icifvx5xytvske7mr3hpm 2 bafyreigxyt2dtf4ytdzdwjl2j5dhvu6ip3ieg5aimn44eg6bbirlaur7dm
block bafyreie5737gdxlw5i64vzichcalba3z2v5n6icifvx5xytvske7mr3hpm 1
block bafyreigxyt2dtf4ytdzdwjl2j5dhvu6ip3ieg5aimn44eg6bbirlaur7dm 1
notice 0 1 0 1 bafyreifuhkx5lbdj4wnqqsagcm57l5xtrofgmpdykv332q7b5hyqccjeoi
notice 0 2 0 2 bafyreie5737gdxlw5i64vzichcalba3z2v5n6icifvx5xytvske7mr3hpm
";

/// Two workers in a repository each: the first line is passed over, and the blocks are shared.
const TWO_WORKERS: &str = "
0 0 2222222222222 put a/b A2616580616CF6
1 1 2222222222222 put a/b a2616580616cf6
0 0 2222222222223 put a/c a0 ; delete a/c ; delete a/c
1 1 get a/c";

const REPORT_OF_TWO_WORKERS: &str = "\
2 ok 1
3 ok 1
4 refused 2 NoSuchKey
5 none
repo 0 bafyreifuhkx5lbdj4wnqqsagcm57l5xtrofgmpdykv332q7b5hyqccjeoi 1 bafyreieoszhvb63b7njhzalzsvcjbhmgtm6vva3vf5ramg3xuq4nfggrjq
repo 1 bafyreifuhkx5lbdj4wnqqsagcm57l5xtrofgmpdykv332q7b5hyqccjeoi 1 bafyreieoszhvb63b7njhzalzsvcjbhmgtm6vva3vf5ramg3xuq4nfggrjq
block bafyreieoszhvb63b7njhzalzsvcjbhmgtm6vva3vf5ramg3xuq4nfggrjq 2
block bafyreie5737gdxlw5i64vzichcalba3z2v5n6icifvx5xytvske7mr3hpm 2
block bafyreifuhkx5lbdj4wnqqsagcm57l5xtrofgmpdykv332q7b5hyqccjeoi 2
notice 0 1 0 1 bafyreifuhkx5lbdj4wnqqsagcm57l5xtrofgmpdykv332q7b5hyqccjeoi
notice 1 1 1 1 bafyreifuhkx5lbdj4wnqqsagcm57l5xtrofgmpdykv332q7b5hyqccjeoi
";

/// The script of README.md and of `examples`, and its report.
const EXAMPLE: &str = "\
0 0 2222222222222 put a/b a0
1 1 2222222222222 put a/b a0
0 0 get a/b
1 1 get a/c
";

const REPORT_OF_EXAMPLE: &str = "\
1 ok 1
2 ok 1
3 found a0
4 none
repo 0 bafyreihkkefvij2yxd6vkifr7342uvsineepfcevg2pduv3e4idaxosycu 1 bafyreiarvyntpric5hmovivxpmdrezv3mmsqwwfoekmkzas7t66ssxf4gm
repo 1 bafyreihkkefvij2yxd6vkifr7342uvsineepfcevg2pduv3e4idaxosycu 1 bafyreiarvyntpric5hmovivxpmdrezv3mmsqwwfoekmkzas7t66ssxf4gm
block bafyreiarvyntpric5hmovivxpmdrezv3mmsqwwfoekmkzas7t66ssxf4gm 2
block bafyreigbtj4x7ip5legnfznufuopl4sg4knzc2cof6duas4b3q2fy6swua 2
block bafyreihkkefvij2yxd6vkifr7342uvsineepfcevg2pduv3e4idaxosycu 2
notice 0 1 0 1 bafyreihkkefvij2yxd6vkifr7342uvsineepfcevg2pduv3e4idaxosycu
notice 1 1 1 1 bafyreihkkefvij2yxd6vkifr7342uvsineepfcevg2pduv3e4idaxosycu
";

const PROVE: &[&str] = &["msthost", "prove", "a/b"];

const VERIFY: &[&str] = &["msthost", "verify", ROOT, "a/b"];

/// Command lines, their inputs, and what they write; the examples of help and README.md are among them. `E` stands for the
/// text of the CID of the empty tree's node.
static TEXTS: [(&[&str], &[&str], &[&str]); 35] = [
    (&TREE, &[], &["E", "\n", "E", " a2616580616cf6\n"]),
    (&TREE, &["a/b ", "E"], ONE_LINE),
    (&TREE, &["a/b ", "E", "\n"], ONE_LINE),
    (&TREE, &["a/b ", "E", "\r\n"], ONE_LINE),
    (&TREE, &["a/b ", "E", "\n\n\r\n"], ONE_LINE),
    (PROVE, &[], &["E", "\na2616580616cf6\n"]),
    (PROVE, &["a/b a0\n"], &[ROOT, "\n", NODE, "\n"]),
    (
        &["msthost", "prove", "zz"],
        &["a/b a0"],
        &[ROOT, "\n", NODE, "\n"],
    ),
    (
        &["msthost", "verify", EMPTY, "a/b"],
        &["a2616580616cf6"],
        &["absent\n"],
    ),
    (VERIFY, &[NODE], &["found ", RECORD, "\n"]),
    (VERIFY, &["\nA0\n", NODE, "\r\n"], &["found ", RECORD, "\n"]),
    (&["msthost", "verify", ROOT, "a/a"], &[NODE], &["absent\n"]),
    (
        &["msthost", "verify", ROOT, "a/c"],
        &[NODE, "\n"],
        &["absent\n"],
    ),
    (TWO, &[], &[NOTHING]),
    (TWO, &["\n"], &[NOTHING]),
    (TWO, &["\r\n\n"], &[NOTHING]),
    (RUN, &["0 0 get a/b\n"], &[LOOK]),
    (
        RUN,
        &["0 0 x put a/b a0"],
        &["1 refused 0 BadRev\n", UNWRITTEN],
    ),
    (
        RUN,
        &["0 0 get put a/b a0"],
        &["1 refused 0 BadRev\n", UNWRITTEN],
    ),
    (
        RUN,
        &["0 1 get a/b"],
        &["1 refused 0 NoSuchRepository\n", UNWRITTEN],
    ),
    (
        RUN,
        &["00 4294967295 get a/b"],
        &["1 refused 0 NoSuchRepository\n", UNWRITTEN],
    ),
    (
        RUN,
        &["0 9 x put a/b a0"],
        &["1 refused 0 NoSuchRepository\n", UNWRITTEN],
    ),
    (RUN, &["0 0 get zz"], &["1 none\n", UNWRITTEN]),
    (RUN, &["0 0 get ;"], &["1 none\n", UNWRITTEN]),
    (
        RUN,
        &["0 0 2222222222222 put a a0"],
        &["1 refused 0 BadKey\n", UNWRITTEN],
    ),
    (
        RUN,
        &["0 0 2222222222222 put a/b 80"],
        &["1 refused 0 NotAMap\n", UNWRITTEN],
    ),
    (
        RUN,
        &["0 0 2222222222222 update a/b a0"],
        &["1 refused 0 NoSuchKey\n", UNWRITTEN],
    ),
    (
        RUN,
        &["0 0 2222222222222 create a/b a0 ; create a/b a0"],
        &["1 refused 1 KeyExists\n", UNWRITTEN],
    ),
    (RUN, &[FIVE_LINES], &[REPORT_OF_FIVE_LINES]),
    (RUN_NARROW, &[FIVE_LINES], &[REPORT_OF_FIVE_LINES]),
    (BOTH, &[TWO_WORKERS], &[REPORT_OF_TWO_WORKERS]),
    (BOTH_NARROW, &[TWO_WORKERS], &[REPORT_OF_TWO_WORKERS]),
    (BOTH, &[EXAMPLE], &[REPORT_OF_EXAMPLE]),
    (BOTH_NARROW, &[EXAMPLE], &[REPORT_OF_EXAMPLE]),
    (
        OF_ANOTHER,
        &["0 0 2222222222222 put a/b a0"],
        &[REPORT_OF_ANOTHER],
    ),
];

/// Whether a command on this input writes this, and is done.
fn writes<T: Threads + Wait + RandomSource + Sync>(
    rt: &T,
    alloc: Global,
    words: &[&str],
    input: &[&str],
    wanted: &[&str],
) -> bool {
    match joined(alloc, wanted) {
        Ok(wanted) => ends(rt, alloc, words, input, 0, &wanted, ""),
        Err(_) => false,
    }
}

#[test]
fn texts(rt: HostRuntime) {
    for (words, input, wanted) in &TEXTS {
        assert!(rt;
            writes(&rt, rt.alloc(), words, input, wanted),
            "at {words:?} of {input:?}"
        );
    }
}
