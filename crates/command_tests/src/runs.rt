//! How reports of `run` begin. Records come from a program in another language, and not from the commands.
use crate::running::run;
use std::alloc::Global;
use std::random::RandomSource;
use std::sync::Wait;
use std::thread::Threads;

/// `run` with a worker more, and with the greatest limits.
const TWO_WORKERS: &[&str] = &["msthost", "run", "--workers", "2"];

const GREATEST: &[&str] = &[
    "msthost",
    "run",
    "--repos",
    "1024",
    "--workers",
    "64",
    "--queue",
    "65536",
];

#[test]
fn greatest_limits(rt: HostRuntime) {
    let ended = run(&rt, rt.alloc(), GREATEST, b"63 1023 get a/b");
    assert!(rt; ended.begins("1 none\nrepo 0 "));
}

/// Two lines of each of two workers in one repository. A batch is taken where its stamp is later than the last one.
const ONE_REPOSITORY: &str = "\
0 0 2222222222222 put a/b a0
0 0 2222222222224 put a/b a0
1 0 2222222222223 put a/b a0
1 0 2222222222225 put a/b a0
";

/// How the report begins for each order of the lines in which each worker's are in turn: their answers, and then the root,
/// which each batch leaves, and how many writes were accepted.
static ORDERS: [&str; 5] = [
    "1 ok 1\n2 ok 2\n3 refused 0 RevOrder\n4 ok 3\nrepo 0 bafyreihkkefvij2yxd6vkifr7342uvsineepfcevg2pduv3e4idaxosycu 3 ",
    "1 ok 1\n2 ok 3\n3 ok 2\n4 ok 4\nrepo 0 bafyreihkkefvij2yxd6vkifr7342uvsineepfcevg2pduv3e4idaxosycu 4 ",
    "1 ok 1\n2 refused 0 RevOrder\n3 ok 2\n4 ok 3\nrepo 0 bafyreihkkefvij2yxd6vkifr7342uvsineepfcevg2pduv3e4idaxosycu 3 ",
    "1 refused 0 RevOrder\n2 ok 2\n3 ok 1\n4 ok 3\nrepo 0 bafyreihkkefvij2yxd6vkifr7342uvsineepfcevg2pduv3e4idaxosycu 3 ",
    "1 refused 0 RevOrder\n2 refused 0 RevOrder\n3 ok 1\n4 ok 2\nrepo 0 bafyreihkkefvij2yxd6vkifr7342uvsineepfcevg2pduv3e4idaxosycu 2 ",
];

/// Whether such a report comes of the lines.
fn are_in_some_order<T: Threads + Wait + RandomSource + Sync>(rt: &T, alloc: Global) -> bool {
    let ended = run(rt, alloc, TWO_WORKERS, ONE_REPOSITORY.as_bytes());
    for front in &ORDERS {
        if ended.begins(front) {
            return true;
        }
    }
    false
}

#[test]
fn two_workers_in_one_repository(rt: HostRuntime) {
    for _ in 0..20 {
        assert!(rt; are_in_some_order(&rt, rt.alloc()));
    }
}

/// Two records: one with a link, bytes and a space in a text, and one that has no JSON, as it has the key `$link` beside
/// another.
const TWO_RECORDS: &str = "\
0 0 2222222222222 put a/b \
a36161d82a582500017112209dfefe61dd76ea3dcae5023880b08379d57adf20482d6fdbe2759289f647677b61624401020304616363612062 \
; put a/c a261610065246c696e6b6178
0 0 get a/b
0 0 get a/c
0 0 get a/d
";

/// How the report on them begins with records as JSON.
const AS_JSON: &str = "\
1 ok 2
2 found {\"a\":{\"$link\":\"bafyreie5737gdxlw5i64vzichcalba3z2v5n6icifvx5xytvske7mr3hpm\"},\
\"b\":{\"$bytes\":\"AQIDBA\"},\"c\":\"a b\"}
3 found a261610065246c696e6b6178
4 none
repo 0 ";

/// And with records in hexadecimal.
const AS_HEX: &str = "\
1 ok 2
2 found a36161d82a582500017112209dfefe61dd76ea3dcae5023880b08379d57adf20482d6fdbe2759289f647677b61624401020304616363612062
3 found a261610065246c696e6b6178
4 none
repo 0 ";

#[test]
fn records_as_json(rt: HostRuntime) {
    let alloc = rt.alloc();
    let script = TWO_RECORDS.as_bytes();
    assert!(rt; run(&rt, alloc, &["msthost", "run", "--json"], script).begins(AS_JSON));
    assert!(rt; run(&rt, alloc, &["msthost", "run"], script).begins(AS_HEX));
}
