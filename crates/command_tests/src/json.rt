//! Records as JSON in the commands, by their values. The texts, the bytes and the file come from a program in another language
//! (examples/make_export.py), and not from the commands; one record is the AT Protocol's own, from its interoperability tests.
use crate::exports::file;
use crate::running::{Ended, joined, run};
use std::alloc::Global;
use std::process::Abort;
use std::random::RandomSource;
use std::sync::Wait;
use std::thread::Threads;

/// The export of a repository with the keys `a/b` and `a/c`, whose records have the numbers 2^53 - 1 and 2^53 under `a`.
const UNSAFE_NUMBER: &[&str] = &[
    "3aa265726f6f747381d82a58250001711220d9db9e674b8e3fb479a4b38aa1d7d5bc7a2628ca8f1466f6287cfdbd07332fc96776",
    "657273696f6e01d20101711220d9db9e674b8e3fb479a4b38aa1d7d5bc7a2628ca8f1466f6287cfdbd07332fc9a6636469647364",
    "69643a7765623a6578616d706c652e636f6d637265766d336a7a6663696a706a327a32656373696758407adef5301183803d4b94",
    "fc087a5e5713e4e0754a67a91157dfb059704662b05325c1572bf52ef242ab2cbf5633bb2ff18bbf58904e2653ab04888a559c95",
    "d4066464617461d82a582500017112200b45d27e9e37b117814df7b363b76261fda0ab6f23b4f40198fd9cf2a3668e1d64707265",
    "76f66776657273696f6e038b01017112200b45d27e9e37b117814df7b363b76261fda0ab6f23b4f40198fd9cf2a3668e1da26165",
    "81a4616b43612f636170006174f66176d82a58250001711220f9a56ffb3097a68b11b4870ceb147a77b55166dd058c6b8d267ace",
    "c1f34657e1616cd82a582500017112209673f87c7421a1df6c4983c52bf088928a844d263257e421fbddf721bdbf482363017112",
    "209673f87c7421a1df6c4983c52bf088928a844d263257e421fbddf721bdbf4823a2616581a4616b43612f626170006174f66176",
    "d82a582500017112208cc5dde0d17d6b01f8e3b0efbf285a8286574c1503e70b386bd1440b1d6ac9f7616cf630017112208cc5dd",
    "e0d17d6b01f8e3b0efbf285a8286574c1503e70b386bd1440b1d6ac9f7a161611b001fffffffffffff3001711220f9a56ffb3097",
    "a68b11b4870ceb147a77b55166dd058c6b8d267acec1f34657e1a161611b0020000000000000",
];

/// Runs a command on a text.
fn on<T: Threads + Wait + RandomSource + Sync>(
    rt: &T,
    alloc: Global,
    words: &[&str],
    text: &str,
) -> Ended {
    run(rt, alloc, words, text.as_bytes())
}

#[test]
fn records_of_a_file(rt: HostRuntime) {
    let alloc = rt.alloc();
    let file = file(&rt, alloc);
    let json = ["msthost", "records", "--json"];
    let cids = ["msthost", "records", "--json", "--cids"];
    let cid = b"a/b bafyreigbtj4x7ip5legnfznufuopl4sg4knzc2cof6duas4b3q2fy6swua\n";
    assert!(rt; run(&rt, alloc, &json, &file).is(0, b"a/b {}\n", ""));
    assert!(rt; run(&rt, alloc, &cids, &file).is(0, cid, ""));
}

/// The record before the one that has no JSON isn't written.
#[test]
fn a_record_without_json(rt: HostRuntime) {
    let alloc = rt.alloc();
    let digits = joined(alloc, UNSAFE_NUMBER).expect(&rt, "memory for the digits");
    let file = hex::decode(alloc, &digits).expect(&rt, "a file in hexadecimal");
    let told = "msthost: record 1: NoJsonForm\n";
    let records = b"a/b a161611b001fffffffffffff\na/c a161611b0020000000000000\n";
    assert!(rt; run(&rt, alloc, &["msthost", "records", "--json"], &file).is(1, b"", told));
    assert!(rt; run(&rt, alloc, &["msthost", "records"], &file).is(0, records, ""));
}

/// The same record in hexadecimal and as JSON, in other orders of keys and with spaces.
const RECORDS: [(&str, &str); 3] = [
    ("a0", "{}"),
    (
        "a361610061620162616102",
        r#" { "aa" : 2 , "b":1,"a" :-0 } "#,
    ),
    (
        "a2616ff6617482f5a161786420613b20",
        r#"{"t":[true,{"x":" a; "}],"o":null}"#,
    ),
];

/// The AT Protocol's own record of links and bytes (`data-model-fixtures.json`), in hexadecimal and as JSON.
const PUBLISHED: (&str, &str) = (
    concat!(
        "a36161d82a5825000171122065062a5a5a00fc16d73c6944237ccbc15b1c4a7234489336891d091741a239d0",
        "616258209c51118ef2cb8b0f6a9b8e49aea1fd413cf20b62eed576f89deebeb01ac2cc8d6163a4",
        "63726566d82a582500015512204258cfff78f613697697563f926c91e5d3574d2ea25ae7ed92d6ebfc23a3889e",
        "6473697a6519271065247479706564626c6f62686d696d65547970656a696d6167652f6a706567",
    ),
    concat!(
        r#"{"a":{"$link":"bafyreidfayvfuwqa7qlnopdjiqrxzs6blmoeu4rujcjtnci5beludirz2a"},"#,
        r#""b":{"$bytes":"nFERjvLLiw9qm45JrqH9QTzyC2Lu1Xb4ne6+sBrCzI0"},"#,
        r#""c":{"$type":"blob","ref":{"$link":"bafkreiccldh766hwcnuxnf2wh6jgzepf2nlu2lvcllt63eww5p6chi4ity"},"#,
        r#""mimeType":"image/jpeg","size":10000}}"#,
    ),
);

/// Whether each command on records takes a record in hexadecimal and one as JSON for the same.
fn are_one<T: Threads + Wait + RandomSource + Abort + Sync>(
    rt: &T,
    alloc: Global,
    hex: &str,
    json: &str,
) -> bool {
    let hex = format!(in alloc; "a/b {hex}\n").expect(rt, "memory");
    let json = format!(in alloc; "a/b {json}\n").expect(rt, "memory");
    let car = on(rt, alloc, &["msthost", "car"], hex.as_str());
    let proof = on(rt, alloc, &["msthost", "prove", "a/b"], hex.as_str());
    car.status == 0
        && on(rt, alloc, &["msthost", "car", "--json"], json.as_str()).is(0, &car.out, "")
        && on(
            rt,
            alloc,
            &["msthost", "prove", "--json", "a/b"],
            json.as_str(),
        )
        .is(0, &proof.out, "")
        && are_one_in_a_batch(rt, alloc, hex.as_str(), json.as_str())
}

/// Whether a command on a change takes these lines for the same, before the empty line and behind it.
fn are_one_in_a_batch<T: Threads + Wait + RandomSource + Abort + Sync>(
    rt: &T,
    alloc: Global,
    hex: &str,
    json: &str,
) -> bool {
    let hex = format!(in alloc; "{hex}\nupdate {hex}").expect(rt, "memory");
    let json = format!(in alloc; "{json}\nupdate {json}").expect(rt, "memory");
    let change = on(rt, alloc, &["msthost", "prove-change"], hex.as_str());
    change.status == 0
        && on(
            rt,
            alloc,
            &["msthost", "prove-change", "--json"],
            json.as_str(),
        )
        .is(0, &change.out, "")
}

#[test]
fn records_in_both_forms(rt: HostRuntime) {
    for (hex, json) in &RECORDS {
        assert!(rt; are_one(&rt, rt.alloc(), *hex, *json), "{json}");
    }
    assert!(rt; are_one(&rt, rt.alloc(), PUBLISHED.0, PUBLISHED.1));
}

/// What `records` writes of a file `car` reads again.
#[test]
fn records_that_are_read_again(rt: HostRuntime) {
    let alloc = rt.alloc();
    let file = file(&rt, alloc);
    let hex = run(&rt, alloc, &["msthost", "records"], &file);
    let json = run(&rt, alloc, &["msthost", "records", "--json"], &file);
    let car = run(&rt, alloc, &["msthost", "car"], &hex.out);
    assert!(rt; run(&rt, alloc, &["msthost", "car", "--json"], &json.out).is(0, &car.out, ""));
}

/// Sixty-five lists in a map, in three parts.
const DEEP: [&str; 3] = [
    r#"{"a":"#,
    "[[[[[[[[[[[[[[[[[[[[[[[[[[[[[[[[[[[[[[[[[[[[[[[[[[[[[[[[[[[[[[[[[",
    "]]]]]]]]]]]]]]]]]]]]]]]]]]]]]]]]]]]]]]]]]]]]]]]]]]]]]]]]]]]]]]]]]}",
];

/// Lines that are no puts of JSON, with what is told.
static FAULTS: [(&str, &str); 15] = [
    ("a/b", "BadLine"),
    ("a/b ", "BadLine"),
    (" {}", "BadLine"),
    ("a/b a0", "BadJson(NotJson)"),
    ("a/b {", "BadJson(NotJson)"),
    ("a/b {} {}", "BadJson(NotJson)"),
    (r#"a/b {"a":1,"b":1.5,"a":2}"#, "BadJson(DoubledKey) at .a"),
    (
        r#"a/b {"a":{"b":[0,1,2,1.0]}}"#,
        "BadJson(Float) at .a.b[3]",
    ),
    (
        r#"a/b {"a":9007199254740992}"#,
        "BadJson(IntegerRange) at .a",
    ),
    (r#"a/b {"a":{"$link":"a"}}"#, "BadJson(BadLink) at .a"),
    (
        r#"a/b {"a":[{"$bytes":"*"}]}"#,
        "BadJson(BadBytes) at .a[0]",
    ),
    (
        r#"a/b {"a":{"$link":"a","b":0}}"#,
        "BadJson(BadDollar) at .a",
    ),
    ("a/b []", "BadJson(NotAMap)"),
    (r#"a/b {"$bytes":""}"#, "BadJson(NotAMap)"),
    ("a/b 1e3", "BadJson(Float)"),
];

/// Whether each command on records refuses this line as the second one, for this reason.
fn is_refused<T: Threads + Wait + RandomSource + Abort + Sync>(
    rt: &T,
    alloc: Global,
    line: &str,
    name: &str,
) -> bool {
    let text = format!(in alloc; "a/b {{}}\n{line}\n").expect(rt, "memory");
    let told = format!(in alloc; "msthost: line 2: {name}\n").expect(rt, "memory");
    on(rt, alloc, &["msthost", "car", "--json"], text.as_str()).is(1, b"", told.as_str())
        && on(
            rt,
            alloc,
            &["msthost", "prove", "--json", "a/b"],
            text.as_str(),
        )
        .is(1, b"", told.as_str())
        && on(
            rt,
            alloc,
            &["msthost", "prove-change", "--json"],
            text.as_str(),
        )
        .is(1, b"", told.as_str())
}

#[test]
fn lines_that_are_no_puts(rt: HostRuntime) {
    for (line, name) in &FAULTS {
        assert!(rt; is_refused(&rt, rt.alloc(), *line, *name), "{line}");
    }
}

#[test]
fn json_too_deep_and_no_utf_8(rt: HostRuntime) {
    let alloc = rt.alloc();
    let deep = joined(alloc, &["a/b ", DEEP[0], DEEP[1], DEEP[2], "\n"]).expect(&rt, "memory");
    let words = ["msthost", "car", "--json"];
    let ended = run(&rt, alloc, &words, &deep);
    assert!(rt;
        ended.status == 1
            && ended
                .err
                .starts_with(b"msthost: line 1: BadJson(TooDeep) at .a[0][0]")
    );
    let told = "msthost: line 1: BadJson(NotJson)\n";
    assert!(rt; run(&rt, alloc, &words, b"a/b {\"a\":\"\xff\"}").is(1, b"", told));
}

/// In a batch the line of a write is told, and a delete has no record.
#[test]
fn writes_of_a_batch(rt: HostRuntime) {
    let alloc = rt.alloc();
    let words = ["msthost", "prove-change", "--json"];
    let refused = on(&rt, alloc, &words, "a/b {}\n\nput a/c {\"a\":0.5}\n");
    assert!(rt; refused.is(1, b"", "msthost: line 3: BadJson(Float) at .a\n"));
    let deleted = on(&rt, alloc, &words, "a/b {}\n\ndelete a/b\n");
    let same = on(
        &rt,
        alloc,
        &["msthost", "prove-change"],
        "a/b a0\n\ndelete a/b\n",
    );
    assert!(rt; deleted.is(0, &same.out, ""));
}

/// Without the option JSON is no record, and with it hexadecimal is none.
#[test]
fn one_form_at_a_time(rt: HostRuntime) {
    let alloc = rt.alloc();
    let told = "msthost: line 1: BadLine\n";
    assert!(rt; on(&rt, alloc, &["msthost", "car"], "a/b {}").is(1, b"", told));
    assert!(rt; on(&rt, alloc, &["msthost", "verify", "--json"], "").status == 2);
}
