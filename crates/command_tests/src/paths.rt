//! `tree --paths`, which takes a repository's keys alone.
use crate::running::{EMPTY, TREE, ends, joined, lists, run};
use std::alloc::Global;
use std::random::RandomSource;
use std::sync::Wait;
use std::thread::Threads;

/// The command line.
const PATHS: [&str; 3] = ["msthost", "tree", "--paths"];

/// The root of the tree of one record, as published, and its line.
const ROOT: &str = "bafyreibj4lsc3aqnrvphp5xmrnfoorvru4wynt6lwidqbm2623a6tatzdu";

const LINE: [&str; 2] = [
    "com.example.record/3jqfcqzm3fo2j ",
    "bafyreie5cvv4h45feadgeuwhbcutmh6t2ceseocckahdoe6uat64zmz454",
];

#[test]
fn records_are_listed(rt: HostRuntime) {
    assert!(rt; lists(&rt, rt.alloc(), &PATHS, &LINE, ROOT));
    assert!(rt; lists(&rt, rt.alloc(), &PATHS, &[], EMPTY));
}

/// Lines of keys that are no record's, of which a tree may have each.
static OTHERS: [&[&str]; 8] = [
    &["\u{feff}a/b ", "E"],
    &["a/b  ", "E"],
    &[" a/b ", "E"],
    &["at://did:web:a.b/c/d ", "E"],
    &["# note ", "E"],
    &["a/b/c ", "E"],
    &["a ", "E"],
    &["a/.. ", "E"],
];

/// Whether `tree` without the option lists a tree of these.
fn are_taken<T: Threads + Wait + RandomSource + Sync>(
    rt: &T,
    alloc: Global,
    parts: &[&str],
) -> bool {
    match joined(alloc, parts) {
        Ok(input) => run(rt, alloc, &TREE, &input).begins("bafyrei"),
        Err(_) => false,
    }
}

#[test]
fn other_keys_are_refused(rt: HostRuntime) {
    for parts in &OTHERS {
        let told = "msthost: line 1: BadKey\n";
        assert!(rt;
            ends(&rt, rt.alloc(), &PATHS, parts, 1, b"", told),
            "{parts:?}"
        );
        assert!(rt; are_taken(&rt, rt.alloc(), parts), "{parts:?}");
    }
}
