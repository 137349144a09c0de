//! What `explain` writes, and which names it has.
use crate::running::{ends, run};
use bstr::ByteSlice;
use explain_command::{FAULTS, FAULTS_OF_FILES, FAULTS_OF_MESSAGES};
use std::alloc::Global;
use std::random::RandomSource;
use std::sync::Wait;
use std::thread::Threads;

#[test]
fn a_fault_is_explained(rt: HostRuntime) {
    let text =
        b"NotAMap\n  the record is not a map\n  Usual causes: a list, a text or a number as a record: each record of the AT Protocol is one map\n";
    assert!(rt;
        ends(
            &rt,
            rt.alloc(),
            &["msthost", "explain", "NotAMap"],
            &["a/b"],
            0,
            text,
            ""
        )
    );
}

#[test]
fn a_name_that_no_fault_has(rt: HostRuntime) {
    let told = "msthost: no fault has this name; explain without a name lists them\n";
    assert!(rt;
        ends(
            &rt,
            rt.alloc(),
            &["msthost", "explain", "NotA"],
            &[],
            1,
            b"",
            told
        )
    );
    assert!(rt;
        ends(
            &rt,
            rt.alloc(),
            &["msthost", "explain", ""],
            &[],
            1,
            b"",
            told
        )
    );
}

/// Whether what is written of a name begins with it and has its causes.
fn is_explained<T: Threads + Wait + RandomSource + Sync>(
    rt: &T,
    alloc: Global,
    name: &str,
    causes: &str,
) -> bool {
    let ended = run(rt, alloc, &["msthost", "explain", name], b"");
    ended.begins(name) && ended.out.as_slice().contains_str(causes.as_bytes())
}

/// Whether each fault has a line of the list, and an explanation of its own under its name.
fn are_explained<T: Threads + Wait + RandomSource + Sync>(rt: &T, alloc: Global) -> bool {
    let list = run(rt, alloc, &["msthost", "explain"], b"");
    let mut lines = list.out.as_slice().lines();
    for (name, _, causes) in &FAULTS {
        if lines.next() != Some(name.as_bytes()) || !is_explained(rt, alloc, name, causes) {
            return false;
        }
    }
    for (name, _, causes) in &FAULTS_OF_FILES {
        if lines.next() != Some(name.as_bytes()) || !is_explained(rt, alloc, name, causes) {
            return false;
        }
    }
    for (name, _, causes) in &FAULTS_OF_MESSAGES {
        if lines.next() != Some(name.as_bytes()) || !is_explained(rt, alloc, name, causes) {
            return false;
        }
    }
    list.status == 0 && lines.next().is_none()
}

#[test]
fn each_fault_is_explained(rt: HostRuntime) {
    assert!(rt; are_explained(&rt, rt.alloc()));
}
