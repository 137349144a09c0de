//! A host of as many repositories and writers as there may be.

use crate::closes::{Ran, limits, run};
use crate::tables::{Doing, line_of};
use cid::Cid;
use cid::digests::Toy;
use closing::Closed;
use repo_fixtures::batch::Step::Put;
use repo_fixtures::batch::{EMPTY, EMPTY_NODE};
use scripts::{Line, OpenGate};
use std::alloc::{AllocError, Global};
use std::process::Abort;
use std::sync::Wait;
use std::thread::Threads;

const REPOSITORIES: u32 = 1024;

const WRITERS: u32 = 64;

/// The same put of each writer, in every sixteenth repository, the last one among them, all under one stamp.
fn a_put_each(alloc: Global) -> Result<Vec<Line>, AllocError> {
    let steps = [Put(b"a/b0", EMPTY)];
    let mut lines = Vec::with_capacity(alloc, WRITERS as usize)?;
    for worker in 0..WRITERS {
        let row = (worker, worker * 16 + 15, Doing::Apply(&steps));
        lines.push(line_of(alloc, 1, row)?)?;
    }
    Ok(lines)
}

/// Whether the record, its node and its commit have the count of the writers, and the empty node that of the other repositories.
fn are_counted(alloc: Global, closed: &Closed<Toy, 2>) -> bool {
    let Ok(counts) = closed.counts(alloc) else {
        return false;
    };
    let with_a_put = counts.iter().filter(|(_, count)| *count == 64).count();
    (counts.len(), with_a_put) == (4, 3)
        && closed.count(&Cid::of::<Toy>(EMPTY)) == 64
        && closed.count(&Cid::of::<Toy>(EMPTY_NODE)) == 960
        && closed.cores().len() == 1024
}

/// How many notices are left and kept.
fn told<R: Wait>(rt: &R, mut closed: Closed<Toy, 2>) -> usize {
    let mut notices = 0usize;
    for writer in 0..WRITERS {
        notices = notices.saturating_add(closed.kept(writer).len());
        if closed.next_left(rt).is_some() {
            notices = notices.saturating_add(1);
        }
    }
    notices
}

/// Whether such a host is opened, takes a put of each writer, and closes.
fn is_right<R: Threads + Wait + Abort + Sync>(rt: &R, alloc: Global) -> bool {
    let lines = a_put_each(alloc).expect(rt, "lines");
    let given = limits(REPOSITORIES, WRITERS, 9);
    let Ran { answers, closed } = run(rt, alloc, given, &OpenGate, &lines);
    answers.len() == 64 && are_counted(alloc, &closed) && told(rt, closed) == 64
}

#[test]
fn the_greatest_host_closes(rt: HostRuntime) {
    assert!(rt; is_right(&rt, rt.alloc()));
}
