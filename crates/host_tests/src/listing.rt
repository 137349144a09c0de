//! What a writer lists that has seen nothing of a repository before.

ghost use Rattle.std.specs.Prelude.{◌≡◌};

use crate::hosts::{Answer, apply_steps};
use crate::seated::{Pair, open_two};
use cid::Cid;
use cid::digests::Toy;
use host::Writer;
use repo_fixtures::batch::{EMPTY, ONE, Step, TWO};
use std::alloc::Global;
use std::process::Abort;
use std::sync::Wait;

/// Three records in one batch.
const PUTS: &[Step<'static>] = &[
    Step::Put(b"a/b0", EMPTY),
    Step::Put(b"a/c0", ONE),
    Step::Put(b"a/d0", TWO),
];

/// A repository's number, from which key on so many pairs at most are listed, and the keys with their records.
type Row = (
    usize,
    &'static [u8],
    usize,
    &'static [(&'static [u8], &'static [u8])],
);

static ROWS: [Row; 2] = [
    (0, b"a/c", 1, &[(b"a/c0", ONE)]),
    (1, b"a/c", 9, &[(b"a/c0", ONE), (b"a/d0", TWO)]),
];

/// Whether these are the pairs of the records.
fn are_pairs(pairs: &[(Vec<u8>, Cid)], records: &[(&[u8], &[u8])]) -> bool {
    for ((key, cid), (wanted, record)) in pairs.iter().zip(records) {
        if key.as_slice() != *wanted || *cid != Cid::of::<Toy>(record) {
            return false;
        }
    }
    pairs.len() == records.len()
}

/// Whether the writer lists a row so.
fn lists<R: Wait>(rt: &R, alloc: Global, writer: &mut Writer<'_, Toy, 2>, row: &Row) -> bool
    ensures { writer.new.host ≡ writer.old.host }
{
    let (repo, from, limit, records) = row;
    match writer.list(rt, alloc, *repo, from, *limit) {
        Ok(pairs) => are_pairs(&pairs, records),
        Err(_) => false,
    }
}

/// Whether a writer's first call in each of two repositories lists what another has put there.
fn is_right<R: Wait + Abort>(rt: &R, alloc: Global) -> bool {
    let opened = open_two(rt, alloc, 9);
    let Pair {
        host,
        first,
        second,
        feed: _,
    } = opened;
    let (mut zero, mut one) = (host.writer(first), host.writer(second));
    let mut are_listed = true;
    let mut told = 0u64;
    for row in &ROWS {
        told = told.saturating_add(1);
        are_listed = apply_steps(rt, alloc, &mut zero, row.0, 1, PUTS) == Answer::Told(told, 3)
            && lists(rt, alloc, &mut one, row)
            && are_listed;
    }
    are_listed
}

#[test]
fn a_first_list(rt: HostRuntime) {
    assert!(rt; is_right(&rt, rt.alloc()));
}
