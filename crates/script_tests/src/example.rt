//! The example of the crate `scripts`: from its first `use` on, this file is what the root of that crate shows.

use batches::{Stamp, Write};
use cid::{Cid, Sha256};
use host::{Host, Limits, Opened};
use host_close::close;
use scripts::{Answer, Call, Line, OpenGate, have_workers, run_script};
use std::alloc::{AllocError, Global};
use store::TableKey;

/// The key of a post, and its record in DAG-CBOR.
const KEY: &[u8] = b"app.bsky.feed.post/3jzfcijpj2z2a";

const RECORD: &[u8] = b"\xa1\x64text\x65hello";

/// A put of the record, with the stamp for its commit.
fn a_put(alloc: Global) -> Result<Call, AllocError> {
    let did = Vec::from_slice(alloc, b"did:web:example.com")?;
    let rev = Vec::from_slice(alloc, b"3jzfcijpj2z2a")?;
    let (key, record) = (
        Vec::from_slice(alloc, KEY)?,
        Vec::from_slice(alloc, RECORD)?,
    );
    let writes = Vec::from_array(alloc, [Write::Put(key, record)])?;
    Ok(Call::Apply(Stamp { did, rev }, writes))
}

/// Three lines for two workers: worker 0 puts the record into repository 0 and looks for it there, and worker 1 looks for it
/// in repository 1.
fn three_lines(alloc: Global) -> Result<Vec<Line>, AllocError> {
    let calls = [
        (0, 0, a_put(alloc)?),
        (0, 0, Call::Get(Vec::from_slice(alloc, KEY)?)),
        (1, 1, Call::Get(Vec::from_slice(alloc, KEY)?)),
    ];
    let mut lines = Vec::with_capacity(alloc, 3)?;
    for (worker, repo, call) in calls {
        let number = lines.len() + 1;
        lines.push(Line {
            number,
            worker,
            repo,
            call,
        })?;
    }
    Ok(lines)
}

/// Whether the put was accepted, and worker 0 found the record and worker 1 didn't.
fn are_right(answers: &[Answer<Sha256>]) -> bool {
    match answers {
        [
            Answer::Accepted(told),
            Answer::Found(record),
            Answer::Absent,
        ] => { told.writer == 0 && told.seq == 1 && record.as_slice() == RECORD }
        _ => false,
    }
}

#[test]
fn three_lines_by_two_workers(rt: HostRuntime) {
    let alloc = rt.alloc();
    let lines = three_lines(alloc).expect(&rt, "lines");

    // Two repositories, and a seat for each of two workers.
    let limits = Limits {
        repos: 2,
        writers: 2,
        queue: 10,
        shard_blocks: 1000,
        repo_writes: 1000,
    };
    let Ok(opened) = Host::<Sha256, 2>::open(&rt, alloc, limits, TableKey::known()) else {
        panic!(&rt; "no host");
    };
    let Opened { host, seats, feed } = opened;

    // Each worker does its lines in a thread of its own. The answers come in the order of the lines.
    if !have_workers(&lines, seats.len()) {
        panic!(&rt; "a line without a worker");
    }
    let report = run_script(&rt, alloc, &host, seats, &OpenGate, &lines).expect(&rt, "a report");
    assert!(&rt; are_right(&report.answers));

    // The writers have ended, so that the host closes.
    let count = match close(host, report.ended, feed) {
        Ok(closed) => closed.count(&Cid::of::<Sha256>(RECORD)),
        Err(_) => 0,
    };
    assert!(rt; count == 1);
}
