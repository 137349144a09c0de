//! The example of the crate `host`: from its first `use` on, this file is what the root of that crate shows.

ghost use Rattle.ended.specs.Ending.{IsEndedAt};
ghost use Rattle.host.specs.Views.{IsSeatOf};

use batches::{Stamp, Write};
use cid::{Cid, Sha256};
use ended::Ended;
use host::{Host, Limits, Opened, Seat};
use host_close::close;
use std::alloc::{AllocError, Global};
use std::process::Abort;
use std::sync::Wait;
use store::TableKey;

/// The key of a post, and its record in DAG-CBOR.
const KEY: &[u8] = b"app.bsky.feed.post/3jzfcijpj2z2a";

const RECORD: &[u8] = b"\xa1\x64text\x65hello";

/// A batch of one put, with the stamp for its commit.
fn a_put(alloc: Global) -> Result<(Stamp, Vec<Write>), AllocError> {
    let did = Vec::from_slice(alloc, b"did:web:example.com")?;
    let rev = Vec::from_slice(alloc, b"3jzfcijpj2z2a")?;
    let stamp = Stamp { did, rev };
    let (key, record) = (
        Vec::from_slice(alloc, KEY)?,
        Vec::from_slice(alloc, RECORD)?,
    );
    Ok((stamp, Vec::from_array(alloc, [Write::Put(key, record)])?))
}

/// A writer that puts a record into repository 0. It would stand in a thread of its own, as the other one would.
fn puts<R: Wait + Abort>(rt: &R, alloc: Global, host: &Host<Sha256, 2>, seat: Seat) -> Ended
    requires { IsSeatOf host.now seat }
    ensures { IsEndedAt host.now.queue.queue_id host.now.repos result }
{
    let mut writer = host.writer(seat);
    let (stamp, writes) = a_put(alloc).expect(rt, "memory");
    let notice = writer
        .apply(rt, alloc, 0, &stamp, &writes)
        .expect(rt, "a notice");
    assert!(rt; notice.seq == 1 && notice.number == 1);
    writer.end()
}

/// A writer that finds the record and publishes a version, which stays as it is and is read without a lock.
fn finds<R: Wait + Abort>(rt: &R, alloc: Global, host: &Host<Sha256, 2>, seat: Seat) -> Ended
    requires { IsSeatOf host.now seat }
    ensures { IsEndedAt host.now.queue.queue_id host.now.repos result }
{
    let mut writer = host.writer(seat);
    let found = writer.get(rt, alloc, 0, KEY).expect(rt, "an answer");
    assert!(rt; found.is_some_and(|record| record.as_slice() == RECORD));
    let receipt = writer.publish(rt, alloc, 0).expect(rt, "a version");
    assert!(rt; host.version(&receipt).number == 1);
    writer.end()
}

#[test]
fn two_writers_and_a_version(rt: HostRuntime) {
    let alloc = rt.alloc();

    // Two repositories, and a seat for each of two writers.
    let limits = Limits {
        repos: 2,
        writers: 2,
        queue: 10,
        shard_blocks: 1000,
        repo_writes: 1000,
    };
    let opened = Host::<Sha256, 2>::open(&rt, alloc, limits, TableKey::known());
    let Opened {
        host,
        mut seats,
        feed,
    } = opened.expect(&rt, "a host");
    let other = seats.pop().expect(&rt, "a seat");
    let seat = seats.pop().expect(&rt, "a seat");
    let mut ended = Vec::with_capacity(alloc, 2).expect(&rt, "memory");
    ended.push_reserved(puts(&rt, alloc, &host, seat));
    ended.push_reserved(finds(&rt, alloc, &host, other));

    // The notice of the put comes to the one that takes them.
    let mut taker = host.taker(feed);
    let taken = taker.pop(&rt);
    let feed = taker.end();

    // Once all writers have ended the host closes, and tells how many repositories have a block.
    let count = match close(host, ended, feed) {
        Ok(closed) => closed.count(&Cid::of::<Sha256>(RECORD)),
        Err(_) => 0,
    };
    assert!(rt; count == 1 && taken.is_some_and(|notice| notice.seq == 1));
}
