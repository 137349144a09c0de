//! One great batch: many records at once, one of them as long as there may be, and what a host answers after it.

ghost use Rattle.std.specs.Prelude.{◌≡◌, []};
ghost use Rattle.ended.specs.Ending.{IsEndedAt};
ghost use Rattle.host.specs.Views.{IsSeatOf};

use crate::exports::car_of;
use crate::hosts::limits;
use crate::seated::{Alone, close_one};
use change_proofs::{KeyChange, are_key_changes, verify_inversion_blocks};
use cid::Cid;
use cid::digests::Toy;
use closing::Closed;
use ended::Ended;
use export::verify;
use host::{Host, Limits, Opened, Version, Writer};
use host_exports::{prove, prove_inversion};
use repo_fixtures::batch::{Batch, EMPTY_NODE, Step, batch_at, write_of};
use std::alloc::{AllocError, Global};
use std::process::Abort;
use std::sync::{Arc, Wait};
use store::TableKey;

/// How many records come beside the great one where each call is asked. With their nodes that are more than 4,096 blocks.
const OTHERS: u32 = 3_300;

/// How many do where blocks are counted. With their nodes that are more than 10,000 blocks.
const COUNTED: u32 = 8_000;

/// The key of the great record, before all others: the longest there is.
fn great_key(alloc: Global) -> Result<Vec<u8>, AllocError> {
    let mut key = Vec::new(alloc);
    key.resize(317, b'a')?;
    key.push(b'/')?;
    key.resize(829, b'b')?;
    key.push(b'0')?;
    Ok(key)
}

/// A batch, and the pairs that it leaves in a repository without writes, in their order.
#[derive(Drop)]
struct Great {
    batch: Batch<Global>,
    pairs: Vec<(Vec<u8>, Cid)>,
}

impl Great {
    /// Adds a put.
    fn add(&mut self, alloc: Global, key: &[u8], record: &[u8]) -> Result<(), AllocError> {
        let put = write_of(alloc, Step::Put(key, record))?;
        self.batch.writes.push(put)?;
        let key = Vec::from_slice(alloc, key)?;
        self.pairs.push((key, Cid::of::<Toy>(record)))?;
        Ok(())
    }
}

/// A record of the greatest length: the map of "a" to a byte string.
fn great_record(alloc: Global) -> Result<Vec<u8>, AllocError> {
    let mut record = Vec::from_slice(alloc, b"\xa1\x61\x61\x5a\x00\x0f\xff\xf8")?;
    record.resize(1_048_576, 0)?;
    Ok(record)
}

/// The record of a number: the map of "a" to its last two bytes.
fn record_of(number: u32) -> [u8; 6] {
    let [_, _, high, low] = number.to_be_bytes();
    [0xa1, 0x61, b'a', 0x42, high, low]
}

/// The puts of this record under the great key, and of so many others.
fn puts(alloc: Global, record: &[u8], others: u32) -> Result<Great, AllocError> {
    let mut great = Great {
        batch: batch_at(alloc, 0, &[])?,
        pairs: Vec::new(alloc),
    };
    great.add(alloc, &great_key(alloc)?, record)?;
    for number in 0..others {
        let key = format!(in alloc; "k/{number:05}")?;
        great.add(alloc, key.as_bytes(), &record_of(number))?;
    }
    Ok(great)
}

/// The deletes of all these keys.
fn deletes(alloc: Global, pairs: &[(Vec<u8>, Cid)]) -> Result<Batch<Global>, AllocError> {
    let mut batch = batch_at(alloc, 1, &[])?;
    for (key, _) in pairs {
        batch.writes.push(write_of(alloc, Step::Delete(key))?)?;
    }
    Ok(batch)
}

/// Each pair as a change that brings its key.
fn changes_of(alloc: Global, pairs: &[(Vec<u8>, Cid)]) -> Result<Vec<KeyChange<'_>>, AllocError> {
    let mut changes = Vec::new(alloc);
    for (key, value) in pairs {
        changes.push(KeyChange {
            key,
            before: None,
            after: Some(*value),
        })?;
    }
    Ok(changes)
}

/// A host of one repository and one writer, with room for as many blocks and writes as there may be.
fn opened<R: Wait + Abort>(rt: &R, alloc: Global) -> Alone<Toy, 2>
    ensures seat { IsSeatOf result.host result.seat }
    ensures feed { result.feed.queue_id ≡ result.host.queue.queue_id }
    ensures one { result.feed.made ≡ 1 }
    ensures fresh { result.feed.joined ≡ [] }
{
    let given = Limits {
        shard_blocks: 1_048_576,
        repo_writes: 1_048_576,
        ..limits(1, 1, 9)
    };
    let opened = Host::<Toy, 2>::open(rt, alloc, given, TableKey::known()).expect(rt, "a host");
    let Opened {
        host,
        mut seats,
        feed,
    } = opened;
    let seat = seats.pop().expect(rt, "a seat");
    Alone { host, seat, feed }
}

/// Whether the writer finds this record under the key, or none.
fn finds<R: Wait>(
    rt: &R,
    alloc: Global,
    writer: &mut Writer<'_, Toy, 2>,
    key: &[u8],
    record: Option<&[u8]>,
) -> bool
    ensures { writer.new.host ≡ writer.old.host }
{
    match writer.get(rt, alloc, 0, key) {
        Ok(Some(found)) => record == Some(found.as_slice()),
        Ok(None) => record.is_none(),
        Err(_) => false,
    }
}

/// Whether the writer lists these pairs and no others.
fn lists<R: Wait>(
    rt: &R,
    alloc: Global,
    writer: &mut Writer<'_, Toy, 2>,
    pairs: &[(Vec<u8>, Cid)],
) -> bool
    ensures { writer.new.host ≡ writer.old.host }
{
    match writer.list(rt, alloc, 0, b"", usize::MAX) {
        Ok(listed) => listed.as_slice() == pairs,
        Err(_) => false,
    }
}

/// Whether a version has so many writes, each of which stands once for the repository, its record's block and two versions.
fn shares_all(version: &Version, writes: usize) -> bool {
    for write in &version.writes {
        if Arc::strong_count(write) != 4 {
            return false;
        }
    }
    version.writes.len() == writes
}

/// Whether two versions in turn share all writes with the repository.
fn publishes<R: Wait>(
    rt: &R,
    alloc: Global,
    host: &Host<Toy, 2>,
    writer: &mut Writer<'_, Toy, 2>,
    writes: usize,
) -> bool
    requires host { writer.old.host ≡ host.now }
    ensures { writer.new.host ≡ writer.old.host }
{
    let Ok(first) = writer.publish(rt, alloc, 0) else {
        return false;
    };
    let Ok(second) = writer.publish(rt, alloc, 0) else {
        return false;
    };
    shares_all(host.version(&first), writes) && shares_all(host.version(&second), writes)
}

/// Whether the host proves this pair under the root.
fn proves<R: Wait>(
    rt: &R,
    alloc: Global,
    host: &Host<Toy, 2>,
    root: &Cid,
    key: &[u8],
    value: Cid,
) -> Result<bool, AllocError> {
    let Ok(nodes) = prove(rt, alloc, host, 0, key) else {
        return Ok(false);
    };
    let mut proof = Vec::new(alloc);
    for node in &nodes {
        proof.push(node.bytes())?;
    }
    Ok(verify::<Toy, 2, &[u8]>(root, &proof, key) == Ok(Some(value)))
}

/// Whether the host proves all changes, and its nodes show them to a mirror.
fn proves_all<R: Wait>(
    rt: &R,
    alloc: Global,
    host: &Host<Toy, 2>,
    root: Cid,
    changes: &[KeyChange<'_>],
) -> bool {
    if !are_key_changes(changes) {
        return false;
    }
    let before = Cid::of::<Toy>(EMPTY_NODE);
    match prove_inversion(rt, alloc, host, 0, root, changes) {
        Ok(nodes) => verify_inversion_blocks::<Toy, 2, _>(
            alloc, before, root, &nodes, changes,
        ).is_ok(),
        Err(_) => false,
    }
}

/// Whether the host exports its records, proves the great one, and proves that all of them came.
fn exports<R: Wait + Abort>(
    rt: &R,
    alloc: Global,
    host: &Host<Toy, 2>,
    root: Cid,
    key: &[u8],
    record: &[u8],
    pairs: &[(Vec<u8>, Cid)],
) -> bool {
    let changes = changes_of(alloc, pairs).expect(rt, "changes");
    let file = car_of(rt, alloc, host, 0).expect(rt, "a file");
    file.len() > record.len()
        && proves(rt, alloc, host, &root, key, Cid::of::<Toy>(record)) == Ok(true)
        && proves_all(rt, alloc, host, root, &changes)
}

/// The root after a batch, where it is told with so many writes in all.
fn told<R: Wait>(
    rt: &R,
    alloc: Global,
    writer: &mut Writer<'_, Toy, 2>,
    batch: &Batch<Global>,
    writes: usize,
) -> Option<Cid>
    ensures { writer.new.host ≡ writer.old.host }
{
    let notice = writer
        .apply(rt, alloc, 0, &batch.stamp, &batch.writes)
        .ok()?;
    if notice.number == writes as u64 {
        Some(notice.root)
    } else {
        None
    }
}

/// Whether the deletes of all keys are told, and none is found or listed then.
fn deletes_all<R: Wait + Abort>(
    rt: &R,
    alloc: Global,
    writer: &mut Writer<'_, Toy, 2>,
    key: &[u8],
    pairs: &[(Vec<u8>, Cid)],
) -> bool
    ensures { writer.new.host ≡ writer.old.host }
{
    let batch = deletes(alloc, pairs).expect(rt, "a batch");
    let root = told(rt, alloc, writer, &batch, pairs.len().saturating_mul(2));
    root == Some(Cid::of::<Toy>(EMPTY_NODE))
        && finds(rt, alloc, writer, key, None)
        && lists(rt, alloc, writer, &[])
}

/// Whether a great batch is taken, each call of a host answers after it, and so is the one that takes all away.
fn is_answered<R: Wait + Abort>(rt: &R, alloc: Global) -> bool {
    let key = great_key(alloc).expect(rt, "a key");
    let record = great_record(alloc).expect(rt, "a record");
    let great = puts(alloc, &record, OTHERS).expect(rt, "a batch");
    let opened = opened(rt, alloc);
    let Alone {
        host,
        seat,
        feed: _,
    } = opened;
    let mut writer = host.writer(seat);
    let writes = great.pairs.len();
    let root = told(rt, alloc, &mut writer, &great.batch, writes).expect(rt, "a notice");
    finds(rt, alloc, &mut writer, &key, Some(&record))
        && lists(rt, alloc, &mut writer, &great.pairs)
        && publishes(rt, alloc, &host, &mut writer, writes)
        && exports(rt, alloc, &host, root, &key, &record, &great.pairs)
        && deletes_all(rt, alloc, &mut writer, &key, &great.pairs)
}

#[test]
fn a_great_batch(rt: HostRuntime) {
    assert!(rt; is_answered(&rt, rt.alloc()));
}

/// The writer's end after these puts, which must be told.
fn ended_after<R: Wait + Abort>(
    rt: &R,
    alloc: Global,
    mut writer: Writer<'_, Toy, 2>,
    great: &Great,
) -> Ended
    ensures { IsEndedAt writer.entry.host.queue.queue_id writer.entry.host.repos result }
{
    let root = told(rt, alloc, &mut writer, &great.batch, great.pairs.len());
    assert!(rt; root.is_some());
    writer.end()
}

/// How many blocks are counted, where each has the count 1.
fn counted(alloc: Global, closed: &Closed<Toy, 2>) -> Option<usize> {
    let Ok(counts) = closed.counts(alloc) else {
        return None;
    };
    for (_, count) in &counts {
        if *count != 1 {
            return None;
        }
    }
    Some(counts.len())
}

/// Each block is counted once.
#[test]
fn blocks_of_a_great_batch(rt: HostRuntime) {
    let alloc = rt.alloc();
    let great = puts(alloc, b"\xa0", COUNTED).expect(&rt, "a batch");
    let opened = opened(&rt, alloc);
    let Alone { host, seat, feed } = opened;
    let ended = ended_after(&rt, alloc, host.writer(seat), &great);
    let closed = close_one(&rt, alloc, host, ended, feed);
    let blocks = counted(alloc, &closed).unwrap_or(0);
    assert!(rt; blocks > 10_000, "{blocks}");
}
