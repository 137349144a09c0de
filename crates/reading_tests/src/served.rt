//! Files that are written with a signed commit, beside those that were made by hand, and read back.

use crate::empty::EMPTY;
use crate::many::{key_of, record_of};
use crate::one::{KEY, ONE, RECORD};
use batches::{Stamp, Write};
use cid::Sha256;
use export::{ToMemory, signed_car};
use repo::Core;
use repository_check::{Repository, check};
use std::alloc::{AllocError, Global};
use store::{LentShard, Shard, TableKey};

/// The DID and the revision of the files that were made by hand, and their signature: the numbers 1 to 64.
const DID: &[u8] = b"did:plc:ewvi7nxzyoun6zhxrhs64oiz";

const REV: &[u8] = b"3jzfcijpj2z2a";

static SIGNATURE: [u8; 64] = [
    1, 2, 3, 4, 5, 6, 7, 8, 9, 10, 11, 12, 13, 14, 15, 16, 17, 18, 19, 20, 21, 22, 23, 24, 25, 26,
    27, 28, 29, 30, 31, 32, 33, 34, 35, 36, 37, 38, 39, 40, 41, 42, 43, 44, 45, 46, 47, 48, 49, 50,
    51, 52, 53, 54, 55, 56, 57, 58, 59, 60, 61, 62, 63, 64,
];

/// A revision before that.
const EARLIER: &[u8] = b"2jzfcijpj2z2a";

/// The stamp of a batch under this revision.
fn stamp(alloc: Global, rev: &[u8]) -> Result<Stamp, AllocError> {
    Ok(Stamp {
        did: Vec::from_slice(alloc, DID)?,
        rev: Vec::from_slice(alloc, rev)?,
    })
}

/// The creation of a record.
fn create(alloc: Global, key: &[u8], record: &[u8]) -> Result<Write, AllocError> {
    let key = Vec::from_slice(alloc, key)?;
    Ok(Write::Create(key, Vec::from_slice(alloc, record)?))
}

/// A record that is created, and then maybe deleted.
fn one_write(alloc: Global, then_delete: bool) -> Result<Vec<Write>, AllocError> {
    let mut writes = Vec::new(alloc);
    writes.push(create(alloc, &KEY, &ONE[RECORD..])?)?;
    if then_delete {
        writes.push(Write::Delete(Vec::from_slice(alloc, &KEY)?))?;
    }
    Ok(writes)
}

/// So many records, each of which stands under two keys.
fn many_writes(alloc: Global, count: u16) -> Result<Vec<Write>, AllocError> {
    let mut writes = Vec::new(alloc);
    for n in 0..count {
        let key = key_of(alloc, n)?;
        writes.push(Write::Create(key, Vec::from_slice(alloc, &record_of(n / 2))?))?;
    }
    Ok(writes)
}

/// The file that a server serves of a repository, where its length is answered.
fn served(alloc: Global, core: &Core<Sha256, 2>) -> Option<Vec<u8>> {
    let mut out = ToMemory::new(alloc);
    match signed_car(alloc, core, &SIGNATURE, &mut out) {
        Ok(Some(length)) if length == out.bytes().len() as u64 => Some(out.into_bytes()),
        _ => None,
    }
}

/// Whether a batch of these writes is accepted.
fn accepts(
    alloc: Global,
    shard: &mut Shard<Sha256>,
    core: &mut Core<Sha256, 2>,
    rev: &[u8],
    writes: &[Write],
) -> bool {
    match stamp(alloc, rev) {
        Ok(stamp) => core
            .apply(alloc, &mut LentShard::new(shard), &stamp, writes)
            .is_ok(),
        Err(_) => false,
    }
}

/// The file after a batch of the one writes, where there are some, and then one of the others.
fn file_after(alloc: Global, before: &[Write], writes: &[Write]) -> Option<Vec<u8>> {
    let mut shard = Shard::new(alloc, 9000, TableKey::known());
    match Core::<Sha256, 2>::open(alloc, &mut LentShard::new(&mut shard), 0, 3000) {
        Ok(mut core) => {
            let accepted = (before.is_empty()
                || accepts(alloc, &mut shard, &mut core, EARLIER, before))
                && accepts(alloc, &mut shard, &mut core, REV, writes);
            let file = served(alloc, &core);
            core.end(&mut LentShard::new(&mut shard));
            if accepted { file } else { None }
        }
        Err(_) => None,
    }
}

#[test]
fn the_file_of_one_record(rt: HostRuntime) {
    let writes = one_write(rt.alloc(), false).expect(&rt, "a write");
    let file = file_after(rt.alloc(), &[], &writes).expect(&rt, "a file");
    assert!(rt; file.as_slice() == ONE.as_slice());
}

#[test]
fn the_file_without_records(rt: HostRuntime) {
    let writes = one_write(rt.alloc(), true).expect(&rt, "two writes");
    let file = file_after(rt.alloc(), &[], &writes).expect(&rt, "a file");
    assert!(rt; file.as_slice() == EMPTY.as_slice());
}

/// The commit is that of the last batch, and nothing is left in the file of the records before.
#[test]
fn the_file_after_two_batches(rt: HostRuntime) {
    let alloc = rt.alloc();
    let before = one_write(alloc, false).expect(&rt, "a write");
    let mut writes = Vec::new(alloc);
    let key = Vec::from_slice(alloc, &KEY).expect(&rt, "a key");
    writes.push(Write::Delete(key)).expect(&rt, "a write");
    let file = file_after(alloc, &before, &writes).expect(&rt, "a file");
    assert!(rt; file.as_slice() == EMPTY.as_slice());
}

/// Before the first batch there is no commit, and nothing is written.
#[test]
fn no_file_before_the_first_batch(rt: HostRuntime) {
    let alloc = rt.alloc();
    let mut shard = Shard::new(alloc, 9, TableKey::known());
    let core = Core::<Sha256, 2>::open(alloc, &mut LentShard::new(&mut shard), 0, 1).expect(
        &rt, "a core",
    );
    let mut out = ToMemory::new(alloc);
    let answer = signed_car(alloc, &core, &SIGNATURE, &mut out);
    core.end(&mut LentShard::new(&mut shard));
    assert!(rt; answer == Ok(None) && out.bytes().is_empty());
}

/// Whether a file's commit is the one that was signed.
fn has_commit(found: &Repository<'_>) -> bool {
    let commit = &found.commit;
    commit.did == DID
        && commit.rev == REV
        && commit.sig == SIGNATURE.as_slice()
        && commit.prev.is_none()
}

/// Whether each record is the one that was created, under its key.
fn has_records(alloc: Global, found: &Repository<'_>, count: u16) -> bool {
    let mut n: u16 = 0;
    for record in &found.records {
        let Ok(key) = key_of(alloc, n) else {
            return false;
        };
        if record.key != key || record.bytes != record_of(n / 2).as_slice() {
            return false;
        }
        n = n.saturating_add(1);
    }
    n == count
}

/// Whether a file is read back as the repository of so many records.
fn reads_back(alloc: Global, file: &[u8], count: u16) -> bool {
    match check::<Sha256, 2, Global>(alloc, file) {
        Ok(found) => has_commit(&found) && has_records(alloc, &found, count),
        Err(_) => false,
    }
}

#[test]
fn two_thousand_records_are_read_back(rt: HostRuntime) {
    let writes = many_writes(rt.alloc(), 2000).expect(&rt, "writes");
    let file = file_after(rt.alloc(), &[], &writes).expect(&rt, "a file");
    assert!(rt; reads_back(rt.alloc(), &file, 2000));
}
