//! The example of the crate `repo`: from its first `use` on, this file is what the root of that crate shows.

use batches::{Stamp, Write};
use cid::{Cid, Sha256};
use repo::Core;
use scratch::build;
use std::test::Fail;
use store::{LentShard, Shard, TableKey};

#[test]
fn a_batch_at_once_and_one_in_two_steps(rt: HostRuntime) -> Result<(), Fail> {
    let alloc = rt.alloc();

    // A batch: a record is put, and another one takes its place. The stamp is for the commit.
    let key = b"app.bsky.feed.post/3jzfcijpj2z2a".as_slice();
    let [hello, bye] = [
        b"\xa1\x64text\x65hello".as_slice(),
        b"\xa1\x64text\x63bye".as_slice(),
    ];
    let mut writes = Vec::new(alloc);
    for bytes in [hello, bye] {
        writes.push(Write::Put(Vec::from_slice(alloc, key)?, Vec::from_slice(alloc, bytes)?))?;
    }
    let stamp = Stamp {
        did: Vec::from_slice(alloc, b"did:web:example.com")?,
        rev: Vec::from_slice(alloc, b"3jzfcijpj2z2a")?,
    };

    // A second batch, under a later revision: the record goes.
    let mut later_writes = Vec::new(alloc);
    later_writes.push(Write::Delete(Vec::from_slice(alloc, key)?))?;
    let later = Stamp {
        did: Vec::from_slice(alloc, b"did:web:example.com")?,
        rev: Vec::from_slice(alloc, b"3jzfcijpj2z2b")?,
    };

    // A repository of at most 1,000 writes, under number 0, over one shard of at most 1,000 blocks.
    let mut shard = Shard::new(alloc, 1000, TableKey::known());
    let mut store = LentShard::new(&mut shard);
    let mut core = Core::<Sha256, 2, _>::open(alloc, &mut store, 0, 1000).expect(&rt, "a core");

    // All writes of a batch are accepted, or none.
    let applied = core.apply(alloc, &mut store, &stamp, &writes);
    let root = core.root();
    let found = core.get(key).is_some_and(|record| record.bytes() == bye);

    // In two steps: the root after a batch and its commit, whose bytes are signed, are known before it is accepted. One
    // that is let go leaves all as it was.
    let (before, signed) = match core.prepare(alloc, &later, &later_writes) {
        Ok(prepared) => (prepared.previous(), Some(prepared.commit_block().cid())),
        Err(_) => (root, None),
    };
    let accepted = match core.prepare(alloc, &later, &later_writes) {
        Ok(prepared) => core.accept(&mut store, prepared).is_ok(),
        Err(_) => false,
    };
    let commit = core.commit();

    // A core can't be dropped: its blocks go back to the store.
    core.end(&mut store);
    assert!(rt; applied.is_ok_and(|applied| applied.number == 2 && applied.root == root) && found);
    assert!(rt; accepted && before == root && commit == signed);

    // Its root was that of the tree from scratch of what the first writes leave.
    let built = build::<Sha256, 2, _, _>(alloc, &[(key, Cid::of::<Sha256>(bye))])?;
    assert!(rt; root == built.root);
    Ok(())
}
