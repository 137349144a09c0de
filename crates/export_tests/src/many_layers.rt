//! A repository whose tree has twenty-two layers, and each call that reads it.

use crate::fixtures::{ONE, Record, TWO, copies_of, end, file_of, opened, takes};
use cid::{Cid, Sha256};
use export::{prove, verify};
use repo::Core;
use std::alloc::Global;
use store::{Shard, TableKey};

/// Records whose keys' digests begin with 0, 21, 9 and 0 zero bits.
const RECORDS: &[Record<'static>] = &[
    (b"app.bsky.feed.post/3e85fa", ONE),
    (b"app.bsky.feed.post/3e85fb", TWO),
    (b"app.bsky.feed.post/454397e440ec", ONE),
    (b"app.bsky.feed.post/5", TWO),
];

/// How many nodes the path of each key has, where one zero bit is a layer.
const PATHS: [usize; 4] = [22, 1, 13, 22];

/// Whether a core finds a record, and proves it by so many nodes.
fn is_read(alloc: Global, core: &Core<Sha256, 1>, record: &Record<'_>, path: usize) -> bool {
    let (key, bytes) = *record;
    let is_found = match core.get(key) {
        Some(block) => block.bytes() == bytes,
        None => false,
    };
    let Ok(nodes) = prove(alloc, core, key) else {
        return false;
    };
    let Ok(proof) = copies_of(alloc, &nodes) else {
        return false;
    };
    let value = Some(Cid::of::<Sha256>(bytes));
    is_found
        && nodes.len() == path
        && verify::<Sha256, 1, Vec<u8>>(&core.root(), &proof, key) == Ok(value)
}

/// Whether it does so with each record, lists them and exports them.
fn are_read(alloc: Global, core: &Core<Sha256, 1>) -> bool {
    for (record, path) in RECORDS.iter().zip(&PATHS) {
        if !is_read(alloc, core, record, *path) {
            return false;
        }
    }
    match core.list(alloc, b"", usize::MAX) {
        Ok(pairs) => pairs.len() == 4 && file_of(alloc, alloc, core).is_some(),
        Err(_) => false,
    }
}

#[test]
fn twenty_two_layers(rt: HostRuntime) {
    let mut shard = Shard::new(rt.alloc(), 200, TableKey::known());
    let mut core = opened::<_, Sha256, 1, _>(&rt, rt.alloc(), &mut shard);
    let taken = takes(rt.alloc(), &mut shard, &mut core, RECORDS);
    let are_read = are_read(rt.alloc(), &core);
    end(&mut shard, core);
    assert!(rt; taken && are_read);
}
