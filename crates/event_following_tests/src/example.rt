//! The example of the crate `event_following`.

use batches::{Stamp, Write};
use cid::{Cid, Sha256};
use event_following::check_and_apply;
use event_writing::{Told, commit_event};
use key_changes::{KeyChange, are_key_changes};
use repo::Core;
use std::test::Fail;
use store::{LentShard, Shard, TableKey};

#[test]
fn a_mirror_follows_a_message(rt: HostRuntime) -> Result<(), Fail> {
    let alloc = rt.alloc();

    // A batch that puts one record, where none was, and what it changes.
    let key = b"app.bsky.feed.post/3jzfcijpj2z2a".as_slice();
    let bytes = b"\xa1\x64text\x65hello".as_slice();
    let mut writes = Vec::new(alloc);
    writes.push(Write::Put(Vec::from_slice(alloc, key)?, Vec::from_slice(alloc, bytes)?))?;
    let stamp = Stamp {
        did: Vec::from_slice(alloc, b"did:web:example.com")?,
        rev: Vec::from_slice(alloc, b"3jzfcijpj2z2a")?,
    };
    let changes = [KeyChange {
        key,
        before: None,
        after: Some(Cid::of::<Sha256>(bytes)),
    }];
    assert!(rt; are_key_changes(&changes));
    let told = Told {
        seq: 1,
        time: b"2024-01-01T00:00:00Z",
        since: None,
        sig: &[7; 64],
    };

    // A repository and its mirror, here over one shard.
    let mut shard = Shard::new(alloc, 1000, TableKey::known());
    let mut store = LentShard::new(&mut shard);
    let mut core = Core::<Sha256, 2, _>::open(alloc, &mut store, 0, 1000).expect(&rt, "a core");
    let mut mirror = Core::<Sha256, 2, _>::open(alloc, &mut store, 1, 1000).expect(&rt, "a core");
    let before = core.root();
    let applied = core.apply(alloc, &mut store, &stamp, &writes).is_ok();

    // The message of the batch, which the mirror follows: it has the repository's root then.
    let followed = match commit_event::<Sha256, 2, _>(alloc, &core, before, &changes, &told) {
        Ok(message) => check_and_apply(alloc, &mut store, &mut mirror, &message).is_ok(),
        Err(_) => false,
    };
    let same = mirror.root() == core.root() && mirror.get(key).is_some();
    core.end(&mut store);
    mirror.end(&mut store);
    assert!(rt; applied && followed && same);
    Ok(())
}
