//! Unsigned commits.

use crate::opened::opened;
use batches::commit_bytes;
use cid::{Cid, Sha256};
use repo::{Applied, Core};
use repo_fixtures::batch::Step::{Delete, Put};
use repo_fixtures::batch::{Batch, EMPTY, EMPTY_NODE, batch_at, stamp_of, stamped};
use repo_fixtures::cores::{counts, end, held};
use std::alloc::{AllocError, Global};
use store::{LentShard, Shard, TableKey};

/// The commit of the tree without entries under the DID and the revision below, 96 bytes. The digest is SHA-256 of the node,
/// by another program.
const COMMIT: &[u8] =
    b"\xa5\x63did\x6bdid:web:a.b\x63rev\x6d3jzfcijpj2z2a\x64data\xd8\x2a\x58\x25\x00\
    \x01\x71\x12\x20\x9d\xfe\xfe\x61\xdd\x76\xea\x3d\xca\xe5\x02\x38\x80\xb0\x83\x79\
    \xd5\x7a\xdf\x20\x48\x2d\x6f\xdb\xe2\x75\x92\x89\xf6\x47\x67\x7b\
    \x64prev\xf6\x67version\x03";

const DID: &[u8] = b"did:web:a.b";

const REV: &[u8] = b"3jzfcijpj2z2a";

/// The node of the key `a/b` with the node without entries as its record, 63 bytes.
const NODE: &[u8] = b"\xa2\x61e\x81\xa4\x61k\x43a/b\x61p\x00\x61t\xf6\x61v\xd8\x2a\x58\x25\x00\
    \x01\x71\x12\x20\x9d\xfe\xfe\x61\xdd\x76\xea\x3d\xca\xe5\x02\x38\x80\xb0\x83\x79\
    \xd5\x7a\xdf\x20\x48\x2d\x6f\xdb\xe2\x75\x92\x89\xf6\x47\x67\x7b\x61l\xf6";

/// Whether the bytes of a commit are those above.
fn is_commit(alloc: Global) -> bool {
    let Ok(stamp) = stamp_of(alloc, DID, REV) else {
        return false;
    };
    match commit_bytes(alloc, &stamp, Cid::of::<Sha256>(EMPTY_NODE)) {
        Ok(bytes) => bytes.as_slice() == COMMIT,
        Err(_) => false,
    }
}

#[test]
fn commit_of_the_tree_without_entries(rt: HostRuntime) {
    assert!(rt; COMMIT.len() == 96 && is_commit(rt.alloc()));
}

/// What a batch leaves, where it is accepted.
fn applied(
    alloc: Global,
    shard: &mut Shard<Sha256>,
    core: &mut Core<Sha256, 2>,
    batch: Result<Batch<Global>, AllocError>,
) -> Option<Applied> {
    match batch {
        Ok(batch) => core
            .apply(
                alloc,
                &mut LentShard::new(shard),
                &batch.stamp,
                &batch.writes,
            )
            .ok(),
        Err(_) => None,
    }
}

/// The bytes of a core's last commit.
fn last_commit(core: &Core<Sha256, 2>) -> Option<&[u8]> {
    let block = core.block(&core.commit()?)?;
    Some(block.bytes())
}

/// Whether a batch left the second root of the two and the core's last commit.
fn left(core: &Core<Sha256, 2>, applied: &Applied, roots: [&[u8]; 2]) -> bool {
    let root = Cid::of::<Sha256>(roots[1]);
    core.root() == root
        && applied.root == root
        && applied.previous == Cid::of::<Sha256>(roots[0])
        && core.commit() == Some(applied.commit)
}

/// Whether a batch that leaves no record on a core without writes leaves the commit above.
fn leaves_the_commit(alloc: Global, shard: &mut Shard<Sha256>, core: &mut Core<Sha256, 2>) -> bool {
    let steps = [Put(b"a/b", EMPTY), Delete(b"a/b")];
    match applied(alloc, shard, core, stamped(alloc, DID, REV, &steps)) {
        Some(applied) => {
            applied.number == 2
                && applied.commit == Cid::of::<Sha256>(COMMIT)
                && left(core, &applied, [EMPTY_NODE, EMPTY_NODE])
                && last_commit(core) == Some(COMMIT)
        }
        None => false,
    }
}

/// The commit that a batch leaves which puts the node without entries under `a/b`, where it left the second root of the two
/// and a commit of 102 bytes.
fn put_node(
    alloc: Global,
    shard: &mut Shard<Sha256>,
    core: &mut Core<Sha256, 2>,
    turn: u16,
    roots: [&[u8]; 2],
) -> Option<Cid> {
    let batch = batch_at(alloc, turn, &[Put(b"a/b", EMPTY_NODE)]);
    let applied = applied(alloc, shard, core, batch)?;
    if left(core, &applied, roots) && last_commit(core)?.len() == 102 {
        Some(applied.commit)
    } else {
        None
    }
}

/// Whether a second put of the same leaves the same root and another commit, in the place of the first.
fn replaces_its_commit(
    alloc: Global,
    shard: &mut Shard<Sha256>,
    core: &mut Core<Sha256, 2>,
) -> bool {
    let first = put_node(alloc, shard, core, 0, [EMPTY_NODE, NODE]);
    let second = put_node(alloc, shard, core, 1, [NODE, NODE]);
    match (first, second) {
        (Some(first), Some(second)) => {
            core.block(&first).is_none() && shard.count(&first) == 0 && shard.count(&second) == 1
        }
        _ => false,
    }
}

/// Whether the commit of one core stands as a record in another, in one block.
fn is_record_of_another(
    alloc: Global,
    shard: &mut Shard<Sha256>,
    core: &mut Core<Sha256, 2>,
) -> bool {
    let batch = stamped(alloc, DID, REV, &[Put(b"a/b", COMMIT)]);
    applied(alloc, shard, core, batch).is_some()
        && shard.count(&Cid::of::<Sha256>(COMMIT)) == 2
        && held(shard, core) == Some(3)
}

/// Whether all of this is so for two repositories of one store. The blocks after the first's batch are the node without
/// entries, which both have, and its commit.
fn are_commits(
    alloc: Global,
    shard: &mut Shard<Sha256>,
    first: &mut Core<Sha256, 2>,
    second: &mut Core<Sha256, 2>,
) -> bool {
    first.commit().is_none()
        && leaves_the_commit(alloc, shard, first)
        && counts(shard) == (2, 3)
        && replaces_its_commit(alloc, shard, second)
        && is_record_of_another(alloc, shard, second)
        && held(shard, first) == Some(2)
}

#[test]
fn commits_of_two_repositories(rt: HostRuntime) {
    let mut shard = Shard::new(rt.alloc(), 9, TableKey::known());
    let mut first = opened(&rt, rt.alloc(), &mut shard, 0, 2000);
    let mut second = opened(&rt, rt.alloc(), &mut shard, 1, 2000);
    let is_right = are_commits(rt.alloc(), &mut shard, &mut first, &mut second);
    end(&mut shard, first);
    let count = shard.count(&Cid::of::<Sha256>(COMMIT));
    end(&mut shard, second);
    assert!(rt; NODE.len() == 63 && is_right && count == 1 && counts(&shard) == (0, 0));
}
