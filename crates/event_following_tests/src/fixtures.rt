//! A repository that tells its batches, and its mirror.

ghost use Rattle.std.specs.Prelude.{◌≤◌};

use cid::{Cid, Digest, Sha256};
use event_following::{FollowingFault, check_and_apply};
use event_writing::{Told, commit_event};
use key_changes::{KeyChange, are_key_changes};
use repo::Core;
use repo_fixtures::batch::{Step, batch_at, rev_after};
use repo_fixtures::cores::apply_made;
use repo_fixtures::ends::Ended;
use std::alloc::{Allocator, Global};
use std::process::Abort;
use store::{LentShard, Shard, TableKey};

/// Records.
pub(crate) const A: &[u8] = b"\xa1\x64text\x61A";

pub(crate) const B: &[u8] = b"\xa1\x64text\x61B";

/// A repository.
pub(crate) type Posts<M> = Core<Sha256, 2, M>;

/// An empty shard.
pub(crate) fn shard<M: Allocator + Copy>(alloc: M) -> Shard<Sha256, M> {
    Shard::new(alloc, 100_000, TableKey::known())
}

/// A repository without writes over a shard, which may have so many.
pub(crate) fn opened<R: Abort, G: Digest, const BITS: u8, M: Allocator + Copy>(
    rt: &R,
    alloc: M,
    shard: &mut Shard<G, M>,
    limit: usize,
) -> Core<G, BITS, M>
    requires bits { 1 ≤ BITS }
    requires few { BITS ≤ 8 }
    requires least { 1 ≤ limit }
    requires most { limit ≤ 1048576 }
{
    Core::open(alloc, &mut LentShard::new(shard), 0, limit).expect(rt, "a core")
}

/// A change from one record to another.
pub(crate) fn change<'k>(
    key: &'k [u8],
    before: Option<&[u8]>,
    after: Option<&[u8]>,
) -> KeyChange<'k> {
    KeyChange {
        key,
        before: value_of(before),
        after: value_of(after),
    }
}

/// The CID of a record, if there is one.
pub(crate) fn value_of(record: Option<&[u8]>) -> Option<Cid> {
    match record {
        Some(record) => Some(Cid::of::<Sha256>(record)),
        None => None,
    }
}

/// The message of a batch, which is accepted; none where it isn't, or can't be told.
pub(crate) fn message_of<G: Digest, const BITS: u8, M: Allocator + Copy>(
    alloc: M,
    shard: &mut Shard<G, M>,
    core: &mut Core<G, BITS, M>,
    turn: u16,
    steps: &[Step<'_>],
    changes: &[KeyChange<'_>],
) -> Option<Vec<u8, M>>
    requires { 1 ≤ BITS }
{
    let before = core.root();
    let Ended::Accepted(_) = apply_made(alloc, shard, core, batch_at(alloc, turn, steps)) else {
        return None;
    };
    let since = rev_after(turn.saturating_sub(1));
    let told = Told {
        seq: u64::from(turn),
        time: b"2024-01-01T00:00:00.000Z",
        since: Some(&since),
        sig: &[7; 64],
    };
    written(alloc, core, before, changes, &told)
}

/// The message of a repository's last batch, which led there from this root by these changes.
fn written<G: Digest, const BITS: u8, M: Allocator + Copy>(
    alloc: M,
    core: &Core<G, BITS, M>,
    before: Cid,
    changes: &[KeyChange<'_>],
    told: &Told<'_>,
) -> Option<Vec<u8, M>>
    requires { 1 ≤ BITS }
{
    if !are_key_changes(changes) {
        return None;
    }
    match commit_event::<G, BITS, M>(alloc, core, before, changes, told) {
        Ok(message) => Some(message),
        Err(_) => None,
    }
}

/// The root after a message that is followed, or why it isn't; a refusal that doesn't leave all as it was is none, and so is a
/// message without operations that doesn't.
pub(crate) fn followed<G: Digest, const BITS: u8, M: Allocator + Copy>(
    alloc: M,
    shard: &mut Shard<G, M>,
    mirror: &mut Core<G, BITS, M>,
    message: &[u8],
) -> Option<Result<Cid, FollowingFault<G, M>>>
    requires { 1 ≤ BITS }
{
    let (root, number) = (mirror.root(), mirror.number());
    let mut store = LentShard::new(shard);
    match check_and_apply(alloc, &mut store, mirror, message) {
        Ok(followed) => {
            let applied = followed.applied;
            let as_told = match applied {
                Some(applied) => applied.previous == root && applied.root == mirror.root(),
                None => mirror.root() == root && mirror.number() == number,
            };
            if as_told {
                Some(Ok(mirror.root()))
            } else {
                None
            }
        }
        Err(fault) => {
            if mirror.root() == root && mirror.number() == number {
                Some(Err(fault))
            } else {
                None
            }
        }
    }
}
