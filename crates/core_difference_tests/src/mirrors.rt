//! A mirror that takes what it differs by from the repository.

use crate::spans::{FIRST, SECOND, THIRD, opened};
use change_proofs::{KeyChange, are_key_changes, prove_change};
use cid::{Cid, Sha256};
use core_differences::{Span, prove_span};
use difference_taking::{TakingFault, take_difference};
use key_changes::{Change, are_changes};
use repo::Core;
use repo_fixtures::batch::{DID, EMPTY, ONE, TWO, rev_after, stamp_of};
use repo_fixtures::cores::{counts, end};
use repo_fixtures::ends::{Why, why_of};
use std::alloc::{AllocError, Global};
use store::{LentShard, Shard, TableKey};

/// How a difference ended that was to be taken.
#[derive(Clone, Copy, PartialEq, Eq)]
enum Taken {
    /// Then so many writes are accepted in all.
    All(u64),
    Missing(usize),
    Other(usize),
    Refused(usize, Why),
    NoMemory,
}

/// The changes of a span, as they are taken.
fn changes_of<'k>(alloc: Global, span: &'k Span<Sha256>) -> Result<Vec<KeyChange<'k>>, AllocError> {
    let mut told = Vec::new(alloc);
    for change in &span.changes {
        told.push(KeyChange {
            key: &change.key,
            before: change.before,
            after: change.after,
        })?;
    }
    Ok(told)
}

/// How these changes end that the mirror takes with these records, under the timestamp identifier that comes so many after the
/// first one.
fn take(
    alloc: Global,
    shard: &mut Shard<Sha256>,
    mirror: &mut Core<Sha256, 2>,
    turn: u16,
    changes: &[KeyChange<'_>],
    records: &[&[u8]],
) -> Taken {
    if !are_key_changes(changes) {
        return Taken::NoMemory;
    }
    let Ok(stamp) = stamp_of(alloc, DID, &rev_after(turn)) else {
        return Taken::NoMemory;
    };
    let mut store = LentShard::new(shard);
    match take_difference(alloc, &mut store, mirror, &stamp, changes, records) {
        Ok(applied) => Taken::All(applied.number),
        Err(TakingFault::RecordMissing(place)) => Taken::Missing(place),
        Err(TakingFault::OtherValue(place)) => Taken::Other(place),
        Err(TakingFault::Refused(place, fault)) => Taken::Refused(place, why_of(&fault)),
        Err(TakingFault::NoMemory) => Taken::NoMemory,
    }
}

/// Whether the mirror refuses what it should, and stays as it is.
fn refuses(
    alloc: Global,
    shard: &mut Shard<Sha256>,
    mirror: &mut Core<Sha256, 2>,
    changes: &[KeyChange<'_>],
) -> bool {
    let (root, held) = (mirror.root(), counts(shard));
    let lacks_a_record = take(alloc, shard, mirror, 3, changes, &[ONE, EMPTY]);
    let at_an_old_revision = take(alloc, shard, mirror, 0, changes, &[EMPTY, ONE, TWO]);
    let of_nothing = take(alloc, shard, mirror, 3, &[], &[ONE]);
    lacks_a_record == Taken::Missing(2)
        && at_an_old_revision == Taken::Refused(0, Why::RevOrder)
        && of_nothing == Taken::Refused(0, Why::EmptyBatch)
        && mirror.root() == root
        && counts(shard) == held
}

/// Whether the mirror has the root of the repository once it has taken what they differ by, in one batch, and doesn't take it
/// again.
fn catches_up(
    alloc: Global,
    shard: &mut Shard<Sha256>,
    mirror: &mut Core<Sha256, 2>,
    core: &Core<Sha256, 2>,
) -> bool {
    let Ok(span) = prove_span::<Sha256, 2, Global>(alloc, mirror, core) else {
        return false;
    };
    let Ok(changes) = changes_of(alloc, &span) else {
        return false;
    };
    let refused = refuses(alloc, shard, mirror, &changes);
    let taken = take(alloc, shard, mirror, 3, &changes, &[TWO, ONE, TWO, EMPTY]);
    let root = mirror.root();
    let again = take(alloc, shard, mirror, 4, &changes, &[ONE, TWO]);
    refused
        && taken == Taken::All(6)
        && root == core.root()
        && again == Taken::Other(0)
        && mirror.root() == root
}

#[test]
fn a_mirror_catches_up(rt: HostRuntime) {
    let alloc = rt.alloc();
    let mut shard = Shard::new(alloc, 1000, TableKey::known());
    let mut other = Shard::new(alloc, 1000, TableKey::known());
    let mut mirror = opened(&rt, alloc, &mut shard, 0, &[FIRST]);
    let core = opened(&rt, alloc, &mut other, 0, &[FIRST, SECOND, THIRD]);
    let right = catches_up(alloc, &mut shard, &mut mirror, &core);
    end(&mut shard, mirror);
    end(&mut other, core);
    let left = counts(&shard);
    assert!(rt; right && left == (0, 0));
}

/// The root that a repository would have with these changes done.
fn root_with(alloc: Global, core: &Core<Sha256, 2>, changes: &[KeyChange<'_>]) -> Option<Cid> {
    let mut done = Vec::new(alloc);
    for change in changes {
        let change = Change {
            key: change.key,
            value: change.after,
        };
        done.push(change).ok()?;
    }
    if !are_changes(&done) {
        return None;
    }
    let proof = prove_change::<Sha256, 2, Global>(alloc, core, &done).ok()?;
    Some(proof.after)
}

/// Whether a mirror sees by the root that a change was left out, before it takes the others and after.
fn sees_what_is_left_out(
    alloc: Global,
    shard: &mut Shard<Sha256>,
    mirror: &mut Core<Sha256, 2>,
    core: &Core<Sha256, 2>,
) -> bool {
    let Ok(span) = prove_span::<Sha256, 2, Global>(alloc, mirror, core) else {
        return false;
    };
    let Ok(changes) = changes_of(alloc, &span) else {
        return false;
    };
    if changes.len() != 3 {
        return false;
    }
    let some = &changes[..2];
    let before = mirror.root();
    let with_all = root_with(alloc, mirror, &changes);
    let with_two = root_with(alloc, mirror, some);
    let stayed = mirror.root() == before;
    let taken = take(alloc, shard, mirror, 3, some, &[TWO, ONE, EMPTY]);
    with_all == Some(core.root())
        && with_two.is_some()
        && with_two != with_all
        && stayed
        && taken == Taken::All(5)
        && Some(mirror.root()) == with_two
}

#[test]
fn a_mirror_sees_what_is_left_out(rt: HostRuntime) {
    let alloc = rt.alloc();
    let mut shard = Shard::new(alloc, 1000, TableKey::known());
    let mut other = Shard::new(alloc, 1000, TableKey::known());
    let mut mirror = opened(&rt, alloc, &mut shard, 0, &[FIRST]);
    let core = opened(&rt, alloc, &mut other, 0, &[FIRST, SECOND, THIRD]);
    let right = sees_what_is_left_out(alloc, &mut shard, &mut mirror, &core);
    end(&mut shard, mirror);
    end(&mut other, core);
    assert!(rt; right);
}
