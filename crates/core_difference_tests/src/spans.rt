//! A repository and its mirror, which was away for some batches.

ghost use Rattle.std.specs.Prelude.{◌<◌};

use change_proofs::{KeyChange, are_key_changes, verify_inversion_blocks};
use cid::{Cid, Sha256};
use core_differences::{Span, difference, prove_span};
use repo::Core;
use repo_fixtures::batch::{EMPTY, ONE, Step, TWO};
use repo_fixtures::cores::{apply_steps, end};
use std::alloc::{AllocError, Global};
use std::process::Abort;
use store::{LentShard, Shard, TableKey};

/// What both have.
pub(crate) const FIRST: &[Step<'static>] = &[
    Step::Put(b"a/a", EMPTY),
    Step::Put(b"a/b", EMPTY),
    Step::Put(b"a/c", ONE),
];

/// What the repository has beyond that: a key changes and changes back, one goes, and two come.
pub(crate) const SECOND: &[Step<'static>] = &[
    Step::Put(b"a/b", TWO),
    Step::Delete(b"a/c"),
    Step::Put(b"a/d", ONE),
];

pub(crate) const THIRD: &[Step<'static>] = &[Step::Put(b"a/b", EMPTY), Step::Put(b"a/e", TWO)];

/// A repository of this number over a shard, with these batches.
pub(crate) fn opened<R: Abort>(
    rt: &R,
    alloc: Global,
    shard: &mut Shard<Sha256>,
    me: u32,
    batches: &[&[Step<'static>]],
) -> Core<Sha256, 2>
    requires { me < 1024 }
{
    let mut core = Core::<Sha256, 2>::open(alloc, &mut LentShard::new(shard), me, 1000).expect(
        rt, "a core",
    );
    let mut turn = 0u16;
    for steps in batches {
        let _ = apply_steps(alloc, shard, &mut core, turn, steps);
        turn = turn.saturating_add(1);
    }
    core
}

/// Whether a span has the changes that the second and the third batch leave, and its nodes show them.
fn is_right(
    alloc: Global,
    span: &Span<Sha256>,
    before: Cid,
    after: Cid,
) -> Result<bool, AllocError> {
    let one = Cid::of::<Sha256>(ONE);
    let two = Cid::of::<Sha256>(TWO);
    let all = [
        (b"a/c".as_slice(), Some(one), None),
        (b"a/d".as_slice(), None, Some(one)),
        (b"a/e".as_slice(), None, Some(two)),
    ];
    if span.changes.len() != all.len() {
        return Ok(false);
    }
    let mut told = Vec::new(alloc);
    for (place, (key, old, new)) in all.iter().enumerate() {
        let Some(change) = span.changes.get(place) else {
            return Ok(false);
        };
        if change.key.as_slice() != *key || change.before != *old || change.after != *new {
            return Ok(false);
        }
        told.push(KeyChange {
            key: &change.key,
            before: change.before,
            after: change.after,
        })?;
    }
    if !are_key_changes(&told) {
        return Ok(false);
    }
    Ok(verify_inversion_blocks::<Sha256, 2, Global>(
        alloc,
        before,
        after,
        &span.nodes,
        &told,
    ).is_ok())
}

/// Whether the difference of a core and one with the later batches is right, and nothing differs from itself.
fn are_compared(alloc: Global, old: &Core<Sha256, 2>, new: &Core<Sha256, 2>) -> bool {
    let Ok(span) = prove_span::<Sha256, 2, Global>(alloc, old, new) else {
        return false;
    };
    let Ok(found) = difference::<Sha256, 2, Global>(alloc, old, new) else {
        return false;
    };
    let Ok(none) = difference::<Sha256, 2, Global>(alloc, old, old) else {
        return false;
    };
    match is_right(alloc, &span, old.root(), new.root()) {
        Ok(right) => {
            right
                && found.changes.len() == 3
                && !found.come.is_empty()
                && found.go.contains(&old.root())
                && none.changes.is_empty()
        }
        Err(_) => false,
    }
}

#[test]
fn of_one_store(rt: HostRuntime) {
    let alloc = rt.alloc();
    let mut shard = Shard::new(alloc, 1000, TableKey::known());
    let mirror = opened(&rt, alloc, &mut shard, 0, &[FIRST]);
    let core = opened(&rt, alloc, &mut shard, 1, &[FIRST, SECOND, THIRD]);
    let compared = are_compared(alloc, &mirror, &core);
    end(&mut shard, mirror);
    end(&mut shard, core);
    assert!(rt; compared);
}

#[test]
fn of_two_stores(rt: HostRuntime) {
    let alloc = rt.alloc();
    let mut shard = Shard::new(alloc, 1000, TableKey::known());
    let mut other = Shard::new(alloc, 1000, TableKey::known());
    let mirror = opened(&rt, alloc, &mut shard, 0, &[FIRST]);
    let core = opened(&rt, alloc, &mut other, 0, &[FIRST, SECOND, THIRD]);
    let compared = are_compared(alloc, &mirror, &core);
    end(&mut shard, mirror);
    end(&mut other, core);
    assert!(rt; compared);
}
