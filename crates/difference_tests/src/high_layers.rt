//! Trees of keys of high layers, which the old tree has, or the new one, both or none.

ghost use Rattle.std.specs.Prelude.{◌≤◌};

use crate::fixtures::{Pairs, Trees, blocks_without, compared, value, value_of};
use crate::plain::are_nodes_of;
use cid::Sha256;
use difference::KeyDifference;
use scratch::{Built, build, is_ascending};
use std::alloc::{AllocError, Global};

/// Keys whose digests begin with 0, 21, 9 and 3 zero bits, as they ascend: with one bit a layer, a tree of 22 layers.
const KEYS: [&[u8]; 4] = [
    b"2653ae71",
    b"app.bsky.feed.post/3e85fb",
    b"app.bsky.feed.post/454397e440ec",
    b"blue",
];

/// The number of the value that each of the keys has in a tree, or 0 where it isn't there.
type Chosen = [u8; 4];

/// All choices of keys.
const CHOICES: [Chosen; 16] = [
    [0, 0, 0, 0],
    [0, 0, 0, 1],
    [0, 0, 1, 0],
    [0, 0, 1, 1],
    [0, 1, 0, 0],
    [0, 1, 0, 1],
    [0, 1, 1, 0],
    [0, 1, 1, 1],
    [1, 0, 0, 0],
    [1, 0, 0, 1],
    [1, 0, 1, 0],
    [1, 0, 1, 1],
    [1, 1, 0, 0],
    [1, 1, 0, 1],
    [1, 1, 1, 0],
    [1, 1, 1, 1],
];

/// The pairs of the keys that are there.
fn pairs_of(alloc: Global, chosen: &Chosen) -> Result<Pairs, AllocError> {
    let mut pairs = Vec::new(alloc);
    for place in 0..4usize {
        if let Some(value) = value_of(chosen[place]) {
            pairs.push((Vec::from_slice(alloc, KEYS[place])?, value))?;
        }
    }
    Ok(pairs)
}

/// The tree of these keys.
fn tree<const B: u8>(alloc: Global, chosen: &Chosen) -> Option<Built<Sha256>>
    requires least { 1 ≤ B }
    requires most { B ≤ 8 }
{
    let pairs = pairs_of(alloc, chosen).ok()?;
    if !is_ascending(&pairs) {
        return None;
    }
    build::<Sha256, B, Vec<u8>, _>(alloc, &pairs).ok()
}

/// Whether the changes are just those of the keys whose values differ, in order.
fn are_changes_of(changes: &[KeyDifference], old: &Chosen, new: &Chosen) -> bool {
    let mut rest = changes;
    for place in 0..4usize {
        if old[place] == new[place] {
            continue;
        }
        let [change, later @ ..] = rest else {
            return false;
        };
        if change.key.as_slice() != KEYS[place]
            || change.before != value_of(old[place])
            || change.after != value_of(new[place])
        {
            return false;
        }
        rest = later;
    }
    rest.is_empty()
}

/// Whether these trees, of these keys, are compared rightly.
fn are_compared<const B: u8>(
    alloc: Global,
    old: &Chosen,
    new: &Chosen,
    trees: &Trees<Sha256>,
) -> bool
    requires { 1 ≤ B }
{
    let Ok(blocks) = blocks_without(alloc, trees, value(9)) else {
        return false;
    };
    let (answer, reads) = compared::<Sha256, B>(alloc, &blocks, trees.old.root, trees.new.root);
    match answer {
        Ok(found) => {
            are_changes_of(&found.changes, old, new) && are_nodes_of(&found, reads, trees)
        }
        Err(_) => false,
    }
}

/// Whether the trees of these keys are compared rightly.
fn is_right<const B: u8>(alloc: Global, old: &Chosen, new: &Chosen) -> bool
    requires least { 1 ≤ B }
    requires most { B ≤ 8 }
{
    let (Some(before), Some(after)) = (tree::<B>(alloc, old), tree::<B>(alloc, new)) else {
        return false;
    };
    let trees = Trees {
        old: before,
        new: after,
    };
    are_compared::<B>(alloc, old, new, &trees)
}

/// The keys that are there, with the value of another number.
fn with_others(chosen: &Chosen) -> Chosen {
    let [first, second, third, fourth] = *chosen;
    [
        first.saturating_mul(2),
        second.saturating_mul(2),
        third.saturating_mul(2),
        fourth.saturating_mul(2),
    ]
}

/// Whether a tree is compared rightly with each other one, whose keys have the same value and another.
fn is_compared_with_each<const B: u8>(alloc: Global, old: &Chosen) -> bool
    requires least { 1 ≤ B }
    requires most { B ≤ 8 }
{
    for new in &CHOICES {
        if !is_right::<B>(alloc, old, new) || !is_right::<B>(alloc, old, &with_others(new)) {
            return false;
        }
    }
    true
}

#[test]
fn keys_of_high_layers(rt: HostRuntime) {
    let alloc = rt.alloc();
    for old in &CHOICES {
        assert!(rt;
            is_compared_with_each::<1>(alloc, old) && is_compared_with_each::<2>(alloc, old)
        );
    }
}
