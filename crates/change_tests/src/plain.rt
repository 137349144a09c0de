//! What changes make of pairs, plainly: a sorted list of them, changed key by key.

ghost use Rattle.std.specs.Prelude.{◌≤◌};

use crate::fixtures::Pairs;
use cid::{Cid, Digest, layer};
use edit::Change;
use std::alloc::{AllocError, Global};
use std::cmp::Ordering;

/// The place of a key among the pairs, and its value where it is there.
pub(crate) fn place_of(pairs: &[(Vec<u8>, Cid)], key: &[u8]) -> (usize, Option<Cid>) {
    for (place, (other, value)) in pairs.iter().enumerate() {
        match other.as_slice().cmp(key) {
            Ordering::Less => {}
            Ordering::Equal => return (place, Some(*value)),
            Ordering::Greater => return (place, None),
        }
    }
    (pairs.len(), None)
}

/// Puts a pair at a place among the pairs.
fn insert(
    alloc: Global,
    pairs: &mut Pairs,
    place: usize,
    key: &[u8],
    value: Cid,
) -> Result<(), AllocError> {
    let key = Vec::from_slice(alloc, key)?;
    if place <= pairs.len() {
        pairs.insert(place, (key, value))?;
    }
    Ok(())
}

/// Does a change to the pairs, and answers the key's value before.
fn change_pair(
    alloc: Global,
    pairs: &mut Pairs,
    change: &Change<'_>,
) -> Result<Option<Cid>, AllocError> {
    let (place, previous) = place_of(pairs, change.key);
    if previous.is_some() && place < pairs.len() {
        pairs.remove(place);
    }
    if let Some(value) = change.value {
        insert(alloc, pairs, place, change.key, value)?;
    }
    Ok(previous)
}

/// Does each of the changes to the pairs, and answers the keys' values before.
pub(crate) fn change_pairs(
    alloc: Global,
    pairs: &mut Pairs,
    changes: &[Change<'_>],
) -> Result<Vec<Option<Cid>>, AllocError> {
    let mut previous = Vec::new(alloc);
    for change in changes {
        previous.push(change_pair(alloc, pairs, change)?)?;
    }
    Ok(previous)
}

/// The layer of the top of the tree of some pairs.
fn top_layer<D: Digest, const B: u8>(pairs: &[(Vec<u8>, Cid)]) -> u16
    requires least { 1 ≤ B }
    requires most { B ≤ 8 }
{
    let mut top = 0;
    for (key, _) in pairs {
        top = top.max(layer::<D, B>(key));
    }
    top
}

/// How many nodes of the tree of these pairs are read at most for some changes: its top, and below it one a layer for a
/// put, and two for a delete.
pub(crate) fn most_reads<D: Digest, const B: u8>(
    pairs: &[(Vec<u8>, Cid)],
    changes: &[Change<'_>],
) -> u64
    requires least { 1 ≤ B }
    requires most { B ≤ 8 }
{
    let top = u64::from(top_layer::<D, B>(pairs));
    let mut most = 1u64;
    for change in changes {
        let reads = if change.value.is_some() { top } else { 2 * top };
        most = most.saturating_add(reads);
    }
    most
}
