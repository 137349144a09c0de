//! Operations in the order of their keys.

ghost use Rattle.std.specs.Prelude.{◌≡◌, ◌≤◌, [], length, map, slice_index, IfOk};
ghost use Rattle.std.specs.Ordering.{is_gt};
ghost use Rattle.edit_laws.specs.Order.{order};
ghost use Rattle.event_laws.specs.Verdict.{ordered, place_of as place_in, placed_from};
ghost use Rattle.commit_events.specs.Order.{place_among as place_before};

use key_changes::KeyChange;
use std::alloc::{AllocError, Allocator};
use std::marker::Model;

/// An operation, and its place in the message.
///
/// A contract sees it as the pair of both.
#[derive(Drop)]
pub struct Placed<'k> {
    place: usize,
    op: KeyChange<'k>,
}

impl<'k> Model for Placed<'k> {
    ghost use Rattle.event_laws.specs.Verdict.{Placed as Pair};

    ghost Value = { Pair };

    ghost view = { λ p. (p.place, p.op) };
}

impl<'k> Placed<'k> {
    /// Whether its key is after this one.
    #[tactic(auto, unfolding(edit_laws::specs::Order::order))]
    fn is_after(&self, key: &[u8]) -> bool
        ensures { result ≡ is_gt (order self.now.1.key key.now) }
    {
        self.op.key.cmp(key).is_gt()
    }

    /// Its place in the message.
    fn place(&self) -> usize
        ensures { result ≡ self.now.0 }
    {
        self.place
    }

    /// The operation.
    fn op(&self) -> KeyChange<'k>
        ensures { result ≡ self.now.1 }
    {
        copy_of(&self.op)
    }
}

/// An operation again.
fn copy_of<'k>(op: &KeyChange<'k>) -> KeyChange<'k>
    ensures { result ≡ op.now }
{
    KeyChange {
        key: op.key,
        before: op.before,
        after: op.after,
    }
}

/// How many operations come before one of this key: as many of the first as have keys that aren't after it.
fn place_among(sorted: &[Placed<'_>], key: &[u8]) -> usize
    ensures place { result ≡ place_before sorted.now key.now }
    ensures within { result ≤ length sorted.now }
{
    for (place, other) in sorted.iter().enumerate() {
        if other.is_after(key) {
            return place;
        }
    }
    sorted.len()
}

/// The operations in the order of their keys, each with its place; those of one key in the order of their places. A message has
/// few enough of them that each can be put into its place. `AllocError` comes where memory was refused.
pub fn in_order<'k, A: Allocator>(
    alloc: A,
    ops: &[KeyChange<'k>],
) -> Result<Vec<Placed<'k>, A>, AllocError>
    ensures { IfOk result (λ sorted. sorted.items ≡ ordered [] (placed_from 0 ops.now)) }
{
    let mut sorted = Vec::with_capacity(alloc, ops.len())?;
    for (place, op) in ops.iter().enumerate() {
        let at = place_among(&sorted, op.key);
        sorted.insert(
            at,
            Placed {
                place,
                op: copy_of(op),
            },
        )?;
    }
    Ok(sorted)
}

/// The operations alone, in their order. `AllocError` comes where memory was refused.
pub fn changes_of<'k, A: Allocator>(
    alloc: A,
    sorted: &[Placed<'k>],
) -> Result<Vec<KeyChange<'k>, A>, AllocError>
    ensures { IfOk result (λ changes. changes.items ≡ map (λ p. p.1) sorted.now) }
{
    let mut changes = Vec::with_capacity(alloc, sorted.len())?;
    for placed in sorted {
        changes.push(placed.op())?;
    }
    Ok(changes)
}

/// The place in the message of the operation at a place in the order of the keys, or 0 where there is none.
pub fn place_of(sorted: &[Placed<'_>], place: usize) -> usize
    ensures { result ≡ place_in sorted.now place }
{
    match sorted.get(place) {
        Some(placed) => placed.place(),
        None => 0,
    }
}
