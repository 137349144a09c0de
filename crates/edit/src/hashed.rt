//! Changes whose keys were hashed, each once.

ghost use Rattle.std.specs.Prelude.{◌≡◌, ◌≤◌, ◌∷◌, ◌++◌, [], IfOk, IfSome, OnOk};
ghost use Rattle.spec.specs.Layer.{layer as layer_of};
ghost use Rattle.batch_laws.specs.Counts.{layers_for, put_layers};

use cid::{Cid, Digest, layer, layer_four};
use key_changes::Change;
use std::alloc::{AllocError, Allocator};
use std::marker::{Model, PhantomData};

/// A change, whose key was hashed if it is put.
///
/// A contract sees it as the change: the pair of the key and the value.
#[derive(Drop)]
pub(crate) struct HashedChange<'k, D: Digest> {
    key: &'k [u8],
    value: Option<Cid>,

    /// How many zero bits the key's digest begins with: its layer, where each bit counts for one. That of a key that goes is
    /// never asked for.
    zeros: u16,
    digest: PhantomData<D>,
}

impl<'k, D: Digest> Model for HashedChange<'k, D> {
    ghost use Rattle.std.specs.Prelude.{◌≡◌, ℕ, List, Option, IfSome};
    ghost use Rattle.spec.specs.Layer.{layer};

    ghost Value = { List ℕ × Option (List ℕ) };

    ghost view = { λ c. (c.key.now, c.value) };

    ghost invariant = { λ c. IfSome c.value (λ _. c.zeros ≡ layer D.digest_of 1 c.key.now) };
}

impl<'k, D: Digest> HashedChange<'k, D> {
    /// The change: its key is hashed here, unless it goes.
    pub(crate) fn of(change: &Change<'k>) -> HashedChange<'k, D>
        ensures { result ≡ change.now }
    {
        let zeros = match change.value() {
            Some(_) => layer::<D, 1>(change.key()),
            None => 0,
        };
        HashedChange::with_zeros(change, zeros)
    }

    /// The change: where its key is put, the key's digest begins with so many zero bits.
    fn with_zeros(change: &Change<'k>, zeros: u16) -> HashedChange<'k, D>
        requires { IfSome change.now.1 (λ _. zeros ≡ layer_of D.digest_of 1 change.now.0) }
        ensures { result ≡ change.now }
    {
        HashedChange {
            key: change.key(),
            value: change.value(),
            zeros,
            digest: PhantomData,
        }
    }

    /// The key.
    pub(crate) fn key(&self) -> &'k [u8]
        ensures { result.now ≡ self.now.0 }
    {
        self.key
    }

    /// The value that it is to have.
    pub(crate) fn value(&self) -> Option<Cid>
        ensures { result ≡ self.now.1 }
    {
        self.value
    }

    /// How many layers the new tree has at least for the key: one more than its layer, and 0 where it goes.
    pub(crate) fn layers<const B: u8>(&self) -> u16
        requires least { 1 ≤ B }
        ensures { result ≡ layers_for (layer_of D.digest_of B) self.now.0 self.now.1 }
    {
        let Some(_) = self.value else {
            return 0;
        };
        self.zeros / u16::from(B) + 1
    }
}

/// The changes, each of whose keys is hashed once, here: four at a time, and the last ones by themselves.
pub(crate) fn hash_each<'k, D: Digest, A: Allocator>(
    alloc: A,
    changes: &[Change<'k>],
) -> Result<Vec<HashedChange<'k, D>, A>, AllocError>
    ensures { IfOk result (λ hashed. hashed.items ≡ changes.now) }
{
    let mut hashed = Vec::with_capacity(alloc, changes.len())?;
    let mut rest = changes;
    'fours: while let [a, b, c, d, after @ ..] = rest {
        push_four(&mut hashed, a, b, c, d)?;
        rest = after;
    }
    'last: for change in rest {
        hashed.push(HashedChange::of(change))?;
    }
    Ok(hashed)
}

/// Adds four changes. Where at least three of their keys are put, all four are hashed side by side, which takes about the time
/// of two by themselves.
fn push_four<'k, D: Digest, A: Allocator>(
    hashed: &mut Vec<HashedChange<'k, D>, A>,
    a: &Change<'k>,
    b: &Change<'k>,
    c: &Change<'k>,
    d: &Change<'k>,
) -> Result<(), AllocError>
    ensures { OnOk result (hashed.new.items
        ≡ hashed.old.items ++ a.now ∷ b.now ∷ c.now ∷ d.now ∷ []) }
{
    if count_puts(a, b, c, d) < 3 {
        hashed.push(HashedChange::of(a))?;
        hashed.push(HashedChange::of(b))?;
        hashed.push(HashedChange::of(c))?;
        hashed.push(HashedChange::of(d))?;
        return Ok(());
    }
    let zeros = layer_four::<D, 1>(a.key(), b.key(), c.key(), d.key());
    hashed.push(HashedChange::with_zeros(a, zeros[0]))?;
    hashed.push(HashedChange::with_zeros(b, zeros[1]))?;
    hashed.push(HashedChange::with_zeros(c, zeros[2]))?;
    hashed.push(HashedChange::with_zeros(d, zeros[3]))?;
    Ok(())
}

/// How many of four changes put their keys.
fn count_puts(a: &Change<'_>, b: &Change<'_>, c: &Change<'_>, d: &Change<'_>) -> u8 {
    u8::from(a.value().is_some())
        + u8::from(b.value().is_some())
        + u8::from(c.value().is_some())
        + u8::from(d.value().is_some())
}

/// How many layers the new tree has at least for the keys of all changes.
pub(crate) fn layers_of_puts<D: Digest, const B: u8>(changes: &[HashedChange<'_, D>]) -> u16
    requires least { 1 ≤ B }
    ensures { result ≡ put_layers (layer_of D.digest_of B) changes.now }
{
    let mut most = 0;
    for change in changes {
        most = most.max(change.layers::<B>());
    }
    most
}
