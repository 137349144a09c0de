//! Changes of keys.

ghost use Rattle.std.specs.Prelude.{◌≡◌};

use crate::keyed::Keyed;
use cid::Cid;
use std::marker::Model;

/// A key, and the value that it is to have, or none where it is to go.
///
/// A contract sees it as the pair of both.
#[derive(Drop)]
pub struct Change<'k> {
    pub key: &'k [u8],
    pub value: Option<Cid>,
}

impl<'k> Model for Change<'k> {
    ghost use Rattle.std.specs.Prelude.{ℕ, List, Option};

    ghost Value = { List ℕ × Option (List ℕ) };

    ghost view = { λ c. (c.key.now, c.value) };
}

impl<'k> Keyed for Change<'k> {
    ghost change = { λ c. c };

    fn key(&self) -> &[u8] {
        self.key
    }
}

impl<'k> Change<'k> {
    /// The key.
    pub fn key(&self) -> &'k [u8]
        ensures { result.now ≡ self.now.0 }
    {
        self.key
    }

    /// The value that it is to have.
    pub fn value(&self) -> Option<Cid>
        ensures { result ≡ self.now.1 }
    {
        self.value
    }
}

/// A key, and the CID of its record before and after a change, or none where the key isn't there.
///
/// A contract sees it as these three.
#[derive(Drop)]
pub struct KeyChange<'k> {
    pub key: &'k [u8],
    pub before: Option<Cid>,
    pub after: Option<Cid>,
}

impl<'k> Model for KeyChange<'k> {
    ghost use Rattle.change_laws.specs.Told.{KeyChange as Told};

    ghost Value = { Told };

    ghost view = { λ c. record { key = c.key.now; before = c.before; after = c.after } };
}

impl<'k> Keyed for KeyChange<'k> {
    // undone, as a verifier makes it
    ghost change = { λ c. (c.key, c.before) };

    fn key(&self) -> &[u8] {
        self.key
    }
}

impl<'k> KeyChange<'k> {
    /// The change undone: its key gets what it had before.
    pub fn undone(&self) -> Change<'k>
        ensures { result ≡ (self.now.key, self.now.before) }
    {
        Change {
            key: self.key,
            value: self.before,
        }
    }

    /// The value after the change.
    pub fn after(&self) -> Option<Cid>
        ensures { result ≡ self.now.after }
    {
        self.after
    }
}
