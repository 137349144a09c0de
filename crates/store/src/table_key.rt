//! The key under which tables hash CIDs.

ghost use Rattle.std.specs.Prelude.{◌≡◌};
ghost use Rattle.store.specs.Keys.{state_after};

use std::hash::{BuildHasher, DefaultHasher, Hasher};
use std::marker::Model;

/// The key of a store's tables, two numbers. Whoever doesn't know them can't choose blocks whose CIDs meet in a table.
///
/// A contract sees it as what SipHash is at once it has read the two numbers; a table goes on from there with a CID.
#[derive(Clone, Copy)]
pub struct TableKey {
    hasher: DefaultHasher,
}

impl Model for TableKey {
    ghost use Rattle.std.specs.declared.hash.DefaultHasher.{DefaultHasher};

    ghost Value = { DefaultHasher };

    ghost view = { λ key. key.hasher };

    ghost inverse = { λ hasher. record { hasher = hasher } };
}

impl TableKey {
    /// The key of these two numbers. Random ones are the caller's to draw.
    pub fn of(first: u64, second: u64) -> TableKey
        ensures { result ≡ state_after first second }
    {
        let mut hasher = DefaultHasher::new();
        hasher.write_u64(first);
        hasher.write_u64(second);
        TableKey { hasher }
    }

    /// A key that everybody knows, for tables of blocks that no stranger chooses: that of two zeros.
    pub fn known() -> TableKey
        ensures { result ≡ state_after 0 0 }
    {
        TableKey::of(0, 0)
    }
}

impl BuildHasher for TableKey {
    type Hasher = DefaultHasher;

    ghost build_hasher = { λ key. key };

    fn build_hasher(&self) -> DefaultHasher {
        self.hasher
    }
}
