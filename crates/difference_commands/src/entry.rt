//! What a file has under a key, lent.
ghost use Rattle.std.specs.Prelude.{◌≡◌};

use std::convert::AsSlice;
use std::marker::Model;

/// A key and its record, both lent. Where a file has no records, no bytes stand for each.
///
/// A contract sees it as both.
#[derive(Drop)]
pub(crate) struct Entry<'p> {
    key: &'p [u8],
    record: &'p [u8],
}

impl<'p> Model for Entry<'p> {
    ghost use Rattle.std.specs.Prelude.{ℕ, List};

    ghost Value = { List ℕ × List ℕ };

    ghost view = { λ entry. (entry.key.now, entry.record.now) };
}

impl<'p> Entry<'p> {
    /// The entry of a key and its record.
    pub(crate) fn new(key: &'p [u8], record: &'p [u8]) -> Entry<'p>
        ensures { result ≡ (key.now, record.now) }
    {
        Entry { key, record }
    }

    /// Its key.
    pub(crate) fn key(&self) -> &'p [u8]
        ensures { result.now ≡ self.now.0 }
    {
        self.key
    }

    /// The record.
    pub(crate) fn record(&self) -> &'p [u8]
        ensures { result.now ≡ self.now.1 }
    {
        self.record
    }
}

/// A tree sorts it by its key.
impl<'p> AsSlice<u8> for Entry<'p> {
    ghost items = { λ entry. entry.0 };

    fn as_slice(&self) -> &[u8] {
        self.key
    }
}
