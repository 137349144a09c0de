//! A made-up file system.
ghost use Rattle.std.specs.Prelude.{◌≡◌, true, codes, None, Some, if◌then◌else◌};
ghost use Rattle.std.specs.Str.{bytes_eq};

use console::{Files, OpenFault, SaveFault};
use std::cell::Cell;

/// Two files, `old` and `new`, and one that may be saved. All others are refused.
#[derive(Drop)]
pub(crate) struct MadeUp<'a> {
    pub(crate) old: &'a [u8],
    pub(crate) new: &'a [u8],
    /// The name and the bytes of the only file that is let be saved.
    pub(crate) name: &'a str,
    pub(crate) bytes: &'a [u8],
    /// Why nothing is saved.
    pub(crate) refusal: Option<SaveFault>,
    /// How often a file was to be saved.
    pub(crate) saves: Cell<u32>,
}

impl<'a> Files for MadeUp<'a> {
    type Reader = &'a [u8];

    ghost holds = { λ files name. if bytes_eq name (codes "old") then Some files.old.now
        else if bytes_eq name (codes "new") then Some files.new.now else None };

    ghost saved = { λ files name bytes. (bytes_eq name files.name.now ≡ true)
        × (bytes_eq bytes files.bytes.now ≡ true) };

    fn open(&self, name: &str) -> Result<&'a [u8], OpenFault> {
        if name == "old" {
            return Ok(self.old);
        }
        if name == "new" {
            return Ok(self.new);
        }
        Err(OpenFault::NotFound)
    }

    fn save(&self, name: &str, bytes: &[u8]) -> Result<(), SaveFault> {
        self.saves.set(self.saves.get().wrapping_add(1));
        if let Some(fault) = self.refusal {
            return Err(fault);
        }
        if name == self.name && bytes == self.bytes {
            return Ok(());
        }
        Err(SaveFault::Unopened(OpenFault::Failed))
    }
}
