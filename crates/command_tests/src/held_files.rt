//! Files in memory, which stand in for those of an operating system.
ghost use Rattle.std.specs.Prelude.{None, Some, if◌then◌else◌};
ghost use Rattle.std.specs.Str.{bytes_eq};

use console::{Files, OpenFault, SaveFault};

/// One file, or none where it has no bytes. All others are refused, and none is saved.
#[derive(Clone, Copy)]
pub(crate) struct HeldFile<'a> {
    pub(crate) name: &'a str,
    pub(crate) bytes: &'a [u8],
    pub(crate) refusal: OpenFault,
}

/// No file that a test names.
pub(crate) const NO_FILES: HeldFile<'static> = HeldFile {
    name: "",
    bytes: b"",
    refusal: OpenFault::NotFound,
};

impl<'a> Files for HeldFile<'a> {
    type Reader = &'a [u8];

    ghost holds = { λ file name.
        if bytes_eq name file.name.now then Some file.bytes.now else None };

    fn open(&self, name: &str) -> Result<&'a [u8], OpenFault> {
        if name == self.name {
            Ok(self.bytes)
        } else {
            Err(self.refusal)
        }
    }

    fn save(&self, _name: &str, _bytes: &[u8]) -> Result<(), SaveFault> {
        Err(SaveFault::Unopened(OpenFault::Denied))
    }
}
