//! The commands on an export.

/// What stands behind the key of a record.
#[derive(Clone, Copy, PartialEq, Eq, Debug)]
pub enum Values {
    /// Its bytes.
    Bytes,
    /// Its JSON.
    Json,
    /// Its CID.
    Cids,
}

/// A command on an export, with what its words say.
#[derive(Clone, Copy, PartialEq, Eq, Debug)]
pub enum ExportCommand {
    /// Write whose repository it is, its revision, the root of its tree and how many records it has.
    Check,
    /// Write its records, each under its key.
    Records(Values),
    /// Write the bytes that were signed, and the signature.
    Commit,
}
