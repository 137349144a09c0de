//! The forms of records in lines.

/// In which form records stand in lines.
#[derive(Clone, Copy, PartialEq, Eq, Debug)]
pub enum Form {
    /// The bytes of DAG-CBOR in hexadecimal.
    Hex,
    /// JSON (AT Protocol data model).
    Json,
}
