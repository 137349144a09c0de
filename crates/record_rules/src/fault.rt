//! Why bytes are no record.

use dagcbor::CborFault;
use thiserror::Error;

/// What is wrong with a record's bytes. The names are this repository's own.
#[derive(Clone, Copy, Debug, PartialEq, Eq, Error)]
pub enum RecordFault {
    /// The record has more than 1,048,576 bytes.
    #[error("the record is too long")]
    RecordSize,
    /// The record isn't DAG-CBOR: the first fault in it, which is never a want of memory.
    #[error("the record is not DAG-CBOR")]
    BadRecord(CborFault),
    /// The record is DAG-CBOR, but no map (AT Protocol data model).
    #[error("the record is not a map")]
    NotAMap,
}
