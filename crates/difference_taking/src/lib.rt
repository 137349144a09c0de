//! A repository takes what it differs from another by, so that a mirror follows without a batch of the writes.
//!
//! Who was away has the keys that differ, with the CIDs of their records before and after, as `core_differences` or a message
//! of the event stream tells them; the records that come; and the revision that all this is of. [`take_difference`] makes one
//! batch of that and applies it: a put for each key that has a record afterwards, a delete for each other.
//!
//! ```text
//! let span = prove_span::<Sha256, 2, _>(alloc, &mirror, &core)?; // here the changes come from a core that has both
//! let applied = take_difference(alloc, &mut store, &mut mirror, &stamp, &changes, &records)?;
//! ```
//!
//! `records` finds a record by its CID, `writes` makes the batch, `values` sees what the keys had.
#![tactic(auto)]

mod fault;
pub mod laws;
mod records;
mod taking;
mod values;
mod writes;

pub use fault::TakingFault;
pub use taking::take_difference;
