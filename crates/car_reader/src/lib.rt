//! CAR files as AT Protocol servers export them (CARv1), read where they lie.
//!
//! - [`read_car`] takes the bytes of a file and lends its root and its sections, in the order of the file. It names the first
//!   fault, [`CarFault`].
//! - [`are_named`] tells whether each section's CID is that of its block: each block is hashed once, four side by side.
//! - [`Places`] finds a block by its CID, the first of several.
//!
//! Nothing of the file is copied. Two tables are made: the sections, and their places by CID.
#![tactic(auto)]

mod car;
mod fault;
mod named;
mod parts;
mod places;
mod section;

pub use car::{Car, read_car};
pub use fault::CarFault;
pub use named::are_named;
pub use places::Places;
pub use section::Section;
