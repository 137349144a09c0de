//! CAR files (CARv1), written in memory.
//!
//! - [`CarWriter`] is a file in the making: a header that names one root, and a section for each block that is put whose CID
//!   comes first.
//! - [`push_header`] and [`push_section`] put the header and a section at the end of bytes.
//!
//! ```rust
//! use car_writing::CarWriter;
//! use cid::{Cid, Sha256};
//! use std::alloc::{AllocError, Global};
//!
//! fn a_file_of_two_blocks(alloc: Global) -> Result<Vec<u8>, AllocError> {
//!     let [top, below] = [b"\xa1\x61a\x01".as_slice(), b"\xa0".as_slice()];
//!     let root = Cid::of::<Sha256>(top);
//!     let mut file = CarWriter::new(alloc, &root)?;
//!     file.push::<Sha256>(&root, top)?;
//!     let cid = Cid::of::<Sha256>(below);
//!     for _again in 0..2 {
//!         // the second time it is there already
//!         file.push::<Sha256>(&cid, below)?;
//!     }
//!     Ok(file.into_bytes())
//! }
//! ```
#![tactic(auto)]

mod sections;
mod writer;

pub use sections::{push_header, push_section};
pub use writer::CarWriter;
