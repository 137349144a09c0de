//! Exports of a repository, and proofs about its single keys.
//!
//! [`car`] writes a repository as one file (CARv1) to whatever is an [`Out`]: [`ToMemory`], or [`ToWriter`] over a writer of
//! the standard library. [`signed_car`] writes the file that a server serves, whose root is the commit with its signature.
//!
//! For who can't keep a whole file, [`car_length`] answers how many bytes it has, and makes none of them; [`car_part`] answers so many
//! of them from a place on: the parts behind one another are the file. A part costs the way through all that is before it. Who has
//! to have a large file, and not the memory for it, puts it together in one go: [`car_head`] is its header, and [`car_section`] the
//! section of a block by its CID.
//!
//! A proof that a tree has a value under a key, or none, is the list of the nodes on the key's path. [`prove`] makes it,
//! and [`verify`] tells what such blocks prove to someone who knows the tree's root alone: nothing of the host that gave them
//! is trusted, but that it found no other bytes with the CID of a block of the tree.
//!
//! ```text
//! let mut out = ToMemory::new(alloc);
//! let length: u64 = car(alloc, &core, &mut out)?;
//!
//! let proof = prove(alloc, &core, b"app.bsky.feed.post/3k")?;
//! let value: Option<Cid> = verify::<Sha256, 2, _>(&root, &blocks, b"app.bsky.feed.post/3k")?;
//! ```
#![tactic(auto)]

mod blocks;
mod cars;
mod export_fault;
mod found;
mod hashed;
mod once;
mod out;
mod parts;
mod pieces;
mod proof_blocks;
mod proof_fault;
mod proving;
mod sections;
mod seen;
mod signed;
mod taken;
mod to_memory;
mod to_writer;
mod varint;
mod verifying;
mod verifying_among;
mod walk;
mod whole;
mod window;

pub use cars::car;
pub use export_fault::ExportFault;
pub use out::{Failed, Out};
pub use parts::{car_length, car_part};
pub use pieces::{car_head, car_section};
pub use proof_fault::ProofFault;
pub use proving::prove;
pub use signed::signed_car;
pub use taken::Taken;
pub use to_memory::ToMemory;
pub use to_writer::ToWriter;
pub use verifying::verify;
pub use verifying_among::verify_among;
