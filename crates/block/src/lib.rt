//! Blocks: bytes with their identifier, and with whether they are a node; and the writes whose records they are.
//!
//! - [`Block`] is bytes together with their CID, hashed once, when the block is made. It also knows whether the bytes are a
//!   node's, which is tested once, then, so that nobody tests it again: `node` lends the node of one that is, for as long as
//!   the block is lent. `Block::of_node` takes bytes that were written as a node's, and tests nothing; `Block::of_known`
//!   takes bytes whose CID is known, and hashes nothing.
//! - A block shared by `Arc` is what the crates above pass round, as it is.
//! - `Block::of_each` makes many blocks at once, whose digests are made side by side. `Block::of_writes` makes those of the
//!   records of writes: each keeps its write and lends the record from it, so that the record's bytes are there once.
//! - [`Write`] is a put, a create, an update or a delete of a record (AT Protocol repository v3). It is data: nothing is
//!   tested here; `batches` has the tests and passes the type on. `Write::share` makes a copy that several can keep: the list
//!   of a repository's accepted writes, and the block of the write's record.
//! - [`Collided`] shows two blocks with one CID and other bytes. It can't be made without two such blocks, so an error
//!   that carries one is always a real clash.
#![tactic(auto)]

mod block;
mod bytes;
mod collided;
mod write;

pub use block::Block;
pub use collided::Collided;
pub use write::Write;
