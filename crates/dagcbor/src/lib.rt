//! DAG-CBOR (IPLD DAG-CBOR, a strict form of RFC 8949): heads and values, each in its one spelling.
//!
//! - [`read`] takes exactly the bytes that spell one value, and lends its texts and byte strings from them. Integers have
//!   64 bits, no tag stands but that of a link, the keys of a map are texts in order, and values nest to [`MAX_DEPTH`].
//!   What it refuses it names by the first fault, [`CborFault`].
//! - [`spells_map`] tests whether bytes spell a map, with the faults of `read`. It keeps nothing and takes no memory.
//! - [`write`] spells a [`Value`] that is lawful, which [`is_lawful`] tests: one that `read` could have given.
//! - [`Cursor`] reads bytes head by head, for a reader that knows what form it expects, as that of a tree's nodes. It
//!   takes no memory.
//!
//! Use `read` for records from outside, and a cursor where the form is fixed. README.md has an example that writes a
//! record and reads it back.
#![tactic(auto)]

mod cid;
mod cursor;
mod fault;
mod head;
mod keys;
mod lawful;
mod link;
mod major;
mod number;
mod passing;
mod reading;
mod room;
mod text;
mod value;
mod writing;

pub use cursor::Cursor;
pub use fault::CborFault;
pub use lawful::is_lawful;
pub use link::{BEFORE_CID, LINK_HEAD, LINK_TAG};
pub use major::Major;
pub use number::varint;
pub use passing::spells_map;
pub use reading::read;
pub use value::{MAX_DEPTH, Value};
pub use writing::{push_head, write};
