//! Nodes read and written pair by pair (AT Protocol repository v3, MST node data format).
//!
//! - [`KeyedEntries`] goes through the entries of a node from the front, each with its whole key, from the view of its bytes
//!   ([`node::NodeView`]).
//! - A [`Writer`] takes a link and a pair, a link and a pair, and so on, and the last link. It ends as a [`Draft`], which is
//!   the bytes of the new node and not yet a block. Pairs of an old node come in runs, as they stand in its bytes
//!   (`Writer::run`), where they follow the key before them (`Writer::follows`).
//! - `Draft::push` makes the block of a node, which needs no test, and answers its CID. `Draft::close` does so too, but for
//!   an empty node, one without pairs and without a link: there is no such node in a tree but the one of the empty tree, so
//!   it has no link. Both may be told a block that the node may be; where it is, it isn't hashed again.
//! - [`top_layer`] is the layer of a node's keys, by the first of them.
//!
//! ```text
//! let mut writer = Writer::new(alloc);
//! writer.pair(None, b"app.bsky.feed.post/3l", CidRef::from(&record))?;
//! let mut made = Made::new(alloc);
//! let cid = writer.finish(None)?.push::<Sha256>(None, &mut made)?; // the block is the last of made
//! ```
//!
//! A contract sees a node as its links and pairs in turn (`spec::specs::NodeFormat::Shape`). [`DraftFault::NotNode`] comes
//! only where what was written would be no node: keys that don't ascend, or a key of no bytes or of more than 1,024.
#![tactic(auto)]

mod draft;
mod entries;
mod layers;
mod made;
mod writer;

pub use draft::{Draft, DraftFault};
pub use entries::{KeyedEntries, to_cid};
pub use layers::top_layer;
pub use made::Made;
pub use writer::Writer;
