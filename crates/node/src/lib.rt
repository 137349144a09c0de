//! Nodes of a tree as blocks of bytes (AT Protocol repository v3, MST node data format).
//!
//! A node has a link to its left subtree, and entries: a key, the CID of its record, and a link to the subtree after it.
//! In its bytes a key is spelt without what it has in common with the key before.
//!
//! - [`NodeView::parse`] takes exactly the bytes of nodes and lends their parts, without memory and without a copy. It
//!   names the first fault, [`NodeFault`].
//!   `of_tested` shows a block that is known to be a node, without the tests.
//! - `entries` goes through the entries one by one, each an [`EntryView`]; [`KeyBuf`] puts whole keys together on the
//!   way.
//! - `find` says where a key stands, [`Place`]: in this node with its value, or below a link, or nowhere.
//! - [`Gap`] goes through the gaps between the entries, and knows where it stands in the bytes.
//! - [`NodeWriter`] writes a node entry by entry, in the order of the keys, or copies runs of entries from a gap on; `relinked`
//!   puts another link behind the last entry.
//!
//! Which nodes make a tree is for the crates above: `scratch` builds whole trees, `edit` changes one path. README.md has
//! an example that reads the top of a tree.
#![tactic(auto)]

mod common;
mod decode;
mod encode;
mod entries;
mod entry;
mod fault;
mod gap;
mod key_before;
mod key_buf;
mod parts;
mod place;
mod search;
mod skip;
mod tested;
mod view;
mod writer;

pub use common::is_key;
pub use decode::{link, link_or_null, literal};
pub use entries::Entries;
pub use entry::EntryView;
pub use fault::NodeFault;
pub use gap::Gap;
pub use key_buf::KeyBuf;
pub use place::Place;
pub use view::NodeView;
pub use writer::NodeWriter;
