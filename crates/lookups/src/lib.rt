//! Look-ups and walks over the blocks of one tree, wherever these are kept.
//!
//! A tree is a root CID and a [`Source`] that gives blocks by CID. For whatever pairs the tree has (`HasTree`), what
//! comes out is that of these pairs.
//!
//! - [`get`] answers the value of a key. It reads one block for each node of the key's path, and takes no memory.
//! - [`walk`] lists pairs from a key on, up to a limit, and reads no block that it doesn't need.
//! - [`layers`] is how many layers a tree has at most.
//! - [`view_of`] shows the node that a block is.
//! - [`BlockMap`] is a source over a slice of blocks. The crate `kept` has the one of a repository, and `edit` changes trees
//!   over any.
//!
//! What a source gives is lent, `&'a Arc<Block<D, A>, A>`, and a block itself knows whether it is a node. A source of one's
//! own says for each CID what it gives, and counts its reads for proofs alone:
//!
//! ```text
//! struct OneBlock<'a, D: Digest> { block: &'a Arc<Block<D>>, asked: Count }
//!
//! impl<'a, D: Digest> Source<&'a Arc<Block<D>>> for OneBlock<'a, D> {
//!     ghost gives = { λ one. first_of D.digest_of (one.block.now ∷ []) };
//!     ghost reads = { λ one. one.asked.times };
//!
//!     fn get(&mut self, cid: &Cid) -> Option<&'a Arc<Block<D>>> {
//!         self.asked = self.asked.once_more();
//!         if self.block.cid() == *cid { Some(self.block) } else { None }
//!     }
//! }
//!
//! let value = get::<Sha256, 2, _, _>(&mut source, root, b"app.bsky.feed.post/3l");
//! ```
#![tactic(auto)]

mod block_map;
mod lookups;
mod nodes;
mod source;
mod walks;

pub use block_map::BlockMap;
pub use lookups::{get, layers};
pub use nodes::{Shows, view_of};
pub use source::{Given, Source};
pub use walks::{walk, walk_in_reads};
