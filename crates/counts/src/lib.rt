//! A count that proofs alone read.
//!
//! A contract can say how often a source was asked for a block, a store was full, or an output failed, only where
//! something counts it. A [`Count`] is a field for that: a number of any size that takes no memory and no time. Whoever
//! does the thing counts it, and a ghost member of its trait names the number:
//!
//! ```text
//! impl<'a, D: Digest> Source<&'a Arc<Block<D>>> for OneBlock<'a, D> {
//!     ghost reads = { λ one. one.asked.times };
//!
//!     fn get(&mut self, cid: &Cid) -> Option<&'a Arc<Block<D>>> {
//!         self.asked = self.asked.once_more();
//!         ..
//! ```
#![tactic(auto)]

mod count;

pub use count::Count;
