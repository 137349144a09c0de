//! What some blocks show of a change between two roots.
//!
//! Who follows a repository knows a root of it, and is told the next root, which keys changed and how. It need neither believe
//! that nor fetch the repository. [`verify_change`] does the changes on the nodes of the tree *before* them, as far as these are
//! given, and sees whether the root after comes out. Then that root is the one of the pairs with the changes done, and so again a
//! root of pairs: steps can follow one another from the empty tree on. Nothing of who gave the blocks is trusted, but that it
//! found no other bytes with the CID of a node of the tree before.
//!
//! ```text
//! let changes = [KeyChange { key, before: None, after: Some(cid) }];
//! if are_key_changes(&changes) {
//!     verify_change::<Sha256, 2, _, _>(alloc, before, after, &blocks, &changes)?;
//! }
//! ```
//!
//! [`verify_inversion`] goes the other way, as the event stream's operation inversion does: it undoes the changes on the nodes of
//! the tree *after*, and sees whether the root before comes out. It speaks of whatever pairs have the root after. Of a root that
//! no pairs have it says nothing.
//!
//! [`prove_change`] gives the nodes for the one, before the changes are applied, and [`prove_inversion`] those for the other,
//! after they were.
//!
//! `undoing` undoes changes, and `turning` turns them round; `values` compares what the changed keys have in the tree whose
//! nodes are given, `given_blocks` has these, and `verifying_inversions` puts these
//! together; `verifying` is the same with the roots exchanged and the changes turned round. What the verdicts are and what they
//! mean is defined in the crates `change_laws` and `step_laws`; each answer but want of memory is such a verdict.
#![tactic(auto)]

mod change_fault;
mod change_proof;
mod given_blocks;
mod proving;
mod proving_fault;
mod proving_inversions;
mod turning;
mod undoing;
mod values;
mod verifying;
mod verifying_inversions;

pub use change_fault::ChangeFault;
pub use change_proof::ChangeProof;
pub use key_changes::{KeyChange, are_key_changes};
pub use proving::{prove_change, prove_change_over};
pub use proving_fault::ProvingFault;
pub use proving_inversions::{prove_inversion, prove_inversion_over};
pub use verifying::{verify_change, verify_change_blocks};
pub use verifying_inversions::{verify_inversion, verify_inversion_blocks};
