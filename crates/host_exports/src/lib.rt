//! CAR files and proofs of a host's repositories, and batches told before they are accepted.
//!
//! - [`car`] writes a repository as one file.
//! - [`prove`] gives the nodes that prove what a key holds.
//! - [`prove_change`] gives those that prove what a batch is to make of the tree, before it is applied, and [`prove_inversion`]
//!   those that prove, after it was, which keys changed and how. Both take the root of which the caller speaks, and answer
//!   `OtherRoot` where the repository has another one.
//!
//! - [`prepare`] tells what a batch will make of the repository, before it is applied: the roots before and after it, its
//!   commit's bytes, and the nodes that are read, that come and that go.
//!
//! Each is what `export`, `change_proofs` and `repo` answer for one core, under the read lock of its repository (`Host::read`), and
//! under no other lock: so it is right for some lawful list of accepted writes of this repository. It holds the lock until it
//! has answered. So a slow output holds back the writers of its repository, and those that come to read there after one of
//! these, as they wait behind it; nobody in another one. An output that itself waits for a call on this repository may wait
//! for ever.
#![tactic(auto)]

mod change_proving;
mod exporting;
mod fault;
mod inversion_proving;
mod preparing;

pub use change_proving::prove_change;
pub use exporting::{car, prove};
pub use fault::{CarFault, PrepareFault, ProveChangeFault, ProveFault, ProveInversionFault};
pub use inversion_proving::prove_inversion;
pub use preparing::prepare;
