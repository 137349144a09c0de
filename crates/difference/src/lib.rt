//! The difference of two trees: which keys were added, changed and taken away between two roots, which nodes come, and which
//! go.
//!
//! Both trees are opened layer by layer, from the higher top down. Between two layers a tree is a line: its pairs of the layers
//! above in order, and between them the links to what is below. A link that stands in both lines is of a subtree that both
//! trees have: it is left out of both, and not read. Every other link is of a node that the other tree lacks, and is read. At
//! the end the lines are pairs alone, and are merged. Where a block is missing, `missing` names all that its layer lacks.
#![tactic(auto)]

mod comparing;
mod faults;
mod keys;
mod lacking;
pub mod laws;
mod line;
mod merging;
mod needs;
mod outcome;
mod read_nodes;
mod side;

pub use comparing::difference;
pub use faults::DifferenceFault;
pub use lacking::missing;
pub use outcome::{Difference, KeyDifference};
