//! What the tests of batches and of repositories stand on: batches as tables give them, how they end, cores over one
//! shard, and trees from scratch.
#![tactic(auto)]

pub mod batch;
pub mod cores;
pub mod ends;
pub mod trees;
