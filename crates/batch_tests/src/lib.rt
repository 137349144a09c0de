//! Tests of batches and of the blocks that a core keeps: keys, DIDs and revisions to the byte, the order of the tests,
//! commits by their bytes, uses of blocks.
#![tactic(auto)]

#[cfg(test)]
mod commits;
#[cfg(test)]
mod faults;
#[cfg(test)]
mod kept_blocks;
#[cfg(test)]
mod long;
#[cfg(test)]
mod opened;
#[cfg(test)]
mod texts;
