//! Tests of digests, also side by side, of identifiers, counted blocks with their shards, and the allocator for tests.
#![tactic(auto)]

#[cfg(test)]
mod allocator;
#[cfg(test)]
mod counted_blocks;
#[cfg(test)]
mod digests;
#[cfg(test)]
mod example;
#[cfg(test)]
mod fixtures;
#[cfg(test)]
mod great_tables;
#[cfg(test)]
mod identifiers;
#[cfg(test)]
mod many_lists;
#[cfg(test)]
mod one_hash;
#[cfg(test)]
mod random_cores;
#[cfg(test)]
mod shards;
#[cfg(test)]
mod side_by_side;
#[cfg(test)]
mod stores;
#[cfg(test)]
mod without_memory;
