//! Tests of exports and of proofs about single keys: worked examples, chains of nodes without keys, hostile blocks, outputs that
//! fail, and want of memory.
#![tactic(auto)]

#[cfg(test)]
mod cars;
#[cfg(test)]
mod chains;
#[cfg(test)]
mod fixtures;
#[cfg(test)]
mod key_proofs;
#[cfg(test)]
mod many_layers;
#[cfg(test)]
mod memory;
#[cfg(test)]
mod one_batch;
#[cfg(test)]
mod proofs;
#[cfg(test)]
mod signed;
#[cfg(test)]
mod writers;
