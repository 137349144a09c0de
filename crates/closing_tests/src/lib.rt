//! Tests of the close of a host: counts, what writers leave, cores and tables that don't agree, and memory refused.
#![tactic(auto)]

#[cfg(test)]
mod block_counts;
#[cfg(test)]
mod closes;
#[cfg(test)]
mod memory;
#[cfg(test)]
mod notices_left;
#[cfg(test)]
mod repositories;
#[cfg(test)]
mod uneven;
#[cfg(test)]
mod writer;
