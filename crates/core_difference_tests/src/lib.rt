//! Tests of the difference of two repositories: of one store and of two, over a span of batches in which a key changes and
//! changes back, and of one that is the same; what shows it is verified, and a mirror takes it.
#![tactic(auto)]

#[cfg(test)]
mod memory;
#[cfg(test)]
mod mirrors;
#[cfg(test)]
mod spans;
