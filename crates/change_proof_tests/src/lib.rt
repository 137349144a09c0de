//! Tests of proofs of a change, beside trees from scratch.
#![tactic(auto)]

#[cfg(test)]
mod by_hand;
#[cfg(test)]
mod deep;
#[cfg(test)]
mod example;
#[cfg(test)]
mod fixtures;
#[cfg(test)]
mod great;
#[cfg(test)]
mod lost;
#[cfg(test)]
mod many_layers;
#[cfg(test)]
mod memory;
#[cfg(test)]
mod random;
#[cfg(test)]
mod refusals;
#[cfg(test)]
mod repositories;
#[cfg(test)]
mod shown;
#[cfg(test)]
mod steps;
#[cfg(test)]
mod strangers;
