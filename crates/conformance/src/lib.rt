//! Tests that cross crates: published values of the AT Protocol, and crates of this repository beside each other.
#![tactic(auto)]

#[cfg(test)]
mod edits;
#[cfg(test)]
mod example;
#[cfg(test)]
mod fixtures;
#[cfg(test)]
mod high_layers;
#[cfg(test)]
mod histories;
#[cfg(test)]
mod look_ups;
#[cfg(test)]
mod published;
#[cfg(test)]
mod trees;
#[cfg(test)]
mod walks;
