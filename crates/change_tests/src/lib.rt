//! Tests of many keys of a tree changed at once, beside the tree from scratch of the pairs that are left.
#![tactic(auto)]

#[cfg(test)]
mod by_hand;
#[cfg(test)]
mod clashing;
#[cfg(test)]
mod faults;
#[cfg(test)]
mod fixtures;
#[cfg(test)]
mod flat;
#[cfg(test)]
mod high_layers;
#[cfg(test)]
mod histories;
#[cfg(test)]
mod history;
#[cfg(test)]
mod many;
#[cfg(test)]
mod memory;
#[cfg(test)]
mod missing;
#[cfg(test)]
mod plain;
#[cfg(test)]
mod singles;
