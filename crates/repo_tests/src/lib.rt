//! Tests of repositories: worked examples, random batches, batches in two steps, want of memory.
#![tactic(auto)]

#[cfg(test)]
mod ending;
#[cfg(test)]
mod example;
#[cfg(test)]
mod full;
#[cfg(test)]
mod opened;
#[cfg(test)]
mod opening;
#[cfg(test)]
mod orders;
#[cfg(test)]
mod places;
#[cfg(test)]
mod prepared;
#[cfg(test)]
mod random_batches;
#[cfg(test)]
mod readings;
#[cfg(test)]
mod shards;
#[cfg(test)]
mod stores;
#[cfg(test)]
mod stories;
#[cfg(test)]
mod thousand;
#[cfg(test)]
mod turns;
#[cfg(test)]
mod whole_batches;
