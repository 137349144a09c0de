//! Tests of hosts: many repositories, writers, what they tell, versions, and the close.
#![tactic(auto)]

#[cfg(test)]
mod asked_again;
#[cfg(test)]
mod atproto;
#[cfg(test)]
mod changes;
#[cfg(test)]
mod example;
#[cfg(test)]
mod exports;
#[cfg(test)]
mod great_batches;
#[cfg(test)]
mod hosts;
#[cfg(test)]
mod listing;
#[cfg(test)]
mod no_memory;
#[cfg(test)]
mod opening;
#[cfg(test)]
mod preparing;
#[cfg(test)]
mod queue_of_two;
#[cfg(test)]
mod refusals;
#[cfg(test)]
mod seated;
#[cfg(test)]
mod sharing;
#[cfg(test)]
mod two_writers;
#[cfg(test)]
mod versions;
