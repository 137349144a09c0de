//! Tests of a mirror that follows messages of the event stream.
#![tactic(auto)]

#[cfg(test)]
mod example;
#[cfg(test)]
mod fixtures;
#[cfg(test)]
mod random;
#[cfg(test)]
mod refusals;
