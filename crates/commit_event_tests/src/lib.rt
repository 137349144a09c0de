//! Tests of the check of messages of the event stream.
#![tactic(auto)]

#[cfg(test)]
mod faults;
#[cfg(test)]
mod memory;
#[cfg(test)]
mod messages;
#[cfg(test)]
mod parts;
#[cfg(test)]
mod planted;
#[cfg(test)]
mod sizes;
#[cfg(test)]
mod worked;
