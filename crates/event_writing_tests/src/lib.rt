//! Tests of the writer of messages of the event stream.
#![tactic(auto)]

#[cfg(test)]
mod example;
#[cfg(test)]
mod faults;
#[cfg(test)]
mod fixtures;
#[cfg(test)]
mod long;
#[cfg(test)]
mod memory;
#[cfg(test)]
mod random;
#[cfg(test)]
mod signed;
#[cfg(test)]
mod sync;
#[cfg(test)]
mod sync_bytes;
#[cfg(test)]
mod worked;
#[cfg(test)]
mod worked_bytes;
