//! Tests of the queue of notices: on one thread, on as many as there are writers, and where memory is refused.
#![tactic(auto)]

#[cfg(test)]
mod memory;
#[cfg(test)]
mod rooms;
#[cfg(test)]
mod threads;
#[cfg(test)]
mod writer;
