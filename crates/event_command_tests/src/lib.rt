//! Tests of the commands on messages: the bytes of one beside those of another program, what is told of messages, the names of
//! faults, words of a command line, and the exit status.
#![tactic(auto)]

#[cfg(test)]
mod checked;
#[cfg(test)]
mod faults;
#[cfg(test)]
mod message;
#[cfg(test)]
mod running;
#[cfg(test)]
mod written;
