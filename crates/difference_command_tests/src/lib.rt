//! Tests of the command on two files: each form beside each other, what is told of records and blocks, many keys, the names of
//! faults and which file they are of, the exit status, and a file of blocks that is saved or not.
#![tactic(auto)]

#[cfg(test)]
mod blocks;
#[cfg(test)]
mod faults;
#[cfg(test)]
mod forms;
#[cfg(test)]
mod made_up;
#[cfg(test)]
mod many;
#[cfg(test)]
mod running;
#[cfg(test)]
mod told;
