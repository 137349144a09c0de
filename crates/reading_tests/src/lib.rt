//! Tests of what is read of files that others wrote: exports of no record and of one byte by byte, blocks that come twice and
//! blocks of others, each fault, 2,000 records, want of memory, repositories that open with the records of a file, and files
//! that are written with a signed commit.
#![tactic(auto)]

#[cfg(test)]
mod commits;
#[cfg(test)]
mod empty;
#[cfg(test)]
mod exports;
#[cfg(test)]
mod files;
#[cfg(test)]
mod many;
#[cfg(test)]
mod memory;
#[cfg(test)]
mod one;
#[cfg(test)]
mod opened;
#[cfg(test)]
mod served;
#[cfg(test)]
mod writing;
