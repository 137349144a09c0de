//! What the commands do, by their values. Where the digest is SHA-256 they come from the AT Protocol's interoperability
//! tests and from a program in another language (examples/reference.py), and not from the commands.
#![tactic(auto)]

#[cfg(test)]
mod changes;
#[cfg(test)]
mod explanations;
#[cfg(test)]
mod exports;
#[cfg(test)]
mod fault_names;
#[cfg(test)]
mod faults;
#[cfg(test)]
mod files;
#[cfg(test)]
mod held_files;
#[cfg(test)]
mod inversions;
#[cfg(test)]
mod json;
#[cfg(test)]
mod large;
#[cfg(test)]
mod listings;
#[cfg(test)]
mod memory;
#[cfg(test)]
mod named_files;
#[cfg(test)]
mod paths;
#[cfg(test)]
mod progress;
#[cfg(test)]
mod requests;
#[cfg(test)]
mod running;
#[cfg(test)]
mod runs;
#[cfg(test)]
mod sentences;
#[cfg(test)]
mod streams;
#[cfg(test)]
mod texts;
#[cfg(test)]
mod words;
