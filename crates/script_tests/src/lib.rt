//! Tests of scripts: what lines are answered, threads that meet, random lines, notices beside a taker, and the greatest host.
#![tactic(auto)]

#[cfg(test)]
mod answers;
#[cfg(test)]
mod beside;
#[cfg(test)]
mod closes;
#[cfg(test)]
mod example;
#[cfg(test)]
mod gates;
#[cfg(test)]
mod greatest;
#[cfg(test)]
mod locks;
#[cfg(test)]
mod random;
#[cfg(test)]
mod tables;
#[cfg(test)]
mod taking;
