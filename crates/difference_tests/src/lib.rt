//! Tests of the difference of two trees, beside plain lists of what each key has in both, and of mirrors that fetch what is
//! missing, beside the nodes of both trees with their layers.
#![tactic(auto)]

#[cfg(test)]
mod fetching;
#[cfg(test)]
mod fixtures;
#[cfg(test)]
mod high_layers;
#[cfg(test)]
mod key_lengths;
#[cfg(test)]
mod lacking;
#[cfg(test)]
mod large;
#[cfg(test)]
mod layered;
#[cfg(test)]
mod made_up;
#[cfg(test)]
mod memory;
#[cfg(test)]
mod plain;
#[cfg(test)]
mod random;
