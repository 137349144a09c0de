//! Tests of trees from scratch, beside a plain, slow builder that follows the definition, of look-ups, walks and
//! edits over blocks, and of nodes read and written pair by pair.
#![tactic(auto)]

#[cfg(test)]
mod any_source;
#[cfg(test)]
mod edits;
#[cfg(test)]
mod fixtures;
#[cfg(test)]
mod known_nodes;
#[cfg(test)]
mod own_source;
#[cfg(test)]
mod pair_by_pair;
#[cfg(test)]
mod plain;
#[cfg(test)]
mod trees;
