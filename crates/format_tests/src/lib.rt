//! Tests of the two formats of bytes, records in DAG-CBOR and nodes of a tree: worked examples, and what no clause says.
#![tactic(auto)]

#[cfg(test)]
mod many_items;
#[cfg(test)]
mod node_faults;
#[cfg(test)]
mod node_memory;
#[cfg(test)]
mod nodes;
#[cfg(test)]
mod record_memory;
#[cfg(test)]
mod records;
