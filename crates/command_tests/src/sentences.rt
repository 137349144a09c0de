//! What each fault says, its name, and what `explain` says of that name.
mod explained;
mod of_batches;
mod of_changes;
mod of_commands;
mod of_files;
mod of_hosts;
mod of_records;
mod of_trees;
