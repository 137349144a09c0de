//! Calls for programs that are not Rattle: a static library behind C's calling convention.
//!
//! Each call answers a number: 0 where it did what it says, and else why not, as `specs/Numbers.antt` defines it. The
//! contract of a call states the clauses of the library's call that it makes.
//!
//! - `values`, `stamps` and `cids` have the calls on values: records, keys, CIDs, nodes, stamps, commits.
//! - `edits`, `below`, `given` and `listings` have those on trees that the caller keeps by itself, over the `nodes` that it hands in.
//! - `opening`, `staging`, `reading`, `pages`, `files`, `sections` and `proving` have those on a repository in memory, behind a handle (`owned_repo::Repository`).
//! - `verdicts` has those that check changes between two roots, done or undone; `changes` has the one that proves what changes
//!   make of a repository, and `inversions` the one that proves changes undone. `told_changes` reads what all of them are told,
//!   and tells verdicts.
//! - `signed`, `file_parts`, `revisions` and `next_tids` have those for signed commits; `previews` and `signing` those for a batch that is signed
//!   before it is accepted; `commit_checks` has the check of a message `#commit`, which `messages` spells and `message_faults` numbers.
#![tactic(auto)]

mod below;
mod changes;
mod checked_files;
mod cids;
mod codes;
mod commit_checks;
mod differing;
mod edits;
mod file_parts;
mod files;
mod hosted_changes;
mod inversions;
mod lacking;
mod listings;
mod message_faults;
mod messages;
mod next_tids;
mod node_entries;
mod nodes;
mod opening;
mod opening_files;
mod pages;
mod previews;
mod proving;
mod reading;
mod record_texts;
mod revisions;
mod sections;
mod signed;
mod signing;
mod staging;
mod stamps;
mod told_changes;
mod values;
mod verdicts;
mod verifying;
