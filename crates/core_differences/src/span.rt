//! Proofs of what a span of batches changed.

ghost use Rattle.std.specs.Prelude.{◌≡◌, ◌≤◌, IfOk, IfErr};
ghost use Rattle.difference.specs.Differences.{IsWant};
ghost use Rattle.difference.specs.Merged.{changes_told, told_of};
ghost use Rattle.core_differences.specs.Between.{AreApart};
ghost use Rattle.core_differences.specs.Spans.{AreTrue, IsShownBy, IsSpan};

use crate::comparing::difference;
use block::Block;
use change_proofs::{KeyChange, ProvingFault, are_key_changes, prove_inversion};
use cid::Digest;
use difference::{DifferenceFault, KeyDifference};
use repo::Core;
use std::alloc::{AllocError, Allocator, Global};
use std::clone::Clone;
use std::sync::Arc;

/// What changed between two versions of a repository, and what shows it.
#[derive(Drop)]
pub struct Span<D: Digest, A: Allocator = Global> {
    /// The keys that differ, in ascending order.
    pub changes: Vec<KeyDifference<A>, A>,

    /// The nodes of the new tree that show it, each once, shared with the new version.
    pub nodes: Vec<Arc<Block<D, A>, A>, A>,
}

/// What changed between two versions of a repository, whatever batches led from the one to the other, and the nodes of the new
/// one that show it: who knows both roots and is given these, in any order and among others, gets `Ok` from
/// `change_proofs::verify_inversion`. Of a root after that no pairs have an inversion says nothing.
///
/// Where no block of the one has the CID of another block of the other, nothing but `DifferenceFault::NoMemory` comes. Both stay
/// as they are.
pub fn prove_span<D: Digest, const B: u8, A: Allocator + Clone>(
    alloc: A,
    old: &Core<D, B, A>,
    new: &Core<D, B, A>,
) -> Result<Span<D, A>, DifferenceFault>
    requires least { 1 ≤ B }
    ensures span { AreApart D.digest_of B old.now new.now
        → IfOk result (λ span. IsSpan D.digest_of B old.now new.now
        (changes_told span.changes.items) span.nodes.items) }
    ensures fault { AreApart D.digest_of B old.now new.now → IfErr result IsWant }
{
    let found = match difference::<D, B, A>(alloc.clone()?, old, new) {
        Ok(found) => found,
        Err(fault) => return Err(fault),
    };
    match nodes_of::<D, B, A>(alloc, new, &found.changes) {
        Ok(nodes) => Ok(Span {
            changes: found.changes,
            nodes,
        }),
        Err(fault) => Err(fault),
    }
}

/// The nodes that show these changes, which led to a repository as it is.
fn nodes_of<D: Digest, const B: u8, A: Allocator + Clone>(
    alloc: A,
    core: &Core<D, B, A>,
    changes: &[KeyDifference<A>],
) -> Result<Vec<Arc<Block<D, A>, A>, A>, DifferenceFault>
    requires least { 1 ≤ B }
    ensures nodes { IfOk result
        (λ nodes. IsShownBy D.digest_of B core.now (changes_told changes.now) nodes.items) }
    ensures fault { AreTrue D.digest_of core.now (changes_told changes.now) → IfErr result IsWant }
{
    let told = key_changes(alloc.clone()?, changes)?;
    if !are_key_changes(&told) {
        return Err(DifferenceFault::NotTree);
    }
    match prove_inversion::<D, B, A>(alloc, core, &told) {
        Ok(nodes) => Ok(nodes),
        Err(ProvingFault::OtherValue(_)) => Err(DifferenceFault::NotTree),
        Err(ProvingFault::NoMemory) => Err(DifferenceFault::NoMemory),
    }
}

/// The changes as a proof of changes takes them.
fn key_changes<'k, A: Allocator>(
    alloc: A,
    changes: &'k [KeyDifference<A>],
) -> Result<Vec<KeyChange<'k>, A>, AllocError>
    ensures { IfOk result (λ all. all.items ≡ changes_told changes.now) }
{
    let mut all = Vec::with_capacity(alloc, changes.len())?;
    for change in changes {
        all.push(key_change(change))?;
    }
    Ok(all)
}

/// One of them.
fn key_change<'k, A: Allocator>(change: &'k KeyDifference<A>) -> KeyChange<'k>
    ensures { result ≡ told_of change.now }
{
    KeyChange {
        key: &change.key,
        before: change.before,
        after: change.after,
    }
}
