//! Random batches as steps from a tree: the nodes of the tree before show them, and nothing less does.

use crate::fixtures::{Blocks, Both};
use crate::random::{both_of, is_not_shown, without};
use crate::refusals::{Part, missing_in, other_value_in, with_altered};
use block::Block;
use change_proofs::{
    ChangeFault, ChangeProof, KeyChange, are_key_changes, prove_change_over, verify_change,
    verify_change_blocks,
};
use cid::Cid;
use cid::digests::Toy;
use edit::{Change, are_changes};
use lookups::BlockMap;
use std::alloc::{AllocError, Global};
use std::sync::Arc;

/// What these blocks show of a step. What are no changes is answered as if there were no memory.
fn told(
    alloc: Global,
    both: &Both,
    blocks: &[Arc<Block<Toy>>],
    changes: &[KeyChange<'_>],
) -> Result<(), ChangeFault> {
    if !are_key_changes(changes) {
        return Err(ChangeFault::NoMemory);
    }
    verify_change_blocks::<Toy, 2, _>(alloc, both.before.root, both.after.root, blocks, changes)
}

/// The same of the bytes of blocks.
fn told_by_bytes(
    alloc: Global,
    both: &Both,
    blocks: &[Vec<u8>],
    changes: &[KeyChange<'_>],
) -> Result<(), ChangeFault> {
    if !are_key_changes(changes) {
        return Err(ChangeFault::NoMemory);
    }
    verify_change::<Toy, 2, _, Vec<u8>>(alloc, both.before.root, both.after.root, blocks, changes)
}

/// The batch that these changes are.
fn batch_of(
    alloc: Global,
    changes: &[KeyChange<'static>],
) -> Result<Vec<Change<'static>>, AllocError> {
    let mut batch = Vec::new(alloc);
    for change in changes {
        batch.push(Change {
            key: change.key,
            value: change.after,
        })?;
    }
    Ok(batch)
}

/// What a batch makes of the tree with this root over these blocks. What is no batch is answered as if there were no memory.
fn proof_over(
    alloc: Global,
    blocks: &[Arc<Block<Toy>>],
    root: Cid,
    batch: &[Change<'static>],
) -> Result<ChangeProof<'static, Toy>, ChangeFault> {
    if !are_changes(batch) {
        return Err(ChangeFault::NoMemory);
    }
    let mut map = BlockMap::new(alloc, blocks)?;
    prove_change_over::<Toy, 2, _, _>(alloc, &mut map, root, batch)
}

/// What the batch that both sides differ by makes of the tree before.
fn proof_of(alloc: Global, both: &Both) -> Result<ChangeProof<'static, Toy>, ChangeFault> {
    let batch = batch_of(alloc, &both.changes)?;
    proof_over(alloc, &both.before.blocks, both.before.root, &batch)
}

/// Whether two changes are the same.
fn is_same(change: &KeyChange<'_>, other: &KeyChange<'_>) -> bool {
    change.key == other.key && change.before == other.before && change.after == other.after
}

/// Whether these are the same changes.
fn are_same(changes: &[KeyChange<'_>], others: &[KeyChange<'_>]) -> bool {
    if changes.len() != others.len() {
        return false;
    }
    for (change, other) in changes.iter().zip(others.iter()) {
        if !is_same(change, other) {
            return false;
        }
    }
    true
}

/// The bytes of these blocks.
fn bytes_of(alloc: Global, blocks: &[Arc<Block<Toy>>]) -> Result<Vec<Vec<u8>>, AllocError> {
    let mut lists = Vec::new(alloc);
    for block in blocks {
        lists.push(Vec::from_slice(alloc, block.bytes())?)?;
    }
    Ok(lists)
}

/// Whether the nodes show the changes, as blocks and as bytes.
fn is_shown(alloc: Global, both: &Both, nodes: &Blocks) -> bool {
    let Ok(bytes) = bytes_of(alloc, nodes) else {
        return false;
    };
    told(alloc, both, nodes, &both.changes).is_ok()
        && told_by_bytes(alloc, both, &bytes, &both.changes).is_ok()
}

/// Whether each node is missing where it is left out.
fn needs_each(alloc: Global, both: &Both, nodes: &Blocks) -> bool {
    for node in nodes {
        let Ok(fewer) = without(alloc, nodes, node.cid()) else {
            return false;
        };
        if missing_in(&told(alloc, both, &fewer, &both.changes)) != Some(node.cid()) {
            return false;
        }
    }
    true
}

/// Whether the change at a place is refused where a value of it is altered: the one before by its place, the one after by the
/// root.
fn refuses(alloc: Global, both: &Both, nodes: &Blocks, place: usize) -> bool {
    let (Ok(earlier), Ok(later)) = (
        with_altered(alloc, &both.changes, place, Part::Before),
        with_altered(alloc, &both.changes, place, Part::After),
    ) else {
        return false;
    };
    other_value_in(&told(alloc, both, nodes, &earlier)) == Some(place)
        && is_not_shown(&told(alloc, both, nodes, &later))
}

/// Whether the change at each place is, and the last one where it is left out.
fn refuses_each(alloc: Global, both: &Both, nodes: &Blocks) -> bool {
    for place in 0..both.changes.len() {
        if !refuses(alloc, both, nodes, place) {
            return false;
        }
    }
    match both.changes.as_slice() {
        [fewer @ .., _] => is_not_shown(&told(alloc, both, nodes, fewer)),
        [] => true,
    }
}

/// Whether a seed's batch is proved, and shown by these nodes and by no fewer.
fn is_step(alloc: Global, seed: u64) -> bool {
    let Some(both) = both_of(alloc, seed) else {
        return false;
    };
    let Ok(proof) = proof_of(alloc, &both) else {
        return false;
    };
    proof.after == both.after.root
        && are_same(&proof.changes, &both.changes)
        && is_shown(alloc, &both, &proof.nodes)
        && needs_each(alloc, &both, &proof.nodes)
        && refuses_each(alloc, &both, &proof.nodes)
}

/// Whether those of all seeds below a bound are.
fn all_are_steps(alloc: Global, seeds: u64) -> bool {
    for seed in 1..seeds {
        if !is_step(alloc, seed) {
            return false;
        }
    }
    true
}

#[test]
fn random_steps_are_shown(rt: HostRuntime) {
    assert!(rt; all_are_steps(rt.alloc(), 40));
}
