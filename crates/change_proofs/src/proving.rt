//! The nodes that show a step from a tree.

ghost use Rattle.std.specs.Prelude.{◌≡◌, ◌≤◌, true, map, IfOk, IfErr};
ghost use Rattle.std.specs.Arc.{arc_value};
ghost use Rattle.spec.specs.Blocks.{pairs};
ghost use Rattle.spec.specs.States.{records};
ghost use Rattle.lookups.specs.Trees.{OfTree};
ghost use Rattle.key_changes.specs.Keyed.{are_changes as are_changes_of};
ghost use Rattle.change_proofs.specs.Verdicts.{IsWant};
ghost use Rattle.change_proofs.specs.StepProvings.{told_one, told_as, IsStepOf, IsStepOver, IsStepLack};

use crate::change_fault::ChangeFault;
use crate::change_proof::ChangeProof;
use block::Block;
use cid::{Cid, Digest};
use edit::{BatchPreview, Change, preview};
use kept::Lender;
use key_changes::KeyChange;
use lookups::Source;
use repo::Core;
use std::alloc::{AllocError, Allocator};
use std::clone::Clone;
use std::sync::Arc;

/// What these changes make of the repository's tree as it is now, and the nodes that show it: to be asked before they are
/// applied. It shares the blocks with the repository, which stays as it is.
///
/// Who knows the root before, and is given the root after, the changes and the nodes, in any order and among others, gets `Ok`
/// from [`verify_change`](crate::verify_change). `AllocError` says that memory was refused.
///
/// `edit::are_changes` is the test of what it takes.
pub fn prove_change<'k, D: Digest, const B: u8, A: Allocator + Clone>(
    alloc: A,
    core: &Core<D, B, A>,
    changes: &[Change<'k>],
) -> Result<ChangeProof<'k, D, A>, AllocError>
    requires least { 1 ≤ B }
    requires changes { are_changes_of changes.now ≡ true }
    ensures { IfOk result (λ proof. IsStepOf D.digest_of B changes.now
        (pairs D.digest_of (records core.now)) proof.after proof.changes.items
        (map arc_value proof.nodes.items)) }
{
    let root = core.root();
    let mut lender = core.lender();
    match prove_change_over::<D, B, A, Lender<'_, D, A>>(alloc, &mut lender, root, changes) {
        Ok(proof) => Ok(proof),
        Err(_) => Err(AllocError),
    }
}

/// The same over a source of blocks, from a tree's root. It is for who has a tree's blocks and no `Core`.
///
/// Where the source has all nodes of the tree only `ChangeFault::NoMemory` comes. Else `ChangeFault::BlockMissing` has the CID
/// of a node that is needed and not there, so that who has it elsewhere can add it and call again; `ChangeFault::BadNode`, with
/// a CID, `ChangeFault::TooDeep` and `ChangeFault::NotTree` come where the source gives what is no tree. `ChangeFault::OtherValue`
/// and `ChangeFault::OtherRoot` don't come. The source stays as it is.
pub fn prove_change_over<
    'k,
    'a,
    D: Digest + 'a,
    const B: u8,
    A: Allocator + Clone + 'a,
    S: Source<&'a Arc<Block<D, A>, A>>,
>(
    alloc: A,
    src: &mut S,
    root: Cid,
    changes: &[Change<'k>],
) -> Result<ChangeProof<'k, D, A>, ChangeFault>
    requires least { 1 ≤ B }
    requires changes { are_changes_of changes.now ≡ true }
    ensures proof { OfTree D.digest_of B (S.gives src.old) root (λ es. IfOk result
        (λ proof. IsStepOf D.digest_of B changes.now es proof.after proof.changes.items
        (map arc_value proof.nodes.items))) }
    ensures want { OfTree D.digest_of B (S.gives src.old) root (λ es. IfErr result IsWant) }
    ensures nodes { IfOk result (λ proof. IsStepOver D.digest_of B (S.gives src.old) root
        changes.now proof.after proof.changes.items (map arc_value proof.nodes.items)) }
    ensures lack { IfErr result
        (IsStepLack D.digest_of B (S.gives src.old) root changes.now) }
    ensures same { S.gives src.new ≡ S.gives src.old }
{
    let other = alloc.clone()?;
    let found = preview::<D, B, A, S>(alloc, src, root, changes)?;
    with_told(other, changes, found)
}

/// What a batch comes to, with its changes told.
fn with_told<'k, D: Digest, A: Allocator>(
    alloc: A,
    changes: &[Change<'k>],
    found: BatchPreview<D, A>,
) -> Result<ChangeProof<'k, D, A>, ChangeFault>
    ensures after { IfOk result (λ proof. proof.after ≡ found.root) }
    ensures changes { IfOk result
        (λ proof. proof.changes.items ≡ told_as changes.now found.previous.items) }
    ensures nodes { IfOk result (λ proof. proof.nodes.items ≡ found.read.items) }
    ensures want { IfErr result IsWant }
{
    let BatchPreview {
        root,
        previous,
        read,
    } = found;
    match told_changes(alloc, changes, &previous) {
        Ok(changes) => Ok(ChangeProof {
            after: root,
            changes,
            nodes: read,
        }),
        Err(_) => Err(ChangeFault::NoMemory),
    }
}

/// Changes with what their keys had before.
fn told_changes<'k, A: Allocator>(
    alloc: A,
    changes: &[Change<'k>],
    previous: &[Option<Cid>],
) -> Result<Vec<KeyChange<'k>, A>, AllocError>
    ensures { IfOk result (λ told. told.items ≡ told_as changes.now previous.now) }
{
    let mut told = Vec::with_capacity(alloc, changes.len())?;
    for (change, before) in changes.iter().zip(previous.iter()) {
        told.push(told_change(change, *before))?;
    }
    Ok(told)
}

/// A change with what its key had before.
fn told_change<'k>(change: &Change<'k>, before: Option<Cid>) -> KeyChange<'k>
    ensures { result ≡ told_one change.now before }
{
    KeyChange {
        key: change.key,
        before,
        after: change.value,
    }
}
