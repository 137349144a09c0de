//! The nodes that show some changes, which are undone.

ghost use Rattle.std.specs.Prelude.{◌≡◌, ◌≤◌, true, map, Ok, IfOk, IfErr, OnOk};
ghost use Rattle.std.specs.Arc.{arc_value};
ghost use Rattle.lookups.specs.Trees.{OfTree};
ghost use Rattle.key_changes.specs.Keyed.{are_changes as are_changes_of};
ghost use Rattle.change_laws.specs.Told.{undone as undone_of};
ghost use Rattle.change_laws.specs.Verdict.{are_told};
ghost use Rattle.change_proofs.specs.Provings.{AreNodes, AreNodesOver, IsFaultOf, IsLackOver, IsOtherValue, IsProofOf, IsUntrue, ShowsChanges, proving_fault_of};

use crate::change_fault::ChangeFault;
use crate::proving_fault::ProvingFault;
use crate::undoing::undone;
use crate::values::first_other;
use block::Block;
use cid::{Cid, Digest};
use edit::{BatchPreview, preview};
use kept::Lender;
use key_changes::KeyChange;
use lookups::Source;
use repo::Core;
use std::alloc::Allocator;
use std::clone::Clone;
use std::sync::Arc;

/// The nodes of the repository's tree as it is now that undoing some changes reads, which led to it. They show the changes only to
/// who knows that the root after is that of some pairs: of a root that no pairs have
/// [`verify_inversion`](crate::verify_inversion) says nothing. For who goes on from root to root
/// [`prove_change`](crate::prove_change) gives the nodes of the tree before.
///
/// They come each once, in the order in which they are read, and are shared with the repository.
///
/// Who has these nodes, in any order and among others, and both roots gets `Ok` from
/// [`verify_inversion`](crate::verify_inversion), where each key had before the changes what is told; of that this tree knows
/// nothing. That each key has now what is told after its change is looked at: else `ProvingFault::OtherValue` has the place
/// of the first that hasn't. `ProvingFault::NoMemory` comes where memory was refused.
///
/// [`are_key_changes`](crate::are_key_changes) is the test of what it takes.
pub fn prove_inversion<D: Digest, const B: u8, A: Allocator + Clone>(
    alloc: A,
    core: &Core<D, B, A>,
    changes: &[KeyChange<'_>],
) -> Result<Vec<Arc<Block<D, A>, A>, A>, ProvingFault>
    requires least { 1 ≤ B }
    requires changes { are_changes_of (undone_of changes.now) ≡ true }
    ensures proof { IfOk result
        (λ nodes. IsProofOf D.digest_of B core.now changes.now nodes.items) }
    ensures shows { IfOk result
        (λ nodes. ShowsChanges D.digest_of B core.now changes.now nodes.items) }
    ensures fault { IfErr result (IsUntrue D.digest_of core.now changes.now) }
{
    let root = core.root();
    let mut lender = core.lender();
    match prove_inversion_over::<D, B, A, Lender<'_, D, A>>(alloc, &mut lender, root, changes) {
        Ok(nodes) => Ok(nodes),
        Err(fault) => Err(proving_fault(fault)),
    }
}

/// The same over a source of blocks, from a tree's root. It is for who has a tree's blocks and no `Core`.
///
/// Where the source has all nodes of the tree only `ChangeFault::OtherValue` and `ChangeFault::NoMemory` come. Else
/// `ChangeFault::BlockMissing` has the CID of a node that is needed and not there, so that who has it elsewhere can add it
/// and call again; `ChangeFault::BadNode`, with a CID, `ChangeFault::TooDeep` and `ChangeFault::NotTree` come where the source
/// gives what is no tree. The source stays as it is.
pub fn prove_inversion_over<
    'a,
    D: Digest + 'a,
    const B: u8,
    A: Allocator + Clone + 'a,
    S: Source<&'a Arc<Block<D, A>, A>>,
>(
    alloc: A,
    src: &mut S,
    root: Cid,
    changes: &[KeyChange<'_>],
) -> Result<Vec<Arc<Block<D, A>, A>, A>, ChangeFault>
    requires least { 1 ≤ B }
    requires changes { are_changes_of (undone_of changes.now) ≡ true }
    ensures proof { OfTree D.digest_of B (S.gives src.old) root (λ es. IfOk result
        (λ nodes. AreNodes D.digest_of B changes.now es (map arc_value nodes.items))) }
    ensures fault { OfTree D.digest_of B (S.gives src.old) root
        (λ es. IfErr result (IsFaultOf es changes.now)) }
    ensures nodes { IfOk result (λ nodes. AreNodesOver D.digest_of B (S.gives src.old) root
        changes.now (map arc_value nodes.items)) }
    ensures lack { IfErr result
        (IsLackOver D.digest_of B (S.gives src.old) root changes.now) }
    ensures same { S.gives src.new ≡ S.gives src.old }
{
    let undone = undone(alloc.clone()?, changes)?;
    let found = preview::<D, B, A, S>(alloc, src, root, &undone)?;
    told_nodes(found, changes)
}

/// The nodes that a batch read, where each key has the value that is told after its change.
fn told_nodes<D: Digest, A: Allocator>(
    found: BatchPreview<D, A>,
    changes: &[KeyChange<'_>],
) -> Result<Vec<Arc<Block<D, A>, A>, A>, ChangeFault>
    ensures nodes { IfOk result (λ nodes. nodes.items ≡ found.read.items) }
    ensures told { OnOk result (are_told 0 found.previous.items changes.now ≡ Ok tt) }
    ensures other { IfErr result (IsOtherValue found.previous.items changes.now) }
{
    match first_other(&found.previous, changes) {
        Some(place) => Err(ChangeFault::OtherValue(place)),
        None => Ok(found.read),
    }
}

/// What a fault over a source is where the source has a tree.
fn proving_fault(fault: ChangeFault) -> ProvingFault
    ensures { result ≡ proving_fault_of fault }
{
    match fault {
        ChangeFault::OtherValue(place) => ProvingFault::OtherValue(place),
        _ => ProvingFault::NoMemory,
    }
}
