//! What a source lacks of two trees, a layer at a time.

ghost use Rattle.std.specs.Prelude.{◌≡◌, ◌≤◌, ◌+◌, ℕ, List, [], length, IfOk, IfErr, OnOk};
ghost use Rattle.edit_laws.specs.Changes.{count};
ghost use Rattle.difference.specs.Differences.{IsWant, OfTrees};
ghost use Rattle.difference.specs.Missing.{AreOfOneTree, IsMissing, IsMissingFault, IsMissingTold, OfPart, lacked as lacked_of, most_asked};

use crate::comparing::open_both;
use crate::faults::DifferenceFault;
use crate::needs::Needs;
use block::Block;
use cid::{Cid, Digest};
use lookups::Source;
use std::alloc::{AllocError, Allocator};
use std::clone::Clone;
use std::sync::Arc;

/// What the source lacks of the first layer of two trees that isn't all there: the CIDs, each once, of all blocks of that
/// layer that `difference` would ask for and that the source lacks, those of the old tree first. Both roots are the first
/// layer, and then the layers come from the top down; a node that both trees have is not asked for. Where the list is empty,
/// `difference` misses no block.
///
/// So a mirror that has a part of the blocks fetches what is missing, and calls again, until nothing is: a layer a round trip.
/// `B` is the number of zero bits of a digest that count for one layer, at least 1 (AT Protocol repository v3, MST structure).
///
/// Where the source gives what is no tree, `DifferenceFault::BadNode` has the CID of a block that is no node, and
/// `DifferenceFault::NotTree` comes where a link stands twice on one layer, if that is before the first block that is missing.
/// A link below layer 0 and keys that don't ascend are told by `difference` alone. `DifferenceFault::NoMemory` comes where
/// memory was refused, and `DifferenceFault::BlockMissing` never.
pub fn missing<
    'a,
    D: Digest + 'a,
    const B: u8,
    A: Allocator + Clone + 'a,
    S: Source<&'a Arc<Block<D, A>, A>>,
>(alloc: A, src: &mut S, old: Cid, new: Cid) -> Result<Vec<Cid, A>, DifferenceFault>
    requires least { 1 ≤ B }
    ensures missing { IfOk result
        (λ cids. IsMissing D.digest_of B (S.gives src.old) old new cids.items) }
    ensures told { IfOk result
        (λ cids. IsMissingTold D.digest_of B (S.gives src.old) old new cids.items) }
    ensures once { IfOk result (λ cids. (c : List ℕ) → count c cids.items ≤ 1) }
    ensures fault { IfErr result (IsMissingFault D.digest_of B (S.gives src.old) old new) }
    ensures nothing { OfTrees D.digest_of B (S.gives src.old) old new
        (λ es fs. IfOk result (λ cids. cids.items ≡ [])) }
    ensures unshared { OfPart D.digest_of B (S.gives src.old) old new (λ whole es fs. IfOk result
        (λ cids. AreOfOneTree D.digest_of B whole old new es fs cids.items)) }
    ensures no_fault { OfPart D.digest_of B (S.gives src.old) old new
        (λ whole es fs. IfErr result IsWant) }
    ensures equal { old ≡ new → IfOk result (λ cids. cids.items ≡ []) }
    ensures unread { old ≡ new → S.reads src.new ≡ S.reads src.old }
    ensures reads { OnOk result (S.reads src.new ≤ S.reads src.old
        + most_asked D.digest_of B (S.gives src.old) old new) }
    ensures same { S.gives src.new ≡ S.gives src.old }
{
    if old == new {
        return Ok(Vec::new(alloc));
    }
    let mut needs = Needs::of_roots(alloc.clone()?, old, new)?;
    let Err(fault) = open_both::<D, B, A, S>(alloc.clone()?, src, old, new, &mut needs) else {
        return Ok(Vec::new(alloc));
    };
    match fault {
        DifferenceFault::BlockMissing(_) => Ok(lacked(alloc, src, &needs.cids)?),
        other => Err(other),
    }
}

/// Those of some CIDs of which the source has no block.
fn lacked<'a, D: Digest + 'a, A: Allocator + 'a, S: Source<&'a Arc<Block<D, A>, A>>>(
    alloc: A,
    src: &mut S,
    cids: &[Cid],
) -> Result<Vec<Cid, A>, AllocError>
    ensures lacked { IfOk result (λ all. all.items ≡ lacked_of (S.gives src.old) cids.now) }
    ensures counted { OnOk result (S.reads src.new ≡ S.reads src.old + length cids.now) }
    ensures same { S.gives src.new ≡ S.gives src.old }
{
    let mut all = Vec::new(alloc);
    for cid in cids {
        if src.get(cid).is_some() {
            continue;
        }
        all.push(*cid)?;
    }
    Ok(all)
}
