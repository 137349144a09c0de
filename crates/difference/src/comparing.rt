//! Two trees compared.

ghost use Rattle.std.specs.Prelude.{◌≡◌, ◌≢◌, ◌≤◌, ◌<◌, ◌+◌, ◌∷◌, ℕ, suc, max, map, length, [], Ok, IfOk, IfErr, IsTrue, OnOk};
ghost use Rattle.std.specs.Arc.{arc_value};
ghost use Rattle.spec.specs.Cid.{cid as cid_of};
ghost use Rattle.spec.specs.Layer.{layer as layer_of};
ghost use Rattle.spec.specs.NodeFormat.{shape_bytes};
ghost use Rattle.lookups.specs.Steps.{nodes_given};
ghost use Rattle.difference_laws.specs.Lines.{compared, level};
ghost use Rattle.difference.specs.Sides.{IsStopped, shapes_in};
ghost use Rattle.difference.specs.Starts.{HasBegun, asked_by, side_in};
ghost use Rattle.difference.specs.Merged.{changes_told};
ghost use Rattle.difference.specs.Missing.{IfMissing, most_read, needed_by, needed_last};
ghost use Rattle.difference.specs.Differences.{AreTold, IsCompared, IsLack, IsNoFault, IsNothing, IsOpened, IsUnended, asked_for};

use crate::faults::DifferenceFault;
use crate::line::Links;
use crate::merging::merged;
use crate::needs::Needs;
use crate::outcome::Difference;
use crate::read_nodes::ReadNode;
use crate::side::Side;
use block::Block;
use cid::{Cid, Digest};
use lookups::Source;
use std::alloc::{AllocError, Allocator};
use std::clone::Clone;
use std::sync::Arc;

/// What makes the tree with one root of the tree with another: the keys that differ, with the CIDs of their records in both;
/// the nodes that come, and those that go.
///
/// It reads both roots, where they differ, and of each tree those nodes that the other lacks, each once, and no others. `B` is
/// the number of zero bits of a digest that count for one layer, at least 1 (AT Protocol repository v3, MST structure).
///
/// The source has all nodes of both trees; then nothing but `DifferenceFault::NoMemory` comes. Where it lacks a node that is
/// needed, `DifferenceFault::BlockMissing` has the CID of the first that is asked for, so that who has it elsewhere can add it
/// and call again. Where it gives what is no tree, `DifferenceFault::BadNode` has the CID of a block that is no node,
/// `DifferenceFault::TooDeep` comes at a link below layer 0, and `DifferenceFault::NotTree` where a link stands twice on one
/// layer, or keys don't ascend; not all of that is noticed, as only what the trees don't share is read.
pub fn difference<
    'a,
    D: Digest + 'a,
    const B: u8,
    A: Allocator + Clone + 'a,
    S: Source<&'a Arc<Block<D, A>, A>>,
>(alloc: A, src: &mut S, old: Cid, new: Cid) -> Result<Difference<D, A>, DifferenceFault>
    requires least { 1 ≤ B }
    ensures compared { IsCompared D.digest_of B (S.gives src.old) old new result }
    ensures opened { IsOpened D.digest_of B (S.gives src.old) old new result }
    ensures lack { IsLack D.digest_of B (S.gives src.old) old new result }
    ensures no_fault { IsNoFault D.digest_of B (S.gives src.old) old new result }
    ensures equal { old ≡ new → IfOk result IsNothing }
    ensures unread { old ≡ new → S.reads src.new ≡ S.reads src.old }
    ensures reads { old ≢ new
        → IfOk result (λ d. S.reads src.new ≡ S.reads src.old + asked_for d) }
    ensures same { S.gives src.new ≡ S.gives src.old }
{
    if old == new {
        return Ok(Difference {
            changes: Vec::new(alloc.clone()?),
            come: Vec::new(alloc.clone()?),
            go: Vec::new(alloc),
        });
    }
    let mut needs = Needs::unwanted(alloc.clone()?);
    let (old_side, new_side) = open_both::<D, B, A, S>(alloc.clone()?, src, old, new, &mut needs)?;
    tell(alloc, old_side, new_side)
}

/// Both trees down to their pairs, without what they share. Where that stops for want of a block, and what is needed is
/// wanted, the needs are those of the layer at which it stops; at first they are both roots.
pub(crate) fn open_both<
    'a,
    D: Digest + 'a,
    const B: u8,
    A: Allocator + Clone + 'a,
    S: Source<&'a Arc<Block<D, A>, A>>,
>(
    alloc: A,
    src: &mut S,
    old: Cid,
    new: Cid,
    needs: &mut Needs<A>,
) -> Result<(Side<'a, D, A>, Side<'a, D, A>), DifferenceFault>
    requires least { 1 ≤ B }
    requires roots { IsTrue needs.old.is_wanted → needs.old.cids.items ≡ old ∷ new ∷ [] }
    ensures opened { IfOk result (λ sides. compared (nodes_given (S.gives src.old))
        (layer_of D.digest_of B) old new ≡ Ok (side_in sides.0, side_in sides.1)) }
    ensures stopped { IfErr result (IsStopped (S.gives src.old)
        (compared (nodes_given (S.gives src.old)) (layer_of D.digest_of B) old new)) }
    ensures old_begun { IfOk result (λ sides. HasBegun (S.gives src.old) sides.0) }
    ensures new_begun { IfOk result (λ sides. HasBegun (S.gives src.old) sides.1) }
    ensures counted { IfOk result (λ sides. S.reads src.new
        ≡ S.reads src.old + (asked_by sides.0 + asked_by sides.1)) }
    ensures needs { IsTrue needs.old.is_wanted → IfErr result (λ fault. IfMissing fault
        (needs.new.cids.items ≡ needed_last (nodes_given (S.gives src.old))
        (layer_of D.digest_of B) old new)) }
    ensures most { IfErr result (λ fault. IfMissing fault (S.reads src.new ≤ S.reads src.old
        + most_read (nodes_given (S.gives src.old)) (layer_of D.digest_of B) old new)) }
    ensures same { S.gives src.new ≡ S.gives src.old }
{
    let mut old_side = Side::new::<B, S>(alloc.clone()?, src, old)?;
    let mut new_side = Side::new::<B, S>(alloc.clone()?, src, new)?;
    'layers: while layers_left(&old_side, &new_side) > 0 {
        descend(alloc.clone()?, src, &mut old_side, &mut new_side, needs)?;
    }
    Ok((old_side, new_side))
}

/// How many layers are left of the higher of two trees.
fn layers_left<D: Digest, A: Allocator>(old: &Side<'_, D, A>, new: &Side<'_, D, A>) -> usize
    ensures { result ≡ max old.now.left new.now.left }
{
    if old.left < new.left {
        new.left
    } else {
        old.left
    }
}

/// The higher of two trees is opened by one layer, or both are where they stand at the same layer. The needs are those of
/// that layer, where they are wanted.
fn descend<'a, D: Digest + 'a, A: Allocator + Clone + 'a, S: Source<&'a Arc<Block<D, A>, A>>>(
    alloc: A,
    src: &mut S,
    old: &mut Side<'a, D, A>,
    new: &mut Side<'a, D, A>,
    needs: &mut Needs<A>,
) -> Result<(), DifferenceFault>
    requires some { 0 < old.old.left + new.old.left }
    requires old_begun { HasBegun (S.gives src.old) old.old }
    requires new_begun { HasBegun (S.gives src.old) new.old }
    ensures opened { (n : ℕ) → max old.old.left new.old.left ≡ suc n → OnOk result
        (level (nodes_given (S.gives src.old)) n (side_in old.old) (side_in new.old)
        ≡ Ok (side_in old.new, side_in new.new)) }
    ensures stopped { (n : ℕ) → max old.old.left new.old.left ≡ suc n
        → IfErr result (IsStopped (S.gives src.old)
        (level (nodes_given (S.gives src.old)) n (side_in old.old) (side_in new.old))) }
    ensures left { OnOk result
        (suc (max old.new.left new.new.left) ≡ max old.old.left new.old.left) }
    ensures old_begun { OnOk result (HasBegun (S.gives src.old) old.new) }
    ensures new_begun { OnOk result (HasBegun (S.gives src.old) new.new) }
    ensures counted { OnOk result (S.reads src.new + (asked_by old.old + asked_by new.old)
        ≡ S.reads src.old + (asked_by old.new + asked_by new.new)) }
    ensures needs { IsTrue needs.old.is_wanted → IfErr result (λ fault. IfMissing fault
        (needs.new.cids.items ≡ needed_by (side_in old.old) (side_in new.old))) }
    ensures wanted { needs.new.is_wanted ≡ needs.old.is_wanted }
    ensures most { S.reads src.new
        ≤ S.reads src.old + length (needed_by (side_in old.old) (side_in new.old)) }
    ensures same { S.gives src.new ≡ S.gives src.old }
{
    let Some(ours) = old.line.links(alloc.clone()?)? else {
        return Err(DifferenceFault::NotTree);
    };
    let Some(theirs) = new.line.links(alloc.clone()?)? else {
        return Err(DifferenceFault::NotTree);
    };
    needs.clear();
    if old.left > new.left {
        let none = Links::new(alloc);
        needs.add(&old.line, &none)?;
        old.open(src, &none)?;
        return Ok(());
    }
    if old.left < new.left {
        let none = Links::new(alloc);
        needs.add(&new.line, &none)?;
        new.open(src, &none)?;
        return Ok(());
    }
    needs.add(&old.line, &theirs)?;
    needs.add(&new.line, &ours)?;
    old.open(src, &theirs)?;
    new.open(src, &ours)?;
    Ok(())
}

/// What both trees come to.
fn tell<D: Digest, A: Allocator + Clone>(
    alloc: A,
    old: Side<'_, D, A>,
    new: Side<'_, D, A>,
) -> Result<Difference<D, A>, DifferenceFault>
    ensures told { IfOk result (λ d. AreTold D.digest_of (side_in old.entry) (side_in new.entry)
        (changes_told d.changes.items) (map arc_value d.come.items) d.go.items) }
    ensures lengths { IfOk result (λ d. (length d.come.items ≡ length new.entry.read.items)
        × (length d.go.items ≡ length old.entry.read.items)) }
    ensures fault { IfErr result (IsUnended (side_in old.entry) (side_in new.entry)) }
{
    if !old.line.has_no_links() {
        return Err(DifferenceFault::TooDeep);
    }
    if !new.line.has_no_links() {
        return Err(DifferenceFault::TooDeep);
    }
    let go = cids(alloc.clone()?, &old.read)?;
    let come = shared(alloc.clone()?, &new.read)?;
    let changes = merged(alloc, old.line.rows, new.line.rows)?;
    Ok(Difference { changes, come, go })
}

/// The CIDs of blocks.
fn cids<D: Digest, A: Allocator>(
    alloc: A,
    blocks: &[ReadNode<'_, D, A>],
) -> Result<Vec<Cid, A>, AllocError>
    ensures { IfOk result (λ cids. cids.items
        ≡ map (cid_of D.digest_of) (map shape_bytes (shapes_in blocks.now))) }
{
    let mut cids = Vec::with_capacity(alloc, blocks.len())?;
    for node in blocks {
        cids.push(node.block().cid())?;
    }
    Ok(cids)
}

/// Blocks, shared.
fn shared<D: Digest, A: Allocator>(
    alloc: A,
    blocks: &[ReadNode<'_, D, A>],
) -> Result<Vec<Arc<Block<D, A>, A>, A>, AllocError>
    ensures { IfOk result
        (λ all. map arc_value all.items ≡ map shape_bytes (shapes_in blocks.now)) }
{
    let mut all = Vec::with_capacity(alloc, blocks.len())?;
    for node in blocks {
        all.push(Arc::try_clone(node.block())?)?;
    }
    Ok(all)
}
