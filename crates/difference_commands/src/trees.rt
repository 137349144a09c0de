//! The trees of two files compared.
ghost use Rattle.std.specs.Prelude.{◌≡◌, ◌<◌, ◌^◌, List, true, length, map, IfOk, IfErr, OnOk};
ghost use Rattle.std.specs.Arc.{arc_value};
ghost use Rattle.std.specs.List.{AllByRecursion, list_all};
ghost use Rattle.spec.specs.Blocks.{nodes, root};
ghost use Rattle.spec.specs.Cid.{is_own_cid};
ghost use Rattle.spec.specs.NodeFormat.{is_ascending as is_ascending_of};
ghost use Rattle.spec.specs.Sources.{HasBlocks};
ghost use Rattle.spec.specs.Tree.{Pair};
ghost use Rattle.lookups.specs.Maps.{first_of};
ghost use Rattle.lookups.specs.Trees.{bytes_given};
ghost use Rattle.difference.specs.Differences.{IsDifferenceOf, OfTrees};
ghost use Rattle.difference.specs.Merged.{changes_told};
ghost use Rattle.difference_commands.specs.Trees.{IsBuiltOf, IsClashAmong, IsClashBetween, is_given};
ghost use Rattle.difference_commands.specs.Views.{pairs_in};
ghost use Rattle.difference_commands.specs.declared.trees.TreesFault.TheVariants as faults;

use crate::entry::Entry;
use block::Block;
use cid::{Cid, Digest};
use difference::{Difference, difference};
use lookups::{BlockMap, Source};
use scratch::{Built, ScratchFault, build};
use std::alloc::{AllocError, Allocator};
use std::sync::Arc;

/// Why two trees were not compared.
#[derive(Clone, Copy, PartialEq, Eq, Debug)]
pub(crate) enum TreesFault {
    /// Two different nodes of both have one CID.
    Clash,
    /// Memory was refused.
    NoMemory,
}

impl From<AllocError> for TreesFault {
    ghost from_gives = { λ _ fault. fault ≡ faults.NoMemory };

    fn from(_refused: AllocError) -> TreesFault {
        TreesFault::NoMemory
    }
}

/// What makes one tree of another, and the root of the other.
#[derive(Drop)]
pub(crate) struct Compared<D: Digest, A: Allocator> {
    pub(crate) root: Cid,
    pub(crate) found: Difference<D, A>,
}

/// What makes the tree of the new entries of that of the old ones, or a clash of two of their nodes.
pub(crate) fn difference_of<D: Digest, A: Allocator + Copy>(
    alloc: A,
    old: &[(Entry<'_>, Cid)],
    new: &[(Entry<'_>, Cid)],
) -> Result<Compared<D, A>, TreesFault>
    requires old { is_ascending_of (pairs_in old.now) ≡ true }
    requires new { is_ascending_of (pairs_in new.now) ≡ true }
    ensures difference { IfOk result (λ c. IsDifferenceOf D.digest_of 2
        (pairs_in old.now) (pairs_in new.now)
        (changes_told c.found.changes.items) (map arc_value c.found.come.items) c.found.go.items) }
    ensures root { IfOk result (λ c. c.root ≡ root D.digest_of 2 (pairs_in new.now)) }
    ensures fault { IfErr result
        (IsClashBetween D.digest_of (pairs_in old.now) (pairs_in new.now)) }
{
    let before = tree_of::<D, A>(alloc, old)?;
    let after = tree_of::<D, A>(alloc, new)?;
    let root = after.root;
    let found = compare_trees(alloc, before, after)?;
    Ok(Compared { root, found })
}

/// The tree of these entries, whose keys ascend.
fn tree_of<D: Digest, A: Allocator + Copy>(
    alloc: A,
    entries: &[(Entry<'_>, Cid)],
) -> Result<Built<D, A>, TreesFault>
    requires { is_ascending_of (pairs_in entries.now) ≡ true }
    ensures tree { IfOk result (IsBuiltOf D.digest_of (pairs_in entries.now)) }
    ensures fault { IfErr result (IsClashAmong D.digest_of
        (nodes D.digest_of 2 (pairs_in entries.now))) }
{
    have_own_cids(entries);
    match build::<D, 2, Entry<'_>, A>(alloc, entries) {
        Ok(built) => Ok(built),
        Err(ScratchFault::Clash(_)) => Err(TreesFault::Clash),
        Err(ScratchFault::NoMemory) => Err(TreesFault::NoMemory),
    }
}

/// What holds of any CIDs of this host. This is a statement for proofs alone: it does nothing.
fn have_own_cids(entries: &[(Entry<'_>, Cid)])
    ensures own { AllByRecursion (λ e. is_own_cid e.1 ≡ true) (pairs_in entries.now) }
    ensures count { length entries.now < 2 ^ 63 }
{
    for (_, cid) in entries {
        let _ = cid.as_bytes();
    }
}

/// What makes the one tree of the other.
fn compare_trees<D: Digest, A: Allocator + Copy>(
    alloc: A,
    before: Built<D, A>,
    after: Built<D, A>,
) -> Result<Difference<D, A>, TreesFault>
    ensures difference { (es fs : List Pair) → IsBuiltOf D.digest_of es before
        → IsBuiltOf D.digest_of fs after → IfOk result (λ d. IsDifferenceOf D.digest_of 2 es fs
        (changes_told d.changes.items) (map arc_value d.come.items) d.go.items) }
    ensures fault { (es fs : List Pair) → IsBuiltOf D.digest_of es before
        → IsBuiltOf D.digest_of fs after → IfErr result (IsClashBetween D.digest_of es fs) }
{
    let Built { root: old, blocks } = before;
    let Built {
        root: new,
        blocks: further,
    } = after;
    let mut blocks = blocks;
    let mut further = further;
    blocks.append(&mut further)?;
    compare_blocks(alloc, &blocks, old, new)
}

/// What makes the tree with the one root of that with the other, over the blocks of both.
fn compare_blocks<D: Digest, A: Allocator + Copy>(
    alloc: A,
    blocks: &[Arc<Block<D, A>, A>],
    old: Cid,
    new: Cid,
) -> Result<Difference<D, A>, TreesFault>
    ensures difference { OfTrees D.digest_of 2 (first_of D.digest_of blocks.now) old new
        (λ es fs. IfOk result (λ d. IsDifferenceOf D.digest_of 2 es fs
        (changes_told d.changes.items) (map arc_value d.come.items) d.go.items)) }
    ensures given { OnOk result (HasBlocks D.digest_of
        (bytes_given (first_of D.digest_of blocks.now)) (map arc_value blocks.now)) }
    ensures fault { IfErr result (IsClashAmong D.digest_of (map arc_value blocks.now)) }
{
    let mut source = BlockMap::new(alloc, blocks)?;
    if !gives_all(&mut source, blocks) {
        return Err(TreesFault::Clash);
    }
    match difference::<D, 2, A, BlockMap<'_, D, A>>(alloc, &mut source, old, new) {
        Ok(found) => Ok(found),
        // both trees are there, so it is memory that is wanted
        Err(_) => Err(TreesFault::NoMemory),
    }
}

/// Whether a source gives each of these blocks under its CID.
fn gives_all<'a, D: Digest, A: Allocator>(
    source: &mut BlockMap<'a, D, A>,
    blocks: &[Arc<Block<D, A>, A>],
) -> bool
    ensures all { result ≡ list_all (is_given D.digest_of (first_of D.digest_of source.old.blocks))
        (map arc_value blocks.now) }
    ensures same { first_of D.digest_of source.new.blocks
        ≡ first_of D.digest_of source.old.blocks }
{
    for block in blocks {
        if !gives(source, block) {
            return false;
        }
    }
    true
}

/// Whether a source gives this block under its CID.
fn gives<'a, D: Digest, A: Allocator>(source: &mut BlockMap<'a, D, A>, block: &Block<D, A>) -> bool
    ensures given { result ≡ is_given D.digest_of (first_of D.digest_of source.old.blocks)
        block.now }
    ensures same { first_of D.digest_of source.new.blocks
        ≡ first_of D.digest_of source.old.blocks }
{
    match source.get(&block.cid()) {
        Some(found) => found.bytes() == block.bytes(),
        None => false,
    }
}
