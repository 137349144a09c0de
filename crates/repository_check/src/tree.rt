//! The tree of a file.

ghost use Rattle.std.specs.Prelude.{◌≡◌, ◌<◌, ◌≤◌, ◌^◌, ◌&&◌, ◌↔◌, true, length, map, IfOk, IfErr};
ghost use Rattle.std.specs.List.{list_all, AllByRecursion};
ghost use Rattle.std.specs.Arc.{arc_value};
ghost use Rattle.std.specs.Str.{bytes_eq};
ghost use Rattle.spec.specs.Cid.{is_own_cid};
ghost use Rattle.spec.specs.NodeFormat.{is_ascending as is_ascending_of};
ghost use Rattle.spec.specs.Exports.{IsTree};
ghost use Rattle.repository_check.specs.declared.fault.CheckFault.TheVariants.{NoMemory};
ghost use Rattle.repository_check.specs.Parts.{IsTreeFault, IsRebuilt};
ghost use Rattle.repository_check.specs.Views.{pairs_of};
ghost use Rattle.repository_check.specs.Given.{is_given};

use crate::fault::CheckFault;
use crate::walking::{Pairs, pairs_listed};
use block::Block;
use car_reader::Places;
use cid::{Cid, Digest};
use scratch::{Built, ScratchFault, build, is_ascending};
use std::alloc::Allocator;
use std::sync::Arc;

/// The pairs of the tree with this root, of which the file has all nodes. The file has at most so many sections.
pub(crate) fn tree_in<D: Digest, const B: u8, A: Allocator + Copy>(
    alloc: A,
    places: &Places<'_, '_, A>,
    root: &Cid,
    sections: usize,
) -> Result<Pairs<A>, CheckFault>
    requires least { 1 ≤ B }
    requires most { B ≤ 8 }
    requires sections { length places.now ≤ sections }
    ensures tree { IfOk result (λ pairs.
        IsTree D.digest_of B places.now root.now (pairs_of pairs.items)) }
    ensures fault { IfErr result (IsTreeFault D.digest_of B places.now root.now) }
{
    let pairs = pairs_listed::<D, B, A>(alloc, places, root, sections)?;
    if !is_ascending(&pairs) {
        return Err(CheckFault::NotTheTree);
    }
    if !is_rebuilt::<D, B, A>(alloc, places, root, &pairs)? {
        return Err(CheckFault::NotTheTree);
    }
    have_own_cids(&pairs);
    Ok(pairs)
}

/// What holds of any CIDs of this host. This is a statement for proofs alone: it does nothing.
fn have_own_cids<A: Allocator>(pairs: &[(Vec<u8, A>, Cid)])
    ensures own { AllByRecursion (λ e. is_own_cid e.1 ≡ true) (pairs_of pairs.now) }
    ensures count { length pairs.now < 2 ^ 63 }
{
    for (_, cid) in pairs {
        let _ = cid.as_bytes();
    }
}

/// Whether the tree of these pairs has this root and the file has all of its nodes.
fn is_rebuilt<D: Digest, const B: u8, A: Allocator + Copy>(
    alloc: A,
    places: &Places<'_, '_, A>,
    root: &Cid,
    pairs: &[(Vec<u8, A>, Cid)],
) -> Result<bool, CheckFault>
    requires least { 1 ≤ B }
    requires most { B ≤ 8 }
    requires ascending { is_ascending_of (pairs_of pairs.now) ≡ true }
    ensures rebuilt { IfOk result (λ yes. (yes ≡ true)
        ↔ IsRebuilt D.digest_of B places.now root.now (pairs_of pairs.now)) }
    ensures fault { IfErr result (λ e. e ≡ NoMemory) }
{
    match build::<D, B, Vec<u8, A>, A>(alloc, pairs) {
        Ok(built) => Ok(is_found(places, root, &built)),
        Err(ScratchFault::NoMemory) => Err(CheckFault::NoMemory),
        // no file has two blocks under one CID
        Err(ScratchFault::Clash(_)) => Ok(false),
    }
}

/// Whether a tree has this root and the file has all of its nodes.
fn is_found<D: Digest, A: Allocator>(
    places: &Places<'_, '_, A>,
    root: &Cid,
    built: &Built<D, A>,
) -> bool
    ensures { result ≡ (bytes_eq built.now.root root.now
        && list_all (is_given D.digest_of places.now) (map arc_value built.now.blocks.items)) }
{
    built.root == *root && are_given(places, &built.blocks)
}

/// Whether the file has each of these blocks.
fn are_given<D: Digest, A: Allocator>(
    places: &Places<'_, '_, A>,
    blocks: &[Arc<Block<D, A>, A>],
) -> bool
    ensures { result ≡ list_all (is_given D.digest_of places.now) (map arc_value blocks.now) }
{
    for block in blocks {
        if !is_given(places, block) {
            return false;
        }
    }
    true
}

/// Whether the file has this block.
fn is_given<D: Digest, A: Allocator>(places: &Places<'_, '_, A>, block: &Block<D, A>) -> bool
    ensures { result ≡ is_given D.digest_of places.now block.now }
{
    match places.find(&block.cid()) {
        Some(bytes) => bytes == block.bytes(),
        None => false,
    }
}
