//! The proof of a key.

ghost use Rattle.std.specs.Prelude.{◌≡◌, ◌≤◌, ℕ, List, Some, map, option_map, IfOk, IfSome};
ghost use Rattle.std.specs.Arc.{arc_value};
ghost use Rattle.spec.specs.NodeFormat.{shape_bytes};
ghost use Rattle.edit_laws.specs.Sources.{gap, path_from, shape_of_bytes, shown_by};
ghost use Rattle.edit_laws.specs.Laws.Lookups.{found_at};
ghost use Rattle.node.specs.Views.{place_of};
ghost use Rattle.export.specs.Exports.{ArePathOf};

use block::Block;
use cid::{Cid, Digest};
use kept::Lender;
use lookups::{Source, layers, view_of};
use node::Place;
use repo::Core;
use std::alloc::{AllocError, Allocator};
use std::sync::Arc;

/// The proof of a key: the nodes of its path in the repository's tree, from the top down to the node that has the key, or to
/// a gap without a subtree in which it would stand. It takes any key, and shares the blocks with the repository.
///
/// `AllocError` comes where memory was refused.
pub fn prove<D: Digest, const B: u8, A: Allocator>(
    alloc: A,
    core: &Core<D, B, A>,
    key: &[u8],
) -> Result<Vec<Arc<Block<D, A>, A>, A>, AllocError>
    requires { 1 ≤ B }
    ensures { IfOk result (λ nodes. ArePathOf D.digest_of B core.now key.now nodes.items) }
{
    let root = core.root();
    let mut lender = core.lender();
    path_within::<D, A, Lender<'_, D, A>>(alloc, &mut lender, root, key, layers::<B>())
}

/// The nodes of a key's path below a root, over `most` nodes at most. Where a block is missing or is no node, the path ends.
fn path_within<'a, D: Digest + 'a, A: Allocator + 'a, S: Source<&'a Arc<Block<D, A>, A>>>(
    alloc: A,
    src: &mut S,
    root: Cid,
    key: &[u8],
    most: u16,
) -> Result<Vec<Arc<Block<D, A>, A>, A>, AllocError>
    ensures { IfOk result (λ nodes. map arc_value nodes.items
        ≡ map shape_bytes (path_from (shown_by (λ c. option_map arc_value (S.gives src.old c))) most
        key.now (Some root))) }
{
    let mut nodes = Vec::new(alloc);
    let mut link = Some(root);
    let mut left = most;
    while left > 0 {
        left -= 1;
        let Some(cid) = link else {
            return Ok(nodes);
        };
        let Some(block) = src.get(&cid) else {
            return Ok(nodes);
        };
        let Some(next) = link_in(block, key) else {
            return Ok(nodes);
        };
        nodes.push(Arc::try_clone(block)?)?;
        link = next;
    }
    Ok(nodes)
}

/// The link below which a key lies in the node of a block, or `None` where the block is no node.
fn link_in<D: Digest, A: Allocator>(block: &Arc<Block<D, A>, A>, key: &[u8]) -> Option<Option<Cid>>
    ensures link { result ≡ option_map (gap key.now) (shape_of_bytes (arc_value block.now)) }
    ensures bytes { IfSome result (λ link. option_map shape_bytes
        (shape_of_bytes (arc_value block.now)) ≡ Some (arc_value block.now)) }
{
    match view_of(block) {
        Some(node) => Some(link_at(node.find(key))),
        None => None,
    }
}

/// The link at a place.
fn link_at(place: Place<'_>) -> Option<Cid>
    ensures { (key : List ℕ) → result ≡ (found_at (place_of key place.entry)).1 }
{
    match place {
        Place::Below(link) => Some(link.to_cid()),
        _ => None,
    }
}
