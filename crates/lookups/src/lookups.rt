//! The value of a key.

ghost use Rattle.std.specs.Prelude.{◌≡◌, ◌≤◌, option_map, ◌+◌, suc, Some, length};
ghost use Rattle.std.specs.Arc.{arc_value};
ghost use Rattle.edit_laws.specs.Sources.{shape_of_bytes, value_from};
ghost use Rattle.lookups.specs.Steps.{place_found, layers, asked_from, nodes_given, place_of_key};
ghost use Rattle.spec.specs.Blocks.{value_of};
ghost use Rattle.spec.specs.Proof.{path};
ghost use Rattle.lookups.specs.Trees.{OfTree, top_layer};

use crate::source::Source;
use block::Block;
use cid::{Cid, Digest};
use node::Place;
use std::alloc::Allocator;
use std::sync::Arc;

/// How many layers a tree has at most, where `B` zero bits of a digest count for one layer.
pub fn layers<const B: u8>() -> u16
    requires { 1 ≤ B }
    ensures { result ≡ layers B }
{
    256 / B as u16 + 1
}

/// Where the key stands in the node of a block, or `None` where it is no node.
pub(crate) fn place_in<'a, D: Digest, A: Allocator>(
    block: &'a Arc<Block<D, A>, A>,
    key: &[u8],
) -> Option<Place<'a>>
    ensures { option_map (place_found key.now) result ≡ option_map (place_of_key key.now)
        (shape_of_bytes (arc_value block.now)) }
{
    Some(block.node()?.find(key))
}

/// The value of a key in the tree with this root, or `None` where the tree doesn't have the key.
///
/// It reads the nodes of the key's path, each once: one for each layer at most, from the top down to the one that has
/// the key, or to a gap without a subtree. `B` is the number of zero bits of a digest that count for one layer, at
/// least 1 (AT Protocol repository v3, MST structure). It takes no memory and copies no block.
///
/// The source has all nodes of the tree. Where it lacks one, or gives what is no node, this ends with `None`.
pub fn get<'a, D: Digest + 'a, const B: u8, A: Allocator + 'a, S: Source<&'a Arc<Block<D, A>, A>>>(
    src: &mut S,
    root: Cid,
    key: &[u8],
) -> Option<Cid>
    requires { 1 ≤ B }
    ensures value { OfTree D.digest_of B (S.gives src.old) root
        (λ es. result ≡ value_of key.now es) }
    ensures reads { OfTree D.digest_of B (S.gives src.old) root
        (λ es. S.reads src.new ≡ S.reads src.old + length (path D.digest_of B es key.now)) }
    ensures layers { OfTree D.digest_of B (S.gives src.old) root
        (λ es. S.reads src.new ≤ S.reads src.old + suc (top_layer D.digest_of B es)) }
    ensures most { S.reads src.new ≤ S.reads src.old + layers B }
    ensures same { S.gives src.new ≡ S.gives src.old }
{
    value_below::<D, A, S>(src, root, key, layers::<B>())
}

/// The value of a key in the tree with this root, looked up over `most` nodes at most.
fn value_below<'a, D: Digest + 'a, A: Allocator + 'a, S: Source<&'a Arc<Block<D, A>, A>>>(
    src: &mut S,
    root: Cid,
    key: &[u8],
    most: u16,
) -> Option<Cid>
    ensures value { result ≡ value_from (nodes_given (S.gives src.old)) most key.now (Some root) }
    ensures reads { S.reads src.new ≡ S.reads src.old + asked_from (nodes_given (S.gives src.old))
        most key.now (Some root) }
    ensures same { S.gives src.new ≡ S.gives src.old }
{
    let mut cid = root;
    let mut remaining = most;
    while remaining > 0 {
        remaining -= 1;
        match place_in(src.get(&cid)?, key)? {
            Place::Here(entry) => return Some(entry.value.to_cid()),
            Place::Below(next) => cid = next.to_cid(),
            Place::Gap => return None,
        }
    }
    None
}
