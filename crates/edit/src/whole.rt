//! A whole tree, from its root to its new root.

ghost use Rattle.std.specs.Prelude.{◌≡◌, ◌<◌, ◌≤◌, ◌+◌, ◌/◌, suc, max, true};
ghost use Rattle.batch_laws.specs.Counts.{most_reads};
ghost use Rattle.edit.specs.Batches.{answer_of, most_of};
ghost use Rattle.edit.specs.Halts.{IsReachedOn};
ghost use Rattle.edit.specs.Changing.{HasPrevious, IsChanged, IsReadFor, IsUnchanged};
ghost use Rattle.key_changes.specs.Keyed.{are_ascending};

use crate::changes::most_reads_below;
use crate::edge::Edge;
use crate::hashed::{HashedChange, layers_of_puts};
use crate::outcome::Fault;
use block::Block;
use cid::{Cid, Digest};
use lookups::Source;
use node::KeyBuf;
use rows::{KeyedEntries, top_layer};
use std::alloc::Allocator;
use std::clone::Clone;
use std::sync::Arc;

/// The new root, how many of the nodes that were read go, what the changed keys had, and what was read and made.
#[derive(Drop)]
pub(crate) struct Changed<'a, D: Digest, A: Allocator> {
    pub(crate) root: Cid,
    pub(crate) gone: usize,
    pub(crate) previous: Vec<Option<Cid>, A>,
    pub(crate) edge: Edge<'a, D, A>,
}

/// How many layers the edge has: those up to an old top of this layer, and no fewer than the puts want.
fn layers_for(top: u16, wanted: u16) -> u16
    requires fits { top < 65535 }
    ensures { result ≡ max (suc top) wanted }
{
    wanted.max(top + 1)
}

/// The tree with this root, changed.
pub(crate) fn change_tree<
    'a,
    D: Digest + 'a,
    const B: u8,
    A: Allocator + Clone + 'a,
    S: Source<&'a Arc<Block<D, A>, A>>,
>(
    alloc: A,
    src: &mut S,
    root: Cid,
    changes: &[HashedChange<'_, D>],
) -> Result<Changed<'a, D, A>, Fault>
    requires least { 1 ≤ B }
    requires ascending { are_ascending changes.now ≡ true }
    ensures changed { IsChanged D.digest_of B (S.gives src.old) changes.now root result }
    ensures previous { HasPrevious D.digest_of B (S.gives src.old) changes.now root result }
    ensures counted { IsReadFor (S.reads src.old) (S.reads src.new) result }
    ensures same { S.gives src.new ≡ S.gives src.old }
    ensures stopped { IsUnchanged D.digest_of B (S.gives src.old) changes.now root
        (S.reads src.old) (S.reads src.new) result }
    ensures reached { IsReachedOn (most_of D.digest_of B (S.gives src.old) changes.now root)
        (answer_of D.digest_of B (S.gives src.old) changes.now root) result }
    ensures most { S.reads src.new ≤ S.reads src.old + suc (most_reads (256 / B) changes.now) }
{
    let mut edge: Edge<'a, D, A> = Edge::new(alloc.clone()?)?;
    // how deep it lies in the new tree is known once it is read, and nothing is read above it
    let view = edge.view(src, 0, root)?;
    let top = top_layer::<D, B>(&view);
    edge.left = most_reads_below(top, changes);
    let layers = layers_for(top, layers_of_puts::<D, B>(changes));
    let rows = KeyedEntries::of(&view, KeyBuf::new(alloc)?);
    let walked = edge.walk::<B, S>(src, layers, top, layers - 1 - top, rows, changes);
    edge.is_written();
    let previous = walked?;
    let ended = edge.finish(src, layers);
    edge.is_written();
    let ended = ended?;
    let (root, gone) = ended;
    Ok(Changed {
        root,
        gone,
        previous,
        edge,
    })
}
