//! What a batch comes to, and the nodes that show it.

ghost use Rattle.std.specs.Prelude.{◌≡◌, ◌≤◌, ◌+◌, ◌/◌, suc, true, map, IfOk};
ghost use Rattle.std.specs.Arc.{arc_value};
ghost use Rattle.edit_laws.specs.Laws.Edits.{bytes_of};
ghost use Rattle.batch_laws.specs.Counts.{most_reads};
ghost use Rattle.key_changes.specs.Keyed.{are_changes as are_changes_of};
ghost use Rattle.edit.specs.States.{shapes_in};
ghost use Rattle.edit.specs.Previews.{IsPreviewed, IsPreviewedTree, IsPreviewLack, IsPreviewReached, IsPreviewWant};

use crate::edge::{Edge, ReadNode};
use crate::hashed::hash_each;
use crate::outcome::EditFault;
use crate::whole::{Changed, change_tree};
use block::Block;
use cid::{Cid, Digest};
use key_changes::Change;
use lookups::Source;
use std::alloc::{AllocError, Allocator, Global};
use std::clone::Clone;
use std::sync::Arc;

/// What a batch comes to, and the nodes that show it: who has these nodes and no others gets the same by the same changes.
#[derive(Drop)]
#[derive_where(Debug)]
pub struct BatchPreview<D: Digest, A: Allocator = Global> {
    /// The root after the batch.
    pub root: Cid,
    /// The value that the key of each change had before, in the order of the changes.
    pub previous: Vec<Option<Cid>, A>,
    /// The nodes that are read, each once, in the order in which they are read, shared with the source.
    pub read: Vec<Arc<Block<D, A>, A>, A>,
}

/// What a batch would come to in the tree with this root, and which nodes it reads. It makes no edit, and so needs no
/// memory for one beyond that of the nodes in the making.
///
/// It takes what [`apply`](crate::apply) takes, asks the source for the same nodes, and refuses for the same reasons but
/// that it never looks for blocks with one CID: `EditFault::Missing` has the CID of a node that the source lacks;
/// `EditFault::BadNode`, with a CID, `EditFault::TooDeep` and `EditFault::NotTree` come only where the source gives what is no
/// tree; and `EditFault::NoMemory` comes where memory was refused.
pub fn preview<
    'a,
    D: Digest + 'a,
    const B: u8,
    A: Allocator + Clone + 'a,
    S: Source<&'a Arc<Block<D, A>, A>>,
>(
    alloc: A,
    src: &mut S,
    root: Cid,
    changes: &[Change<'_>],
) -> Result<BatchPreview<D, A>, EditFault<D, A>>
    requires least { 1 ≤ B }
    requires changes { are_changes_of changes.now ≡ true }
    ensures preview { IsPreviewed D.digest_of B (S.gives src.old) root changes.now result }
    ensures tree { IsPreviewedTree D.digest_of B (S.gives src.old) root changes.now result }
    ensures want { IsPreviewWant D.digest_of B (S.gives src.old) root changes.now result }
    ensures lack { IsPreviewLack D.digest_of B (S.gives src.old) root changes.now result }
    ensures reached { IsPreviewReached D.digest_of B (S.gives src.old) root changes.now result }
    ensures most { S.reads src.new ≤ S.reads src.old + suc (most_reads (256 / B) changes.now) }
    ensures same { S.gives src.new ≡ S.gives src.old }
{
    let hashed = hash_each::<D, A>(alloc.clone()?, changes)?;
    let changed = change_tree::<D, B, A, S>(alloc.clone()?, src, root, &hashed)?;
    let Changed {
        root,
        previous,
        edge,
        ..
    } = changed;
    let Edge { read, .. } = edge;
    let read = shared(alloc, &read)?;
    Ok(BatchPreview {
        root,
        previous,
        read,
    })
}

/// The blocks of nodes that were read, shared.
pub(crate) fn shared<D: Digest, A: Allocator>(
    alloc: A,
    read: &[ReadNode<'_, D, A>],
) -> Result<Vec<Arc<Block<D, A>, A>, A>, AllocError>
    ensures { IfOk result
        (λ blocks. map arc_value blocks.items ≡ bytes_of (shapes_in read.now)) }
{
    let mut blocks = Vec::with_capacity(alloc, read.len())?;
    for node in read {
        blocks.push(Arc::try_clone(node.block())?)?;
    }
    Ok(blocks)
}
