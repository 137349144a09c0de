//! Many keys of a tree changed at once.

ghost use Rattle.std.specs.Prelude.{◌≡◌, ◌≤◌, ◌+◌, ◌/◌, ◌++◌, suc, length, map, take, true, IfOk, IfErr, OnOk};
ghost use Rattle.std.specs.Arc.{arc_value};
ghost use Rattle.spec.specs.Blocks.{IsClashFree};
ghost use Rattle.spec.specs.Layer.{layer as layer_of};
ghost use Rattle.spec.specs.Tree.{top_layer};
ghost use Rattle.edit.specs.Refusals.{IsRefusal};
ghost use Rattle.edit_laws.specs.Changes.{add_of, drop_of};
ghost use Rattle.edit_laws.specs.Laws.Edits.{bytes_of};
ghost use Rattle.edit.specs.States.{log_in};
ghost use Rattle.lookups.specs.Trees.{OfTree};
ghost use Rattle.batch_laws.specs.Counts.{most_reads};
ghost use Rattle.edit.specs.Batches.{nodes_read, IsBatch, IsBatchRefusal, IsAnswered, IsLack, HasNodes, HasNodesOver};
ghost use Rattle.key_changes.specs.Keyed.{are_changes as are_changes_of};

use crate::differences::{added, dropped, places_of_read};
use crate::edge::Edge;
use crate::hashed::hash_each;
use crate::outcome::{BatchEdit, EditFault};
use crate::previews::shared;
use crate::whole::{Changed, change_tree};
use block::Block;
use cid::{Cid, Digest};
use key_changes::Change;
use lookups::Source;
use std::alloc::Allocator;
use std::clone::Clone;
use std::sync::Arc;

/// Changes many keys of the tree with this root at once: each change gives its key a value, or takes the key away where it
/// has none. A key that isn't there and is taken away changes nothing.
///
/// The keys have 1 to 1,024 bytes and ascend strictly; [`are_changes`](crate::are_changes) is the test. Only nodes in whose range of keys a change
/// lies, and their neighbours where keys go, are read, each once, and each node that changes is written once. `B` is the
/// number of zero bits of a digest that count for one layer, at least 1 (AT Protocol repository v3, MST structure).
///
/// The source has all nodes of the tree. Then `EditFault::Clash` shows two blocks with one CID and different bytes, each a
/// node of the tree before or of the tree after, and `EditFault::NoMemory` comes where memory was refused. Where the source
/// lacks a node that is needed, `EditFault::Missing` has its CID, so that who has it elsewhere can add it and call again.
/// Where it gives what is no tree, `EditFault::BadNode` has the CID of a block that is no node, `EditFault::TooDeep` comes at a
/// link below layer 0, and `EditFault::NotTree` where keys don't ascend in a node that would be made; not all of that is
/// noticed, as only what the changes need is read. After a refusal nothing has changed: the blocks are for the caller to keep.
///
/// Whatever the source gives, also where its nodes go on without an end, no more blocks are read than over a tree with a
/// root of the same layer: the root, and for each layer below it one for a put and two for a delete. A batch that would need
/// more is told `EditFault::NotTree`.
pub fn apply<
    'a,
    D: Digest + 'a,
    const B: u8,
    A: Allocator + Clone + 'a,
    S: Source<&'a Arc<Block<D, A>, A>>,
>(
    alloc: A,
    src: &mut S,
    root: Cid,
    changes: &[Change<'_>],
) -> Result<BatchEdit<D, A>, EditFault<D, A>>
    requires least { 1 ≤ B }
    requires changes { are_changes_of changes.now ≡ true }
    ensures edit { IsBatch D.digest_of B (S.gives src.old) root changes.now result }
    ensures fault { IsBatchRefusal D.digest_of B (S.gives src.old) root changes.now result }
    ensures answer { IsAnswered D.digest_of B (S.gives src.old) root changes.now result }
    ensures nodes { HasNodes D.digest_of B (S.gives src.old) root changes.now result }
    ensures nodes_over { HasNodesOver D.digest_of B (S.gives src.old) root changes.now result }
    ensures lack { IsLack D.digest_of B (S.gives src.old) root changes.now result }
    ensures reads { OfTree D.digest_of B (S.gives src.old) root (λ es. OnOk result
        (S.reads src.new ≡ S.reads src.old + length (nodes_read D.digest_of B changes.now es))) }
    ensures layers { OfTree D.digest_of B (S.gives src.old) root (λ es. S.reads src.new
        ≤ S.reads src.old + suc (most_reads (top_layer (layer_of D.digest_of B) es) changes.now)) }
    ensures most { S.reads src.new ≤ S.reads src.old + suc (most_reads (256 / B) changes.now) }
    ensures same { S.gives src.new ≡ S.gives src.old }
{
    let hashed = hash_each::<D, A>(alloc.clone()?, changes)?;
    let changed = change_tree::<D, B, A, S>(alloc.clone()?, src, root, &hashed)?;
    difference_of(alloc, changed)
}

/// What comes and what goes where a tree was changed.
pub(crate) fn difference_of<D: Digest, A: Allocator + Clone>(
    alloc: A,
    changed: Changed<'_, D, A>,
) -> Result<BatchEdit<D, A>, EditFault<D, A>>
    requires { changed.gone ≤ length changed.edge.read.items }
    ensures root { IfOk result (λ edit. edit.root ≡ changed.entry.root) }
    ensures previous { IfOk result (λ edit. edit.previous.items ≡ changed.entry.previous.items) }
    ensures read { IfOk result (λ edit.
        map arc_value edit.read.items ≡ bytes_of (log_in changed.entry.edge).read) }
    ensures add { IfOk result (λ edit. map arc_value edit.add.items ≡ add_of D.digest_of
        (bytes_of (log_in changed.entry.edge).read) (bytes_of (log_in changed.entry.edge).made)) }
    ensures drop { IfOk result (λ edit. edit.drop.items ≡ drop_of D.digest_of
        (bytes_of (log_in changed.entry.edge).made)
        (take changed.entry.gone (bytes_of (log_in changed.entry.edge).read))) }
    ensures free { IsClashFree D.digest_of (bytes_of (log_in changed.entry.edge).read)
        → IfOk result (λ edit. IsClashFree D.digest_of
        (map arc_value edit.add.items ++ bytes_of (log_in changed.entry.edge).read)) }
    ensures all_free { IsClashFree D.digest_of (bytes_of (log_in changed.entry.edge).read)
        → OnOk result (IsClashFree D.digest_of (bytes_of (log_in changed.entry.edge).made
        ++ bytes_of (log_in changed.entry.edge).read)) }
    ensures fault { IfErr result (IsRefusal D.digest_of (bytes_of (log_in changed.entry.edge).made
        ++ bytes_of (log_in changed.entry.edge).read) ⊥) }
{
    let Changed {
        root,
        gone,
        previous,
        edge,
    } = changed;
    let Edge { read, made, .. } = edge;
    let old = places_of_read(alloc.clone()?, &read)?;
    let made = made.into_blocks();
    let drop = dropped(alloc.clone()?, &made, &read[..gone])?;
    let add = added(alloc.clone()?, &read, &old, made)?;
    let read = shared(alloc, &read)?;
    Ok(BatchEdit {
        root,
        add,
        drop,
        previous,
        read,
    })
}
