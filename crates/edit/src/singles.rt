//! One key of a tree changed: a put and a delete, each as the case of one change.

ghost use Rattle.std.specs.Prelude.{◌≡◌, ◌≤◌, ◌+◌, ◌*◌, ◌/◌, ◌∷◌, [], ◌++◌, suc, length, map, true, Option, Some, None, IfOk, IfErr, OnOk};
ghost use Rattle.std.specs.Arc.{arc_value};
ghost use Rattle.spec.specs.NodeFormat.{is_key};
ghost use Rattle.spec.specs.Proof.{path};
ghost use Rattle.edit_laws.specs.Laws.Edits.{bytes_of};
ghost use Rattle.edit.specs.Changing.{HasPrevious, IsChanged, IsReadFor, IsUnchanged};
ghost use Rattle.edit.specs.Deletes.{CanReadDelete, nodes_read};
ghost use Rattle.lookups.specs.Steps.{layers, IsWholePath, nodes_given};
ghost use Rattle.lookups.specs.Trees.{OfTree, top_layer};
ghost use Rattle.batch_laws.specs.Counts.{most_reads};
ghost use Rattle.batch_laws.specs.Links.{Top, Step};
ghost use Rattle.edit.specs.Batches.{IsAnswer};
ghost use Rattle.edit.specs.Refusals.{IsRefusal, IsMissing};
ghost use Rattle.edit.specs.Singles.{first_value, HasPath, HasDeletePath, IsPut, IsPutRefusal, IsPutLack, IsDelete, IsDeleteRefusal, IsDeleteLack};
ghost use Rattle.edit.specs.States.{log_in};
ghost use Rattle.edit.specs.Tops.{IsEnded};

use crate::applying::difference_of;
use crate::hashed::HashedChange;
use crate::outcome::{BatchEdit, Edit, EditFault, Fault};
use crate::whole::{Changed, change_tree};
use block::Block;
use cid::{Cid, Digest};
use key_changes::Change;
use lookups::Source;
use std::alloc::Allocator;
use std::clone::Clone;
use std::sync::Arc;

/// Puts a key with a value into the tree with this root; where the tree has the key, the value takes the place of the
/// old one.
///
/// It reads the nodes of the key's path, each once, and writes the nodes that change; no other node is looked at. `B`
/// is the number of zero bits of a digest that count for one layer, at least 1 (AT Protocol repository v3, MST
/// structure). The key has 1 to 1,024 bytes; `is_key` is the test.
///
/// The source has all nodes of the tree. Then `EditFault::Clash` shows two blocks with one CID and different bytes,
/// each a node of the tree before or of the tree after, and `EditFault::NoMemory` comes where memory was refused. Where
/// the source lacks a node of the path, `EditFault::Missing` has its CID; where it gives what is no tree, and that is
/// noticed, the fault is `EditFault::BadNode`, `EditFault::TooDeep` or `EditFault::NotTree`, as in [`apply`](crate::apply).
/// Whatever it gives, no more blocks are read than a tree has layers.
pub fn put<
    'a,
    D: Digest + 'a,
    const B: u8,
    A: Allocator + Clone + 'a,
    S: Source<&'a Arc<Block<D, A>, A>>,
>(alloc: A, src: &mut S, root: Cid, key: &[u8], value: Cid) -> Result<Edit<D, A>, EditFault<D, A>>
    requires least { 1 ≤ B }
    requires key { is_key key.now ≡ true }
    ensures edit { IsPut D.digest_of B (S.gives src.old) root key.now value result }
    ensures nodes { HasPath D.digest_of B (S.gives src.old) root key.now result }
    ensures fault { IsPutRefusal D.digest_of B (S.gives src.old) root key.now value result }
    ensures lack { IsPutLack D.digest_of B (S.gives src.old) root key.now value result }
    ensures missing { ¬ IsWholePath (nodes_given (S.gives src.old)) (layers B) key.now (Some root)
        → IsMissing result }
    ensures reads { OfTree D.digest_of B (S.gives src.old) root
        (λ es. OnOk result
        (S.reads src.new ≡ S.reads src.old + length (path D.digest_of B es key.now))) }
    ensures layers { OfTree D.digest_of B (S.gives src.old) root
        (λ es. S.reads src.new ≤ S.reads src.old + suc (top_layer D.digest_of B es)) }
    ensures most { S.reads src.new ≤ S.reads src.old + layers B }
    ensures same { S.gives src.new ≡ S.gives src.old }
{
    let changed = change_one::<D, B, A, S>(alloc.clone()?, src, root, key, Some(value))?;
    edit_of(alloc, changed)
}

/// Takes a key out of the tree with this root.
///
/// It reads the nodes of the key's path, the nodes that meet where the key stood, and, where the top loses its only key,
/// the chain below it down to the first node with a key; each once. No other node is looked at. `B` is the number of zero
/// bits of a digest that count for one layer, at least 1 (AT Protocol repository v3, MST structure).
///
/// The source has all nodes of the tree. Then `EditFault::NoSuchKey` says that the tree doesn't have the key,
/// `EditFault::Clash` shows two blocks with one CID and different bytes, each a node of the tree before or of the tree
/// after, and `EditFault::NoMemory` comes where memory was refused. Where the source lacks one of the nodes that are read,
/// `EditFault::Missing` has its CID; where it gives what is no tree, and that is noticed, the fault is
/// `EditFault::BadNode`, `EditFault::TooDeep` or `EditFault::NotTree`, as in [`apply`](crate::apply). Whatever it gives, no
/// more blocks are read than four for each layer that a tree may have.
pub fn delete<
    'a,
    D: Digest + 'a,
    const B: u8,
    A: Allocator + Clone + 'a,
    S: Source<&'a Arc<Block<D, A>, A>>,
>(alloc: A, src: &mut S, root: Cid, key: &[u8]) -> Result<Edit<D, A>, EditFault<D, A>>
    requires least { 1 ≤ B }
    ensures edit { IsDelete D.digest_of B (S.gives src.old) root key.now result }
    ensures nodes { HasDeletePath D.digest_of B (S.gives src.old) root key.now result }
    ensures fault { IsDeleteRefusal D.digest_of B (S.gives src.old) root key.now result }
    ensures lack { IsDeleteLack D.digest_of B (S.gives src.old) root key.now result }
    ensures missing { ¬ CanReadDelete (nodes_given (S.gives src.old)) (layers B) key.now root
        → IsMissing result }
    ensures reads { OfTree D.digest_of B (S.gives src.old) root
        (λ es. OnOk result
        (S.reads src.new ≡ S.reads src.old + length (nodes_read D.digest_of B es key.now))) }
    ensures layers { OfTree D.digest_of B (S.gives src.old) root
        (λ es. S.reads src.new ≤ S.reads src.old + (2 * top_layer D.digest_of B es + 1)) }
    ensures most { S.reads src.new ≤ S.reads src.old + 4 * layers B }
    ensures same { S.gives src.new ≡ S.gives src.old }
{
    let changed = change_one::<D, B, A, S>(alloc.clone()?, src, root, key, None)?;
    let Some(_) = value_before(&changed.previous) else {
        return Err(EditFault::NoSuchKey);
    };
    edit_of(alloc, changed)
}

/// The tree with this root, with one key changed.
fn change_one<
    'a,
    D: Digest + 'a,
    const B: u8,
    A: Allocator + Clone + 'a,
    S: Source<&'a Arc<Block<D, A>, A>>,
>(
    alloc: A,
    src: &mut S,
    root: Cid,
    key: &[u8],
    value: Option<Cid>,
) -> Result<Changed<'a, D, A>, Fault>
    requires least { 1 ≤ B }
    ensures changed { IsChanged D.digest_of B (S.gives src.old) ((key.now, value) ∷ []) root
        result }
    ensures previous { HasPrevious D.digest_of B (S.gives src.old) ((key.now, value) ∷ []) root
        result }
    ensures counted { IsReadFor (S.reads src.old) (S.reads src.new) result }
    ensures same { S.gives src.new ≡ S.gives src.old }
    ensures stopped { IsUnchanged D.digest_of B (S.gives src.old) ((key.now, value) ∷ []) root
        (S.reads src.old) (S.reads src.new) result }
    ensures most { S.reads src.new
        ≤ S.reads src.old + suc (most_reads (256 / B) ((key.now, value) ∷ [])) }
{
    let changes = [HashedChange::of(&Change { key, value })];
    change_tree::<D, B, A, S>(alloc, src, root, &changes)
}

/// The value that the first of some changed keys had.
fn value_before(previous: &[Option<Cid>]) -> Option<Cid>
    ensures { result ≡ first_value previous.now }
{
    let [first, ..] = previous else {
        return None;
    };
    *first
}

/// The edit of a tree of which one key was changed.
fn edit_of<D: Digest, A: Allocator + Clone>(
    alloc: A,
    changed: Changed<'_, D, A>,
) -> Result<Edit<D, A>, EditFault<D, A>>
    requires { changed.gone ≤ length changed.edge.read.items }
    ensures answer { (answer : Step Top)
        → IsEnded answer changed.entry.root changed.entry.gone (log_in changed.entry.edge)
        → IfOk result (λ edit. IsAnswer D.digest_of answer edit.root
        (map arc_value edit.add.items) edit.drop.items) }
    ensures previous { IfOk result (λ edit.
        edit.previous ≡ first_value changed.entry.previous.items) }
    ensures read { IfOk result (λ edit.
        map arc_value edit.read.items ≡ bytes_of (log_in changed.entry.edge).read) }
    ensures fault { IfErr result (IsRefusal D.digest_of (bytes_of (log_in changed.entry.edge).made
        ++ bytes_of (log_in changed.entry.edge).read) ⊥) }
{
    let edit = difference_of(alloc, changed)?;
    let BatchEdit {
        root,
        add,
        drop,
        previous,
        read,
    } = edit;
    let previous = value_before(&previous);
    Ok(Edit {
        root,
        add,
        drop,
        previous,
        read,
    })
}
