//! What a batch exchanges: which blocks come with it, and which go.

ghost use Rattle.std.specs.Prelude.{◌≡◌, ◌≤◌, ◌<◌, ◌++◌, ◌∷◌, [], true, length, map, IfOk, IfErr, OnOk};
ghost use Rattle.std.specs.List.{cons_option};
ghost use Rattle.std.specs.Arc.{arc_value};
ghost use Rattle.spec.specs.Commits.{commit_bytes};
ghost use Rattle.batch_laws.specs.Collecting.{with_cids};
ghost use Rattle.batch_laws.specs.Uses.{present_values, records_come};
ghost use Rattle.key_changes.specs.Keyed.{are_changes};
ghost use Rattle.kept.specs.Trees.{OfTree};
ghost use Rattle.batches.specs.Values.{stamp_of};
ghost use Rattle.repo.specs.Edits.{HasNodes, HasSomeTree, IsEditMade, IsEditRefusal, IsExchangeMade, OnTested};
ghost use Rattle.repo.specs.Wants.{IsPlaced, placed};
ghost use Rattle.repo.specs.Tested.{changes_in};

use crate::changes::Collected;
use crate::copies::Copies;
use crate::records::blocks_of_records;
use batches::{RepoFault, Stamp, Write, commit_bytes};
use block::Block;
use cid::{Cid, Digest};
use edit::{BatchEdit, EditFault};
use kept::{Kept, apply_over};
use std::alloc::{AllocError, Allocator};
use std::sync::Arc;

/// What a batch exchanges, and what its edit read for that.
#[derive(Drop)]
pub(crate) struct Exchange<D: Digest, A: Allocator> {
    /// The root after it.
    pub(crate) root: Cid,
    /// The CID of its commit.
    pub(crate) commit: Cid,
    /// The blocks that come: first so many nodes, then the records, and the commit last.
    pub(crate) come: Vec<Arc<Block<D, A>, A>, A>,
    pub(crate) nodes: usize,
    /// The CIDs of those that go: first so many of nodes, then those of records, and the commit's last.
    pub(crate) go: Vec<Cid, A>,
    pub(crate) gone: usize,
    /// The nodes that the edit read.
    pub(crate) read: Vec<Arc<Block<D, A>, A>, A>,
    /// The CIDs of the records that the changed keys had, in the order of the keys.
    pub(crate) values: Vec<Option<Cid>, A>,
}

/// A batch that passed its tests: the copies of it that are kept, and what it exchanges.
#[derive(Drop)]
pub(crate) struct TestedBatch<D: Digest, A: Allocator> {
    pub(crate) copies: Copies<A>,
    pub(crate) exchange: Exchange<D, A>,
}

/// What a batch that passed its tests exchanges over the tree with this root and the commit before, by what its writes change.
/// These are the writes: the blocks of its records keep those that leave one.
///
/// Want of memory that serves the whole batch is told at the first write, that for a record's block at a write of the record,
/// and that for the commit at the last write, as is a clash.
pub(crate) fn exchange_of<D: Digest, const B: u8, A: Allocator + Copy>(
    kept: &Kept<D, A>,
    alloc: A,
    root: Cid,
    before: Option<Cid>,
    stamp: &Stamp<A>,
    changes: &Collected<'_, A>,
    writes: &[Arc<Write<A>, A>],
) -> Result<Exchange<D, A>, (usize, RepoFault<D, A>)>
    requires least { 1 ≤ B }
    requires tree { HasSomeTree D.digest_of B kept.now.uses root }
    requires changes { are_changes (with_cids D.digest_of (changes_in changes.now)) ≡ true }
    requires some { 0 < length writes.now }
    ensures exchange { OnTested D.digest_of B root before stamp.now changes.now kept.now.uses
        (λ s batch. IfOk result (IsExchangeMade D.digest_of B s (stamp_of stamp.now) batch)) }
    ensures fault { OfTree D.digest_of B kept.now.uses root (λ es. IfErr result (λ refusal.
        IsEditRefusal D.digest_of B (with_cids D.digest_of (changes_in changes.now)) es
        refusal.1)) }
    ensures place { IfErr result (IsPlaced (length writes.now)) }
{
    let last = writes.len() - 1;
    let records = match blocks_of_records::<D, A>(alloc, changes, writes) {
        Ok(records) => records,
        Err(place) => return Err((place, RepoFault::NoMemory)),
    };
    let edit = match edit_for::<D, B, A>(kept, alloc, root, changes, &records) {
        Ok(edit) => edit,
        Err(fault) => return Err(placed(last, fault)),
    };
    let Ok(block) = commit_block(alloc, stamp, edit.root) else {
        return Err((last, RepoFault::NoMemory));
    };
    let commit = block.cid();
    let BatchEdit {
        root,
        add,
        drop,
        previous,
        read,
    } = edit;
    let nodes = add.len();
    let gone = drop.len();
    let Ok(come) = all_that_come(add, records, block) else {
        return Err((0, RepoFault::NoMemory));
    };
    let Ok(go) = all_that_go(drop, &previous, before) else {
        return Err((0, RepoFault::NoMemory));
    };
    Ok(Exchange {
        root,
        commit,
        come,
        nodes,
        go,
        gone,
        read,
        values: previous,
    })
}

/// At which write a fault of the whole batch's blocks is told, where this is the last: want of memory at the first one.
pub(crate) fn placed<D: Digest, A: Allocator>(
    last: usize,
    fault: RepoFault<D, A>,
) -> (usize, RepoFault<D, A>)
    ensures { result ≡ placed last fault }
{
    let place = match fault {
        RepoFault::NoMemory => 0,
        _ => last,
    };
    (place, fault)
}

/// The edit of the tree with this root that makes these changes. It owns the blocks that it adds.
fn edit_for<D: Digest, const B: u8, A: Allocator + Copy>(
    kept: &Kept<D, A>,
    alloc: A,
    root: Cid,
    changes: &Collected<'_, A>,
    records: &[Arc<Block<D, A>, A>],
) -> Result<BatchEdit<D, A>, RepoFault<D, A>>
    requires least { 1 ≤ B }
    requires tree { HasSomeTree D.digest_of B kept.now.uses root }
    requires changes { are_changes (with_cids D.digest_of (changes_in changes.now)) ≡ true }
    requires records { map arc_value records.now ≡ records_come (changes_in changes.now) }
    ensures edit { OfTree D.digest_of B kept.now.uses root (λ es. IfOk result
        (IsEditMade D.digest_of B (with_cids D.digest_of (changes_in changes.now)) es)) }
    ensures nodes { OfTree D.digest_of B kept.now.uses root (λ es. IfOk result
        (HasNodes D.digest_of B (with_cids D.digest_of (changes_in changes.now)) es)) }
    ensures fault { OfTree D.digest_of B kept.now.uses root (λ es. IfErr result
        (IsEditRefusal D.digest_of B (with_cids D.digest_of (changes_in changes.now)) es)) }
{
    let changes = changes.for_edit(alloc, records)?;
    match apply_over::<D, B, A>(alloc, kept, root, &changes) {
        Ok((edit, _)) => Ok(edit),
        Err(EditFault::Clash(pair)) => Err(RepoFault::Collision(pair)),
        Err(EditFault::NoMemory) => Err(RepoFault::NoMemory),
        // each node of the tree is kept, and a batch lacks no key
        Err(
            EditFault::Missing(_)
            | EditFault::BadNode(_)
            | EditFault::TooDeep
            | EditFault::NotTree
            | EditFault::NoSuchKey,
        ) => unreachable!(),
    }
}

/// The block of a commit.
fn commit_block<D: Digest, A: Allocator + Copy>(
    alloc: A,
    stamp: &Stamp<A>,
    root: Cid,
) -> Result<Arc<Block<D, A>, A>, AllocError>
    ensures { IfOk result (λ block. arc_value block ≡ commit_bytes (stamp_of stamp.now) root) }
{
    let bytes = commit_bytes(alloc, stamp, root)?;
    Ok(Arc::new(alloc, Block::of(bytes))?)
}

/// The nodes, and after them the records and the commit.
fn all_that_come<D: Digest, A: Allocator>(
    nodes: Vec<Arc<Block<D, A>, A>, A>,
    records: Vec<Arc<Block<D, A>, A>, A>,
    commit: Arc<Block<D, A>, A>,
) -> Result<Vec<Arc<Block<D, A>, A>, A>, AllocError>
    ensures { IfOk result (λ all. map arc_value all.items
        ≡ (map arc_value nodes.items ++ map arc_value records.items) ++ arc_value commit ∷ []) }
{
    let mut all = nodes;
    for record in records {
        all.push(record)?;
    }
    all.push(commit)?;
    Ok(all)
}

/// The nodes, and after them the records and the commit where there were any before.
fn all_that_go<A: Allocator>(
    nodes: Vec<Cid, A>,
    records: &[Option<Cid>],
    commit: Option<Cid>,
) -> Result<Vec<Cid, A>, AllocError>
    ensures { IfOk result (λ all.
        all.items ≡ (nodes.items ++ present_values records.now) ++ cons_option commit []) }
{
    let mut all = nodes;
    for record in records {
        push_some(&mut all, *record)?;
    }
    push_some(&mut all, commit)?;
    Ok(all)
}

/// A CID comes behind others, where there is one.
fn push_some<A: Allocator>(cids: &mut Vec<Cid, A>, cid: Option<Cid>) -> Result<(), AllocError>
    ensures { OnOk result (cids.new.items ≡ cids.old.items ++ cons_option cid []) }
{
    match cid {
        Some(cid) => Ok(cids.push(cid)?),
        None => Ok(()),
    }
}
