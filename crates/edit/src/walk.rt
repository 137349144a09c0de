//! The old tree in the order of keys, merged with the changes.
//!
//! What is still to come of it stands on an agenda, so that no depth of a tree takes stack.

ghost use Rattle.std.specs.Prelude.{◌≡◌, ◌<◌, ◌≤◌, ◌+◌, true};
ghost use Rattle.key_changes.specs.Keyed.{are_ascending};

use crate::changes::changes_around;
use crate::edge::Edge;
use crate::hashed::HashedChange;
use crate::outcome::Fault;
use block::Block;
use cid::{Cid, CidRef, Digest};
use lookups::Source;
use rows::{DraftFault, KeyedEntries};
use std::alloc::{AllocError, Allocator};
use std::clone::Clone;
use std::sync::Arc;

/// A pair of an old node that is still to come, with the change at its key, and what is left of the node after it, which
/// also has its key, with the changes after that key. The node stands at this depth, and below it are so many layers.
#[derive(Drop)]
pub(crate) struct NextPair<'c, 'a, D: Digest, A: Allocator> {
    pub(crate) layer: u16,
    pub(crate) depth: u16,
    pub(crate) value: Cid,
    pub(crate) at: Option<Option<Cid>>,
    pub(crate) rest: KeyedEntries<'a, A>,
    pub(crate) changes: &'c [HashedChange<'c, D>],
    pub(crate) ghost fits: { layer + depth < 65535 },
    pub(crate) ghost ascending: { are_ascending changes.now ≡ true },
}

/// A gap of an old node, with the changes within it. What is in it stands at this depth, and has so many layers.
#[derive(Drop)]
pub(crate) struct NextGap<'c, D: Digest> {
    pub(crate) layer: u16,
    pub(crate) depth: u16,
    pub(crate) link: Option<Cid>,
    pub(crate) changes: &'c [HashedChange<'c, D>],
    pub(crate) ghost fits: { layer + depth < 65536 },
    pub(crate) ghost ascending: { are_ascending changes.now ≡ true },
}

/// What is still to come of the old tree.
#[derive(Drop)]
pub(crate) enum Task<'c, 'a, D: Digest, A: Allocator> {
    Pair(NextPair<'c, 'a, D, A>),
    Gap(NextGap<'c, D>),
}

/// The tasks that are left, the next one last.
pub(crate) type Agenda<'c, 'a, D, A> = Vec<Task<'c, 'a, D, A>, A>;

impl<'c, 'a, D: Digest, A: Allocator> Task<'c, 'a, D, A> {
    ghost use Rattle.std.specs.Prelude.{OnOk};
    ghost use Rattle.rows.specs.Entries.{shape_at};
    ghost use Rattle.edit.specs.Agenda.{IsPutOff};
    ghost use Rattle.edit.specs.Agendas.{agenda_of};

    /// What is left of a node of this depth and of so many layers below it is put off: its next gap comes next, and the pair
    /// after it later.
    fn put_off(
        agenda: &mut Agenda<'c, 'a, D, A>,
        layer: u16,
        depth: u16,
        link: Option<Cid>,
        value: Option<Cid>,
        rows: KeyedEntries<'a, A>,
        changes: &'c [HashedChange<'c, D>],
    ) -> Result<(), AllocError>
        requires fits { layer + depth < 65535 }
        requires ascending { are_ascending changes.now ≡ true }
        ensures { OnOk result (IsPutOff layer depth changes.now (shape_at link value rows.entry)
            (agenda_of agenda.old.items) (agenda_of agenda.new.items)) }
    {
        let Some(value) = value else {
            agenda.push(Task::Gap(NextGap {
                layer,
                depth: depth + 1,
                link,
                changes,
            }))?;
            return Ok(());
        };
        let here = changes_around(changes, rows.key());
        agenda.push(Task::Pair(NextPair {
            layer,
            depth,
            value,
            at: here.at,
            rest: rows,
            changes: here.after,
        }))?;
        agenda.push(Task::Gap(NextGap {
            layer,
            depth: depth + 1,
            link,
            changes: here.before,
        }))?;
        Ok(())
    }
}

impl<'a, D: Digest, A: Allocator + Clone> Edge<'a, D, A> {
    ghost use Rattle.edit.specs.Agenda.{IsGoneOn};
    ghost use Rattle.edit.specs.Agendas.{agenda_of};
    ghost use Rattle.edit.specs.States.{edge_in};
    ghost use Rattle.edit.specs.Steps.{IsPassing};

    /// Goes on with what is left of a node of this depth and of so many layers below it: the pairs that no change touches
    /// come at once, where they can, and the rest is put off.
    fn go_on<'c>(
        &mut self,
        agenda: &mut Agenda<'c, 'a, D, A>,
        layer: u16,
        depth: u16,
        mut rows: KeyedEntries<'a, A>,
        changes: &'c [HashedChange<'c, D>],
    ) -> Result<(), DraftFault>
        requires fits { layer + depth < 65535 }
        requires ascending { are_ascending changes.now ≡ true }
        ensures { IsPassing layer depth changes.now rows.entry.rest self.old self.new
            (λ _. IsGoneOn layer depth changes.now rows.entry.rest (agenda_of agenda.old.items)
            (agenda_of agenda.new.items) (edge_in self.old) (edge_in self.new)) result }
    {
        let passed = self.pass(layer, depth, &mut rows, changes)?;
        let (link, value) = passed;
        Ok(Task::put_off(agenda, layer, depth, link, value, rows, changes)?)
    }
}

impl<'a, D: Digest + 'a, A: Allocator + Clone + 'a> Edge<'a, D, A> {
    ghost use Rattle.std.specs.Prelude.{◌++◌, [], IfOk, OnOk};
    ghost use Rattle.spec.specs.Layer.{layer as layer_of};
    ghost use Rattle.lookups.specs.Steps.{nodes_given};
    ghost use Rattle.rows.specs.Drafts.{pair_of};
    ghost use Rattle.batch_laws.specs.Batch.{entry, if_put, puts};
    ghost use Rattle.batch_laws.specs.Previous.{no_values, value_met, previous_node, previous_gap};
    ghost use Rattle.batch_laws.specs.Walking.{depth_of};
    ghost use Rattle.batch_laws.specs.Links.{pairs_in_turn};
    ghost use Rattle.edit.specs.Agenda.{ToGap, node_does};
    ghost use Rattle.edit.specs.Agendas.{agenda_of, task_of, gap_of};
    ghost use Rattle.edit.specs.Steps.{Makes};
    ghost use Rattle.edit.specs.Tasks.{Performs};

    /// Changes where the old tree has nothing.
    fn puts<const B: u8, S: Source<&'a Arc<Block<D, A>, A>>>(
        &mut self,
        src: &mut S,
        layers: u16,
        changes: &[HashedChange<'_, D>],
        previous: &mut Vec<Option<Cid>, A>,
    ) -> Result<(), Fault>
        requires least { 1 ≤ B }
        ensures step { Makes S.gives S.reads src.old src.new self.old self.new
            (λ shows. pairs_in_turn D.digest_of shows (depth_of (layer_of D.digest_of B) layers)
            (puts changes.now)) result }
        ensures previous { OnOk result
            (previous.new.items ≡ previous.old.items ++ no_values changes.now) }
    {
        for change in changes {
            previous.push(None)?;
            self.put_one::<B, S>(src, layers, change)?;
        }
        Ok(())
    }

    /// The pair of a change where the old tree has nothing.
    fn put_one<const B: u8, S: Source<&'a Arc<Block<D, A>, A>>>(
        &mut self,
        src: &mut S,
        layers: u16,
        change: &HashedChange<'_, D>,
    ) -> Result<(), Fault>
        requires least { 1 ≤ B }
        ensures { Makes S.gives S.reads src.old src.new self.old self.new
            (λ shows. pairs_in_turn D.digest_of shows (depth_of (layer_of D.digest_of B) layers)
            (if_put change.now.0 change.now.1 [])) result }
    {
        let Some(value) = change.value() else {
            return Ok(());
        };
        let depth = usize::from(layers.saturating_sub(change.layers::<B>()));
        self.pair(src, depth, change.key(), CidRef::from(&value))
    }

    /// What comes in a gap: its changes where nothing stands there, its subtree where nothing changes; else the subtree's
    /// node is read, and is the next task.
    fn fill<'c, const B: u8, S: Source<&'a Arc<Block<D, A>, A>>>(
        &mut self,
        src: &mut S,
        layers: u16,
        agenda: &mut Agenda<'c, 'a, D, A>,
        gap: NextGap<'c, D>,
        previous: &mut Vec<Option<Cid>, A>,
    ) -> Result<(), Fault>
        requires least { 1 ≤ B }
        ensures { Performs S.gives S.reads src.old src.new self.old self.new
            D.digest_of (layer_of D.digest_of B) layers (ToGap (gap_of gap.entry))
            (agenda_of agenda.old.items) (agenda_of agenda.new.items)
            previous.old.items previous.new.items result }
    {
        let Some(cid) = gap.link else {
            self.puts::<B, S>(src, layers, gap.changes, previous)?;
            return Ok(());
        };
        if gap.layer == 0 {
            return Err(Fault::TooDeep);
        }
        let count = gap.changes.len();
        if count == 0 {
            self.subtree(src, usize::from(gap.depth), gap.layer, cid)?;
            return Ok(());
        }
        let rows = self.rows(src, usize::from(gap.depth), cid)?;
        Ok(self.go_on(agenda, gap.layer - 1, gap.depth, rows, gap.changes)?)
    }

    /// A pair of an old node, unless its change takes it away.
    fn entry<S: Source<&'a Arc<Block<D, A>, A>>>(
        &mut self,
        src: &mut S,
        depth: u16,
        key: &[u8],
        value: CidRef<'_>,
        at: Option<Option<Cid>>,
        previous: &mut Vec<Option<Cid>, A>,
    ) -> Result<(), Fault>
        ensures step { Makes S.gives S.reads src.old src.new self.old self.new
            (λ shows. pairs_in_turn D.digest_of shows (λ k. depth)
            (entry at (pair_of key.now value.entry))) result }
        ensures previous { OnOk result (previous.new.items ≡ previous.old.items
            ++ value_met at (pair_of key.now value.entry)) }
    {
        let Some(change) = at else {
            return self.pair(src, usize::from(depth), key, value);
        };
        previous.push(Some(value.to_cid()))?;
        let Some(new) = change else {
            return Ok(());
        };
        self.pair(src, usize::from(depth), key, CidRef::from(&new))
    }

    /// One task.
    fn perform<'c, const B: u8, S: Source<&'a Arc<Block<D, A>, A>>>(
        &mut self,
        src: &mut S,
        layers: u16,
        agenda: &mut Agenda<'c, 'a, D, A>,
        task: Task<'c, 'a, D, A>,
        previous: &mut Vec<Option<Cid>, A>,
    ) -> Result<(), Fault>
        requires least { 1 ≤ B }
        ensures { Performs S.gives S.reads src.old src.new self.old self.new
            D.digest_of (layer_of D.digest_of B) layers (task_of task.entry)
            (agenda_of agenda.old.items) (agenda_of agenda.new.items)
            previous.old.items previous.new.items result }
    {
        match task {
            Task::Gap(gap) => Ok(self.fill::<B, S>(src, layers, agenda, gap, previous)?),
            Task::Pair(next) => {
                self.entry(
                    src,
                    next.depth,
                    next.rest.key(),
                    CidRef::from(&next.value),
                    next.at,
                    previous,
                )?;
                Ok(self.go_on(agenda, next.layer, next.depth, next.rest, next.changes)?)
            }
        }
    }

    /// All that comes of a node of this depth with these changes: what the changed keys had before.
    pub(crate) fn walk<'c, const B: u8, S: Source<&'a Arc<Block<D, A>, A>>>(
        &mut self,
        src: &mut S,
        layers: u16,
        layer: u16,
        depth: u16,
        rows: KeyedEntries<'a, A>,
        changes: &'c [HashedChange<'c, D>],
    ) -> Result<Vec<Option<Cid>, A>, Fault>
        requires least { 1 ≤ B }
        requires fits { layer + depth < 65535 }
        requires ascending { are_ascending changes.now ≡ true }
        ensures step { Makes S.gives S.reads src.old src.new self.old self.new
            (λ shows. node_does D.digest_of shows (layer_of D.digest_of B) layers layer depth
            changes.now rows.entry.rest) result }
        ensures previous { IfOk result (λ previous. previous.items ≡ previous_node
            (previous_gap (nodes_given (S.gives src.old)) layer) changes.now rows.entry.rest) }
    {
        let mut previous = Vec::new(self.alloc()?);
        let mut agenda: Agenda<'c, 'a, D, A> = Vec::new(self.alloc()?);
        self.go_on(&mut agenda, layer, depth, rows, changes)?;
        while let Some(task) = agenda.pop() {
            self.perform::<B, S>(src, layers, &mut agenda, task, &mut previous)?;
        }
        Ok(previous)
    }
}
