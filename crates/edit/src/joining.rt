//! A subtree that comes to the edge.

ghost use Rattle.std.specs.Prelude.{◌≡◌, [], ◌∷◌, ◌++◌, ◌<◌, ◌≤◌, ◌+◌, ℕ, suc, List, Option, Some, take, drop, length, IfOk, IfErr, IfSome, IfNone, OnOk, Ok};
ghost use Rattle.lookups.specs.Steps.{nodes_given};
ghost use Rattle.batch_laws.specs.Links.{Rows, LinkEdge, parting, subtreeing, Step};
ghost use Rattle.spec.specs.NodeFormat.{Shape};
ghost use Rattle.edit.specs.Edges.{edge_of, joined, around};
ghost use Rattle.edit.specs.Halts.{IsHaltedFrom};
ghost use Rattle.edit.specs.Steps.{IsStep, Makes, ReadsNothing};
ghost use Rattle.edit.specs.Stops.{IsRefused, IsStopped};
ghost use Rattle.edit.specs.States.{edge_in, log_in, shapes_coming, IsComing, IsWaiting, IsOnTheWay, IsArrived, IsJoined, IsCountedOn};

use crate::edge::Edge;
use crate::level::copy_rows;
use crate::outcome::Fault;
use block::Block;
use cid::{Cid, Digest};
use lookups::Source;
use rows::{DraftFault, KeyedEntries, to_cid};
use std::alloc::Allocator;
use std::clone::Clone;
use std::sync::Arc;

impl<'a, D: Digest, A: Allocator + Clone> Edge<'a, D, A> {
    /// The pairs of a node come to the open layer of this depth, and its last link waits; what came before its first pair
    /// stands below that layer, and is complete. Of a node without pairs nothing is left to come.
    fn join_rows(&mut self, depth: usize, mut rows: KeyedEntries<'a, A>) -> Result<(), DraftFault>
        requires within { depth < length self.old.levels.items }
        ensures joined { OnOk result (IsJoined D.digest_of depth rows.entry.rest
            self.old.levels.items self.old.rest (log_in self.old)
            self.new.levels.items self.new.rest (log_in self.new)) }
        ensures reads { ReadsNothing self.old self.new }
        ensures fault { (above : List Rows) (begun : Rows)
            → take (depth + 1) self.old.levels.items ≡ above ++ (begun ∷ [])
            → IfErr result (IsRefused (joined D.digest_of begun rows.entry.rest (Ok
            (edge_of (drop (depth + 1) self.old.levels.items) self.old.rest, log_in self.old)))) }
    {
        let Some(value) = rows.next() else {
            return Ok(());
        };
        let link = self.close_below(depth + 1)?;
        let Some(mut level) = self.levels.pop() else {
            unreachable!()
        };
        level.pair(link, rows.key(), value)?;
        self.rest = copy_rows(&mut level, &mut rows)?;
        self.levels.push(level)?;
        Ok(())
    }

    /// The same of nodes one below the other from this depth on, the lowest first.
    fn join(
        &mut self,
        depth: usize,
        mut coming: Vec<KeyedEntries<'a, A>, A>,
    ) -> Result<(), DraftFault>
        requires within { depth + length coming.items ≤ length self.old.levels.items }
        ensures joined { (all : Step LinkEdge) → IsArrived D.digest_of all depth
            (shapes_coming coming.entry.items) self.old.levels.items self.old.rest (log_in self.old)
            → OnOk result (all ≡ Ok (edge_in self.new, log_in self.new)) }
        ensures reads { ReadsNothing self.old self.new }
        ensures fault { (all : Step LinkEdge) → IsArrived D.digest_of all depth
            (shapes_coming coming.entry.items) self.old.levels.items self.old.rest (log_in self.old)
            → IfErr result (IsRefused all) }
    {
        let Some(rows) = coming.pop() else {
            return Ok(());
        };
        self.join_rows(depth + coming.len(), rows)?;
        self.join(depth, coming)
    }
}

impl<'a, D: Digest + 'a, A: Allocator + Clone + 'a> Edge<'a, D, A> {
    /// A subtree of the layer of this depth, where all above is open: it waits where nothing stands there. Else that
    /// layer is open, and the subtree's node is read.
    fn place<S: Source<&'a Arc<Block<D, A>, A>>>(
        &mut self,
        src: &mut S,
        depth: usize,
        cid: Cid,
    ) -> Result<Option<KeyedEntries<'a, A>>, Fault>
        requires above { depth ≤ length self.old.levels.items }
        ensures waits { IfOk result (λ placed. IfNone placed (IsWaiting D.digest_of
            (nodes_given (S.gives src.old)) depth cid
            self.old.levels.items self.old.rest (log_in self.old)
            self.new.levels.items self.new.rest (log_in self.new))) }
        ensures comes { IfOk result (λ placed. IfSome placed (λ rows. IsComing D.digest_of
            (nodes_given (S.gives src.old)) depth cid
            self.old.levels.items self.old.rest (log_in self.old) rows.rest
            self.new.levels.items self.new.rest (log_in self.new))) }
        ensures counted { OnOk result
            (IsCountedOn (S.reads src.old) self.old (S.reads src.new) self.new) }
        ensures same { S.gives src.new ≡ S.gives src.old }
        ensures stopped { (k : ℕ) → IfErr result (IsStopped (S.gives src.old)
            (S.reads src.old, self.old.left) (S.reads src.new) (log_in self.old)
            (parting D.digest_of (nodes_given (S.gives src.old)) (suc k) (Some cid)
            (edge_of (drop depth self.old.levels.items) self.old.rest) (log_in self.old))) }
        ensures halted { (k above : ℕ) (fs : List Shape)
            → IfErr result (IsHaltedFrom self.old self.new (around D.digest_of above
            (take depth self.old.levels.items) fs (parting D.digest_of
            (nodes_given (S.gives src.old)) (suc k) (Some cid)
            (edge_of (drop depth self.old.levels.items) self.old.rest) (log_in self.old)))) }
    {
        if self.levels.len() <= depth && self.rest.is_none() {
            self.rest = Some(cid);
            return Ok(None);
        }
        self.open_at(src, depth)?;
        Ok(Some(self.rows(src, depth, cid)?))
    }

    /// The nodes of a subtree that come, so many layers at most, from the top down to where nothing stands or nothing
    /// comes.
    fn descend<S: Source<&'a Arc<Block<D, A>, A>>>(
        &mut self,
        src: &mut S,
        depth: usize,
        layers: u16,
        cid: Cid,
    ) -> Result<Vec<KeyedEntries<'a, A>, A>, Fault>
        requires above { depth ≤ length self.old.levels.items }
        ensures step { (all : Step LinkEdge) → IsOnTheWay D.digest_of
            (nodes_given (S.gives src.old)) all depth layers (Some cid) []
            self.old.levels.items self.old.rest (log_in self.old)
            → IsStep S.gives S.reads src.old src.new self.old self.new
            (λ _ coming. IsArrived D.digest_of all depth (shapes_coming coming.items)
            self.new.levels.items self.new.rest (log_in self.new)) (λ _. all) result }
        ensures within { IfOk result
            (λ coming. depth + length coming.items ≤ length self.new.levels.items) }
    {
        let mut coming = Vec::new(self.alloc()?);
        let mut next = Some(cid);
        let mut left = layers;
        while let Some(cid) = next {
            if left == 0 {
                return Err(Fault::TooDeep);
            }
            left -= 1;
            let Some(rows) = self.place(src, depth + coming.len(), cid)? else {
                return Ok(coming);
            };
            next = to_cid(rows.link());
            coming.push(rows)?;
        }
        Ok(coming)
    }

    /// One more subtree, so many layers below the top and of so many layers at most.
    pub(crate) fn subtree<S: Source<&'a Arc<Block<D, A>, A>>>(
        &mut self,
        src: &mut S,
        depth: usize,
        layers: u16,
        cid: Cid,
    ) -> Result<(), Fault>
        ensures { Makes S.gives S.reads src.old src.new self.old self.new
            (λ shows. subtreeing D.digest_of shows layers depth cid) result }
    {
        self.open_to(src, depth)?;
        let coming = self.descend(src, depth, layers, cid)?;
        Ok(self.join(depth, coming)?)
    }
}
