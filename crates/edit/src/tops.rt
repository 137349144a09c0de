//! The top of the tree that the edge has become.

ghost use Rattle.std.specs.Prelude.{◌≡◌, ◌<◌, ◌≤◌, ◌+◌, ◌∷◌, ◌++◌, [], List, length, take, drop, IfOk, IfErr};
ghost use Rattle.batch_laws.specs.Links.{Rows, closing, new_top, pruning, topping};
ghost use Rattle.edit.specs.Edges.{edge_of, highest_of};
ghost use Rattle.edit.specs.Steps.{IsRead, IsStep, ReadsNothing};
ghost use Rattle.batch_laws.specs.Within.{at_top};
ghost use Rattle.edit.specs.Stops.{IsRefused};
ghost use Rattle.edit.specs.States.{edge_in, log_in};
ghost use Rattle.edit.specs.Tops.{IsTopped, IsLooked, IsTop, IsEnded};

use crate::edge::Edge;
use crate::level::close_top;
use crate::outcome::Fault;
use block::Block;
use cid::{Cid, Digest};
use lookups::Source;
use rows::{DraftFault, Writer, to_cid};
use std::alloc::Allocator;
use std::clone::Clone;
use std::sync::Arc;

/// The depth of the highest layer with a pair, or how many layers are open where none has one.
fn highest<A: Allocator + Clone>(levels: &[Writer<'_, A>]) -> usize
    ensures depth { result ≡ highest_of levels.now }
    ensures within { result ≤ length levels.now }
{
    let [first, rest @ ..] = levels else {
        return 0;
    };
    if first.has_pairs() {
        return 0;
    }
    highest(rest) + 1
}

impl<'a, D: Digest, A: Allocator + Clone> Edge<'a, D, A> {
    /// The node of the open layer of this depth is the top.
    fn close_top(&mut self, depth: usize) -> Result<Cid, DraftFault>
        requires within { depth < length self.old.levels.items }
        ensures topped { IfOk result (λ root. IsTopped D.digest_of depth
            self.old.levels.items self.old.rest (log_in self.old) root (log_in self.new)) }
        ensures reads { ReadsNothing self.old self.new }
        ensures fault { (above : List Rows) (rows : Rows)
            → take (depth + 1) self.old.levels.items ≡ above ++ (rows ∷ [])
            → IfErr result (IsRefused (at_top (new_top D.digest_of rows (closing D.digest_of
            (edge_of (drop (depth + 1) self.old.levels.items) self.old.rest)
            (log_in self.old))))) }
    {
        let link = self.close_below(depth + 1)?;
        let Some(level) = self.levels.pop() else {
            unreachable!()
        };
        let like = self.read_last();
        close_top(level, link, like, &mut self.made)
    }
}

impl<'a, D: Digest + 'a, A: Allocator + Clone + 'a> Edge<'a, D, A> {
    /// The node with this CID is read. It is the top where it has a pair, or no link; else its link is answered.
    fn look<S: Source<&'a Arc<Block<D, A>, A>>>(
        &mut self,
        src: &mut S,
        cid: Cid,
    ) -> Result<Option<Cid>, Fault>
        ensures { IsRead S.gives S.reads src.old src.new self.old self.new cid
            (λ shows further. IsLooked shows cid (log_in self.old) further (log_in self.new))
            result }
    {
        // no layer is closed after this, so nothing asks for its depth
        let mut rows = self.rows(src, 0, cid)?;
        let link = to_cid(rows.link());
        match rows.next() {
            Some(_) => Ok(None),
            None => Ok(link),
        }
    }

    /// The first node with a pair from here down, where no node above it has a pair.
    fn prune<S: Source<&'a Arc<Block<D, A>, A>>>(
        &mut self,
        src: &mut S,
        layers: u16,
        cid: Cid,
    ) -> Result<Cid, Fault>
        ensures { IsStep S.gives S.reads src.old src.new self.old self.new
            (λ shows root. IsTop (pruning shows layers cid (log_in self.old))
            root 1 (log_in self.new))
            (λ shows. at_top (pruning shows layers cid (log_in self.old))) result }
    {
        let mut at = cid;
        let mut left = layers;
        while left > 0 {
            left -= 1;
            let Some(next) = self.look(src, at)? else {
                return Ok(at);
            };
            at = next;
        }
        Err(Fault::TooDeep)
    }

    /// No more comes: the root, and how many of the nodes that were read go. That is all of them, or all but the last.
    pub(crate) fn finish<S: Source<&'a Arc<Block<D, A>, A>>>(
        &mut self,
        src: &mut S,
        layers: u16,
    ) -> Result<(Cid, usize), Fault>
        ensures { IsStep S.gives S.reads src.old src.new self.old self.new
            (λ shows ended. IsEnded (topping D.digest_of shows layers (edge_in self.old)
            (log_in self.old)) ended.0 ended.1 (log_in self.new))
            (λ shows. at_top (topping D.digest_of shows layers
            (edge_in self.old) (log_in self.old))) result }
    {
        let depth = highest(&self.levels);
        if depth < self.levels.len() {
            let root = self.close_top(depth)?;
            return Ok((root, self.read.len()));
        }
        let Some(cid) = self.rest else {
            let like = self.read_last();
            let root = close_top(Writer::new(self.alloc()?), None, like, &mut self.made)?;
            return Ok((root, self.read.len()));
        };
        let root = self.prune(src, layers, cid)?;
        Ok((root, self.read.len() - 1))
    }
}
