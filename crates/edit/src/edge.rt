//! The right edge of the new tree, the nodes that are read for it, and a pair that comes to it.

ghost use Rattle.std.specs.Arc.{arc_value};
ghost use Rattle.lookups.specs.Nodes.{IsNodeOf};
ghost use Rattle.rows.specs.Drafts.{shape_in};
ghost use Rattle.std.specs.Prelude.{◌≡◌, ◌<◌, ◌≤◌, ◌+◌, ◌∷◌, ◌++◌, [], List, Option, None, Some, length, take, drop, IfOk, IfErr, OnOk, Ok, ℕ};
ghost use Rattle.lookups.specs.Steps.{nodes_given};
ghost use Rattle.rows.specs.Drafts.{pair_of};
ghost use Rattle.rows.specs.Entries.{shape_of};
ghost use Rattle.batch_laws.specs.Links.{Rows, LinkEdge, LinkClear, Log, add_row, closing, link_edge, pairing, Step};
ghost use Rattle.edit_laws.specs.Lawful.{HasKeys};
ghost use Rattle.batch_laws.specs.Written.{AllGoOn, AreWritten};
ghost use Rattle.edit.specs.Edges.{edge_of, within};
ghost use Rattle.edit.specs.Steps.{IsOpening, IsRead, IsShown, Makes, ReadsNothing};
ghost use Rattle.edit.specs.Stops.{IsRefused, IsStopped, IsOnward, all_closed};
ghost use Rattle.edit.specs.Halts.{IsHaltedFrom};
ghost use Rattle.edit.specs.States.{edge_in, log_in, IsOpened, IsOpenAt, IsAdded, IsCountedOn, KeepsWithin};

use crate::level::{close, copy_rows};
use crate::outcome::Fault;
use block::Block;
use cid::{Cid, CidRef, Digest};
use lookups::{Source, view_of};
use node::{KeyBuf, NodeView};
use rows::{DraftFault, KeyedEntries, Made, Writer};
use std::alloc::{AllocError, Allocator, Global};
use std::clone::Clone;
use std::marker::Model;
use std::sync::Arc;

/// A block that a source lent, and that was found to be a node when it was read.
///
/// A contract sees it as the block.
#[derive(Drop)]
pub(crate) struct ReadNode<'a, D: Digest, A: Allocator = Global> {
    block: &'a Arc<Block<D, A>, A>,

    /// How many layers below the top of the new tree it was read.
    depth: usize,

    /// How many were read up to the one read last on a layer above its own.
    above: usize,
}

impl<'a, D: Digest, A: Allocator> Model for ReadNode<'a, D, A> {
    ghost use Rattle.std.specs.Prelude.{ℕ, List};
    ghost use Rattle.std.specs.Arc.{arc_value};
    ghost use Rattle.std.specs.declared.sync.Arc.{Arc};
    ghost use Rattle.lookups.specs.Nodes.{IsNodeOf};
    ghost use Rattle.rows.specs.Drafts.{shape_in};

    ghost Value = { Arc (List ℕ) A };

    ghost view = { λ n. n.block.now };

    ghost invariant = { λ n. IsNodeOf (arc_value n.block.now) (shape_in (arc_value n.block.now)) };
}

impl<'a, D: Digest, A: Allocator> ReadNode<'a, D, A> {
    /// A block that was read as a node, at this depth. So many were read up to the one read last on a layer above its own.
    pub(crate) fn of(
        block: &'a Arc<Block<D, A>, A>,
        depth: usize,
        above: usize,
    ) -> ReadNode<'a, D, A>
        requires { IsNodeOf (arc_value block.now) (shape_in (arc_value block.now)) }
        ensures { result ≡ block.now }
    {
        ReadNode {
            block,
            depth,
            above,
        }
    }

    /// The block.
    pub(crate) fn block(&self) -> &'a Arc<Block<D, A>, A>
        ensures same { result.now ≡ self.now }
        ensures node { IsNodeOf (arc_value self.now) (shape_in (arc_value self.now)) }
    {
        self.block
    }
}

/// How many of these nodes were read up to the last one of this depth or less. All that were read after it lie deeper.
///
/// Each node says where the next one above it stands, so that one node a layer is looked at. No contract says what is
/// answered: who asks compares bytes.
pub(crate) fn count_to<D: Digest, A: Allocator>(
    read: &[ReadNode<'_, D, A>],
    depth: usize,
) -> usize {
    let mut count = read.len();
    while count > 0 {
        let node = &read[count - 1];
        if node.depth <= depth {
            return count;
        }
        count = node.above.min(count - 1);
    }
    0
}

/// The right edge of a tree in the making: the node of each open layer, from the top down, and what waits below the lowest
/// of them; with what was read and made for it.
#[derive(Drop)]
pub(crate) struct Edge<'a, D: Digest, A: Allocator> {
    pub(crate) levels: Vec<Writer<'a, A>, A>,
    pub(crate) rest: Option<Cid>,
    pub(crate) read: Vec<ReadNode<'a, D, A>, A>,
    pub(crate) made: Made<D, A>,

    /// How many more nodes may be read.
    pub(crate) left: u128,
}

/// Keys of the grammar may go on in each of these layers. This is a statement for proofs alone.
fn go_on<A: Allocator + Clone>(levels: &[Writer<'_, A>])
    ensures { (rest : Option (List ℕ)) → AllGoOn HasKeys (edge_of levels.now rest) }
{
    let [first, others @ ..] = levels else {
        return;
    };
    first.has_keys();
    go_on(others);
}

impl<'a, D: Digest, A: Allocator + Clone> Edge<'a, D, A> {
    /// Each node that was made has keys of the grammar, and each that is open may still have them. This is a statement for
    /// proofs alone: it looks at each layer and does nothing.
    pub(crate) fn is_written(&self)
        ensures { AreWritten HasKeys (edge_in self.now) (log_in self.now) }
    {
        self.made.have_keys();
        go_on(&self.levels);
    }

    /// The edge of a tree of which nothing came so far, and for which one node may be read.
    pub(crate) fn new(alloc: A) -> Result<Edge<'a, D, A>, AllocError>
        ensures edge { IfOk result (λ edge. edge_in edge ≡ LinkClear) }
        ensures log { IfOk result (λ edge. log_in edge ≡ record { read = []; made = [] }) }
        ensures left { IfOk result (λ edge. edge.left ≡ 1) }
    {
        Ok(Edge {
            levels: Vec::new(alloc.clone()?),
            rest: None,
            read: Vec::new(alloc.clone()?),
            made: Made::new(alloc),
            left: 1,
        })
    }

    /// An allocator for what is kept beside it.
    pub(crate) fn alloc(&self) -> Result<A, AllocError> {
        self.levels.allocator().clone()
    }

    /// The block of the old node that the one of the layer below all that are open may be: the one read last on that layer.
    /// It may be another, as one of a layer above where none was read, so its bytes are to be compared.
    pub(crate) fn read_last(&self) -> Option<&'a Arc<Block<D, A>, A>> {
        let count = count_to(&self.read, self.levels.len());
        let last = self.read.get(count.checked_sub(1)?)?;
        Some(last.block())
    }

    /// All that stands below a depth is complete: the link to it.
    pub(crate) fn close_below(&mut self, depth: usize) -> Result<Option<Cid>, DraftFault>
        requires within { depth ≤ length self.old.levels.items }
        ensures left { OnOk result (self.new.levels.items ≡ take depth self.old.levels.items) }
        ensures closed { IfOk result (λ link. closing D.digest_of
            (edge_of (drop depth self.old.levels.items) self.old.rest) (log_in self.old)
            ≡ (link, log_in self.new)) }
        ensures reads { ReadsNothing self.old self.new }
        ensures fault { IfErr result (IsRefused (all_closed D.digest_of
            (edge_of (drop depth self.old.levels.items) self.old.rest) (log_in self.old))) }
    {
        if self.levels.len() <= depth {
            return Ok(self.rest);
        }
        let Some(level) = self.levels.pop() else {
            unreachable!()
        };
        let like = self.read_last();
        self.rest = close(level, self.rest, like, &mut self.made)?;
        self.close_below(depth)
    }

    /// One more pair on the open layer of this depth: all below it is complete.
    fn add_pair(&mut self, depth: usize, key: &[u8], value: CidRef<'_>) -> Result<(), DraftFault>
        requires within { depth < length self.old.levels.items }
        ensures added { OnOk result (IsAdded D.digest_of depth (pair_of key.now value.entry)
            self.old.levels.items self.old.rest (log_in self.old)
            self.new.levels.items (log_in self.new)) }
        ensures rest { OnOk result (self.new.rest ≡ None) }
        ensures reads { ReadsNothing self.old self.new }
        ensures fault { (above : List Rows) (rows : Rows)
            → take (depth + 1) self.old.levels.items ≡ above ++ (rows ∷ [])
            → IfErr result (IsRefused (add_row (pair_of key.now value.entry) rows
            (closing D.digest_of (edge_of (drop (depth + 1) self.old.levels.items) self.old.rest)
            (log_in self.old)))) }
    {
        let link = self.close_below(depth + 1)?;
        let Some(mut level) = self.levels.pop() else {
            unreachable!()
        };
        level.pair(link, key, value)?;
        self.levels.push(level)?;
        self.rest = None;
        Ok(())
    }
}

impl<'a, D: Digest + 'a, A: Allocator + Clone + 'a> Edge<'a, D, A> {
    /// The node with this CID, of this depth, is read, where one more may be.
    pub(crate) fn view<S: Source<&'a Arc<Block<D, A>, A>>>(
        &mut self,
        src: &mut S,
        depth: usize,
        cid: Cid,
    ) -> Result<NodeView<'a>, Fault>
        ensures { IsRead S.gives S.reads src.old src.new self.old self.new cid
            (λ shows view. IsShown shows cid self.old self.new (shape_of view)) result }
    {
        self.left = self.left.checked_sub(1).ok_or(Fault::NotTree)?;
        let Some(block) = src.get(&cid) else {
            return Err(Fault::Missing(cid));
        };
        let Some(view) = view_of(block) else {
            return Err(Fault::BadNode(cid));
        };
        let above = count_to(&self.read, depth.saturating_sub(1));
        self.read.push(ReadNode::of(block, depth, above))?;
        Ok(view)
    }

    /// The pairs and links of the node with this CID, of this depth, which is read.
    pub(crate) fn rows<S: Source<&'a Arc<Block<D, A>, A>>>(
        &mut self,
        src: &mut S,
        depth: usize,
        cid: Cid,
    ) -> Result<KeyedEntries<'a, A>, Fault>
        ensures { IsRead S.gives S.reads src.old src.new self.old self.new cid
            (λ shows rows. IsShown shows cid self.old self.new rows.rest) result }
    {
        let view = self.view(src, depth, cid)?;
        Ok(KeyedEntries::of(&view, KeyBuf::new(self.alloc()?)?))
    }

    /// One layer more is open: that of the node that waits, which is read, or one without pairs.
    fn open_level<S: Source<&'a Arc<Block<D, A>, A>>>(&mut self, src: &mut S) -> Result<(), Fault>
        ensures { IsOpening S.gives S.reads src.old src.new self.old self.new
            (link_edge self.old.rest)
            (λ shows. IsOpened shows self.old.levels.items self.old.rest (log_in self.old)
            self.new.levels.items self.new.rest (log_in self.new)) result }
    {
        let Some(cid) = self.rest else {
            let level = Writer::new(self.alloc()?);
            self.levels.push(level)?;
            return Ok(());
        };
        let depth = self.levels.len();
        let mut rows = self.rows(src, depth, cid)?;
        let mut level = Writer::new(self.alloc()?);
        self.rest = copy_rows(&mut level, &mut rows)?;
        self.levels.push(level)?;
        Ok(())
    }

    /// So many layers are open.
    pub(crate) fn open_to<S: Source<&'a Arc<Block<D, A>, A>>>(
        &mut self,
        src: &mut S,
        count: usize,
    ) -> Result<(), Fault>
        ensures keeps { OnOk result (KeepsWithin (nodes_given (S.gives src.old)) count
            (edge_in self.old) (log_in self.old) (edge_in self.new) (log_in self.new)) }
        ensures long { OnOk result (count ≤ length self.new.levels.items) }
        ensures counted { OnOk result
            (IsCountedOn (S.reads src.old) self.old (S.reads src.new) self.new) }
        ensures same { S.gives src.new ≡ S.gives src.old }
        ensures stopped { (f : LinkEdge → Log → Step LinkEdge) → IsOnward f
            → IfErr result (IsStopped (S.gives src.old) (S.reads src.old, self.old.left)
            (S.reads src.new) (log_in self.old) (within (nodes_given (S.gives src.old)) count f
            (edge_in self.old) (log_in self.old))) }
        ensures halted { (f : LinkEdge → Log → Step LinkEdge)
            → IfErr result (IsHaltedFrom self.old self.new (within (nodes_given (S.gives src.old))
            count f (edge_in self.old) (log_in self.old))) }
    {
        while self.levels.len() < count {
            self.open_level(src)?;
        }
        Ok(())
    }

    /// The layer of this depth is open, where those above it are.
    pub(crate) fn open_at<S: Source<&'a Arc<Block<D, A>, A>>>(
        &mut self,
        src: &mut S,
        depth: usize,
    ) -> Result<(), Fault>
        requires above { depth ≤ length self.old.levels.items }
        ensures { IsOpening S.gives S.reads src.old src.new self.old self.new
            (edge_of (drop depth self.old.levels.items) self.old.rest)
            (λ shows. IsOpenAt shows depth self.old.levels.items self.old.rest (log_in self.old)
            self.new.levels.items self.new.rest (log_in self.new)) result }
    {
        if depth < self.levels.len() {
            return Ok(());
        }
        self.open_level(src)
    }

    /// One more pair, so many layers below the top: what waits above it is opened, what stands below it is complete.
    pub(crate) fn pair<S: Source<&'a Arc<Block<D, A>, A>>>(
        &mut self,
        src: &mut S,
        depth: usize,
        key: &[u8],
        value: CidRef<'_>,
    ) -> Result<(), Fault>
        ensures { Makes S.gives S.reads src.old src.new self.old self.new
            (λ shows. pairing D.digest_of shows depth (pair_of key.now value.entry)) result }
    {
        self.open_to(src, depth)?;
        self.open_at(src, depth)?;
        Ok(self.add_pair(depth, key, value)?)
    }
}
