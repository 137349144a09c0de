//! One of the two trees, as far as it is opened.

ghost use Rattle.std.specs.Prelude.{◌≡◌, ◌≤◌, ◌+◌, ◌-◌, ◌++◌, suc, [], length, Some, Ok, IfOk, IfErr, IfSome, OnOk};
ghost use Rattle.std.specs.List.{cons_option};
ghost use Rattle.spec.specs.Layer.{layer as layer_of};
ghost use Rattle.edit_laws.specs.ShapeEdit.{last_link};
ghost use Rattle.batch_laws.specs.Links.{rows_in_shape};
ghost use Rattle.rows.specs.Entries.{shape_of};
ghost use Rattle.lookups.specs.Steps.{nodes_given};
ghost use Rattle.difference_laws.specs.Lines.{links_in, opened, without};
ghost use Rattle.difference.specs.Sides.{AreOpened, AreStopped, IsBegun, IsLackAt, IsSpread, IsStopped, IsTop, line_of, links_among, rows_of, rows_without, shapes_in, top_after, waiting};
ghost use Rattle.difference.specs.Starts.{IsStart, side_in};

use crate::faults::DifferenceFault;
use crate::keys::Key;
use crate::line::{Line, Links, Row, unless};
use crate::read_nodes::ReadNode;
use block::Block;
use cid::{Cid, Digest};
use lookups::{Source, view_of};
use node::{KeyBuf, NodeView};
use rows::{KeyedEntries, to_cid, top_layer};
use std::alloc::{AllocError, Allocator};
use std::clone::Clone;
use std::mem;
use std::sync::Arc;

/// A tree down to some layer, and the nodes that were read for it.
#[derive(Drop)]
pub(crate) struct Side<'a, D: Digest, A: Allocator> {
    pub(crate) line: Line<A>,

    /// How many layers are left below the line: the nodes of its links are of the layer one below that number.
    pub(crate) left: usize,

    /// The root's block, which was read to know its layer, until it is opened.
    pub(crate) top: Option<ReadNode<'a, D, A>>,

    /// The blocks that were opened.
    pub(crate) read: Vec<ReadNode<'a, D, A>, A>,
}

impl<'a, D: Digest + 'a, A: Allocator + Clone + 'a> Side<'a, D, A> {
    /// A tree of which nothing is open but its root, which is read.
    pub(crate) fn new<const B: u8, S: Source<&'a Arc<Block<D, A>, A>>>(
        alloc: A,
        src: &mut S,
        root: Cid,
    ) -> Result<Side<'a, D, A>, DifferenceFault>
        requires least { 1 ≤ B }
        ensures start { IfOk result (λ side. IsStart (nodes_given (S.gives src.old))
            (layer_of D.digest_of B) root (side_in side)) }
        ensures begun { IfOk result (λ side. IsBegun (S.gives src.old)
            (rows_of side.line.rows.items) side.line.last side.top side.read.items) }
        ensures waits { IfOk result (λ side. waiting side.top + length side.read.items ≡ 1) }
        ensures lack { IfErr result
            (IsLackAt (S.gives src.old) (nodes_given (S.gives src.old)) (Some root)) }
        ensures counted { S.reads src.new ≡ suc (S.reads src.old) }
        ensures same { S.gives src.new ≡ S.gives src.old }
    {
        let Some(block) = src.get(&root) else {
            return Err(DifferenceFault::BlockMissing(root));
        };
        let Some(view) = view_of(block) else {
            return Err(DifferenceFault::BadNode(root));
        };
        Ok(Side {
            line: Line::of(alloc.clone()?, root),
            left: usize::from(top_layer::<D, B>(&view)) + 1,
            top: Some(ReadNode::of(block)),
            read: Vec::new(alloc),
        })
    }

    fn alloc(&self) -> Result<A, AllocError> {
        self.read.allocator().clone()
    }

    /// The block with a CID, which is the root's, or is asked for.
    fn block<S: Source<&'a Arc<Block<D, A>, A>>>(
        &mut self,
        src: &mut S,
        cid: Cid,
    ) -> Result<&'a Arc<Block<D, A>, A>, DifferenceFault>
        requires known { IsTop (S.gives src.old) (Some cid) self.old.top }
        ensures found { IfOk result (λ block. S.gives src.old cid ≡ Some block.now) }
        ensures lack { IfErr result
            (IsLackAt (S.gives src.old) (nodes_given (S.gives src.old)) (Some cid)) }
        ensures counted { S.reads src.new + waiting self.old.top ≡ suc (S.reads src.old) }
        ensures same { S.gives src.new ≡ S.gives src.old }
        ensures top { self.new.top ≡ top_after (Some cid) self.old.top }
        ensures line { self.new.line ≡ self.old.line }
        ensures left { self.new.left ≡ self.old.left }
        ensures read { self.new.read.items ≡ self.old.read.items }
    {
        if let Some(top) = self.top.take() {
            return Ok(top.block());
        }
        match src.get(&cid) {
            Some(block) => Ok(block),
            None => Err(DifferenceFault::BlockMissing(cid)),
        }
    }

    /// The rows of a node come to the line; its last link is answered.
    fn take(&mut self, view: &NodeView<'a>) -> Result<Option<Cid>, AllocError>
        ensures rows { OnOk result (rows_of self.new.line.rows.items
            ≡ rows_of self.old.line.rows.items ++ rows_in_shape (shape_of view.now)) }
        ensures last { IfOk result (λ last. last ≡ last_link (shape_of view.now)) }
        ensures after { self.new.line.last ≡ self.old.line.last }
        ensures left { self.new.left ≡ self.old.left }
        ensures top { self.new.top ≡ self.old.top }
        ensures read { self.new.read.items ≡ self.old.read.items }
    {
        let mut entries = KeyedEntries::of(view, KeyBuf::new(self.alloc()?)?);
        'entries: loop {
            let link = to_cid(entries.link());
            let Some(value) = entries.next() else {
                return Ok(link);
            };
            let value = value.to_cid();
            let key = Key::of(self.alloc()?, entries.key())?;
            self.line.rows.push(Row { link, key, value })?;
        }
    }

    /// The rows of the node behind a link come to the line, if there is one; its last link is answered.
    fn spread<S: Source<&'a Arc<Block<D, A>, A>>>(
        &mut self,
        src: &mut S,
        link: Option<Cid>,
    ) -> Result<Option<Cid>, DifferenceFault>
        requires known { IsTop (S.gives src.old) link self.old.top }
        ensures spread { IfOk result (IsSpread (nodes_given (S.gives src.old)) link
            (rows_of self.old.line.rows.items) (rows_of self.new.line.rows.items)
            (shapes_in self.old.read.items) (shapes_in self.new.read.items)) }
        ensures lack { IfErr result
            (IsLackAt (S.gives src.old) (nodes_given (S.gives src.old)) link) }
        ensures counted { OnOk result
            (S.reads src.new + waiting self.old.top + length self.old.read.items
            ≡ S.reads src.old + waiting self.new.top + length self.new.read.items) }
        ensures most { S.reads src.new ≤ S.reads src.old + length (cons_option link []) }
        ensures top { OnOk result (self.new.top ≡ top_after link self.old.top) }
        ensures after { self.new.line.last ≡ self.old.line.last }
        ensures left { self.new.left ≡ self.old.left }
        ensures same { S.gives src.new ≡ S.gives src.old }
    {
        let Some(cid) = link else {
            return Ok(None);
        };
        let block = self.block(src, cid)?;
        let Some(view) = view_of(block) else {
            return Err(DifferenceFault::BadNode(cid));
        };
        self.read.push(ReadNode::of(block))?;
        Ok(self.take(&view)?)
    }

    /// These rows come to the line, each after the rows of the node behind its link, but for links that are shared.
    fn open_rows<S: Source<&'a Arc<Block<D, A>, A>>>(
        &mut self,
        src: &mut S,
        rows: Vec<Row<A>, A>,
        shared: &Links<A>,
    ) -> Result<(), DifferenceFault>
        requires known { IfSome self.old.top (λ _. rows.items ≡ []) }
        requires empty { self.old.line.rows.items ≡ [] }
        ensures opened { OnOk result (AreOpened (nodes_given (S.gives src.old))
            (rows_without shared.now.keys (rows_of rows.items)) (rows_of self.new.line.rows.items)
            (shapes_in self.old.read.items) (shapes_in self.new.read.items)) }
        ensures stopped { IfErr result
            (AreStopped (S.gives src.old) (nodes_given (S.gives src.old))
            (rows_without shared.now.keys (rows_of rows.items)) (shapes_in self.old.read.items)) }
        ensures grown { OnOk result (length self.old.read.items ≤ length self.new.read.items) }
        ensures counted { OnOk result (S.reads src.new + length self.old.read.items
            ≡ S.reads src.old + length self.new.read.items) }
        ensures most { S.reads src.new
            ≤ S.reads src.old + links_among shared.now.keys (rows_of rows.items) }
        ensures top { OnOk result (self.new.top ≡ self.old.top) }
        ensures after { self.new.line.last ≡ self.old.line.last }
        ensures left { self.new.left ≡ self.old.left }
        ensures same { S.gives src.new ≡ S.gives src.old }
    {
        for row in rows {
            let Row { link, key, value } = row;
            let link = self.spread(src, unless(shared, link))?;
            self.line.rows.push(Row { link, key, value })?;
        }
        Ok(())
    }

    /// One layer more is open: in the place of each link that isn't shared come the rows of its node.
    pub(crate) fn open<S: Source<&'a Arc<Block<D, A>, A>>>(
        &mut self,
        src: &mut S,
        shared: &Links<A>,
    ) -> Result<(), DifferenceFault>
        requires begun { IsBegun (S.gives src.old) (rows_of self.old.line.rows.items)
            self.old.line.last self.old.top self.old.read.items }
        ensures opened { OnOk result (opened (nodes_given (S.gives src.old))
            (without shared.now.keys (line_of self.old.line)) (shapes_in self.old.read.items)
            ≡ Ok (line_of self.new.line, shapes_in self.new.read.items)) }
        ensures stopped { IfErr result
            (IsStopped (S.gives src.old) (opened (nodes_given (S.gives src.old))
            (without shared.now.keys (line_of self.old.line)) (shapes_in self.old.read.items))) }
        ensures left { OnOk result (self.new.left ≡ self.old.left - 1) }
        ensures begun { OnOk result (IsBegun (S.gives src.old) (rows_of self.new.line.rows.items)
            self.new.line.last self.new.top self.new.read.items) }
        ensures counted { OnOk result
            (S.reads src.new + waiting self.old.top + length self.old.read.items
            ≡ S.reads src.old + waiting self.new.top + length self.new.read.items) }
        ensures most { S.reads src.new ≤ S.reads src.old
            + length (links_in (without shared.now.keys (line_of self.old.line))) }
        ensures same { S.gives src.new ≡ S.gives src.old }
    {
        let room = self.line.rows.len().saturating_mul(2);
        let empty = Vec::with_capacity(self.alloc()?, room)?;
        let rows = mem::replace(&mut self.line.rows, empty);
        self.open_rows(src, rows, shared)?;
        let last = self.line.last;
        self.line.last = self.spread(src, unless(shared, last))?;
        self.left = self.left.saturating_sub(1);
        Ok(())
    }
}
