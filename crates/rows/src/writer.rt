//! Nodes written link by link and pair by pair, or in runs of an old node's.

ghost use Rattle.std.specs.Prelude.{◌≡◌, ◌≤◌, ◌+◌, ◌<◌, ◌∷◌, ◌++◌, [], true, None, length, take, option_map, IfOk, IfErr, OnOk};
ghost use Rattle.spec.specs.NodeFormat.{LastLink, are_keys_after};
ghost use Rattle.node.specs.Contents.{last_key};
ghost use Rattle.node.specs.Search.{gap_at};
ghost use Rattle.cid.specs.CidRef.{bytes_of};
ghost use Rattle.edit_laws.specs.Lawful.{HasKeys};
ghost use Rattle.rows.specs.Drafts.{onto, IsFaultOf, IsFaultOfAll, pair_of, IsNode};
ghost use Rattle.rows.specs.Entries.{part_of, key_behind, rows_between};
ghost use Rattle.rows.specs.OldNodes.{linked};
ghost use Rattle.rows.specs.Written.{has_rows, rows_in};

use crate::draft::{Draft, DraftFault};
use crate::entries::{KeyedEntries, to_cid};
use cid::{Cid, CidRef};
use node::{Gap, NodeWriter};
use std::alloc::{AllocError, Allocator};
use std::clone::Clone;
use std::marker::Model;
use std::mem::replace;

/// A node that is being written: a link, a pair, a link, a pair and so on, and the last link at the end. Pairs of an old node
/// come one by one or in runs, each run as it stands in that node's bytes.
///
/// A contract sees it as the pairs so far, each with the link before it.
#[derive(Drop)]
pub struct Writer<'a, A: Allocator> {
    alloc: A,
    rows: Rows<'a, A>,
}

/// What is written of a node.
#[derive(Drop)]
pub(crate) enum Rows<'a, A: Allocator> {
    Nothing,
    Open(OpenNode<'a, A>),
}

impl<'a, A: Allocator> Model for Writer<'a, A> {
    ghost use Rattle.std.specs.Prelude.{ℕ, List, Option};
    ghost use Rattle.spec.specs.Tree.{Pair};
    ghost use Rattle.rows.specs.Written.{rows_in};

    ghost Value = { List (Option (List ℕ) × Pair) };

    ghost view = { λ w. rows_in w.rows };
}

impl<'a, A: Allocator + Clone> Writer<'a, A> {
    /// A node of which nothing is written yet.
    pub fn new(alloc: A) -> Writer<'a, A>
        ensures { result ≡ [] }
    {
        Writer {
            alloc,
            rows: Rows::Nothing,
        }
    }

    /// Whether it has a pair.
    pub fn has_pairs(&self) -> bool
        ensures { result ≡ has_rows self.now }
    {
        match &self.rows {
            Rows::Nothing => false,
            Rows::Open(node) => node.has_pairs(),
        }
    }

    /// Adds a link and the pair after it. After a refusal nothing is promised of the writer.
    pub fn pair(
        &mut self,
        link: Option<Cid>,
        key: &[u8],
        value: CidRef<'_>,
    ) -> Result<(), DraftFault>
        ensures ok { OnOk result (self.new ≡ self.old ++ (link, pair_of key.now value.entry) ∷ []) }
        ensures fault { IfErr result
            (IsFaultOfAll (self.old ++ (link, pair_of key.now value.entry) ∷ [])) }
    {
        let alloc = self.alloc.clone()?;
        let rows = replace(&mut self.rows, Rows::Nothing);
        self.rows = rows.with_pair(alloc, link, key, value)?;
        Ok(())
    }

    /// Whether the last pair has the key that a reader read last, so that the pairs that it reads from here on can come as a
    /// run; and whether nothing was read, where there is no pair.
    pub fn follows(&self, rows: &KeyedEntries<'a, A>) -> bool
        ensures { result ≡ true → key_behind [] self.now ≡ rows.now.before }
    {
        match &self.rows {
            Rows::Nothing => rows.key().is_empty(),
            Rows::Open(node) => node.ends_with(rows.key()),
        }
    }

    /// Adds a run of pairs of an old node, each with the link before it: those from the start that was noted, behind the key of
    /// the last pair here, up to the last one that was read, or the one before it. After a refusal nothing is promised of the
    /// writer.
    pub fn run(&mut self, rows: &KeyedEntries<'a, A>, to: u64) -> Result<(), AllocError>
        requires order { rows.now.start ≤ to }
        requires within { to ≤ length rows.now.passed }
        requires near { length rows.now.passed ≤ to + 1 }
        requires follows { key_behind [] self.old
            ≡ key_behind [] (take rows.now.start rows.now.passed) }
        ensures { OnOk result (self.new ≡ self.old ++ part_of rows.now.start to rows.now.passed) }
    {
        let (start, end) = rows.run_to(to);
        if start.passed() == to {
            return Ok(());
        }
        let alloc = self.alloc.clone()?;
        let rows = replace(&mut self.rows, Rows::Nothing);
        self.rows = rows.with_run(alloc, start, end)?;
        Ok(())
    }

    /// The keys so far have 1 to 1,024 bytes and ascend. This is a statement for proofs alone: it does nothing.
    pub fn has_keys(&self)
        ensures { HasKeys (onto self.now (LastLink None)) }
    {
        match &self.rows {
            Rows::Nothing => (),
            Rows::Open(node) => node.has_keys(),
        }
    }

    /// Adds the last link.
    pub fn finish(self, last: Option<Cid>) -> Result<Draft<A>, DraftFault>
        ensures ok { IfOk result (IsNode (onto self.entry (LastLink last))) }
        ensures fault { IfErr result (IsFaultOf (onto self.entry (LastLink last))) }
    {
        let Writer { alloc, rows } = self;
        match rows {
            Rows::Nothing => Ok(Draft {
                bytes: NodeWriter::begin(alloc, last)?.finish()?,
                is_empty: last.is_none(),
            }),
            Rows::Open(node) => Ok(node.finish(last)?),
        }
    }
}

impl<'a, A: Allocator + Clone> Rows<'a, A> {
    /// With a link more and the pair after it.
    fn with_pair(
        self,
        alloc: A,
        link: Option<Cid>,
        key: &[u8],
        value: CidRef<'_>,
    ) -> Result<Rows<'a, A>, DraftFault>
        ensures ok { IfOk result (λ rows. rows_in rows
            ≡ rows_in self.entry ++ (link, pair_of key.now value.entry) ∷ []) }
        ensures fault { IfErr result
            (IsFaultOfAll (rows_in self.entry ++ (link, pair_of key.now value.entry) ∷ [])) }
    {
        match self {
            Rows::Nothing => Ok(Rows::Open(OpenNode::begin(alloc, link, key, value)?)),
            Rows::Open(node) => Ok(Rows::Open(node.pair(link, key, value)?)),
        }
    }

    /// With a run of pairs of an old node more.
    fn with_run(self, alloc: A, start: &Gap<'a>, end: &Gap<'a>) -> Result<Rows<'a, A>, AllocError>
        requires same { end.now.node ≡ start.now.node }
        requires order { start.now.passed < end.now.passed }
        requires follows { key_behind [] (rows_in self)
            ≡ last_key [] (take start.now.passed start.now.node.entries) }
        requires ascending { are_keys_after [] start.now.node.entries ≡ true }
        ensures { IfOk result (λ rows. rows_in rows ≡ rows_in self.entry
            ++ rows_between start.now.passed end.now.passed start.now.node) }
    {
        match self {
            Rows::Nothing => Ok(Rows::Open(OpenNode::of(alloc, start, end)?)),
            Rows::Open(node) => Ok(Rows::Open(node.run(start, end)?)),
        }
    }
}

/// A node that is being written and has a pair. The link behind its last pair isn't known yet: another one stands there.
///
/// A contract sees it as its pairs, each with the link before it.
#[derive(Drop)]
pub(crate) struct OpenNode<'a, A: Allocator> {
    written: NodeWriter<A>,

    /// The link that stands behind the last pair.
    behind: Option<CidRef<'a>>,
}

impl<'a, A: Allocator> Model for OpenNode<'a, A> {
    ghost use Rattle.std.specs.Prelude.{ℕ, List, Option, option_map};
    ghost use Rattle.spec.specs.Tree.{Pair};
    ghost use Rattle.cid.specs.CidRef.{bytes_of};
    ghost use Rattle.rows.specs.OldNodes.{linked};
    ghost use Rattle.rows.specs.Begun.{IsBegun};

    ghost Value = { List (Option (List ℕ) × Pair) };

    ghost view = { λ n. linked n.written.left n.written.entries };

    ghost invariant = { λ n. IsBegun n.written (option_map bytes_of n.behind) };
}

impl<'a, A: Allocator + Clone> OpenNode<'a, A> {
    /// Begins a node with a link and the pair after it.
    fn begin(
        alloc: A,
        link: Option<Cid>,
        key: &[u8],
        value: CidRef<'_>,
    ) -> Result<OpenNode<'a, A>, DraftFault>
        ensures ok { IfOk result (λ node. node ≡ (link, pair_of key.now value.entry) ∷ []) }
        ensures fault { IfErr result (IsFaultOfAll ((link, pair_of key.now value.entry) ∷ [])) }
    {
        OpenNode::after(NodeWriter::begin(alloc, link)?, key, value)
    }

    /// Begins a node with a run of pairs of an old one, which has no pair before them.
    fn of(alloc: A, start: &Gap<'a>, end: &Gap<'a>) -> Result<OpenNode<'a, A>, AllocError>
        requires same { end.now.node ≡ start.now.node }
        requires order { start.now.passed < end.now.passed }
        requires first { last_key [] (take start.now.passed start.now.node.entries) ≡ [] }
        requires ascending { are_keys_after [] start.now.node.entries ≡ true }
        ensures { IfOk result (λ node. node
            ≡ rows_between start.now.passed end.now.passed start.now.node) }
    {
        OpenNode::copied(NodeWriter::begin(alloc, to_cid(start.link()))?, start, end)
    }

    /// A pair after those of a node, behind whose last one its link stands.
    fn after(
        closed: NodeWriter<A>,
        key: &[u8],
        value: CidRef<'_>,
    ) -> Result<OpenNode<'a, A>, DraftFault>
        requires keys { are_keys_after [] closed.entries ≡ true }
        ensures ok { IfOk result (λ node. node ≡ linked closed.left closed.entries
            ++ (
              gap_at (length closed.entries) closed.left closed.entries,
              pair_of key.now value.entry,
            ) ∷ []) }
        ensures fault { IfErr result (IsFaultOfAll (linked closed.left closed.entries
            ++ (
              gap_at (length closed.entries) closed.left closed.entries,
              pair_of key.now value.entry,
            ) ∷ [])) }
    {
        if !closed.is_next(key) {
            return Err(DraftFault::NotNode);
        }
        let mut written = closed;
        written.entry(key, value, None)?;
        Ok(OpenNode {
            written,
            behind: None,
        })
    }

    /// A run of pairs of an old node after those of a node, behind whose last one the first link of the run stands.
    fn copied(
        closed: NodeWriter<A>,
        start: &Gap<'a>,
        end: &Gap<'a>,
    ) -> Result<OpenNode<'a, A>, AllocError>
        requires same { end.now.node ≡ start.now.node }
        requires order { start.now.passed < end.now.passed }
        requires follows { last_key [] closed.entries
            ≡ last_key [] (take start.now.passed start.now.node.entries) }
        requires link { gap_at (length closed.entries) closed.left closed.entries
            ≡ gap_at start.now.passed start.now.node.left start.now.node.entries }
        requires keys { are_keys_after [] closed.entries ≡ true }
        requires ascending { are_keys_after [] start.now.node.entries ≡ true }
        ensures { IfOk result (λ node. node ≡ linked closed.left closed.entries
            ++ rows_between start.now.passed end.now.passed start.now.node) }
    {
        let mut written = closed;
        written.copy(start, end.passed())?;
        Ok(OpenNode {
            written,
            behind: end.link(),
        })
    }

    /// It has a pair.
    fn has_pairs(&self) -> bool
        ensures { result ≡ has_rows self.now }
    {
        let _ = &self.written;
        true
    }

    /// Its keys have 1 to 1,024 bytes and ascend. This is a statement for proofs alone: it does nothing.
    fn has_keys(&self)
        ensures { HasKeys (onto self.now (LastLink None)) }
    {
        let _ = &self.written;
    }

    /// Whether the last pair has this key.
    fn ends_with(&self, key: &[u8]) -> bool
        ensures { result ≡ true → key_behind [] self.now ≡ key.now }
    {
        is_same_key(self.written.last_key(), key)
    }

    /// With a link more and the pair after it.
    fn pair(
        self,
        link: Option<Cid>,
        key: &[u8],
        value: CidRef<'_>,
    ) -> Result<OpenNode<'a, A>, DraftFault>
        ensures ok { IfOk result
            (λ node. node ≡ self.entry ++ (link, pair_of key.now value.entry) ∷ []) }
        ensures fault { IfErr result
            (IsFaultOfAll (self.entry ++ (link, pair_of key.now value.entry) ∷ [])) }
    {
        OpenNode::after(self.closed(link)?, key, value)
    }

    /// With a run of pairs of an old node more.
    fn run(self, start: &Gap<'a>, end: &Gap<'a>) -> Result<OpenNode<'a, A>, AllocError>
        requires same { end.now.node ≡ start.now.node }
        requires order { start.now.passed < end.now.passed }
        requires follows { key_behind [] self
            ≡ last_key [] (take start.now.passed start.now.node.entries) }
        requires ascending { are_keys_after [] start.now.node.entries ≡ true }
        ensures { IfOk result (λ node. node
            ≡ self.entry ++ rows_between start.now.passed end.now.passed start.now.node) }
    {
        OpenNode::copied(self.closed(to_cid(start.link()))?, start, end)
    }

    /// The node with this link behind its last pair.
    fn closed(self, link: Option<Cid>) -> Result<NodeWriter<A>, AllocError>
        ensures rows { IfOk result (λ closed. linked closed.left closed.entries ≡ self.entry) }
        ensures link { IfOk result
            (λ closed. gap_at (length closed.entries) closed.left closed.entries ≡ link) }
        ensures some { IfOk result (λ closed. 0 < length closed.entries) }
        ensures keys { IfOk result (λ closed. are_keys_after [] closed.entries ≡ true) }
    {
        let OpenNode { written, behind } = self;
        if is_same(&link, behind) {
            return Ok(written);
        }
        written.relinked(behind, link)
    }

    /// Adds the last link.
    fn finish(self, last: Option<Cid>) -> Result<Draft<A>, AllocError>
        ensures { IfOk result (IsNode (onto self.entry (LastLink last))) }
    {
        Ok(Draft {
            bytes: self.closed(last)?.finish()?,
            is_empty: false,
        })
    }
}

/// Whether a link is this one.
fn is_same(link: &Option<Cid>, lent: Option<CidRef<'_>>) -> bool
    ensures { result ≡ true → link.now ≡ option_map bytes_of lent.entry }
{
    match lent {
        None => link.is_none(),
        Some(lent) => match link {
            Some(link) => CidRef::from(link).is_same(lent),
            None => false,
        },
    }
}

/// Whether two keys are the same.
fn is_same_key(one: &[u8], other: &[u8]) -> bool
    ensures { result ≡ true → one.now ≡ other.now }
{
    one == other
}
