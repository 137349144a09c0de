//! A walk over a tree and its records, in the order of an export.

ghost use Rattle.std.specs.Prelude.{◌≡◌, ◌<◌, ◌≤◌, [], Some, None, nat_lt, length, option_map, IfNone, IfOk, IfSome, OnOk, if◌then◌else◌};
ghost use Rattle.std.specs.Arc.{arc_value};
ghost use Rattle.spec.specs.NodeFormat.{read_node};
ghost use Rattle.node.specs.Views.{row_of};
ghost use Rattle.export.specs.Founds.{bytes_found};
ghost use Rattle.export.specs.Walks.{entered, next_row, turned, without_link, IsNext, IsStep, IsStepFrom};

use crate::found::Found;
use block::Block;
use cid::{Cid, Digest};
use lookups::Source;
use node::{Entries, EntryView};
use rows::to_cid;
use std::alloc::{AllocError, Allocator};
use std::marker::Model;
use std::sync::Arc;

/// What a walk came to.
#[derive(Drop)]
pub(crate) enum Step<'a, D: Digest, A: Allocator> {
    /// A block.
    Found(Found<&'a Arc<Block<D, A>, A>>),
    /// A CID without a block.
    Missing,
    /// Its end.
    End,
}

/// A walk over the nodes of a tree and its records: a node, what is below its first link, and then for each entry its
/// record and what is below the link after it.
///
/// What is left of each node above the present place stands on a stack, so this takes memory for one node a layer.
///
/// A contract sees it as the greatest number of layers, the link to go down from, and what is left of the nodes above.
#[derive(Drop)]
pub(crate) struct Walk<'a, A: Allocator> {
    most: u16,
    link: Option<Cid>,
    stack: Vec<Entries<'a>, A>,
}

impl<'a, A: Allocator> Model for Walk<'a, A> {
    ghost use Rattle.std.specs.Prelude.{◌≤◌, length};
    ghost use Rattle.export.specs.Walks.{Walking, turned};

    ghost Value = { Walking };

    ghost view = { λ w. record { most = w.most; link = w.link; stack = turned w.stack.items } };

    ghost invariant = { λ w. length w.stack.items ≤ w.most };
}

impl<'a, A: Allocator> Walk<'a, A> {
    /// From the top of a tree on, over so many layers at most.
    pub(crate) fn from_top(alloc: A, top: Cid, most: u16) -> Walk<'a, A>
        ensures { result ≡ record { most = most; link = Some top; stack = [] } }
    {
        Walk {
            most,
            link: Some(top),
            stack: Vec::new(alloc),
        }
    }

    /// Goes on by one CID. A block that is no node, where one is looked for, has nothing below it.
    ///
    /// What a call gives back through memory is often read in other pieces than it was written in, for which the processor
    /// waits. So what is called for each block of a file is inlined by an attribute, here and where a block is found, noted and
    /// written: a file takes a fifth less time.
    #[inline(always)]
    pub(crate) fn step<D: Digest + 'a, S: Source<Found<&'a Arc<Block<D, A>, A>>>>(
        &mut self,
        src: &mut S,
    ) -> Result<Step<'a, D, A>, AllocError>
    where
        A: 'a,
        ensures step { IfOk result (IsStep
            (λ c. option_map bytes_found (S.gives src.old c)) self.old self.new) }
        ensures from { IfOk result (IsStepFrom (S.gives src.old)) }
        ensures same { S.gives src.new ≡ S.gives src.old }
    {
        if let Some(cid) = self.take_link() {
            let Some(found) = src.get(&cid) else {
                return Ok(Step::Missing);
            };
            self.enter(found.lent)?;
            return Ok(Step::Found(found));
        }
        let Some(cid) = self.next_record()? else {
            return Ok(Step::End);
        };
        match src.get(&cid) {
            Some(found) => Ok(Step::Found(found)),
            None => Ok(Step::Missing),
        }
    }

    /// Takes the link to go down from, unless it is too deep.
    fn take_link(&mut self) -> Option<Cid>
        ensures link { result
            ≡ (if nat_lt (length self.old.stack) self.old.most then self.old.link else None) }
        ensures taken { self.new ≡ without_link self.old }
        ensures within { length self.old.stack ≤ self.old.most }
    {
        let link = self.link;
        self.link = None;
        if self.stack.len() >= self.most as usize {
            return None;
        }
        link
    }

    /// Goes to the next record, and takes the link after it.
    fn next_record(&mut self) -> Result<Option<Cid>, AllocError>
        ensures { IfOk result (IsNext self.old self.new) }
    {
        let Some(entry) = next_entry(&mut self.stack)? else {
            return Ok(None);
        };
        self.link = to_cid(entry.tree);
        Ok(Some(entry.value.to_cid()))
    }

    /// Goes into a node, if the block is one.
    fn enter<D: Digest>(&mut self, block: &'a Arc<Block<D, A>, A>) -> Result<(), AllocError>
    where
        A: 'a,
        requires { length self.old.stack < self.old.most }
        ensures { OnOk result (self.new ≡ entered self.old (read_node (arc_value block.now))) }
    {
        if let Some(node) = block.node() {
            self.stack.push(node.entries())?;
            self.link = to_cid(node.left());
        }
        Ok(())
    }
}

/// The next entry of the nodes on a stack, of which those that have no more are taken away.
fn next_entry<'a, A: Allocator>(
    stack: &mut Vec<Entries<'a>, A>,
) -> Result<Option<EntryView<'a>>, AllocError>
    ensures none { IfOk result (λ entry. IfNone entry (next_row (turned stack.old.items) ≡ None)) }
    ensures some { IfOk result (λ entry. IfSome entry
        (λ e. next_row (turned stack.old.items) ≡ Some (row_of e, turned stack.new.items))) }
    ensures shorter { length stack.new.items ≤ length stack.old.items }
{
    while let Some(mut entries) = stack.pop() {
        if let Some(entry) = entries.next() {
            stack.push(entries)?;
            return Ok(Some(entry));
        }
    }
    Ok(None)
}
