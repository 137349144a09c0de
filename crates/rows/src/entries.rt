//! The entries of a node, each with its whole key.

ghost use Rattle.std.specs.Prelude.{◌≡◌, ◌≤◌, ◌+◌, ◌∷◌, ◌++◌, [], length, option_map, IfNone, IfSome};
ghost use Rattle.spec.specs.NodeFormat.{LastLink, MoreLinks, first_link};
ghost use Rattle.cid.specs.CidRef.{bytes_of};
ghost use Rattle.rows.specs.Entries.{AreGapsOf, key_behind, unread};

use cid::{Cid, CidRef};
use node::{Gap, KeyBuf, NodeView};
use std::alloc::Allocator;
use std::marker::Model;

/// The pairs of a node from the front, each with its whole key, and the links between them. It has room for one key, so
/// that going on takes no memory.
///
/// A contract sees it as the key of the pair before, the pairs that were read, each with the link before it, how many of
/// these stand before the start of a run, and what is left of the node: a link, then a pair, and so on.
#[derive(Drop)]
pub struct KeyedEntries<'a, A: Allocator> {
    /// The gap behind the pairs that were read, the one before the last of them, and the one where a run starts.
    gap: Gap<'a>,
    last: Gap<'a>,
    start: Gap<'a>,

    /// The key of the last pair that was read.
    key: KeyBuf<A>,
}

impl<'a, A: Allocator> Model for KeyedEntries<'a, A> {
    ghost use Rattle.rows.specs.Entries.{Reading, IsReader, reading_at};
    ghost use Rattle.rows.specs.Codes.{reading_code};

    ghost Value = { Reading };

    ghost coded = { reading_code };

    ghost view = { λ r. reading_at r.gap r.start.passed r.key };

    ghost invariant = { λ r. IsReader r.gap r.last r.start r.key };
}

impl<'a, A: Allocator> KeyedEntries<'a, A> {
    /// All of a node. The room for its keys is taken over, whatever key it has.
    pub fn of(view: &NodeView<'a>, key: KeyBuf<A>) -> KeyedEntries<'a, A>
        ensures { result ≡ unread view.now }
    {
        let mut key = key;
        key.reset();
        let _ = view.entries();
        KeyedEntries {
            gap: Gap::first(view),
            last: Gap::first(view),
            start: Gap::first(view),
            key,
        }
    }

    /// A run starts here.
    pub fn start_here(&mut self)
        ensures before { self.new.before ≡ self.old.before }
        ensures passed { self.new.passed ≡ self.old.passed }
        ensures rest { self.new.rest ≡ self.old.rest }
        ensures start { self.new.start ≡ length self.old.passed }
        ensures key { key_behind [] self.old.passed ≡ self.old.before }
    {
        self.start = self.gap.again();
    }

    /// The gap where a run starts, and the one behind so many pairs: all that were read, or all but the last.
    pub(crate) fn run_to(&self, pairs: u64) -> (&Gap<'a>, &Gap<'a>)
        requires within { pairs ≤ length self.now.passed }
        requires near { length self.now.passed ≤ pairs + 1 }
        ensures { AreGapsOf result.0.now result.1.now pairs self.now }
    {
        if pairs == self.gap.passed() {
            return (&self.start, &self.gap);
        }
        (&self.start, &self.last)
    }

    /// How many pairs were read.
    pub fn passed(&self) -> u64
        ensures { result ≡ length self.now.passed }
    {
        self.gap.passed()
    }

    /// The link before the next pair, or the last link.
    pub fn link(&self) -> Option<CidRef<'a>>
        ensures { option_map bytes_of result ≡ first_link self.now.rest }
    {
        self.gap.link()
    }

    /// The key of the pair before, and the empty key before the first pair.
    pub fn key(&self) -> &[u8]
        ensures { result.now ≡ self.now.before }
    {
        self.key.key()
    }

    /// The value of the next pair, whose key is then `key()` and after which `link()` is the link; `None` where only a
    /// link is left, and then nothing changes. This takes no memory.
    pub fn next(&mut self) -> Option<CidRef<'a>>
        ensures some { IfSome result (λ value. self.old.rest ≡ MoreLinks (first_link self.old.rest)
            (self.new.before, bytes_of value) self.new.rest) }
        ensures passed { IfSome result (λ value. self.new.passed ≡ self.old.passed
            ++ (first_link self.old.rest, (self.new.before, bytes_of value)) ∷ []) }
        ensures start { self.new.start ≡ self.old.start }
        ensures none { IfNone result (self.old.rest ≡ LastLink (first_link self.old.rest)) }
        ensures unchanged { IfNone result (self.new ≡ self.old) }
    {
        let last = self.gap.again();
        let Some(entry) = self.gap.next() else {
            return None;
        };
        self.key.step(&entry);
        self.last = last;
        Some(entry.value)
    }
}

/// A link with bytes of its own.
pub fn to_cid(link: Option<CidRef<'_>>) -> Option<Cid>
    ensures { result ≡ option_map bytes_of link.entry }
{
    match link {
        None => None,
        Some(link) => Some(link.to_cid()),
    }
}
