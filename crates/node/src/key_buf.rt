//! Room for one key at a time.

ghost use Rattle.std.specs.Prelude.{◌≡◌, ◌+◌, ◌≤◌, ◌++◌, [], length, take, IfOk};

use crate::common::LONGEST_KEY;
use crate::entry::EntryView;
use std::alloc::{AllocError, Allocator, Global};
use std::marker::Model;

/// A key in room for any: 1,024 bytes, which are reserved once.
///
/// A contract sees it as the key's bytes.
#[derive(Drop)]
#[derive_where(Debug)]
pub struct KeyBuf<A: Allocator = Global> {
    bytes: Vec<u8, A>,
}

impl<A: Allocator> Model for KeyBuf<A> {
    ghost use Rattle.std.specs.Prelude.{ℕ, List, ◌≤◌};
    ghost use Rattle.std.specs.Vec.{vec_capacity};

    ghost Value = { List ℕ };

    ghost view = { λ b. b.bytes.items };

    ghost invariant = { λ b. 1024 ≤ vec_capacity b.bytes };
}

impl<A: Allocator> KeyBuf<A> {
    /// A buffer with the empty key, and room for any, or `AllocError` where memory was refused.
    pub fn new(alloc: A) -> Result<KeyBuf<A>, AllocError>
        ensures { IfOk result (λ buf. buf ≡ []) }
    {
        Ok(KeyBuf {
            bytes: Vec::with_capacity(alloc, LONGEST_KEY)?,
        })
    }

    /// The key.
    pub fn key(&self) -> &[u8]
        ensures { result.now ≡ self.now }
    {
        &self.bytes
    }

    /// Goes back to the empty key, before the first entry of a node.
    pub fn reset(&mut self)
        ensures { self.new ≡ [] }
    {
        self.bytes.clear();
    }

    /// Goes on to the key of the next entry of a node. The entries are those of one node, from the front; so an entry's
    /// prefix is no longer than the key before, and its key has no more than 1,024 bytes. This takes no memory.
    pub fn step(&mut self, entry: &EntryView<'_>)
        requires within { entry.now.prefix ≤ length self.old }
        requires room { entry.now.prefix + length entry.now.suffix.now ≤ 1024 }
        ensures { self.new ≡ take entry.now.prefix self.old ++ entry.now.suffix.now }
    {
        self.change(entry.prefix, entry.suffix);
    }

    /// Keeps the first `prefix` bytes and puts `suffix` after them.
    pub(crate) fn change(&mut self, prefix: usize, suffix: &[u8])
        requires within { prefix ≤ length self.old }
        requires room { prefix + length suffix.now ≤ 1024 }
        ensures { self.new ≡ take prefix self.old ++ suffix.now }
    {
        self.bytes.truncate(prefix);
        let Ok(()) = self.bytes.extend_from_slice(suffix) else {
            unreachable!()
        };
    }
}
