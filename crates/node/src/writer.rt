//! Nodes written entry by entry.

ghost use Rattle.std.specs.Prelude.{◌≡◌, ◌-◌, ◌<◌, ◌≤◌, [], ◌∷◌, ◌++◌, length, take, drop, true, option_map, IfOk, OnOk, OnErr};
ghost use Rattle.spec.specs.NodeFormat.{is_node, node_spelling};
ghost use Rattle.node.specs.Contents.{Contents, last_key, is_next_key};
ghost use Rattle.node.specs.Search.{gap_at, relink_at};
ghost use Rattle.cid.specs.CidRef.{bytes_of};

use crate::common::{common_len, is_key};
use crate::encode::{VALUE_FIELD, field_len, lend, push_entry, push_link};
use crate::gap::Gap;
use crate::key_buf::KeyBuf;
use crate::skip::pass;
use cid::{Cid, CidRef};
use dagcbor::{Major, push_head};
use std::alloc::{AllocError, Allocator, Global};
use std::clone::Clone;
use std::marker::Model;

/// How many bytes of entries there is room for from the beginning: most nodes have no more.
const FIRST_ROOM: usize = 512;

/// How many bytes a node has beside its entries, with so many entries and this left link.
fn ends(count: u64, left: Option<CidRef<'_>>) -> usize {
    let head = if count < 24 {
        1usize
    } else if count < 256 {
        2
    } else {
        9
    };
    field_len(left).saturating_add(3).saturating_add(head)
}

/// A node that is being written, its entries in ascending order of their keys.
///
/// A contract sees it as the left link and the entries so far.
#[derive(Drop)]
#[derive_where(Debug)]
pub struct NodeWriter<A: Allocator = Global> {
    left: Option<Cid>,
    count: u64,
    entries: Vec<u8, A>,
    last: KeyBuf<A>,
}

impl<A: Allocator> Model for NodeWriter<A> {
    ghost use Rattle.node.specs.Contents.{Contents, entries_in, IsWritten};

    ghost Value = { Contents };

    ghost view = { λ w. record { left = w.left; entries = entries_in w.count w.entries.items } };

    ghost invariant = { λ w. IsWritten w.count w.entries.items w.last };
}

impl<A: Allocator + Clone> NodeWriter<A> {
    /// Begins a node: `left` is the link of the subtree before all its keys. `AllocError` comes where memory was refused.
    pub fn begin(alloc: A, left: Option<Cid>) -> Result<NodeWriter<A>, AllocError>
        ensures { IfOk result (λ writer. writer ≡ record { left = left; entries = [] }) }
    {
        let last = KeyBuf::new(alloc.clone()?)?;
        let entries = Vec::with_capacity(alloc, FIRST_ROOM)?;
        Ok(NodeWriter {
            left,
            count: 0,
            entries,
            last,
        })
    }

    /// Whether `key` can be the next entry's: it has 1 to 1,024 bytes and is greater than the last key.
    pub fn is_next(&self, key: &[u8]) -> bool
        ensures { result ≡ is_next_key self.now.entries key.now }
    {
        self.last.key().cmp(key).is_lt() && is_key(key)
    }

    /// The last key, and the empty key before the first.
    pub fn last_key(&self) -> &[u8]
        ensures { result.now ≡ last_key [] self.now.entries }
    {
        self.last.key()
    }

    /// Adds an entry: a key, its record's CID, and the link of the subtree after it. Keys ascend strictly and have 1
    /// to 1,024 bytes; `is_next` is the test. Where memory is refused, the writer stays as it was.
    pub fn entry(
        &mut self,
        key: &[u8],
        value: CidRef<'_>,
        tree: Option<Cid>,
    ) -> Result<(), AllocError>
        requires { is_next_key self.old.entries key.now ≡ true }
        ensures ok { OnOk result (self.new
            ≡ record {
              left = self.old.left;
              entries = self.old.entries
                  ++ record { key = key.now; value = bytes_of value.entry; tree = tree } ∷ [];
            }) }
        ensures unchanged { OnErr result (self.new ≡ self.old) }
    {
        let prefix = common_len(self.last.key(), key);
        let suffix = &key[prefix..];
        let tree = lend(&tree);
        let written = self.entries.len();
        match push_entry(&mut self.entries, prefix, suffix, value, tree) {
            Ok(()) => {
                self.last.change(prefix, suffix);
                self.count += 1;
                Ok(())
            }
            Err(refused) => {
                self.entries.truncate(written);
                Err(refused)
            }
        }
    }

    /// Adds entries as they stand in the block of a node: those from a gap on, up to the `to`-th. Their bytes are copied
    /// at once. The last key of this writer is the key before them in that node, or there is none before in both. Where
    /// memory is refused, the writer stays as it was.
    pub fn copy(&mut self, from: &Gap<'_>, to: u64) -> Result<(), AllocError>
        requires order { from.now.passed ≤ to }
        requires within { to ≤ length from.now.node.entries }
        requires follows { last_key [] self.old.entries
            ≡ last_key [] (take from.now.passed from.now.node.entries) }
        ensures ok { OnOk result (self.new
            ≡ record {
              left = self.old.left;
              entries = self.old.entries
                  ++ take (to - from.now.passed) (drop from.now.passed from.now.node.entries);
            }) }
        ensures unchanged { OnErr result (self.new ≡ self.old) }
    {
        let start = from.rest();
        let from = from.passed();
        self.entries.reserve(start.len())?;
        let rest = pass(&mut self.last, to - from, start);
        let Ok(()) = self
            .entries
            .extend_from_slice(&start[..start.len() - rest.len()])
        else {
            unreachable!()
        };
        self.count += to - from;
        Ok(())
    }

    /// The same with another link behind its last entry, where `old` stands. `AllocError` comes where memory was refused.
    pub fn relinked(
        self,
        old: Option<CidRef<'_>>,
        new: Option<Cid>,
    ) -> Result<NodeWriter<A>, AllocError>
        requires some { 0 < length self.entries }
        requires old { option_map bytes_of old
            ≡ gap_at (length self.entries) self.left self.entries }
        ensures { IfOk result (λ writer. writer
            ≡ relink_at (length self.entries) self.left self.entries new) }
    {
        let NodeWriter {
            left: first,
            count,
            mut entries,
            last,
        } = self;
        let at = entries.len() - VALUE_FIELD;
        let mut value = [0; VALUE_FIELD];
        value.copy_from_slice(&entries[at..]);
        entries.truncate(at - field_len(old));
        push_link(&mut entries, b't', lend(&new))?;
        entries.extend_from_slice(&value)?;
        Ok(NodeWriter {
            left: first,
            count,
            entries,
            last,
        })
    }

    /// Begins another node in the room of the last: `left` is the link of the subtree before all its keys. This takes no
    /// memory.
    pub fn begin_again(&mut self, left: Option<Cid>)
        ensures { self.new ≡ record { left = left; entries = [] } }
    {
        self.left = left;
        self.count = 0;
        self.entries.clear();
        self.last.reset();
    }

    /// The bytes of the node as it is so far, or `AllocError` where memory was refused.
    pub fn bytes(&self) -> Result<Vec<u8, A>, AllocError>
        ensures bytes { IfOk result (λ bytes. bytes.items
            ≡ node_spelling self.now.left self.now.entries) }
        ensures grammar { OnOk result (is_node self.now.left self.now.entries ≡ true) }
    {
        let alloc = self.entries.allocator().clone()?;
        let room = self
            .entries
            .len()
            .saturating_add(ends(self.count, lend(&self.left)));
        let mut bytes = Vec::with_capacity(alloc, room)?;
        bytes.extend_from_slice(&[0xa2, b'a', b'e'])?;
        push_head(&mut bytes, Major::Array as u8, self.count)?;
        bytes.extend_from_slice(&self.entries)?;
        push_link(&mut bytes, b'l', lend(&self.left))?;
        Ok(bytes)
    }

    /// The bytes of the node, or `AllocError` where memory was refused.
    pub fn finish(self) -> Result<Vec<u8, A>, AllocError>
        ensures bytes { IfOk result (λ bytes. bytes.items ≡ node_spelling self.left self.entries) }
        ensures grammar { OnOk result (is_node self.left self.entries ≡ true) }
    {
        self.bytes()
    }
}
