//! The pairs and the links of a node.

ghost use Rattle.std.specs.Prelude.{◌≡◌, ◌++◌, option_map, IfOk, OnOk};
ghost use Rattle.spec.specs.NodeFormat.{read_node};
ghost use Rattle.cid.specs.CidRef.{bytes_of};
ghost use Rattle.buffers.specs.Answers.{IsKept};
ghost use Rattle.tizulgech.specs.NodeEntries.{entries_bytes, entry_bytes, AreEntries};
ghost use Rattle.tizulgech.specs.Numbers.{IsHandedOr255};

use crate::codes::{BAD_NODE, NO_MEMORY};
use buffers::{hand, push_pair, push_value};
use cid::CidRef;
use node::{KeyBuf, NodeView};
use rows::{KeyedEntries, to_cid};
use std::alloc::{AllocError, Global};

/// The pairs and the links of the node of these bytes, from the front: the link below which all keys before its first one
/// stand; and of each pair its key's length in eight bytes, the lowest first, the key, its record's CID, and the link behind
/// it. A link is a CID of 36 bytes, or 36 zeros where there is none.
///
/// By it a host lists a tree of its own from any key on: it goes down the link before the first key that isn't below that
/// one, and then along the pairs and down each link behind them. 0; 30 where the bytes are no node; 251; 255.
#[unsafe(no_mangle)]
pub extern "C" fn tizulgech_node_entries(
    alloc: Global,
    node: &[u8],
    out: &mut [u8],
    size: &mut usize,
) -> u8
    ensures entries { AreEntries result (read_node node.now) out.old out.new size.new }
    ensures kept { IsKept result out.old out.new size.old size.new }
{
    let Ok(view) = NodeView::parse(node) else {
        return BAD_NODE;
    };
    entries_told(alloc, &view, out, size)
}

/// The same of a node.
fn entries_told(alloc: Global, view: &NodeView<'_>, out: &mut [u8], size: &mut usize) -> u8
    ensures entries { IsHandedOr255 result (entries_bytes view.now.left view.now.entries)
        out.old out.new size.new }
    ensures kept { IsKept result out.old out.new size.old size.new }
{
    match entries_of(alloc, view) {
        Ok(bytes) => hand(&bytes, out, size),
        Err(_) => NO_MEMORY,
    }
}

/// The pairs and the links of a node, spelt.
#[tactic(auto, using(crate::proofs::Listing::entries_next, crate::proofs::Listing::entries_done))]
fn entries_of(alloc: Global, view: &NodeView<'_>) -> Result<Vec<u8>, AllocError>
    ensures { IfOk result
        (λ bytes. bytes.items ≡ entries_bytes view.now.left view.now.entries) }
{
    let mut bytes = Vec::new(alloc);
    let mut rows = KeyedEntries::of(view, KeyBuf::new(alloc)?);
    push_value(&mut bytes, to_cid(rows.link()))?;
    loop {
        let Some(value) = rows.next() else {
            return Ok(bytes);
        };
        push_entry(&mut bytes, rows.key(), value, rows.link())?;
    }
}

/// Puts a pair and the link behind it at the end.
fn push_entry(
    bytes: &mut Vec<u8>,
    key: &[u8],
    value: CidRef<'_>,
    link: Option<CidRef<'_>>,
) -> Result<(), AllocError>
    ensures { OnOk result (bytes.new.items ≡ bytes.old.items ++ entry_bytes (record {
      key = key.now;
      value = bytes_of value.entry;
      tree = option_map bytes_of link.entry;
    })) }
{
    push_pair(bytes, key, &value.to_cid())?;
    push_value(bytes, to_cid(link))
}
