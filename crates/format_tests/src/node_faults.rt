//! Bytes that are no node.
ghost use Rattle.std.specs.Prelude.{◌<◌, length};

use crate::nodes::{identifier, two_entries};
use cid::{Cid, CidRef};
use dagcbor::push_head;
use node::{NodeFault, NodeView, NodeWriter};
use std::alloc::{AllocError, Global};
use std::process::Abort;

/// What an entry shows: how many bytes its key keeps of the key before, and the bytes after these.
type Shown<'a> = (usize, &'a [u8]);

/// Puts an entry with this value and without a subtree at the end of `out`, whether or not it is lawful.
fn push_entry(out: &mut Vec<u8>, shown: Shown<'_>, value: CidRef<'_>) -> Result<(), AllocError> {
    let (prefix, suffix) = shown;
    out.extend_from_slice(&[0xa4, b'a', b'k'])?;
    push_head(out, 2, suffix.len() as u64)?;
    out.extend_from_slice(suffix)?;
    out.extend_from_slice(b"ap")?;
    push_head(out, 0, prefix as u64)?;
    out.extend_from_slice(&[b'a', b't', 0xf6, b'a', b'v', 0xd8, 0x2a, 0x58, 0x25, 0x00])?;
    out.extend_from_slice(value.as_bytes())
}

/// Puts a node of these entries at the end of `out`, whether or not it is lawful.
fn push_node(out: &mut Vec<u8>, value: &Cid, entries: &[Shown<'_>]) -> Result<(), AllocError> {
    out.extend_from_slice(&[0xa2, b'a', b'e'])?;
    push_head(out, 4, entries.len() as u64)?;
    for shown in entries {
        push_entry(out, *shown, CidRef::from(value))?;
    }
    out.extend_from_slice(&[b'a', b'l', 0xf6])
}

/// The fault of some bytes, or none.
fn fault(bytes: &[u8]) -> Option<NodeFault> {
    NodeView::parse(bytes).err()
}

/// The fault of a node of these entries, or none.
fn fault_of(rt: &impl Abort, alloc: Global, entries: &[Shown<'_>]) -> Option<NodeFault> {
    let mut bytes = Vec::new(alloc);
    push_node(&mut bytes, &identifier(rt, 0x11), entries).expect(rt, "memory for a node");
    fault(&bytes)
}

/// What the entries of a node show, with the node's fault.
const ENTRIES: [(&[Shown<'static>], Option<NodeFault>); 5] = [
    (&[(0, b"a/b"), (2, b"cd")], None),
    (&[(0, b"a/b"), (1, b"/cd")], Some(NodeFault::BadPrefix)),
    (&[(0, b"a/b"), (2, b"a")], Some(NodeFault::KeyOrder)),
    (&[(1, b"a/b"), (2, b"cd")], Some(NodeFault::BadPrefix)),
    (&[(0, b"")], Some(NodeFault::KeyLength)),
];

/// Whether the longest key that may be is refused after itself, and a longer one after it.
fn refuses_after_the_longest(rt: &impl Abort, alloc: Global) -> bool {
    let long = [0xff; 1024];
    let same: [Shown<'_>; 2] = [(0, &long), (1024, b"")];
    let longer: [Shown<'_>; 2] = [(0, &long), (1024, b"a")];
    fault_of(rt, alloc, &same) == Some(NodeFault::KeyOrder)
        && fault_of(rt, alloc, &longer) == Some(NodeFault::KeyLength)
}

#[test]
fn node_faults(rt: HostRuntime) {
    assert!(rt;
        fault(b"\xa2ae\x80al\xf6").is_none()
            && fault(b"\xa2al\xf6ae\x80") == Some(NodeFault::NotNode)
            && fault(b"\xa2ae\x80al\xf6\x00") == Some(NodeFault::NotNode)
    );
    for (entries, wanted) in &ENTRIES {
        assert!(rt;
            fault_of(&rt, rt.alloc(), entries) == *wanted,
            "at {entries:?}"
        );
    }
    assert!(rt; refuses_after_the_longest(&rt, rt.alloc()));
}

/// Entries whose keys have one byte more each, up to the longest.
fn keys_of_each_length(rt: &impl Abort, alloc: Global) -> Vec<Shown<'static>> {
    let mut entries: Vec<Shown<'static>> = Vec::new(alloc);
    for prefix in 0..1024 {
        entries.push((prefix, b"b")).expect(rt, "room for an entry");
    }
    entries
}

/// The fault of a node of these entries and one more, or none.
fn fault_with(
    rt: &impl Abort,
    alloc: Global,
    entries: &mut Vec<Shown<'static>>,
    last: Shown<'static>,
) -> Option<NodeFault> {
    entries.push(last).expect(rt, "room for an entry");
    let found = fault_of(rt, alloc, entries);
    entries.pop();
    found
}

/// What an entry after those shows, with the fault of the node.
const LAST: [(Shown<'static>, Option<NodeFault>); 6] = [
    ((0, b"c"), None),
    ((1023, b"c"), None),
    ((20, b"a"), Some(NodeFault::KeyOrder)),
    ((20, b"b"), Some(NodeFault::BadPrefix)),
    ((1024, b"b"), Some(NodeFault::KeyLength)),
    ((1025, b"b"), Some(NodeFault::BadPrefix)),
];

/// The first of those entries after which a node of these has another fault, or none.
fn first_wrong(
    rt: &impl Abort,
    alloc: Global,
    entries: &mut Vec<Shown<'static>>,
) -> Option<Shown<'static>> {
    for (shown, wanted) in &LAST {
        if fault_with(rt, alloc, entries, *shown) != *wanted {
            return Some(*shown);
        }
    }
    None
}

#[test]
fn keys_of_as_many_parts_as_bytes(rt: HostRuntime) {
    let mut entries = keys_of_each_length(&rt, rt.alloc());
    assert!(rt; fault_of(&rt, rt.alloc(), &entries).is_none());
    assert!(rt; first_wrong(&rt, rt.alloc(), &mut entries).is_none());
}

/// Whether these are the bytes of a node, and no fewer of them are.
fn is_node_uncut(bytes: &[u8]) -> bool {
    for length in 0..bytes.len() {
        if fault(&bytes[..length]) != Some(NodeFault::NotNode) {
            return false;
        }
    }
    fault(bytes).is_none()
}

#[test]
fn cut_nodes(rt: HostRuntime) {
    assert!(rt; is_node_uncut(&two_entries(&rt, rt.alloc())));
    let writer = NodeWriter::begin(rt.alloc(), None).expect(&rt, "memory for a node");
    let empty = writer.finish().expect(&rt, "memory for the last part");
    assert!(rt; is_node_uncut(&empty));
}

/// How many nodes were accepted and how many refused, by their fault.
#[derive(Drop)]
struct Counts {
    accepted: u32,
    refused: [u32; 4],
}

impl Counts {
    /// Counts one more, by its fault.
    fn count(&mut self, fault: Option<NodeFault>) {
        let count = match fault {
            None => &mut self.accepted,
            Some(fault) => &mut self.refused[fault as usize],
        };
        *count = count.saturating_add(1);
    }

    /// Counts the bytes with each other byte at this place.
    fn count_changes(&mut self, bytes: &mut [u8], place: usize)
        requires { place < length bytes.old }
    {
        let was = bytes[place];
        for byte in 0..=u8::MAX {
            if byte != was {
                bytes[place] = byte;
                self.count(fault(bytes));
            }
        }
        bytes[place] = was;
    }
}

#[test]
fn nodes_with_one_byte_changed(rt: HostRuntime) {
    let mut bytes = two_entries(&rt, rt.alloc());
    let bytes = &mut bytes[..];
    let mut counts = Counts {
        accepted: 0,
        refused: [0; 4],
    };
    for place in 0..bytes.len() {
        counts.count_changes(bytes, place);
    }
    let Counts { accepted, refused } = counts;
    // NotNode, BadPrefix, KeyOrder, KeyLength
    assert!(rt;
        accepted == 17_342 && refused == [12_449, 45, 254, 0],
        "{accepted} accepted, {refused:?} refused"
    );
}
