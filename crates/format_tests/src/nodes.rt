//! Nodes of worked examples.
ghost use Rattle.std.specs.Prelude.{◌≡◌, ◌≤◌, [], length, take};
ghost use Rattle.node.specs.Contents.{last_key};

use cid::{Cid, CidRef};
use node::{EntryView, Gap, KeyBuf, NodeView, NodeWriter, Place};
use std::alloc::{Allocator, Global};
use std::process::Abort;

/// The identifier `01 71 12 20` and 32 bytes of one value.
pub fn identifier(rt: &impl Abort, byte: u8) -> Cid {
    let mut bytes = [byte; 36];
    bytes[..4].copy_from_slice(&[0x01, 0x71, 0x12, 0x20]);
    Cid::from_bytes(bytes).expect(rt, "this profile")
}

/// What stands after the suffix of the first entry of an example: `p`, no subtree, and its value's link up to the digest.
const AFTER_FIRST: [u8; 17] = [
    0x61, 0x70, 0x00, 0x61, 0x74, 0xf6, 0x61, 0x76, 0xd8, 0x2a, 0x58, 0x25, 0x00, 0x01, 0x71, 0x12,
    0x20,
];

/// The node of two entries, `a/b` and `a/cd`, byte for byte.
pub fn two_entries(rt: &impl Abort, alloc: Global) -> Vec<u8> {
    let parts: [&[u8]; 8] = [
        &[0xa2, 0x61, 0x65, 0x82],
        &[0xa4, 0x61, 0x6b, 0x43, 0x61, 0x2f, 0x62],
        &AFTER_FIRST,
        &[0x11; 32],
        &[0xa4, 0x61, 0x6b, 0x42, 0x63, 0x64, 0x61, 0x70, 0x02],
        &AFTER_FIRST[3..],
        &[0x11; 32],
        &[0x61, 0x6c, 0xf6],
    ];
    let mut bytes = Vec::new(alloc);
    for part in parts {
        bytes
            .extend_from_slice(part)
            .expect(rt, "memory for a part");
    }
    bytes
}

/// The link before all keys of a node, or none.
pub type Left = Option<Cid>;

/// An entry to be written: its key, its value and the link after it.
pub type Entry<'a> = (&'a [u8], Cid, Option<Cid>);

/// Whether the entry is written, as its key can be next, and its key can't be next after that.
pub fn is_added<A: Allocator + Clone>(writer: &mut NodeWriter<A>, entry: &Entry<'_>) -> bool {
    let (key, value, tree) = entry;
    if !writer.is_next(key) {
        return false;
    }
    writer.entry(key, CidRef::from(value), *tree).is_ok() && !writer.is_next(key)
}

/// Writes an entry whose key can be next before it is written, and can't after that.
fn write_entry(rt: &impl Abort, writer: &mut NodeWriter, entry: &Entry<'_>) {
    assert!(rt; is_added(writer, entry), "{:?}", entry.0);
}

/// Writes these entries, each of which can be next.
fn write_entries(rt: &impl Abort, writer: &mut NodeWriter, entries: &[Entry<'_>]) {
    for entry in entries {
        write_entry(rt, writer, entry);
    }
}

/// The bytes of a node of these entries.
pub fn written(rt: &impl Abort, alloc: Global, left: Left, entries: &[Entry<'_>]) -> Vec<u8> {
    let mut writer = NodeWriter::begin(alloc, left).expect(rt, "memory for a node");
    write_entries(rt, &mut writer, entries);
    writer.finish().expect(rt, "memory for the last part")
}

#[test]
fn node_of_two_entries(rt: HostRuntime) {
    let value = identifier(&rt, 0x11);
    let entries: [Entry<'_>; 2] = [(b"a/b", value, None), (b"a/cd", value, None)];
    let bytes = written(&rt, rt.alloc(), None, &entries);
    assert!(rt; bytes.len() == 118 && bytes == two_entries(&rt, rt.alloc()));
}

#[test]
fn node_in_the_room_of_another(rt: HostRuntime) {
    let value = identifier(&rt, 0x11);
    let mut writer = NodeWriter::begin(rt.alloc(), Some(value)).expect(&rt, "memory for a node");
    write_entries(&rt, &mut writer, &[(b"b/c", value, Some(value))]);
    writer.begin_again(None);
    let entries: [Entry<'_>; 2] = [(b"a/b", value, None), (b"a/cd", value, None)];
    write_entries(&rt, &mut writer, &entries);
    let bytes = writer.bytes().expect(&rt, "memory for the bytes");
    assert!(rt; bytes == two_entries(&rt, rt.alloc()));
}

/// The bytes of a node of the keys `ka` to `kz`, with this one identifier for each value and each link.
fn of_letters(rt: &impl Abort, alloc: Global, link: Cid) -> Vec<u8> {
    let mut writer = NodeWriter::begin(alloc, Some(link)).expect(rt, "memory for a node");
    for last in b'a'..=b'z' {
        write_entry(rt, &mut writer, &(&[b'k', last], link, Some(link)));
    }
    writer.finish().expect(rt, "memory for the last part")
}

/// The suffix of a node's last entry.
fn last_suffix<'a>(view: &NodeView<'a>) -> Option<&'a [u8]> {
    let mut last = None;
    for entry in view.entries() {
        last = Some(entry.suffix);
    }
    last
}

/// Whether these are the bytes of a node with this link before all keys and this last suffix.
fn is_node(bytes: &[u8], left: &Cid, last: &[u8]) -> bool {
    match NodeView::parse(bytes) {
        Ok(view) => view.left() == Some(CidRef::from(left)) && last_suffix(&view) == Some(last),
        Err(_) => false,
    }
}

/// Whether these are the bytes of a node of the keys `ka` to `kz`. 26 entries take a head of two bytes; the suffix of the
/// first key has two bytes, of the others one.
fn has_its_length(bytes: &[u8], link: &Cid) -> bool {
    bytes.len() == 8 + 26 * 94 + 1 + 40 && is_node(bytes, link, b"z")
}

#[test]
fn lengths_of_nodes(rt: HostRuntime) {
    let link = identifier(&rt, 0x22);
    let empty = written(&rt, rt.alloc(), None, &[]);
    assert!(rt; empty.as_slice() == b"\xa2ae\x80al\xf6".as_slice());
    assert!(rt; written(&rt, rt.alloc(), Some(link), &[]).len() == 47);
    assert!(rt; has_its_length(&of_letters(&rt, rt.alloc(), link), &link));
}

/// Whether an entry of this suffix stands here, after so many bytes of the key before, with this value and this link.
fn is_here(place: Place<'_>, prefix: usize, suffix: &[u8], value: &Cid, tree: &Cid) -> bool {
    match place {
        Place::Here(entry) => {
            entry.prefix == prefix
                && entry.suffix == suffix
                && entry.value == CidRef::from(value)
                && entry.tree == Some(CidRef::from(tree))
        }
        _ => false,
    }
}

/// Whether each of these keys stands in the gap with this link.
fn are_below(view: &NodeView<'_>, keys: &[&[u8]], link: &Cid) -> bool {
    for key in keys {
        match view.find(key) {
            Place::Below(found) if found == CidRef::from(link) => {}
            _ => return false,
        }
    }
    true
}

/// The bytes of the identifiers of a node's links: before `a/b`, after it, and after `a/cd`.
const LINKS: [u8; 3] = [0x01, 0x02, 0x03];

/// The node of `a/b` and `a/cd` with these links.
fn with_links(rt: &impl Abort, alloc: Global) -> Vec<u8> {
    let (one, two) = (identifier(rt, 0x11), identifier(rt, 0x12));
    let (middle, right) = (identifier(rt, LINKS[1]), identifier(rt, LINKS[2]));
    let entries: [Entry<'_>; 2] = [(b"a/b", one, Some(middle)), (b"a/cd", two, Some(right))];
    written(rt, alloc, Some(identifier(rt, LINKS[0])), &entries)
}

/// Whether both keys of that node are found, with their values and the links after them.
fn finds_entries(rt: &impl Abort, view: &NodeView<'_>) -> bool {
    let (one, two) = (identifier(rt, 0x11), identifier(rt, 0x12));
    let (middle, right) = (identifier(rt, LINKS[1]), identifier(rt, LINKS[2]));
    is_here(view.find(b"a/b"), 0, b"a/b", &one, &middle)
        && is_here(view.find(b"a/cd"), 2, b"cd", &two, &right)
}

/// Whether eight keys that aren't in that node stand in the gaps with its links.
fn finds_gaps(rt: &impl Abort, view: &NodeView<'_>) -> bool {
    are_below(view, &[b"", b"a/a"], &identifier(rt, LINKS[0]))
        && are_below(view, &[b"a/b0", b"a/c", b"a/cc"], &identifier(rt, LINKS[1]))
        && are_below(view, &[b"a/cd0", b"a/d", b"b"], &identifier(rt, LINKS[2]))
}

#[test]
fn places_in_a_node(rt: HostRuntime) {
    let bytes = with_links(&rt, rt.alloc());
    let view = NodeView::parse(&bytes).expect(&rt, "a node");
    assert!(rt; finds_entries(&rt, &view) && finds_gaps(&rt, &view));
}

/// Whether an entry without a link shows so many bytes of the key before, this suffix and this value.
fn is_entry(
    entry: Option<EntryView<'_>>,
    prefix: usize,
    suffix: Option<&[u8]>,
    value: Option<&[u8]>,
) -> bool {
    match entry {
        Some(entry) => {
            entry.prefix == prefix
                && Some(entry.suffix) == suffix
                && Some(entry.value.as_bytes().as_slice()) == value
                && entry.tree.is_none()
        }
        None => false,
    }
}

/// Whether the node of these bytes has no link before all keys and two entries, which are parts of the bytes.
fn shows_its_parts(view: &NodeView<'_>, bytes: &[u8]) -> bool {
    let mut entries = view.entries();
    let first = is_entry(entries.next(), 0, bytes.get(8..11), bytes.get(24..60));
    let second = is_entry(entries.next(), 2, bytes.get(64..66), bytes.get(79..115));
    first && second && entries.next().is_none() && view.left().is_none()
}

/// Whether an entry of this suffix stands here, or none and no link.
fn has_suffix(place: Place<'_>, suffix: Option<&[u8]>) -> bool {
    match place {
        Place::Here(entry) => suffix == Some(entry.suffix),
        Place::Gap => suffix.is_none(),
        Place::Below(_) => false,
    }
}

/// Whether `a/b` and `a/cd` are found, and three other keys not.
fn finds_two_keys(view: &NodeView<'_>) -> bool {
    has_suffix(view.find(b"a/b"), Some(b"a/b"))
        && has_suffix(view.find(b"a/cd"), Some(b"cd"))
        && has_suffix(view.find(b"a/a"), None)
        && has_suffix(view.find(b"a/c"), None)
        && has_suffix(view.find(b"b"), None)
}

#[test]
fn parts_of_the_node_of_two_entries(rt: HostRuntime) {
    let bytes = two_entries(&rt, rt.alloc());
    let view = NodeView::parse(&bytes).expect(&rt, "a node");
    assert!(rt; shows_its_parts(&view, &bytes) && finds_two_keys(&view));
}

/// Whether the key of this entry can be put together by what is kept of the key before, and is this one.
fn steps_to<A: Allocator>(
    key: &mut KeyBuf<A>,
    entry: &EntryView<'_>,
    wanted: Option<&&[u8]>,
) -> bool {
    if entry.prefix > key.key().len() || entry.prefix > 1024 {
        return false;
    }
    if entry.suffix.len() > 1024 - entry.prefix {
        return false;
    }
    key.step(entry);
    Some(&key.key()) == wanted
}

/// Whether the keys of the node, put together one by one, are these.
pub fn puts_together<A: Allocator>(
    key: &mut KeyBuf<A>,
    view: &NodeView<'_>,
    keys: &[&[u8]],
) -> bool {
    key.reset();
    let mut wanted = keys.iter();
    for entry in view.entries() {
        if !steps_to(key, &entry, wanted.next()) {
            return false;
        }
    }
    wanted.next().is_none()
}

/// The keys of the node of two entries.
const TWO_KEYS: [&[u8]; 2] = [b"a/b", b"a/cd"];

#[test]
fn keys_put_together(rt: HostRuntime) {
    let bytes = two_entries(&rt, rt.alloc());
    let view = NodeView::parse(&bytes).expect(&rt, "a node");
    let mut key = KeyBuf::new(rt.alloc()).expect(&rt, "memory for a key");
    assert!(rt;
        puts_together(&mut key, &view, &TWO_KEYS) && puts_together(&mut key, &view, &TWO_KEYS)
    );
}

/// The bytes of a node that goes on with the entries of another from a gap on, up to so many.
fn continued(rt: &impl Abort, writer: NodeWriter, from: &Gap<'_>, to: u64) -> Vec<u8>
    requires order { from.now.passed ≤ to }
    requires within { to ≤ length from.now.node.entries }
    requires follows { last_key [] writer.entries
        ≡ last_key [] (take from.now.passed from.now.node.entries) }
{
    let mut writer = writer;
    writer.copy(from, to).expect(rt, "memory for entries");
    writer.finish().expect(rt, "memory for the last part")
}

#[test]
fn entries_copied(rt: HostRuntime) {
    let bytes = two_entries(&rt, rt.alloc());
    let view = NodeView::parse(&bytes).expect(&rt, "a node");
    assert!(rt; view.entry_count() == 2);
    let writer = NodeWriter::begin(rt.alloc(), None).expect(&rt, "memory for a node");
    assert!(rt; continued(&rt, writer, &Gap::first(&view), 2) == bytes);
}

#[test]
fn entries_copied_after_one_written(rt: HostRuntime) {
    let bytes = two_entries(&rt, rt.alloc());
    let view = NodeView::parse(&bytes).expect(&rt, "a node");
    assert!(rt; view.entry_count() == 2);
    let mut gap = Gap::first(&view);
    let first = gap.next().expect(&rt, "an entry");
    let mut writer = NodeWriter::begin(rt.alloc(), None).expect(&rt, "memory for a node");
    assert!(rt; writer.is_next(first.suffix));
    writer
        .entry(first.suffix, first.value, None)
        .expect(&rt, "memory for an entry");
    assert!(rt; continued(&rt, writer, &gap, 2) == bytes);
}
