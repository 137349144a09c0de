//! Nodes where all memory is refused.

use crate::nodes::{Entry, identifier, is_added, puts_together, two_entries, written};
use node::{KeyBuf, NodeView, NodeWriter};
use refusing::Refusing;
use std::alloc::Global;

type Heap<'h> = &'h Refusing<Global>;

/// Whether both keys of the node of two entries are put together, and no memory is asked for.
fn takes_no_memory(heap: Heap<'_>, key: &mut KeyBuf<Heap<'_>>, view: &NodeView<'_>) -> bool {
    heap.refuse_from(1);
    puts_together(key, view, &[b"a/b", b"a/cd"]) && heap.refused() == 0
}

#[test]
fn keys_put_together_without_memory(rt: HostRuntime) {
    let bytes = two_entries(&rt, rt.alloc());
    let view = NodeView::parse(&bytes).expect(&rt, "a node");
    let heap = Refusing::new(rt.alloc());
    let mut key = KeyBuf::new(&heap).expect(&rt, "memory for a key");
    assert!(rt; takes_no_memory(&heap, &mut key, &view));
}

/// Whether a node of this entry is begun in the room of another, and no memory is asked for up to its bytes, which are these.
fn is_written_in_its_room(
    heap: Heap<'_>,
    writer: &mut NodeWriter<Heap<'_>>,
    entry: &Entry<'_>,
    bytes: &[u8],
) -> bool {
    heap.refuse_from(1);
    writer.begin_again(None);
    let is_added = is_added(writer, entry) && heap.refused() == 0;
    heap.refuse(0);
    match writer.bytes() {
        Ok(written) => is_added && written.as_slice() == bytes,
        Err(_) => false,
    }
}

#[test]
fn a_node_in_the_room_of_another_without_memory(rt: HostRuntime) {
    let value = identifier(&rt, 0x11);
    let heap = Refusing::new(rt.alloc());
    let mut writer = NodeWriter::begin(&heap, Some(value)).expect(&rt, "memory for a node");
    assert!(rt; is_added(&mut writer, &(b"b/c", value, Some(value))));
    let entries: [Entry<'_>; 1] = [(b"a/b", value, None)];
    let bytes = written(&rt, rt.alloc(), None, &entries);
    assert!(rt; is_written_in_its_room(&heap, &mut writer, &entries[0], &bytes));
}
