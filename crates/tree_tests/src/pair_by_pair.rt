//! Nodes read and written pair by pair, and the example of the root of `rows`.

use crate::fixtures::{node, value};
use block::Block;
use cid::digests::Toy;
use cid::{Cid, CidRef, Sha256};
use node::{KeyBuf, NodeView};
use rows::{Draft, DraftFault, KeyedEntries, Made, Writer, to_cid, top_layer};
use std::alloc::{AllocError, Global};
use std::sync::Arc;

/// One of several links.
fn link(number: u8) -> Option<Cid> {
    Some(Cid::of::<Toy>(&[number]))
}

/// A node of one pair between two links.
fn written(
    alloc: Global,
    before: Option<Cid>,
    key: &[u8],
    after: Option<Cid>,
) -> Result<Draft<Global>, DraftFault> {
    let mut writer = Writer::new(alloc);
    writer.pair(before, key, CidRef::from(&value()))?;
    writer.finish(after)
}

/// The CID of the block of a node that was written.
fn cid_of(alloc: Global, draft: Draft<Global>) -> Option<Cid> {
    let mut made = Made::new(alloc);
    draft.push::<Sha256>(None, &mut made).ok()
}

/// Whether the node of this key between the links 1 and 2 is written as it should be.
fn is_written(alloc: Global, key: &[u8]) -> bool {
    let Ok(bytes) = node(alloc, link(1), key, link(2)) else {
        return false;
    };
    match written(alloc, link(1), key, link(2)) {
        Ok(draft) => cid_of(alloc, draft) == Some(Cid::of::<Sha256>(&bytes)),
        Err(_) => false,
    }
}

#[test]
fn a_node_written(rt: HostRuntime) {
    assert!(rt; is_written(rt.alloc(), b"k"));
}

/// The node of a run, which is the only pair of that of the key `k` between the links 1 and 2, and of this last link.
fn of_a_run(alloc: Global, after: Option<Cid>) -> Result<Draft<Global>, DraftFault> {
    let bytes = node(alloc, link(1), b"k", link(2))?;
    let Ok(old) = NodeView::parse(&bytes) else {
        return Err(DraftFault::NotNode);
    };
    let mut rows = KeyedEntries::of(&old, KeyBuf::new(alloc)?);
    rows.start_here();
    if rows.next().is_none() {
        return Err(DraftFault::NotNode);
    }
    let mut writer = Writer::new(alloc);
    writer.run(&rows, 1)?;
    writer.finish(after)
}

/// The link of this number, and none for 0.
fn link_or_none(number: u8) -> Option<Cid> {
    if number == 0 { None } else { link(number) }
}

/// Whether it is written as it should be with the last link of this number.
fn is_written_of_a_run(alloc: Global, after: u8) -> bool {
    let Ok(bytes) = node(alloc, link(1), b"k", link_or_none(after)) else {
        return false;
    };
    match of_a_run(alloc, link_or_none(after)) {
        Ok(draft) => cid_of(alloc, draft) == Some(Cid::of::<Sha256>(&bytes)),
        Err(_) => false,
    }
}

#[test]
fn a_run_of_an_old_node(rt: HostRuntime) {
    assert!(rt; is_written_of_a_run(rt.alloc(), 2));
    assert!(rt; is_written_of_a_run(rt.alloc(), 3));
    assert!(rt; is_written_of_a_run(rt.alloc(), 0));
}

/// Whether a second pair with this key, after one with the key `k`, is refused as none of a node.
fn is_refused_after(alloc: Global, key: &[u8]) -> bool {
    let mut writer = Writer::new(alloc);
    if writer.pair(None, b"k", CidRef::from(&value())).is_err() {
        return false;
    }
    match writer.pair(None, key, CidRef::from(&value())) {
        Ok(()) => false,
        Err(fault) => match fault {
            DraftFault::NotNode => true,
            DraftFault::NoMemory => false,
        },
    }
}

#[test]
fn keys_that_do_not_ascend(rt: HostRuntime) {
    assert!(rt; is_refused_after(rt.alloc(), b"j") && is_refused_after(rt.alloc(), b"k"));
    assert!(rt; !is_refused_after(rt.alloc(), b"l"));
}

/// Whether the only pair of a node of the key `k` between the links 1 and 2 is read, and nothing after it.
fn is_read(alloc: Global, of: &NodeView<'_>) -> bool {
    let Ok(room) = KeyBuf::new(alloc) else {
        return false;
    };
    let mut rows = KeyedEntries::of(of, room);
    let before = to_cid(rows.link());
    let found = to_cid(rows.next());
    (before, found) == (link(1), Some(value()))
        && rows.key() == b"k".as_slice()
        && to_cid(rows.link()) == link(2)
        && rows.next().is_none()
}

#[test]
fn a_node_read(rt: HostRuntime) {
    let bytes = node(rt.alloc(), link(1), b"k", link(2)).expect(&rt, "a node");
    let of = NodeView::parse(&bytes).expect(&rt, "a node");
    assert!(rt; is_read(rt.alloc(), &of) && top_layer::<Toy, 2>(&of) == 0);
}

/// The link of the empty node, which is none, or of one without pairs above a link.
fn link_of_pad(alloc: Global, below: Option<Cid>) -> Result<Option<Cid>, DraftFault> {
    let mut made = Made::new(alloc);
    let draft = Writer::new(alloc).finish(below)?;
    Ok(draft.close::<Sha256>(None, &mut made)?)
}

/// Whether a call answered no link.
fn is_unlinked(answer: Result<Option<Cid>, DraftFault>) -> bool {
    match answer {
        Ok(link) => link.is_none(),
        Err(_) => false,
    }
}

#[test]
fn the_empty_node_has_no_link(rt: HostRuntime) {
    assert!(rt; is_unlinked(link_of_pad(rt.alloc(), None)));
    assert!(rt; !is_unlinked(link_of_pad(rt.alloc(), link(1))));
}

/// How many owners the block of the node of this key has, once that of the key `k` was made, which may be this one.
fn owners_of(alloc: Global, key: &[u8]) -> Result<usize, DraftFault> {
    let bytes = node(alloc, link(1), key, link(2))?;
    let block: Arc<Block<Sha256>> = Arc::new(alloc, Block::of(bytes))?;
    let mut made = Made::new(alloc);
    written(alloc, link(1), b"k", link(2))?.push(Some(&block), &mut made)?;
    Ok(Arc::strong_count(&block))
}

#[test]
fn a_node_that_is_a_block_shares_it(rt: HostRuntime) {
    assert!(rt; owners_of(rt.alloc(), b"k").ok() == Some(2));
    assert!(rt; owners_of(rt.alloc(), b"j").ok() == Some(1));
}

/// The example of the crate's root: a node of one record.
fn of_a_record(alloc: Global, record: Cid) -> Result<Cid, DraftFault> {
    let mut writer = Writer::new(alloc);
    writer.pair(None, b"app.bsky.feed.post/3l", CidRef::from(&record))?;
    let mut made = Made::new(alloc);
    Ok(writer.finish(None)?.push::<Sha256>(None, &mut made)?)
}

/// Whether it makes the node of this key alone.
fn is_of_the_key(alloc: Global) -> Result<bool, AllocError> {
    let bytes = node(alloc, None, b"app.bsky.feed.post/3l", None)?;
    match of_a_record(alloc, value()) {
        Ok(cid) => Ok(cid == Cid::of::<Sha256>(&bytes)),
        Err(_) => Ok(false),
    }
}

#[test]
fn example(rt: HostRuntime) {
    assert!(rt; is_of_the_key(rt.alloc()).expect(&rt, "memory"));
}
