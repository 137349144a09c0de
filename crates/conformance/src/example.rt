//! The library by example, as README.md shows it.

use cid::{Cid, Sha256};
use dagcbor::Value;
use lookups::BlockMap;
use node::NodeView;
use scratch::{Built, build, is_ascending};
use std::test::Fail;

#[test]
fn a_tree_and_a_put(rt: HostRuntime) -> Result<(), Fail> {
    let alloc = rt.alloc();

    // A record is a DAG-CBOR map, and its CID that of its bytes.
    let mut fields = Vec::new(alloc);
    fields.push(("text", Value::Text("hello")))?;
    let value = Value::Map(fields);
    assert!(rt; dagcbor::is_lawful(&value));
    let bytes = dagcbor::write(alloc, &value)?;
    assert!(rt; matches!(dagcbor::read(alloc, &bytes)?, Value::Map(_)));
    let record = Cid::of::<Sha256>(&bytes);

    // The tree of sorted pairs of keys and record CIDs: its root, and each node block once.
    let pairs: [(&[u8], Cid); 2] = [(b"posts/1", record), (b"posts/3", record)];
    assert!(rt; is_ascending(&pairs));
    let Built { root, blocks } = build::<Sha256, 2, _, _>(alloc, &pairs)?;

    // One key put along its path, over any source of blocks: here the tree's own.
    let mut source = BlockMap::new(alloc, &blocks)?;
    let key = b"posts/2".as_slice();
    assert!(rt; edit::is_key(key));
    let edit = edit::put::<Sha256, 2, _, _>(alloc, &mut source, root, key, record)?;
    assert!(rt; edit.previous.is_none() && edit.drop.contains(&root));

    // It leaves the tree from scratch of the three pairs.
    let three: [(&[u8], Cid); 3] = [(b"posts/1", record), (key, record), (b"posts/3", record)];
    assert!(rt; is_ascending(&three));
    let after = build::<Sha256, 2, _, _>(alloc, &three)?;
    assert!(rt; edit.root == after.root);

    // A node's entries are lent by its block, and each has its record's CID.
    for block in &after.blocks {
        let node = NodeView::parse(block.bytes())?;
        for entry in node.entries() {
            assert!(rt; entry.value.to_cid() == record);
        }
    }
    Ok(())
}
