//! Values of the AT Protocol's interoperability tests, under SHA-256.

use crate::fixtures::tree_of;
use cid::{Cid, Sha256, layer};
use std::alloc::Global;

/// The record of every key of the published trees.
const RECORD: [u8; 59] = *b"bafyreie5cvv4h45feadgeuwhbcutmh6t2ceseocckahdoe6uat64zmz454";

#[test]
fn layers_of_keys(rt: HostRuntime) {
    let cases: [(&[u8], u16); 4] = [
        (b"2653ae71", 0),
        (b"blue", 1),
        (b"app.bsky.feed.post/454397e440ec", 4),
        (b"app.bsky.feed.post/9adeb165882c", 8),
    ];
    for (key, wanted) in cases {
        assert!(rt; layer::<Sha256, 2>(key) == wanted);
    }
}

/// Whether the tree of these pairs has the root of this text.
fn has_root(alloc: Global, pairs: &[(&[u8], Cid)], root: &[u8; 59]) -> bool {
    match tree_of::<Sha256, 2, _>(alloc, pairs) {
        Some(tree) => tree.root.text() == *root,
        None => false,
    }
}

#[test]
fn root_of_no_key(rt: HostRuntime) {
    let root = b"bafyreie5737gdxlw5i64vzichcalba3z2v5n6icifvx5xytvske7mr3hpm";
    assert!(rt; has_root(rt.alloc(), &[], root));
}

#[test]
fn root_of_one_key(rt: HostRuntime) {
    let record = Cid::from_text(&RECORD).expect(&rt, "a CID");
    let pairs: [(&[u8], Cid); 1] = [(b"com.example.record/3jqfcqzm3fo2j", record)];
    let root = b"bafyreibj4lsc3aqnrvphp5xmrnfoorvru4wynt6lwidqbm2623a6tatzdu";
    assert!(rt; has_root(rt.alloc(), &pairs, root));
}

#[test]
fn root_of_five_keys(rt: HostRuntime) {
    let record = Cid::from_text(&RECORD).expect(&rt, "a CID");
    let pairs: [(&[u8], Cid); 5] = [
        (b"com.example.record/3jqfcqzm3fp2j", record),
        (b"com.example.record/3jqfcqzm3fr2j", record),
        (b"com.example.record/3jqfcqzm3fs2j", record),
        (b"com.example.record/3jqfcqzm3ft2j", record),
        (b"com.example.record/3jqfcqzm4fc2j", record),
    ];
    let root = b"bafyreicmahysq4n6wfuxo522m6dpiy7z7qzym3dzs756t5n7nfdgccwq7m";
    assert!(rt; has_root(rt.alloc(), &pairs, root));
}
