//! Digests, and the layers that they give to keys.

use crate::fixtures::EMPTY_NODE;
use cid::digests::{Clash, Size, Toy};
use cid::{Digest, Sha256, layer, layer_four};

/// SHA-256 of the bytes of the empty node, by another program.
const EMPTY_NODE_DIGEST: [u8; 32] = [
    0x9d, 0xfe, 0xfe, 0x61, 0xdd, 0x76, 0xea, 0x3d, 0xca, 0xe5, 0x02, 0x38, 0x80, 0xb0, 0x83, 0x79,
    0xd5, 0x7a, 0xdf, 0x20, 0x48, 0x2d, 0x6f, 0xdb, 0xe2, 0x75, 0x92, 0x89, 0xf6, 0x47, 0x67, 0x7b,
];

const KEYS: [&[u8]; 4] = [
    b"2653ae71",
    b"blue",
    b"app.bsky.feed.post/454397e440ec",
    b"app.bsky.feed.post/9adeb165882c",
];

/// The layers of a key where 2, 4 and 8 zero bits count for one.
fn layers_of(key: &[u8]) -> [u16; 3] {
    [
        layer::<Sha256, 2>(key),
        layer::<Sha256, 4>(key),
        layer::<Sha256, 8>(key),
    ]
}

#[test]
fn digest_of_the_empty_node(rt: HostRuntime) {
    assert!(rt; Sha256::digest(&EMPTY_NODE) == EMPTY_NODE_DIGEST);
}

#[test]
fn layers_of_keys(rt: HostRuntime) {
    let [a, b, c, d] = KEYS;
    assert!(rt; layers_of(a) == [0, 0, 0] && layers_of(b) == [1, 0, 0]);
    assert!(rt; layers_of(c) == [4, 2, 1] && layers_of(d) == [8, 4, 2]);
}

#[test]
fn four_at_once(rt: HostRuntime) {
    let [a, b, c, d] = KEYS;
    assert!(rt;
        layer_four::<Sha256, 2>(a, b, c, d) == [0, 1, 4, 8]
            && layer_four::<Toy, 2>(b"k3", b"k2", b"k1", b"k0") == [3, 2, 1, 0]
            && Sha256::digest_four(a, &EMPTY_NODE, c, d)[1] == EMPTY_NODE_DIGEST
    );
}

/// The layers of five keys that end in the digits 0 to 4.
fn layers_by_digit() -> [u16; 5] {
    [
        layer::<Toy, 2>(b"k0"),
        layer::<Toy, 2>(b"k1"),
        layer::<Toy, 2>(b"k2"),
        layer::<Toy, 2>(b"k3"),
        layer::<Toy, 2>(b"k4"),
    ]
}

#[test]
fn digests_for_tests(rt: HostRuntime) {
    // The FNV-1a hash of `a`, by its authors' table.
    let hash = [0xaf, 0x63, 0xdc, 0x4c, 0x86, 0x01, 0xec, 0x8c];
    assert!(rt;
        layers_by_digit() == [0, 1, 2, 3, 0] && &Toy::digest(b"a")[1..9] == hash.as_slice()
    );
    assert!(rt;
        Clash::digest(b"a") == [0xff; 32] && &Size::digest(b"a1")[..3] == [0x3f, 2, 0].as_slice()
    );
}
