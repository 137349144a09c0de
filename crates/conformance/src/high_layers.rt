//! Keys of high layers, which come into a tree and go again.

ghost use Rattle.std.specs.Prelude.{◌≤◌};

use crate::histories::{History, Write, begin, place_of, put_of};
use cid::Sha256;
use lookups::{BlockMap, get, walk};
use std::alloc::Global;

/// Keys whose digests begin with 0, 3, 9 and 17 zero bits, in two orders.
const ORDERS: [[&[u8]; 4]; 2] = [
    [
        b"2653ae71",
        b"blue",
        b"app.bsky.feed.post/454397e440ec",
        b"app.bsky.feed.post/9adeb165882c",
    ],
    [
        b"app.bsky.feed.post/9adeb165882c",
        b"2653ae71",
        b"app.bsky.feed.post/454397e440ec",
        b"blue",
    ],
];

/// Whether look-ups of these keys give the values of the pairs that a history left, or none, and a walk gives the pairs.
fn reads_its_pairs<const B: u8>(
    alloc: Global,
    history: &History<Sha256>,
    keys: &[&'static [u8]; 4],
) -> bool
    requires { 1 ≤ B }
{
    let Ok(mut map) = BlockMap::new(alloc, &history.blocks) else {
        return false;
    };
    for key in keys {
        let (_, value) = place_of(&history.pairs, key);
        if get::<Sha256, B, _, _>(&mut map, history.root, key) != value {
            return false;
        }
    }
    match walk::<Sha256, B, _, _>(alloc, &mut map, history.root, b"", 9) {
        Ok(pairs) => pairs == history.pairs,
        Err(_) => false,
    }
}

/// Whether a write leaves the tree from scratch, and what is read of it.
fn is_done<const B: u8>(
    alloc: Global,
    history: &mut History<Sha256>,
    write: &Write,
    keys: &[&'static [u8]; 4],
) -> bool
    requires least { 1 ≤ B }
    requires most { B ≤ 8 }
{
    history.write::<B>(alloc, write)
        && history.is_of_its_pairs::<B>(alloc)
        && reads_its_pairs::<B>(alloc, history, keys)
}

/// Whether the keys are put and deleted in this order, with `B` zero bits a layer.
fn come_and_go<const B: u8>(alloc: Global, keys: &[&'static [u8]; 4]) -> bool
    requires least { 1 ≤ B }
    requires most { B ≤ 8 }
{
    let Some(mut history) = begin::<Sha256, B>(alloc) else {
        return false;
    };
    for key in keys {
        if !is_done::<B>(alloc, &mut history, &put_of(key), keys) {
            return false;
        }
    }
    for key in keys {
        if !is_done::<B>(alloc, &mut history, &Write { key, value: None }, keys) {
            return false;
        }
    }
    history.pairs.is_empty()
}

#[test]
fn keys_of_high_layers(rt: HostRuntime) {
    for keys in &ORDERS {
        assert!(rt; come_and_go::<1>(rt.alloc(), keys) && come_and_go::<2>(rt.alloc(), keys));
    }
}
